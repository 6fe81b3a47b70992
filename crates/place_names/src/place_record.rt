//! One record of a file of places: the place that it names.
ghost use Rattle.std.specs.Prelude.{◌≡◌, ◌≢◌, [], ◌∷◌, length, IfOk, IfSome, IfNone};
ghost use Rattle.csv.specs.Records.{fields_of};
ghost use Rattle.place_names.specs.Records.{is_header, place_record};

use crate::named_place::{Coordinates, NamedPlace, PlaceName};
use csv::ByteRecord;
use csv_records::{is_text, place_of};
use std::alloc::{AllocError, Global};

/// The four fields of a record, in the header's order.
#[derive(Clone, Copy)]
struct Fields<'a> {
    place: &'a [u8],
    name: &'a [u8],
    x: &'a [u8],
    y: &'a [u8],
}

/// The place that a record of four fields names, if each field is as its rule asks.
#[tactic(auto, using(crate::proofs::RecordLemmas::of_other))]
pub fn read_place(alloc: Global, row: &ByteRecord) -> Result<Option<NamedPlace>, AllocError>
    ensures { IfOk result (λ named. named ≡ place_record (fields_of row.now)) }
{
    let Some(fields) = four_fields(row) else {
        return Ok(None);
    };
    let Some(place) = place_of(fields.place) else {
        return Ok(None);
    };
    let Some(name) = PlaceName::read(alloc, fields.name)? else {
        return Ok(None);
    };
    let Some(coordinates) = Coordinates::read(alloc, fields.x, fields.y)? else {
        return Ok(None);
    };
    Ok(Some(NamedPlace {
        place,
        name,
        coordinates,
    }))
}

/// Whether a record is the header of a file of places.
#[tactic(auto, using(crate::proofs::RecordLemmas::of_other))]
pub fn is_header(row: &ByteRecord) -> bool
    ensures { result ≡ is_header (fields_of row.now) }
{
    let Some(fields) = four_fields(row) else {
        return false;
    };
    is_text("place", fields.place)
        && is_text("name", fields.name)
        && is_text("x", fields.x)
        && is_text("y", fields.y)
}

/// The fields of a record that has four.
#[tactic(auto, using(crate::proofs::RecordLemmas::of_four))]
fn four_fields(row: &ByteRecord) -> Option<Fields<'_>>
    ensures four { IfSome result (λ f. fields_of row.now ≡ f.place.now ∷ f.name.now ∷ f.x.now ∷ f.y.now ∷ []) }
    ensures other { IfNone result (length (fields_of row.now) ≢ 4) }
{
    if row.len() != 4 {
        return None;
    }
    Some(Fields {
        place: row.get(0)?,
        name: row.get(1)?,
        x: row.get(2)?,
        y: row.get(3)?,
    })
}
