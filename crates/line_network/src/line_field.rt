//! Which field of a network's record isn't as its rule asks.
ghost use Rattle.std.specs.Prelude.{◌≡◌, IsSome, None, length, option_map};
ghost use Rattle.csv.specs.Records.{fields_of};
ghost use Rattle.line_network.specs.Records.{line_record};
ghost use Rattle.line_network.specs.Unfit.{field_name, first_unfit};

use crate::limits::{MAX_LINE_KM, MAX_LINE_MINUTES};
use crate::line_record::{five_fields, read_length, read_way};
use csv::ByteRecord;
use csv_records::place_of;

/// A field of a network's record.
#[derive(Clone, Copy)]
pub enum LineField {
    From,
    To,
    Km,
    Minutes,
    Way,
}

impl LineField {
    /// Its name in the header.
    pub fn name(self) -> &'static str
        ensures { result.now ≡ field_name self }
    {
        match self {
            LineField::From => "from",
            LineField::To => "to",
            LineField::Km => "km",
            LineField::Minutes => "minutes",
            LineField::Way => "way",
        }
    }
}

/// The first field, in the header's order, that isn't as its rule asks, with what stands there; none of a record whose
/// fields are another number than five. A record of five fields that says no line has one.
pub fn unfit_field(row: &ByteRecord) -> Option<(LineField, &[u8])>
    ensures first { option_map (λ unfit. (unfit.0, unfit.1.now)) result ≡ first_unfit (fields_of row.now) }
    ensures told { line_record (fields_of row.now) ≡ None → length (fields_of row.now) ≡ 5 → IsSome result }
{
    let fields = five_fields(row)?;
    if place_of(fields.from).is_none() {
        Some((LineField::From, fields.from))
    } else if place_of(fields.to).is_none() {
        Some((LineField::To, fields.to))
    } else if read_length(fields.km, MAX_LINE_KM).is_none() {
        Some((LineField::Km, fields.km))
    } else if read_length(fields.minutes, MAX_LINE_MINUTES).is_none() {
        Some((LineField::Minutes, fields.minutes))
    } else if read_way(fields.way).is_none() {
        Some((LineField::Way, fields.way))
    } else {
        None
    }
}
