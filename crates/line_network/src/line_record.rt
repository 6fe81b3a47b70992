//! One record of a network: the line that it says.
ghost use Rattle.std.specs.Prelude.{◌≡◌, ◌≢◌, ◌≤◌, [], ◌∷◌, length, IfSome, IfNone};
ghost use Rattle.csv.specs.Records.{fields_of};
ghost use Rattle.line_network.specs.Records.{is_header, length_in, line_record, way_in};
ghost use Rattle.line_network.specs.inner.Reading.{HasLengths};

use crate::limits::{MAX_LINE_KM, MAX_LINE_MINUTES};
use csv::ByteRecord;
use csv_records::{is_text, place_of, whole_number};
use rail_codes::Place;

/// Whether a line is run one way or both ways.
#[derive(Clone, Copy)]
pub enum Way {
    /// Only from its first place to its second.
    One,
    /// Also back.
    Both,
}

/// What one record says: a line, and whether it is run back too.
#[derive(Clone, Copy)]
pub struct LineRecord {
    /// Where the line begins.
    pub from: Place,
    /// Where it ends.
    pub to: Place,
    /// Its length in kilometres, from 1 to 10,000.
    pub km: u32,
    /// Its time in minutes, from 1 to 10,000.
    pub minutes: u32,
    /// Whether it is run back too.
    pub way: Way,
}

/// The five fields of a record, in the header's order.
#[derive(Clone, Copy)]
pub(crate) struct Fields<'a> {
    pub(crate) from: &'a [u8],
    pub(crate) to: &'a [u8],
    pub(crate) km: &'a [u8],
    pub(crate) minutes: &'a [u8],
    pub(crate) way: &'a [u8],
}

impl LineRecord {
    /// What a record of five fields says, if each field is as its rule asks.
    #[tactic(auto, using(crate::proofs::RecordLemmas::of_other))]
    pub fn read(row: &ByteRecord) -> Option<LineRecord>
        ensures meaning { result ≡ line_record (fields_of row.now) }
        ensures lengths { IfSome result HasLengths }
    {
        let fields = five_fields(row)?;
        Some(LineRecord {
            from: place_of(fields.from)?,
            to: place_of(fields.to)?,
            km: read_length(fields.km, MAX_LINE_KM)?,
            minutes: read_length(fields.minutes, MAX_LINE_MINUTES)?,
            way: read_way(fields.way)?,
        })
    }
}

/// Whether a record is the header of a network.
#[tactic(auto, using(crate::proofs::RecordLemmas::of_other))]
pub fn is_header(row: &ByteRecord) -> bool
    ensures { result ≡ is_header (fields_of row.now) }
{
    let Some(fields) = five_fields(row) else {
        return false;
    };
    is_text("from", fields.from)
        && is_text("to", fields.to)
        && is_text("km", fields.km)
        && is_text("minutes", fields.minutes)
        && is_text("way", fields.way)
}

/// The fields of a record that has five.
#[tactic(auto, using(crate::proofs::RecordLemmas::of_five))]
pub(crate) fn five_fields(row: &ByteRecord) -> Option<Fields<'_>>
    ensures five { IfSome result (λ f. fields_of row.now ≡ f.from.now ∷ f.to.now ∷ f.km.now ∷ f.minutes.now ∷ f.way.now ∷ []) }
    ensures other { IfNone result (length (fields_of row.now) ≢ 5) }
{
    if row.len() != 5 {
        return None;
    }
    Some(Fields {
        from: row.get(0)?,
        to: row.get(1)?,
        km: row.get(2)?,
        minutes: row.get(3)?,
        way: row.get(4)?,
    })
}

/// The whole number that a field says, from 1 to a limit.
pub(crate) fn read_length(field: &[u8], most: u32) -> Option<u32>
    ensures meaning { result ≡ length_in most field.now }
    ensures within { IfSome result (λ n. (1 ≤ n) × (n ≤ most)) }
{
    let number = whole_number(field)?;
    if number < 1 || number > most {
        return None;
    }
    Some(number)
}

/// The way that a word says.
pub(crate) fn read_way(field: &[u8]) -> Option<Way>
    ensures { result ≡ way_in field.now }
{
    if is_text("one", field) {
        Some(Way::One)
    } else if is_text("both", field) {
        Some(Way::Both)
    } else {
        None
    }
}
