//! Which field of a roster's record isn't as its rule asks.
ghost use Rattle.std.specs.Prelude.{◌≡◌, IfSome, IsSome, None, codes, length, option_map};
ghost use Rattle.csv.specs.Records.{fields_of};
ghost use Rattle.fleet_rows.specs.Records.{wagon_record};
ghost use Rattle.fleet_rows.specs.Unfit.{field_name, first_unfit, fits, is_status};

use crate::wagon_record::{read_load, six_fields};
use csv::ByteRecord;
use csv_records::{is_text, place_of, text_of};
use rail_codes::{ClassCode, Moment, WagonNumber};

/// A field of a roster's record.
#[derive(Clone, Copy)]
pub enum RosterField {
    Wagon,
    Class,
    Load,
    Status,
    Place,
    Moment,
}

impl RosterField {
    /// Its name in the header.
    pub fn name(self) -> &'static str
        ensures { result.now ≡ field_name self }
    {
        match self {
            RosterField::Wagon => "wagon",
            RosterField::Class => "class",
            RosterField::Load => "load",
            RosterField::Status => "status",
            RosterField::Place => "place",
            RosterField::Moment => "moment",
        }
    }
}

/// The first field, in the header's order, that isn't as its rule asks, with what stands there; none of a record whose
/// fields are another number than six. A record of six fields that says no wagon has one.
pub fn unfit_field(row: &ByteRecord) -> Option<(RosterField, &[u8])>
    ensures first { option_map (λ unfit. (unfit.0, unfit.1.now)) result ≡ first_unfit (fields_of row.now) }
    ensures told { wagon_record (fields_of row.now) ≡ None → length (fields_of row.now) ≡ 6 → IsSome result }
{
    let fields = six_fields(row)?;
    if !is_wagon_number(fields.wagon) {
        Some((RosterField::Wagon, fields.wagon))
    } else if !is_class(fields.class) {
        Some((RosterField::Class, fields.class))
    } else if read_load(fields.load).is_none() {
        Some((RosterField::Load, fields.load))
    } else if !is_status(fields.status) {
        Some((RosterField::Status, fields.status))
    } else if place_of(fields.place).is_none() {
        Some((RosterField::Place, fields.place))
    } else if !is_moment(fields.moment) {
        Some((RosterField::Moment, fields.moment))
    } else {
        None
    }
}

/// Whether a field is a wagon's number.
fn is_wagon_number(field: &[u8]) -> bool
    ensures { result ≡ fits RosterField.Wagon field.now }
{
    match text_of(field) {
        Some(text) => WagonNumber::read(text).is_ok(),
        None => false,
    }
}

/// Whether a field is a class.
fn is_class(field: &[u8]) -> bool
    ensures { result ≡ fits RosterField.Class field.now }
{
    match text_of(field) {
        Some(text) => ClassCode::read(text).is_ok(),
        None => false,
    }
}

/// Whether a field is a moment.
fn is_moment(field: &[u8]) -> bool
    ensures { result ≡ fits RosterField.Moment field.now }
{
    match text_of(field) {
        Some(text) => Moment::read(text).is_ok(),
        None => false,
    }
}

/// Whether a field is the word of a status.
fn is_status(field: &[u8]) -> bool
    ensures { result ≡ is_status field.now }
{
    is_text("empty", field)
        || is_text("loading", field)
        || is_text("ready", field)
        || is_text("journey_loaded", field)
        || is_text("journey_empty", field)
        || is_text("yard_loaded", field)
        || is_text("yard_empty", field)
        || is_text("arrived_loaded", field)
        || is_text("arrived_empty", field)
        || is_text("unloading", field)
}
