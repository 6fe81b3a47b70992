//! One record of a roster: the wagon that it says.
ghost use Rattle.std.specs.Prelude.{◌≡◌, ◌≢◌, ◌≤◌, [], ◌∷◌, length, option_map, IfSome, IfNone};
ghost use Rattle.csv.specs.Records.{fields_of};
ghost use Rattle.fleet_rows.specs.Records.{is_header, load_in, wagon_record};
ghost use Rattle.move_messages.specs.MaxLoad.{max_load};
ghost use Rattle.fleet_rows.specs.Roster.{IsRosterRow};

use csv::ByteRecord;
use csv_records::{is_text, place_of, text_of, whole_number};
use move_messages::MAX_LOAD;
use rail_codes::{ClassCode, Moment, WagonNumber};
use wagons_and_orders::{Status, WagonRow};

/// The six fields of a record, in the header's order.
#[derive(Clone, Copy)]
pub(crate) struct Fields<'a> {
    pub(crate) wagon: &'a [u8],
    pub(crate) class: &'a [u8],
    pub(crate) load: &'a [u8],
    pub(crate) status: &'a [u8],
    pub(crate) place: &'a [u8],
    pub(crate) moment: &'a [u8],
}

/// The row of the wagon that a record of six fields says, if each field is as its rule asks.
#[tactic(auto, using(crate::proofs::RecordLemmas::of_other))]
pub fn read_wagon(row: &ByteRecord) -> Option<WagonRow>
    ensures meaning { result ≡ wagon_record (fields_of row.now) }
    ensures row { IfSome result IsRosterRow }
{
    let fields = six_fields(row)?;
    let place = place_of(fields.place)?;
    let last = Moment::read(text_of(fields.moment)?).ok()?;
    Some(WagonRow {
        number: WagonNumber::read(text_of(fields.wagon)?).ok()?,
        class: ClassCode::read(text_of(fields.class)?).ok()?,
        load_limit: read_load(fields.load)?,
        status: Status::of_word(fields.status, place, last)?,
        held: false,
        last,
        promise: None,
    })
}

/// Whether a record is the header of a roster.
#[tactic(auto, using(crate::proofs::RecordLemmas::of_other))]
pub fn is_header(row: &ByteRecord) -> bool
    ensures { result ≡ is_header (fields_of row.now) }
{
    let Some(fields) = six_fields(row) else {
        return false;
    };
    is_text("wagon", fields.wagon)
        && is_text("class", fields.class)
        && is_text("load", fields.load)
        && is_text("status", fields.status)
        && is_text("place", fields.place)
        && is_text("moment", fields.moment)
}

/// The fields of a record that has six.
#[tactic(auto, using(crate::proofs::RecordLemmas::of_six))]
pub(crate) fn six_fields(row: &ByteRecord) -> Option<Fields<'_>>
    ensures six { IfSome result (λ f. fields_of row.now ≡ f.wagon.now ∷ f.class.now ∷ f.load.now ∷ f.status.now ∷ f.place.now ∷ f.moment.now ∷ []) }
    ensures other { IfNone result (length (fields_of row.now) ≢ 6) }
{
    if row.len() != 6 {
        return None;
    }
    Some(Fields {
        wagon: row.get(0)?,
        class: row.get(1)?,
        load: row.get(2)?,
        status: row.get(3)?,
        place: row.get(4)?,
        moment: row.get(5)?,
    })
}

/// The kg that a field says, in 1 to 7 digits, at most 200,000.
pub(crate) fn read_load(field: &[u8]) -> Option<u32>
    ensures meaning { result ≡ load_in field.now }
    ensures within { IfSome result (λ n. n ≤ max_load) }
{
    let number = whole_number(field)?;
    if number > MAX_LOAD {
        return None;
    }
    Some(number)
}
