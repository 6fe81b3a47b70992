//! What is said of a file that is no roster.
ghost use Rattle.std.specs.Prelude.{◌≡◌, ◌++◌, IfOk, codes, decimal, string_bytes};
ghost use Rattle.csv.specs.Records.{fields_of};
ghost use Rattle.fault_texts.specs.RosterText.{complaint, roster_text, twice_text, unfit_in};
ghost use Rattle.fault_texts.specs.Shown.{shown};
ghost use Rattle.fault_texts.specs.inner.UnfitTexts.{unfit_texts};

use crate::bad_record::{Unfit, bad_record_text};
use crate::shown::push_shown;
use crate::words::{at_record, failed_text, push_number, push_words, record_text};
use csv::ByteRecord;
use csv_records::FaultAt;
use fleet_rows::{RosterFault, RosterField, RosterRefusal, unfit_field};
use rail_codes::{WagonNumber, push_ascii};
use std::alloc::{AllocError, Global};

/// The header of a roster.
const HEADER: &str = "wagon,class,load,status,place,moment";

/// How many fields a record of a roster has.
const FIELDS: u32 = 6;

/// What is said of the file at a path that isn't read as a roster: the record, its first field that isn't as its rule asks, and
/// what was expected; of a wagon that stands twice both records; of a wrong header the one that is wanted, and a guess. `Err`
/// only when out of memory.
pub fn roster_text(
    alloc: Global,
    path: &str,
    stop: &FaultAt<RosterRefusal>,
) -> Result<String, AllocError>
    ensures { IfOk result (λ text. string_bytes text ≡ roster_text path.now stop.now) }
{
    match stop.fault.fault {
        RosterFault::OutOfMemory => String::from_str(alloc, "out of memory"),
        RosterFault::DuplicateWagon(wagon) => {
            twice_text(alloc, path, stop.fault.first, stop.at.number, wagon)
        }
        RosterFault::TooLarge => record_text(
            alloc,
            path,
            stop.at.number,
            ": a roster has at most 1,000 wagons",
        ),
        RosterFault::BadRosterRow(_) => {
            bad_record_text(
                alloc,
                path,
                HEADER,
                FIELDS,
                &stop.at,
                unfit_in(&stop.at.fields),
            )
        }
        RosterFault::ReadFailed => failed_text(alloc, path),
    }
}

/// A wagon that stands twice.
fn twice_text(
    alloc: Global,
    path: &str,
    first: Option<u32>,
    number: u32,
    wagon: WagonNumber,
) -> Result<String, AllocError>
    ensures { IfOk result (λ text. string_bytes text ≡ twice_text path.now first number wagon) }
{
    match first {
        Some(first) => {
            let mut text = two_records(alloc, path, first, number)?;
            push_words(&mut text, ": both are of wagon ")?;
            push_ascii(&mut text, wagon.digits())?;
            Ok(text)
        }
        None => {
            let mut text = at_record(alloc, path, number)?;
            push_words(&mut text, ": an earlier record is of this wagon too: ")?;
            push_ascii(&mut text, wagon.digits())?;
            Ok(text)
        }
    }
}

/// A text that begins with a file and two records of it.
fn two_records(alloc: Global, path: &str, first: u32, second: u32) -> Result<String, AllocError>
    ensures { IfOk result (λ text. string_bytes text ≡ shown path.now ++ codes ", records " ++ decimal first ++ codes " and " ++ decimal second) }
{
    let mut text = String::new(alloc);
    push_shown(&mut text, path.as_bytes())?;
    push_words(&mut text, ", records ")?;
    push_number(&mut text, u64::from(first))?;
    push_words(&mut text, " and ")?;
    push_number(&mut text, u64::from(second))?;
    Ok(text)
}

/// The first field that isn't as its rule asks.
fn unfit_in(fields: &ByteRecord) -> Option<Unfit<'_>>
    ensures { unfit_texts result ≡ unfit_in (fields_of fields.now) }
{
    let (field, said) = unfit_field(fields)?;
    Some((field.name(), said, complaint(field)))
}

/// What a field's text isn't.
pub(crate) fn complaint(field: RosterField) -> &'static str
    ensures { result.now ≡ complaint field }
{
    match field {
        RosterField::Wagon => {
            " is no wagon number: twelve digits, of which the last is the check digit of the others"
        }
        RosterField::Class => " is no class: 1 to 12 letters A-Z and a-z",
        RosterField::Load => " is no whole number of kg from 0 to 200,000",
        RosterField::Status => {
            " is no status: empty, loading, ready, journey_loaded, journey_empty, yard_loaded, yard_empty, arrived_loaded, arrived_empty or unloading"
        }
        RosterField::Place => " is no place: two letters A-Z and five digits",
        RosterField::Moment => {
            " is no moment of the years 2000 to 2099, as 2026-03-01T00:00:00Z"
        }
    }
}
