//! What is said of a file that is no network.
ghost use Rattle.std.specs.Prelude.{◌≡◌, IfOk, string_bytes};
ghost use Rattle.csv.specs.Records.{fields_of};
ghost use Rattle.fault_texts.specs.NetworkText.{complaint, network_text, unfit_in};
ghost use Rattle.fault_texts.specs.inner.UnfitTexts.{unfit_texts};

use crate::bad_record::{Unfit, bad_record_text};
use crate::words::{failed_text, record_text};
use csv::ByteRecord;
use csv_records::FaultAt;
use line_network::{LineField, NetworkFault, unfit_field};
use std::alloc::{AllocError, Global};

/// The header of a network.
const HEADER: &str = "from,to,km,minutes,way";

/// How many fields a record of a network has.
const FIELDS: u32 = 5;

/// What is said of the file at a path that isn't read as a network: the record, its first field that isn't as its rule asks,
/// and what was expected; of a wrong header the one that is wanted, and a guess. `Err` only when out of memory.
pub fn network_text(
    alloc: Global,
    path: &str,
    stop: &FaultAt<NetworkFault>,
) -> Result<String, AllocError>
    ensures { IfOk result (λ text. string_bytes text ≡ network_text path.now stop.now) }
{
    match stop.fault {
        NetworkFault::OutOfMemory => String::from_str(alloc, "out of memory"),
        NetworkFault::BadRow(_) => {
            bad_record_text(
                alloc,
                path,
                HEADER,
                FIELDS,
                &stop.at,
                unfit_in(&stop.at.fields),
            )
        }
        NetworkFault::TooManyPlaces => record_text(
            alloc,
            path,
            stop.at.number,
            ": with it there are over 2,000 places, the most that a network may have",
        ),
        NetworkFault::TooManyLines => record_text(
            alloc,
            path,
            stop.at.number,
            ": a network has at most 20,000 records below its header",
        ),
        NetworkFault::ReadFailed => failed_text(alloc, path),
    }
}

/// The first field that isn't as its rule asks.
fn unfit_in(fields: &ByteRecord) -> Option<Unfit<'_>>
    ensures { unfit_texts result ≡ unfit_in (fields_of fields.now) }
{
    let (field, said) = unfit_field(fields)?;
    Some((field.name(), said, complaint(field)))
}

/// What a field's text isn't.
fn complaint(field: LineField) -> &'static str
    ensures { result.now ≡ complaint field }
{
    match field {
        LineField::From | LineField::To => " is no place: two letters A-Z and five digits",
        LineField::Km => " is no whole number of km from 1 to 10,000",
        LineField::Minutes => " is no whole number of minutes from 1 to 10,000",
        LineField::Way => " is neither one nor both",
    }
}
