//! What people are told of a file that isn't what it must be.
ghost use Rattle.std.specs.Prelude.{◌≡◌, ◌≢◌, IfOk, string_bytes};
ghost use Rattle.std.specs.Bool.{OnFalse, OnTrue};
ghost use Rattle.fault_texts.specs.NetworkText.{network_text};
ghost use Rattle.fault_texts.specs.RosterText.{roster_text};
ghost use Rattle.office_files.specs.PlacesText.{bad_row_said, places_said, places_text};
ghost use Rattle.office_files.specs.ReadText.{is_unreadable, read_text};
ghost use Rattle.office_files.specs.Told.{IsToldAs, IsToldOfFile};
ghost use Rattle.office_files.specs.declared.stop.Stop.TheVariants as stop;

use crate::stop::Stop;
use crate::stopped::Stopped;
use crate::told_file::ToldFile;
use checkpoint::ReadFault;
use csv_records::FaultAt;
use fault_texts::{checkpoint_text, file_text, line_text, network_text, roster_text, unread_text};
use fleet_rows::{RosterFault, RosterRefusal};
use line_engine::{MAX_LINE_BYTES, RunFault};
use line_network::NetworkFault;
use place_names::PlacesFault;
use std::alloc::{AllocError, Global};

/// Of a file that isn't read as a roster.
pub(crate) fn told_of_roster<F>(
    alloc: Global,
    path: &str,
    refusal: &FaultAt<RosterRefusal>,
    file: &ToldFile<F>,
) -> Stopped
    ensures stop { result.stop ≡ stop.Roster refusal.now.fault.fault }
    ensures told { refusal.now.fault.fault ≢ RosterFault.ReadFailed → IsToldAs (roster_text path.now refusal.now) result.told }
    ensures unreadable { refusal.now.fault.fault ≡ RosterFault.ReadFailed → IsToldOfFile path.now result.told }
{
    let text = match refusal.fault.fault {
        RosterFault::ReadFailed => file.failure_text(alloc, path),
        _ => roster_text(alloc, path, refusal),
    };
    Stopped::told(Stop::Roster(refusal.fault.fault), text)
}

/// Of a file that isn't read as a network.
pub(crate) fn told_of_network<F>(
    alloc: Global,
    path: &str,
    refusal: &FaultAt<NetworkFault>,
    file: &ToldFile<F>,
) -> Stopped
    ensures stop { result.stop ≡ stop.Network refusal.now.fault }
    ensures told { refusal.now.fault ≢ NetworkFault.ReadFailed → IsToldAs (network_text path.now refusal.now) result.told }
    ensures unreadable { refusal.now.fault ≡ NetworkFault.ReadFailed → IsToldOfFile path.now result.told }
{
    let text = match refusal.fault {
        NetworkFault::ReadFailed => file.failure_text(alloc, path),
        _ => network_text(alloc, path, refusal),
    };
    Stopped::told(Stop::Network(refusal.fault), text)
}

/// Of a file that isn't read as a checkpoint.
pub(crate) fn told_of_checkpoint<F>(
    alloc: Global,
    path: &str,
    fault: ReadFault,
    file: &ToldFile<F>,
) -> Stopped
    ensures stop { result.stop ≡ stop.Checkpoint fault }
    ensures told { OnFalse (is_unreadable fault) (IsToldAs (read_text path.now fault) result.told) }
    ensures unreadable { OnTrue (is_unreadable fault) (IsToldOfFile path.now result.told) }
{
    let text = match fault {
        ReadFault::Run(RunFault::ReadFailed(_)) => file.failure_text(alloc, path),
        ReadFault::Run(stopped) => line_text(alloc, path, MAX_LINE_BYTES, &stopped),
        ReadFault::Line(line) => checkpoint_text(alloc, path, &line),
        ReadFault::Unread(line, why) => unread_text(alloc, path, line, &why),
    };
    Stopped::told(Stop::Checkpoint(fault), text)
}

/// Of a file that isn't read as names of places.
pub(crate) fn told_of_places<F>(
    alloc: Global,
    path: &str,
    fault: PlacesFault,
    file: &ToldFile<F>,
) -> Stopped
    ensures stop { result.stop ≡ stop.Places fault }
    ensures told { fault ≢ PlacesFault.ReadFailed → IsToldAs (places_text path.now fault) result.told }
    ensures unreadable { fault ≡ PlacesFault.ReadFailed → IsToldOfFile path.now result.told }
{
    let text = match fault {
        PlacesFault::ReadFailed => file.failure_text(alloc, path),
        _ => places_text(alloc, path, fault),
    };
    Stopped::told(Stop::Places(fault), text)
}

/// The file, the record, and what was expected.
fn places_text(alloc: Global, path: &str, fault: PlacesFault) -> Result<String, AllocError>
    ensures { IfOk result (λ text. string_bytes text ≡ places_text path.now fault) }
{
    let said = places_said(alloc, fault)?;
    file_text(alloc, path, said.as_str())
}

/// The record, and what was expected.
fn places_said(alloc: Global, fault: PlacesFault) -> Result<String, AllocError>
    ensures { IfOk result (λ said. string_bytes said ≡ places_said fault) }
{
    match fault {
        PlacesFault::OutOfMemory => String::from_str(alloc, "out of memory"),
        PlacesFault::BadRow(record) => bad_row_said(alloc, record),
        PlacesFault::DuplicatePlace(record) => {
            format!(in alloc; "record {record} is of a place that an earlier record names")
        }
        PlacesFault::TooManyPlaces => String::from_str(alloc, "it names over 2,000 places"),
        PlacesFault::ReadFailed => String::from_str(alloc, "it couldn't be read"),
    }
}

/// Of a record that is no header, where it must be one, or that names no place.
fn bad_row_said(alloc: Global, number: u32) -> Result<String, AllocError>
    ensures { IfOk result (λ said. string_bytes said ≡ bad_row_said number) }
{
    if number == 1 {
        return String::from_str(alloc, "record 1 isn't the header place,name,x,y");
    }
    format!(in alloc;
        "record {number} isn't a place, a name of at most 60 bytes, and two decimal numbers or none"
    )
}
