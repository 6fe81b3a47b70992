//! Reading a roster from CSV.
ghost use Rattle.std.specs.Prelude.{◌≡◌, ◌+◌, IfErr, IfOk, None, true};
ghost use Rattle.csv.specs.Reading.{has_failed};
ghost use Rattle.csv_records.specs.Requests.{AreLeft, AsksAtMost, IsSetUp};
ghost use Rattle.fleet_rows.specs.Roster.{IsRoster};
ghost use Rattle.fleet_rows.specs.Kept.{max_roster_wagons};
ghost use Rattle.fleet_rows.specs.RosterOf.{IsReadFrom};
ghost use Rattle.fleet_rows.specs.Stops.{IsReadTo};
ghost use Rattle.fleet_rows.specs.inner.Reading.{IsReadOff};

use crate::limits::MAX_ROSTER_WAGONS;
use crate::roster_refusal::RosterRefusal;
use crate::roster_so_far::RosterSoFar;
use crate::wagon_record::{is_header, read_wagon};
use crate::{Roster, RosterFault};
use csv::{ByteRecord, Reader};
use csv_records::{FaultAt, FromRecords, open_records, read_records};
use std::alloc::Global;
use std::io::Read;

impl Roster {
    /// Reads a roster from CSV, with the header `wagon,class,load,status,place,moment`. `wagon` is a wagon number,
    /// with spaces and hyphens as they come, `class` a class, `load` the most that the wagon carries in kg, a whole
    /// number of 1 to 7 digits and at most 200,000, `status` one of `empty`, `loading`, `ready`, `journey_loaded`,
    /// `journey_empty`, `yard_loaded`, `yard_empty`, `arrived_loaded`, `arrived_empty` and `unloading`, `place` where
    /// the wagon is, and `moment` when it was last heard of; an empty wagon has been ready since then. The records
    /// may stand in any order.
    ///
    /// Refused at the first record with a fault, in this order: `TooLarge` (53) for a record past the 1,000th below
    /// the header, `BadRosterRow` (78) with its number for one that is not of this shape, the header being record 1,
    /// `DuplicateWagon` (51) with its wagon for one whose wagon an earlier record names. A file with no record is
    /// `BadRosterRow(1)`. `ReadFailed` (93) comes where the reader failed, and `OutOfMemory` (1) where the program
    /// was out of memory.
    ///
    /// At most 1,002 records are asked for, so it returns wherever `csv` answers each request for a record.
    pub fn read_rows<R: Read + Drop>(alloc: Global, reader: R) -> Result<Roster, RosterFault>
        ensures { IsReadFrom (R.remaining reader) result }
    {
        match read_roster(alloc, reader) {
            Ok(roster) => Ok(roster),
            Err(stop) => Err(stop.fault.fault),
        }
    }
}

/// Reads a roster as `Roster::read_rows` does; a refusal comes with the record at which reading stopped, and for a wagon that
/// stands twice with the number of the record that says it first. Where memory or the reader failed, nothing is said of the record.
pub fn read_roster<R: Read + Drop>(
    alloc: Global,
    reader: R,
) -> Result<Roster, FaultAt<RosterRefusal>>
    ensures { IsReadTo (R.remaining reader) result }
{
    let mut records = open_records(alloc, reader);
    read_all(alloc, &mut records)
}

/// Reads the header and the records below it.
fn read_all<R: Read>(
    alloc: Global,
    records: &mut Reader<R>,
) -> Result<Roster, FaultAt<RosterRefusal>>
    requires { IsSetUp records.old }
    ensures meaning { IsReadOff (AreLeft R.remaining records.old) result }
    ensures roster { IfOk result IsRoster }
    ensures stopped { IfErr result (λ stop. stop.fault.fault ≡ RosterFault.ReadFailed → has_failed records.new ≡ true) }
    ensures asked { AsksAtMost R.remaining records.old (max_roster_wagons + 2) records.new }
{
    match read_records::<R, RosterSoFar>(alloc, records) {
        Ok(so_far) => Ok(so_far.roster),
        Err(stop) => Err(stop),
    }
}

impl FromRecords for RosterSoFar {
    ghost use Rattle.std.proofs.Common.{lit<};
    ghost use Rattle.fleet_rows.specs.Stops.{Refuses};
    ghost use Rattle.fleet_rows.specs.inner.Reading.{IsNumberedSoFar, refuses_failure, told_apart};

    type Fault = RosterRefusal;

    const MOST_RECORDS: u32 = MAX_ROSTER_WAGONS;

    ghost MOST_RECORDS = { max_roster_wagons };

    ghost made_of = { λ so_far records. IsNumberedSoFar so_far records };

    ghost refuses = { λ refusal records. Refuses refusal records };

    ghost counted = { lit< tt };

    ghost failures = { λ failure refusal records gives. refuses_failure failure refusal.fault refusal.first records gives };

    ghost told_apart = { λ refusal memory reader. told_apart refusal.fault memory reader };

    fn of_header(alloc: Global, header: &ByteRecord) -> Result<RosterSoFar, RosterRefusal> {
        if !is_header(header) {
            return Err(bad_row(1));
        }
        Ok(RosterSoFar::empty(alloc))
    }

    fn with_record(self, number: u32, fields: &ByteRecord) -> Result<RosterSoFar, RosterRefusal> {
        let Some(row) = read_wagon(fields) else {
            return Err(bad_row(number));
        };
        self.with_row(row)
    }

    fn no_header() -> RosterRefusal {
        bad_row(1)
    }

    fn too_many() -> RosterRefusal {
        RosterRefusal {
            fault: RosterFault::TooLarge,
            first: None,
        }
    }
}

/// The refusal of a record that says no wagon.
fn bad_row(number: u32) -> RosterRefusal
    ensures { result ≡ record { fault = RosterFault.BadRosterRow number; first = None } }
{
    RosterRefusal {
        fault: RosterFault::BadRosterRow(number),
        first: None,
    }
}
