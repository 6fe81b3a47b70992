//! A roster while it is read.
ghost use Rattle.std.specs.Prelude.{◌≡◌, ◌<◌, ◌≤◌, ◌∷◌, ◌++◌, [], false, true, IfErr, IfOk, OnOk, length, map};
ghost use Rattle.std.specs.List.{position};
ghost use Rattle.std.specs.List.Sorted.{IsPermutation};
ghost use Rattle.faults.specs.declared.faults.RosterFault.TheVariants as roster_fault;
ghost use Rattle.fleet_rows.specs.Kept.{max_roster_wagons};
ghost use Rattle.fleet_rows.specs.Roster.{IsRoster, IsRosterRow};
ghost use Rattle.fleet_rows.specs.SameWagons.{has_wagon, is_same_number};
ghost use Rattle.fleet_rows.specs.inner.Reading.{RefusesWagon, TellsFirst, first_record};

use crate::roster_refusal::RosterRefusal;
use crate::{Roster, RosterFault};
use rail_codes::WagonNumber;
use std::alloc::Global;
use wagons_and_orders::WagonRow;

/// The roster that the records so far say, and their wagons in the records' order.
#[derive(Drop)]
pub(crate) struct RosterSoFar {
    pub(crate) roster: Roster,
    pub(crate) named: Vec<WagonNumber>,
}

impl RosterSoFar {
    /// No wagon.
    pub(crate) fn empty(alloc: Global) -> RosterSoFar
        ensures roster { result.roster ≡ [] }
        ensures named { result.named.items ≡ [] }
    {
        RosterSoFar {
            roster: Roster::empty(alloc),
            named: Vec::new(alloc),
        }
    }

    /// The same with the row of one more wagon. It is dropped where a record has said that wagon before, and where the program
    /// is out of memory.
    pub(crate) fn with_row(self, row: WagonRow) -> Result<RosterSoFar, RosterRefusal>
        requires room { length self.roster < max_roster_wagons }
        requires row { IsRosterRow row }
        requires each { length self.named.items ≡ length self.roster }
        ensures added { IfOk result (λ more. IsPermutation (row ∷ self.roster) more.roster) }
        ensures named { IfOk result (λ more. more.named.items ≡ self.named.items ++ row.number ∷ []) }
        ensures new { OnOk result (has_wagon self.roster row.number ≡ false) }
        ensures refused { IfErr result (λ refusal. RefusesWagon refusal.fault self.roster row) }
        ensures first { IfErr result (λ refusal. TellsFirst refusal.fault refusal.first self.named.items row.number) }
        ensures roster { IfOk result (λ more. IsRoster more.roster) }
    {
        let number = row.number;
        let mut named = self.named;
        match self.roster.with_wagon(row) {
            Ok(roster) => match named.push(number) {
                Ok(()) => Ok(RosterSoFar { roster, named }),
                Err(_) => Err(RosterRefusal {
                    fault: RosterFault::OutOfMemory,
                    first: None,
                }),
            },
            Err(fault) => Err(RosterRefusal {
                fault,
                first: first_record(&named, number),
            }),
        }
    }
}

/// The number of the first record that names a wagon, where the wagons stand in the records' order and the header is record 1.
fn first_record(named: &[WagonNumber], wagon: WagonNumber) -> Option<u32>
    requires { length named.now < max_roster_wagons }
    ensures { result ≡ first_record named.now wagon }
{
    let index = index_of(named, wagon)?;
    Some(index as u32 + 2)
}

/// Where a wagon first stands.
fn index_of(named: &[WagonNumber], wagon: WagonNumber) -> Option<usize>
    ensures { result ≡ position (is_same_number wagon) named.now }
{
    named.iter().position(|other| wagon == *other)
}
