//! A fleet that changes: wagons come and leave.
ghost use Rattle.std.specs.Prelude.{◌≡◌, ℕ, List, IfErr, IfOk, OnOk, option_copied};
ghost use Rattle.std.specs.BTreeMap.{get};
ghost use Rattle.fleet_rows.specs.Kept.{compare_numbers, IsWagonRows};
ghost use Rattle.fleet_rows.specs.Roster.{IsRoster};
ghost use Rattle.fleet_rows.specs.Rows.{wagon_in};
ghost use Rattle.operating_db.specs.FleetChange.{AreRowsOf, ChangedFleetIsUnique, IsFleetRefusal, IsWithFleet, adding_fault, fault_of_leaver, is_promised, leaving_fault, may_leave, row_with, row_without};
ghost use Rattle.operating_db.specs.inner.FleetMaps.{AreOwnRows, ArePut};

use crate::{FleetFault, OfficeState};
use fleet_rows::MAX_ROSTER_WAGONS;
use rail_codes::WagonNumber;
use std::alloc::{AllocError, Global};
use std::collections::BTreeMap;
use wagons_and_orders::WagonRow;

impl OfficeState {
    /// The office with the rows of a roster added, each in place of the one that its wagon has, and then without these
    /// wagons. Its orders and the network in force are the same. A wagon that stands twice among `leaving` leaves once.
    ///
    /// Refused with the first that holds: the first row whose wagon is promised, with `WagonPromised` (89); the first of
    /// `leaving` that then isn't there or is promised, with `UnknownWagon` (73) or `WagonPromised` (89); over 1,000
    /// wagons, with `TooLarge` (53). `OutOfMemory` (1) may come in place of any answer.
    pub fn with_fleet(
        &self,
        alloc: Global,
        added: &[WagonRow],
        leaving: &[WagonNumber],
    ) -> Result<OfficeState, FleetFault>
        requires { IsRoster added.now }
        ensures changed { IfOk result (IsWithFleet self.now added.now leaving.now) }
        ensures refused { IfErr result (IsFleetRefusal self.now.office.wagons added.now leaving.now) }
    {
        if let Some(fault) = self.adding_fault(added) {
            return Err(fault);
        }
        let fleet = rows_with(alloc, self.wagon_rows(), added)?;
        if let Some(fault) = leaving_fault(&fleet, leaving) {
            return Err(fault);
        }
        let rows = rows_without(alloc, fleet, leaving)?;
        if rows.len() > MAX_ROSTER_WAGONS as usize {
            return Err(FleetFault::TooLarge);
        }
        Ok(self.with_wagons(alloc, &rows)?)
    }

    /// Why rows can't be added: the first of them whose wagon is promised. Takes no memory.
    fn adding_fault(&self, added: &[WagonRow]) -> Option<FleetFault>
        ensures { result ≡ adding_fault self.now.office.wagons added.now }
    {
        let row = added.iter().find(|row| self.is_promised(row.number))?;
        Some(FleetFault::WagonPromised(row.number))
    }

    /// Whether the office has a wagon, and it is promised. Takes no memory.
    fn is_promised(&self, number: WagonNumber) -> bool
        ensures { result ≡ is_promised (wagon_in self.now.office.wagons number) }
    {
        match self.wagon(number) {
            Some(row) => row.promise.is_some(),
            None => false,
        }
    }
}

/// The rows by the numbers of their wagons, with those added, each in place of the one that its wagon has.
fn rows_with(
    alloc: Global,
    rows: &[WagonRow],
    added: &[WagonRow],
) -> Result<BTreeMap<WagonNumber, WagonRow>, AllocError>
    requires rows { IsWagonRows rows.now }
    requires added { IsWagonRows added.now }
    ensures { IfOk result (λ fleet. (number : List ℕ) → get compare_numbers fleet number ≡ row_with rows.now added.now number) }
{
    let mut fleet = BTreeMap::new(alloc);
    put_rows(&mut fleet, rows)?;
    put_rows(&mut fleet, added)?;
    Ok(fleet)
}

/// Puts rows, each in place of the one that its wagon has.
fn put_rows(
    fleet: &mut BTreeMap<WagonNumber, WagonRow>,
    rows: &[WagonRow],
) -> Result<(), AllocError>
    requires { IsWagonRows rows.now }
    ensures { OnOk result (ArePut rows.now (get compare_numbers fleet.old) (get compare_numbers fleet.new)) }
{
    for row in rows {
        fleet.insert(row.number, *row)?;
    }
    Ok(())
}

/// Why wagons can't leave: the first of them that may not. Takes no memory.
fn leaving_fault(
    fleet: &BTreeMap<WagonNumber, WagonRow>,
    leaving: &[WagonNumber],
) -> Option<FleetFault>
    ensures { result ≡ leaving_fault (get compare_numbers fleet.now) leaving.now }
{
    let number = leaving.iter().find(|number| !may_leave(fleet, **number))?;
    Some(fault_of_leaver(*number, fleet.get(number)))
}

/// Whether a wagon may leave: it is there, and not promised.
fn may_leave(fleet: &BTreeMap<WagonNumber, WagonRow>, number: WagonNumber) -> bool
    ensures { result ≡ may_leave (get compare_numbers fleet.now number) }
{
    match fleet.get(&number) {
        Some(row) => row.promise.is_none(),
        None => false,
    }
}

/// Why a wagon of this row, which may not leave, is refused.
fn fault_of_leaver(number: WagonNumber, row: Option<&WagonRow>) -> FleetFault
    ensures { result ≡ fault_of_leaver number (option_copied row.entry) }
{
    match row {
        Some(_) => FleetFault::WagonPromised(number),
        None => FleetFault::UnknownWagon(number),
    }
}

/// The rows, ascending by number, but for those of the wagons that leave.
fn rows_without(
    alloc: Global,
    mut fleet: BTreeMap<WagonNumber, WagonRow>,
    leaving: &[WagonNumber],
) -> Result<Vec<WagonRow>, AllocError>
    requires { AreOwnRows (get compare_numbers fleet) }
    ensures { IfOk result (λ rows. AreRowsOf (row_without (get compare_numbers fleet) leaving.now) rows.items) }
{
    for number in leaving {
        fleet.remove(number);
    }
    fleet.values().copied().collect(alloc)
}

/// States a law of changed fleets; it does nothing.
///
/// The row that each wagon has determines the rows, so no two lists of rows are those of one changed fleet.
pub fn changed_fleet_is_unique()
    ensures { ChangedFleetIsUnique }
{}
