//! A roster: the rows of a fleet.
ghost use Rattle.std.specs.Prelude.{◌≡◌, ◌<◌, ◌∷◌, [], true, false, IfErr, IfOk, OnOk, length};
ghost use Rattle.std.specs.List.Sorted.{IsPermutation, IsStrictlySortedBy};
ghost use Rattle.fleet_rows.specs.Roster.{IsRoster, IsRosterRow};
ghost use Rattle.fleet_rows.specs.Kept.{by_number, max_roster_wagons};
ghost use Rattle.fleet_rows.specs.SameWagons.{has_wagon};
ghost use Rattle.fleet_rows.specs.inner.Reading.{RefusesWagon};
ghost use Rattle.fleet_rows.specs.inner.Gaps.{IsGapFor};

use crate::RosterFault;
use rail_codes::WagonNumber;
use std::alloc::{AllocError, Global};
use std::marker::Model;
use wagons_and_orders::WagonRow;

/// The rows of a fleet's wagons, at most 1,000, ascending by number. No wagon is held or promised. A contract
/// sees the rows.
#[derive(Drop)]
pub struct Roster {
    rows: Vec<WagonRow>,
}

impl Model for Roster {
    ghost use Rattle.std.specs.Prelude.{List};
    ghost use Rattle.fleet_rows.specs.Roster.{IsRoster};
    ghost use Rattle.wagons_and_orders.specs.declared.wagon_row.WagonRow.{WagonRow};

    ghost Value = { List WagonRow };

    ghost view = { λ roster. roster.rows.items };

    ghost invariant = { λ roster. IsRoster roster.rows.items };
}

impl Roster {
    /// No wagon.
    pub(crate) fn empty(alloc: Global) -> Roster
        ensures { result ≡ [] }
    {
        Roster {
            rows: Vec::new(alloc),
        }
    }

    /// The roster with the row of one more wagon. It is dropped where it has a row of that wagon, with
    /// `DuplicateWagon`, and where the program is out of memory.
    pub(crate) fn with_wagon(self, row: WagonRow) -> Result<Roster, RosterFault>
        requires room { length self < max_roster_wagons }
        requires row { IsRosterRow row }
        ensures added { IfOk result (λ roster. IsPermutation (row ∷ self) roster) }
        ensures new { OnOk result (has_wagon self row.number ≡ false) }
        ensures refused { IfErr result (λ fault. RefusesWagon fault self row) }
        ensures roster { IfOk result IsRoster }
    {
        let Roster { mut rows } = self;
        match index_of(&rows, row.number) {
            Ok(_) => Err(RosterFault::DuplicateWagon(row.number)),
            Err(index) => {
                rows.insert(index, row)?;
                Ok(Roster { rows })
            }
        }
    }

    /// The rows, ascending by number.
    pub fn rows(&self) -> &[WagonRow]
        ensures rows { result.now ≡ self.now }
        ensures roster { IsRoster self.now }
    {
        &self.rows
    }

    /// An equal roster.
    pub fn copy(&self, alloc: Global) -> Result<Roster, AllocError>
        ensures { IfOk result (λ copy. copy ≡ self.now) }
    {
        let rows = Vec::from_slice(alloc, self.rows())?;
        Ok(Roster { rows })
    }
}

/// Where the row of a wagon stands among ascending rows, or else where it would.
fn index_of(rows: &[WagonRow], number: WagonNumber) -> Result<usize, usize>
    requires { IsStrictlySortedBy by_number rows.now }
    ensures found { OnOk result (has_wagon rows.now number ≡ true) }
    ensures absent { IfErr result (IsGapFor rows.now number) }
{
    rows.binary_search_by_key(&number, |row| row.number)
}
