//! The rows that the wagons of an office can have.
ghost use Rattle.std.specs.Prelude.{◌≡◌, ◌↔◌, IsTrue};
ghost use Rattle.wagons_and_orders.specs.PossibleRows.{IsPossibleRow, RowsStayPossible, is_possible, is_ready_by, is_unladen};

use crate::Load::Unladen;
use crate::{Status, WagonRow};
use rail_codes::Moment;

/// Whether an office can have a row. A held wagon is promised to nobody; an empty one has been ready since its last message,
/// or longer; and a promised one is empty, or on its way unladen. Takes no memory.
pub fn is_possible(row: &WagonRow) -> bool
    ensures test { result ≡ is_possible row.now }
    ensures possible { IsTrue result ↔ IsPossibleRow row.now }
{
    is_ready_by(row.last, row.status)
        && (row.promise.is_none() || (!row.held && is_unladen(row.status)))
}

/// Whether an empty wagon has been ready since a moment, or longer.
fn is_ready_by(moment: Moment, status: Status) -> bool
    ensures { result ≡ is_ready_by moment status }
{
    match status {
        Status::Empty(_, ready) => ready <= moment,
        _ => true,
    }
}

/// Whether a wagon is empty, or on its way unladen.
fn is_unladen(status: Status) -> bool
    ensures { result ≡ is_unladen status }
{
    match status {
        Status::Empty(_, _)
        | Status::Journey(Unladen, _)
        | Status::Yard(Unladen, _)
        | Status::Arrived(Unladen, _) => true,
        _ => false,
    }
}

/// States a law of the status table; it does nothing.
///
/// Each message leads a row that an office can have to another such row.
pub fn rows_stay_possible()
    ensures { RowsStayPossible }
{}
