//! What an office knows of a wagon before a message.
ghost use Rattle.std.specs.Prelude.{◌≡◌, Some};
ghost use Rattle.journal_notes.specs.MessageNotes.{filled_count, filled_of, known_in, known_of};
ghost use Rattle.fleet_rows.specs.Rows.{order_in};

use crate::status_name::StatusName;
use operating_db::OfficeState;
use rail_codes::{Moment, OrderId, Place, WagonNumber};
use wagons_and_orders::WagonRow;

/// What an office knows of a wagon.
#[derive(Clone, Copy)]
pub struct KnownWagon {
    /// The order that it is promised to.
    pub promise: Option<OrderId>,
    /// How many wagons have filled that order.
    pub filled: usize,
    /// What it is doing.
    pub status: StatusName,
    /// Where it is.
    pub place: Place,
    /// The moment of its last accepted message.
    pub last: Moment,
}

impl KnownWagon {
    /// What an office knows of a wagon, where it has it. Takes no memory.
    pub(crate) fn of(state: &OfficeState, number: WagonNumber) -> Option<KnownWagon>
        ensures { result ≡ known_in state.now.office number }
    {
        match state.wagon(number) {
            None => None,
            Some(row) => Some(known_of(state, row)),
        }
    }
}

/// What an office knows of the wagon of a row.
fn known_of(state: &OfficeState, row: &WagonRow) -> KnownWagon
    ensures { Some result ≡ known_of state.now.office.orders (Some row.now) }
{
    let filled = filled_of(state, row.promise);
    KnownWagon {
        promise: row.promise,
        filled,
        status: StatusName::of(row.status),
        place: row.status.place(),
        last: row.last,
    }
}

/// How many wagons have filled the order of a promise.
fn filled_of(state: &OfficeState, promise: Option<OrderId>) -> usize
    ensures { result ≡ filled_of state.now.office.orders promise }
{
    match promise {
        None => 0,
        Some(order) => filled_count(state, order),
    }
}

/// How many wagons have filled an order.
pub(crate) fn filled_count(state: &OfficeState, order: OrderId) -> usize
    ensures { result ≡ filled_count (order_in state.now.office.orders order) }
{
    match state.order(order) {
        None => 0,
        Some(row) => row.filled().len(),
    }
}
