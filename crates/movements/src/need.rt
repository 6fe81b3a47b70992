//! What an order needs.
ghost use Rattle.std.specs.Prelude.{◌≡◌};
ghost use Rattle.std.specs.BTreeMap.{get};
ghost use Rattle.fleet_rows.specs.Kept.{compare_numbers};
ghost use Rattle.movements.specs.Needs.{is_past, minutes_of, need_of, needs_person};

use rail_codes::{Moment, OrderId, Place};
use std::collections::BTreeMap;
use wagons_and_orders::OrderRow;

/// An order that isn't withdrawn, with its wagons counted.
#[derive(Clone, Copy)]
pub struct OrderNeed {
    /// The order.
    pub order: OrderId,
    /// Where it wants wagons.
    pub place: Place,
    /// The last moment at which a wagon may arrive.
    pub latest: Moment,
    /// The penalty of each missing wagon, in km.
    pub penalty: u64,
    /// How many wagons it wants.
    pub wanted: u64,
    /// How many have been delivered to it.
    pub filled: u64,
    /// How many are promised to it.
    pub promised: u64,
    /// How many it lacks.
    pub missing: u64,
    /// Whether it is open and its latest moment is past.
    pub is_past: bool,
    /// By how many minutes it was filled late, rounded up; 0 if it wasn't, or nothing is known of it.
    pub late: u64,
}

impl OrderNeed {
    /// Whether a person must see to it: wagons are missing, or its latest moment is past and it isn't filled.
    pub fn needs_person(&self) -> bool
        ensures { result ≡ needs_person self.now }
    {
        self.missing > 0 || self.is_past
    }
}

/// What an order needs at a moment, where orders were filled late by so many minutes.
pub(crate) fn need_of(at: Moment, late_fills: &BTreeMap<OrderId, u64>, row: &OrderRow) -> OrderNeed
    ensures { result ≡ need_of at (get compare_numbers late_fills.now) row.now }
{
    let text = row.text();
    OrderNeed {
        order: text.id(),
        place: text.place(),
        latest: text.latest(),
        penalty: text.penalty(),
        wanted: u64::from(text.wagons()),
        filled: row.filled().len() as u64,
        promised: row.promised().len() as u64,
        missing: u64::from(row.lack()),
        is_past: is_past(at, row),
        late: minutes_of(late_fills, text.id()),
    }
}

/// By how many minutes an order was filled late; 0 if it is unknown.
fn minutes_of(late_fills: &BTreeMap<OrderId, u64>, order: OrderId) -> u64
    ensures { result ≡ minutes_of (get compare_numbers late_fills.now order) }
{
    match late_fills.get(&order) {
        Some(minutes) => *minutes,
        None => 0,
    }
}

/// Whether an order is open, and its latest moment is past.
fn is_past(at: Moment, row: &OrderRow) -> bool
    ensures { result ≡ is_past at row.now }
{
    row.is_open() && row.text().latest().seconds() < at.seconds()
}
