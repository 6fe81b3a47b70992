//! A plan as a list: the wagons that go, and the orders that miss wagons.

use plan_reasons::Journey;
use rail_codes::{Moment, OrderId, Place};

/// Why an order misses wagons: its latest moment is past; else the first test that no wagon passes for it, but those that it gets. A
/// wagon that passes a test passes those before it.
#[derive(Clone, Copy)]
pub enum Reason {
    /// The order's latest moment is past.
    Past,
    /// The order lists the wagon's class.
    Class,
    /// The wagon carries the order's load.
    Load,
    /// A way leads to the order's place.
    Way,
    /// The wagon is there by the latest moment.
    InTime,
    /// It costs less than the order's penalty.
    Cheaper,
    /// Others pass each test, and go to other orders.
    Elsewhere,
}

/// An order that misses wagons.
#[derive(Clone, Copy)]
pub struct Shortfall {
    /// The order.
    pub order: OrderId,
    /// Where it wants wagons.
    pub place: Place,
    /// How many wagons the plan gives it.
    pub gets: u64,
    /// How many it misses.
    pub missing: u64,
    /// The penalty of each that it misses, in km.
    pub penalty: u64,
    /// Why it misses them.
    pub reason: Reason,
}

/// A plan of a version's problem at a moment.
#[derive(Drop)]
pub struct PlanList {
    /// The version.
    pub version: u64,
    /// The moment.
    pub at: Moment,
    /// The wagons that go, in the plan's order.
    pub journeys: Vec<Journey>,
    /// The orders that miss wagons, as placed.
    pub shortfalls: Vec<Shortfall>,
    /// All kilometres, and the penalties of all wagons that are missing.
    pub sum: u128,
}
