//! How many free wagons pass the tests for an order.
ghost use Rattle.std.specs.Prelude.{◌≡◌, ◌+◌, ◌*◌, ◌≤◌, max};
ghost use Rattle.rail_codes.specs.Moment.{first_second};
ghost use Rattle.line_network.specs.Distance.{IsDistance};
ghost use Rattle.plan_reasons.specs.Reasons.{FailsFirst, HasWay, IsCheaper};
ghost use Rattle.plan_reasons.specs.inner.Passed.{ArePassed};

use line_network::Tables;
use move_messages::OrderText;
use rail_codes::Moment;
use wagons_and_orders::{FreeWagon, accepts, suits};

/// How many free wagons pass each test for an order; a wagon that passes one passes those before it.
#[derive(Clone, Copy)]
pub struct Counts {
    /// The order lists the wagon's class.
    pub class: u64,
    /// The wagon carries the order's load.
    pub load: u64,
    /// A way leads to the order's place.
    pub way: u64,
    /// The wagon is there by the latest moment.
    pub in_time: u64,
    /// It costs less than the order's penalty.
    pub cheaper: u64,
}

/// A test that a free wagon passes or fails for an order. A wagon that passes one passes those before it.
#[derive(Clone, Copy)]
pub(crate) enum Test {
    /// The order lists the wagon's class.
    Class,
    /// The wagon carries the order's load.
    Load,
    /// A way leads to the order's place.
    Way,
    /// The wagon is there by the latest moment.
    InTime,
    /// It costs less than the order's penalty.
    Cheaper,
}

/// Which tests one wagon passes.
#[derive(Clone, Copy)]
pub(crate) struct Passed {
    pub(crate) class: bool,
    pub(crate) load: bool,
    pub(crate) way: bool,
    pub(crate) in_time: bool,
    pub(crate) cheaper: bool,
}

/// Which tests a wagon passes for an order.
fn passed_by(tables: &Tables, at: Moment, wagon: &FreeWagon, order: &OrderText) -> Passed
    ensures { ArePassed tables.now at wagon.now order.now result }
{
    let mut passed = Passed {
        class: accepts(order, wagon.class),
        load: suits(wagon, order),
        way: false,
        in_time: false,
        cheaper: false,
    };
    if !passed.load {
        return passed;
    }
    if let Some((km, minutes)) = tables.between(wagon.place, order.place()) {
        passed.way = true;
        passed.in_time = arrival(at, wagon, minutes) <= order.latest().seconds();
        passed.cheaper = passed.in_time && u64::from(km) < order.penalty();
    }
    passed
}

/// The first test that a wagon fails for an order, of which it doesn't pass all.
pub(crate) fn first_failed(
    tables: &Tables,
    at: Moment,
    wagon: &FreeWagon,
    order: &OrderText,
) -> Test
    requires { ¬ IsCheaper tables.now at wagon.now order.now }
    ensures { FailsFirst tables.now at wagon.now order.now result }
{
    let passed = passed_by(tables, at, wagon, order);
    if !passed.class {
        return Test::Class;
    }
    if !passed.load {
        return Test::Load;
    }
    if !passed.way {
        return Test::Way;
    }
    if !passed.in_time {
        return Test::InTime;
    }
    Test::Cheaper
}

/// The kilometres and minutes of the way from a wagon to an order's place.
pub fn way_of(tables: &Tables, wagon: &FreeWagon, order: &OrderText) -> (u32, u32)
    requires { HasWay tables.now wagon.now order.now }
    ensures { IsDistance tables.now wagon.now.place order.now.place result }
{
    tables.between(wagon.place, order.place()).unwrap()
}

/// When a wagon is at a place so many minutes away, in seconds since 1970: it starts at a moment, or when it is ready.
pub(crate) fn arrival(at: Moment, wagon: &FreeWagon, minutes: u32) -> u64
    ensures value { result ≡ max wagon.now.ready at + 60 * minutes }
    ensures from { first_second ≤ result }
{
    wagon.ready.seconds().max(at.seconds()) + 60 * u64::from(minutes)
}
