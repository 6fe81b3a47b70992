//! Orders: who wants which wagons, where and until when.

ghost use Rattle.std.specs.Prelude.{◌≡◌, ◌≤◌, ◌↔◌, IsTrue};
ghost use Rattle.move_messages.specs.OrderLimits.{IsOrder, order_of};

use crate::classes::Classes;
use crate::limits::{MAX_LOAD, MAX_ORDER_WAGONS, MAX_PENALTY};
use rail_codes::{Moment, OrderId, Place};
use std::marker::Model;

/// What an order asks for. Its load, penalty and count of wagons are within their limits. A
/// contract sees an order of the definitions.
#[derive(Clone, Copy)]
pub struct OrderText {
    id: OrderId,
    place: Place,
    classes: Classes,
    load: u32,
    latest: Moment,
    penalty: u64,
    wagons: u32,
}

impl Model for OrderText {
    ghost use Rattle.move_messages.specs.Order.{Order};
    ghost use Rattle.move_messages.specs.OrderLimits.{IsOrder};

    ghost Value = { Order };

    ghost view = { λ o. record { id = o.id; place = o.place; classes = o.classes; load = o.load; latest = o.latest; penalty = o.penalty; wagons = o.wagons } };

    ghost invariant = { λ o. IsOrder (record { id = o.id; place = o.place; classes = o.classes; load = o.load; latest = o.latest; penalty = o.penalty; wagons = o.wagons }) };

    ghost inverse = { λ o. record { id = o.id; place = o.place; classes = o.classes; load = o.load; latest = o.latest; penalty = o.penalty; wagons = o.wagons } };
}

impl OrderText {
    /// An order for `wagons` wagons (1 to 20) of one of these classes at a place, each for a `load`
    /// of 0 to 200,000 kg, there at the `latest` moment. Each missing wagon costs a `penalty` of 0
    /// to 1,000,000,000 km. `None` where one of these three numbers is outside its limits.
    pub fn new(
        id: OrderId,
        place: Place,
        classes: Classes,
        load: u32,
        latest: Moment,
        penalty: u64,
        wagons: u32,
    ) -> Option<OrderText>
        ensures { result ≡ order_of (record { id = id; place = place; classes = classes; load = load; latest = latest; penalty = penalty; wagons = wagons }) }
    {
        if MAX_LOAD < load || MAX_PENALTY < penalty || wagons < 1 || MAX_ORDER_WAGONS < wagons {
            return None;
        }
        Some(OrderText {
            id,
            place,
            classes,
            load,
            latest,
            penalty,
            wagons,
        })
    }

    /// The order's name.
    pub fn id(&self) -> OrderId
        ensures { result ≡ self.now.id }
    {
        self.id
    }

    /// Where the wagons are wanted.
    pub fn place(&self) -> Place
        ensures { result ≡ self.now.place }
    {
        self.place
    }

    /// The classes that it accepts.
    pub fn classes(&self) -> &Classes
        ensures { result.now ≡ self.now.classes }
    {
        &self.classes
    }

    /// The load of each wagon, in kg.
    pub fn load(&self) -> u32
        ensures value { result ≡ self.now.load }
        ensures limits { IsOrder self.now }
    {
        self.load
    }

    /// The last moment at which a wagon may arrive, in seconds since 1970.
    pub fn latest(&self) -> Moment
        ensures { result ≡ self.now.latest }
    {
        self.latest
    }

    /// The penalty of each missing wagon, in km.
    pub fn penalty(&self) -> u64
        ensures value { result ≡ self.now.penalty }
        ensures limits { IsOrder self.now }
    {
        self.penalty
    }

    /// How many wagons are wanted, 1 to 20.
    pub fn wagons(&self) -> u32
        ensures value { result ≡ self.now.wagons }
        ensures limits { IsOrder self.now }
    {
        self.wagons
    }

    /// Does nothing: for the prover alone, it says between which limits an order is.
    pub fn for_the_prover(&self)
        ensures { IsOrder self.now }
    {
        let _ = &self.id;
    }
}

/// Whether two orders are one, field by field.
pub fn is_same_order(one: &OrderText, other: &OrderText) -> bool
    ensures { IsTrue result ↔ (one.now ≡ other.now) }
{
    one.id == other.id
        && one.place == other.place
        && are_same_classes(&one.classes, &other.classes)
        && one.load == other.load
        && one.latest == other.latest
        && one.penalty == other.penalty
        && one.wagons == other.wagons
}

fn are_same_classes(one: &Classes, other: &Classes) -> bool
    ensures { IsTrue result ↔ (one.now ≡ other.now) }
{
    *one == *other
}
