//! Orders that lack wagons.
ghost use Rattle.std.specs.Prelude.{◌≡◌};

use move_messages::{MAX_ORDER_WAGONS, OrderText};
use std::marker::Model;

/// An order, with how many wagons it lacks: 1 to 20. A contract sees the two as a record.
#[derive(Clone, Copy)]
pub struct Wanted {
    order: OrderText,
    lack: u32,
}

impl Model for Wanted {
    ghost use Rattle.wagons_and_orders.specs.Wanted.{WantedOrder};
    ghost use Rattle.wagons_and_orders.specs.WantedLimits.{IsLack};

    ghost Value = { WantedOrder };

    ghost view = { λ w. record { order = w.order; lack = w.lack } };

    ghost invariant = { λ w. IsLack w.lack };

    ghost inverse = { λ w. record { order = w.order; lack = w.lack } };
}

impl Wanted {
    ghost use Rattle.wagons_and_orders.specs.WantedLimits.{wanted_of, IsLack};

    /// An order that lacks so many wagons; none where they are not 1 to 20. Takes no memory.
    pub fn new(order: OrderText, lack: u32) -> Option<Wanted>
        ensures { result ≡ wanted_of order lack }
    {
        if lack < 1 || MAX_ORDER_WAGONS < lack {
            return None;
        }
        Some(Wanted { order, lack })
    }

    /// The order.
    pub fn order(&self) -> &OrderText
        ensures { result.now ≡ self.now.order }
    {
        &self.order
    }

    /// How many wagons it lacks, 1 to 20.
    pub fn lack(&self) -> u32
        ensures value { result ≡ self.now.lack }
        ensures range { IsLack result }
    {
        self.lack
    }
}
