//! Which movements, orders and silent wagons are listed.
ghost use Rattle.std.specs.Prelude.{◌≡◌, false, None};
ghost use Rattle.movements.specs.Choices.{asks, is_among, is_one_of, keeps_movement, keeps_order, keeps_silent};

use crate::movement::Movement;
use crate::need::OrderNeed;
use crate::silence::SilentWagon;
use rail_codes::{OrderId, WagonNumber};

/// Which movements, orders and silent wagons are listed. `Choice::all` lists every movement and order, and no silent wagon.
#[derive(Clone, Copy)]
pub struct Choice<'a> {
    /// Whether movements that are in time and orders that need no person are left out.
    pub late: bool,
    /// The wagon that is listed alone, without any order.
    pub wagon: Option<WagonNumber>,
    /// The order that is listed alone, with the movements to it and without silent wagons.
    pub order: Option<OrderId>,
    /// The wagons that are listed alone, without any order.
    pub among: Option<&'a [WagonNumber]>,
    /// Wagons that haven't been heard from for so many hours are listed too.
    pub silent: Option<u64>,
}

impl<'a> Choice<'a> {
    /// Every movement and order, and no silent wagon.
    pub fn all() -> Choice<'a>
        ensures { result ≡ record { late = false; wagon = None; order = None; among = None; silent = None } }
    {
        Choice {
            late: false,
            wagon: None,
            order: None,
            among: None,
            silent: None,
        }
    }

    /// Whether a movement is listed.
    pub(crate) fn keeps_movement(&self, movement: &Movement) -> bool
        ensures { result ≡ keeps_movement self.now movement.now }
    {
        asks_wagon(self.wagon, movement.wagon)
            && is_among(self.among, movement.wagon)
            && asks_order(self.order, movement.order)
            && (!self.late || movement.is_late())
    }

    /// Whether an order is listed.
    pub(crate) fn keeps_order(&self, need: &OrderNeed) -> bool
        ensures { result ≡ keeps_order self.now need.now }
    {
        self.wagon.is_none()
            && self.among.is_none()
            && asks_order(self.order, need.order)
            && (!self.late || need.needs_person())
    }

    /// Whether a wagon that hasn't been heard from is listed.
    pub(crate) fn keeps_silent(&self, silent: &SilentWagon) -> bool
        ensures { result ≡ keeps_silent self.now silent.now }
    {
        self.order.is_none()
            && asks_wagon(self.wagon, silent.wagon)
            && is_among(self.among, silent.wagon)
    }
}

/// Whether a wagon is asked for: each is where none is named.
fn asks_wagon(asked: Option<WagonNumber>, wagon: WagonNumber) -> bool
    ensures { result ≡ asks asked wagon }
{
    match asked {
        None => true,
        Some(asked) => asked == wagon,
    }
}

/// Whether a wagon is among those listed alone: each is where no such wagons are given.
fn is_among(wagons: Option<&[WagonNumber]>, wagon: WagonNumber) -> bool
    ensures { result ≡ is_among wagons.entry wagon }
{
    match wagons {
        None => true,
        Some(wagons) => is_one_of(wagons, wagon),
    }
}

/// Whether a wagon is one of these.
fn is_one_of(wagons: &[WagonNumber], wagon: WagonNumber) -> bool
    ensures { result ≡ is_one_of wagons.now wagon }
{
    wagons.iter().any(|it| *it == wagon)
}

/// Whether an order is asked for: each is where none is named.
fn asks_order(asked: Option<OrderId>, order: OrderId) -> bool
    ensures { result ≡ asks asked order }
{
    match asked {
        None => true,
        Some(asked) => asked == order,
    }
}
