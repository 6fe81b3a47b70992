//! Which wagon suits which order.
ghost use Rattle.std.specs.Prelude.{◌≡◌, ◌≤◌, ◌↔◌, IsTrue};
ghost use Rattle.std.specs.List.{Contains};
ghost use Rattle.wagons_and_orders.specs.Suits.{Suits};
ghost use Rattle.wagons_and_orders.specs.Listed.{is_listed};

use crate::FreeWagon;
use move_messages::OrderText;
use rail_codes::ClassCode;

/// Whether a wagon suits an order: the order lists the wagon's class, whole and with case, and its
/// load is at most the wagon's load limit. Takes no memory.
pub fn suits(wagon: &FreeWagon, order: &OrderText) -> bool
    ensures { IsTrue result ↔ Suits wagon.now order.now }
{
    carries(wagon, order.load()) && accepts(order, wagon.class)
}

/// Whether a load in kg is at most a wagon's load limit. Takes no memory.
pub fn carries(wagon: &FreeWagon, load: u32) -> bool
    ensures { IsTrue result ↔ (load ≤ wagon.now.load_limit) }
{
    load <= wagon.load_limit
}

/// Whether an order lists a class, whole and with case. Takes no memory.
pub fn accepts(order: &OrderText, class: ClassCode) -> bool
    ensures value { result ≡ is_listed order.now.classes class }
    ensures listed { IsTrue result ↔ Contains order.now.classes class }
{
    order.classes().as_slice().contains(&class)
}
