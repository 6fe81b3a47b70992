//! Promises, on the side of the wagons and on that of the orders.
ghost use Rattle.std.specs.Prelude.{◌≡◌, true, IfSome};
ghost use Rattle.fleet_rows.specs.Rows.{order_in};
ghost use Rattle.operating_db.specs.After.{orders_after};
ghost use Rattle.operating_db.specs.inner.EventParts.{unpromised_among};
ghost use Rattle.operating_db.specs.Promises.{is_among, promised_of};

use fleet_rows::{OrderRows, WagonRows};
use rail_codes::{OrderId, WagonNumber};
use wagons_and_orders::Effect;

/// Ends the promises of these wagons. Takes no memory.
pub(crate) fn end_promises(wagons: &mut WagonRows, numbers: &[WagonNumber])
    ensures { wagons.new ≡ unpromised_among numbers.now wagons.old }
{
    for number in numbers {
        wagons.end_promise(*number);
    }
}

/// What becomes of the promise of a wagon, on the side of its order. Takes no memory.
pub(crate) fn settle(
    orders: &mut OrderRows,
    effect: Effect,
    promise: Option<OrderId>,
    number: WagonNumber,
)
    requires { IfSome promise (λ id. is_among number (promised_of (order_in orders.old id)) ≡ true) }
    ensures { orders.new ≡ orders_after effect promise number orders.old }
{
    match (effect, promise) {
        (Effect::Fills, Some(id)) => orders.fill(id, number),
        (Effect::Ends, Some(id)) => orders.end_promise(id, number),
        _ => {}
    }
}
