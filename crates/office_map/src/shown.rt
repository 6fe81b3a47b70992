//! What of an office is on its map: its wagons, its orders and its places.
ghost use Rattle.std.specs.Prelude.{◌≡◌, IfOk};
ghost use Rattle.std.specs.List.{list_any};
ghost use Rattle.office_map.specs.Shown.{are_shown, asks_class, asks_order, asks_promise, is_busy, is_drawn, shown_in, shown_orders, shown_places, shown_wagons, shows_order, shows_place, shows_wagon, stands_at, wants_at};

use crate::choice::Choice;
use move_messages::OrderText;
use rail_codes::{ClassCode, OrderId, Place};
use std::alloc::{AllocError, Global};
use wagons_and_orders::{OrderRow, WagonRow};

/// An order on a map.
#[derive(Clone, Copy)]
pub(crate) struct ShownOrder {
    /// What it asks for.
    pub(crate) text: OrderText,
    /// How many wagons it lacks.
    pub(crate) lack: u32,
}

/// The wagons that are shown, in order.
pub(crate) fn shown_wagons(
    alloc: Global,
    choice: &Choice,
    rows: &[WagonRow],
) -> Result<Vec<WagonRow>, AllocError>
    ensures { IfOk result (λ shown. shown.items ≡ shown_wagons choice.now rows.now) }
{
    rows.iter()
        .filter(|row| shows_wagon(choice, row))
        .copied()
        .collect(alloc)
}

/// Whether a wagon is shown.
fn shows_wagon(choice: &Choice, row: &WagonRow) -> bool
    ensures { result ≡ shows_wagon choice.now row.now }
{
    asks_class(choice.class, row.class) && asks_promise(choice.order, row.promise)
}

/// Whether a class is asked for.
fn asks_class(asked: Option<ClassCode>, class: ClassCode) -> bool
    ensures { result ≡ asks_class asked class }
{
    match asked {
        None => true,
        Some(asked) => asked == class,
    }
}

/// Whether an order is asked for.
fn asks_order(asked: Option<OrderId>, id: OrderId) -> bool
    ensures { result ≡ asks_order asked id }
{
    match asked {
        None => true,
        Some(asked) => asked == id,
    }
}

/// Whether a wagon with this promise is asked for.
fn asks_promise(asked: Option<OrderId>, promise: Option<OrderId>) -> bool
    ensures { result ≡ asks_promise asked promise }
{
    match (asked, promise) {
        (None, _) => true,
        (Some(_), None) => false,
        (Some(asked), Some(id)) => asked == id,
    }
}

/// The orders that are shown, as placed, each with how many wagons it lacks.
pub(crate) fn shown_orders(
    alloc: Global,
    choice: &Choice,
    rows: &[OrderRow],
) -> Result<Vec<ShownOrder>, AllocError>
    ensures { IfOk result (λ shown. shown.items ≡ shown_orders choice.now rows.now) }
{
    rows.iter()
        .filter_map(|row| shown_in(choice, row))
        .collect(alloc)
}

/// An order, where it is shown.
fn shown_in(choice: &Choice, row: &OrderRow) -> Option<ShownOrder>
    ensures { result ≡ shown_in choice.now row.now }
{
    if !shows_order(choice, row) {
        return None;
    }
    Some(ShownOrder {
        text: *row.text(),
        lack: row.lack(),
    })
}

/// Whether an order is shown.
fn shows_order(choice: &Choice, row: &OrderRow) -> bool
    ensures { result ≡ shows_order choice.now row.now }
{
    let text = row.text();
    is_drawn(row)
        && asks_order(choice.order, text.id())
        && asks_any(choice.class, text.classes().as_slice())
}

/// Whether one of these classes is asked for.
fn asks_any(asked: Option<ClassCode>, classes: &[ClassCode]) -> bool
    ensures { result ≡ list_any (asks_class asked) classes.now }
{
    classes.iter().any(|class| asks_class(asked, *class))
}

/// Whether an order lacks wagons, or has some promised.
pub fn is_drawn(row: &OrderRow) -> bool
    ensures { result ≡ is_drawn row.now }
{
    row.is_waiting() || !row.promised().is_empty()
}

/// Of each of these places, whether it is shown.
pub(crate) fn are_shown(
    alloc: Global,
    choice: &Choice,
    wagons: &[WagonRow],
    orders: &[ShownOrder],
    places: &[Place],
) -> Result<Vec<bool>, AllocError>
    ensures { IfOk result (λ shown. shown.items ≡ are_shown choice.now wagons.now orders.now places.now) }
{
    places
        .iter()
        .map(|place| shows_place(choice, wagons, orders, *place))
        .collect(alloc)
}

/// Those of these places that are shown.
pub(crate) fn shown_places(
    alloc: Global,
    choice: &Choice,
    wagons: &[WagonRow],
    orders: &[ShownOrder],
    places: &[Place],
) -> Result<Vec<Place>, AllocError>
    ensures { IfOk result (λ shown. shown.items ≡ shown_places choice.now wagons.now orders.now places.now) }
{
    places
        .iter()
        .filter(|place| shows_place(choice, wagons, orders, **place))
        .copied()
        .collect(alloc)
}

/// Whether a place is shown.
fn shows_place(choice: &Choice, wagons: &[WagonRow], orders: &[ShownOrder], place: Place) -> bool
    ensures { result ≡ shows_place choice.now wagons.now orders.now place }
{
    !choice.busy || is_busy(wagons, orders, place)
}

/// Whether there is anything at a place.
fn is_busy(wagons: &[WagonRow], orders: &[ShownOrder], place: Place) -> bool
    ensures { result ≡ is_busy wagons.now orders.now place }
{
    has_wagon(wagons, place) || has_order(orders, place)
}

/// Whether one of these wagons is at a place.
fn has_wagon(wagons: &[WagonRow], place: Place) -> bool
    ensures { result ≡ list_any (stands_at place) wagons.now }
{
    wagons.iter().any(|row| row.status.place() == place)
}

/// Whether one of these orders wants wagons at a place.
fn has_order(orders: &[ShownOrder], place: Place) -> bool
    ensures { result ≡ list_any (wants_at place) orders.now }
{
    orders.iter().any(|order| order.text.place() == place)
}
