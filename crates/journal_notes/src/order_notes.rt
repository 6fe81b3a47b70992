//! The notes of an order that a line places. `Err` only when out of memory; some notes may be there then.
ghost use Rattle.std.specs.Prelude.{◌≡◌, ◌++◌, IfOk, OnOk};
ghost use Rattle.std.specs.List.{list_any};
ghost use Rattle.journal_notes.specs.OrderNotes.{carries_load, has_place, is_before_last, is_of_listed_class, is_past, lacks_class, lacks_load, lacks_place, class_notes, load_notes, order_notes, past_notes, place_notes};

use crate::note::{LatestOfOrder, LoadOfOrder, NamedOrder, Note, PlaceOfOrder};
use crate::note_lists::push_if;
use line_network::Network;
use move_messages::OrderText;
use rail_codes::Place;
use std::alloc::{AllocError, Global};
use wagons_and_orders::{WagonRow, accepts};

/// The notes of an order, by the networks and by the wagons of the office before it is placed.
pub(crate) fn order_notes(
    alloc: Global,
    networks: &[Network],
    wagons: &[WagonRow],
    order: &OrderText,
) -> Result<Vec<Note>, AllocError>
    ensures { IfOk result (λ notes. notes.items ≡ order_notes networks.now wagons.now order.now) }
{
    let mut notes = Vec::new(alloc);
    push_order_notes(&mut notes, networks, wagons, order)?;
    Ok(notes)
}

/// Adds the notes of an order, by the networks and by the wagons of the office before it is placed.
fn push_order_notes(
    notes: &mut Vec<Note>,
    networks: &[Network],
    wagons: &[WagonRow],
    order: &OrderText,
) -> Result<(), AllocError>
    ensures { OnOk result (notes.new.items ≡ notes.old.items ++ order_notes networks.now wagons.now order.now) }
{
    push_place_and_class(notes, networks, wagons, order)?;
    push_load_and_latest(notes, wagons, order)
}

/// Adds the notes on the place and the classes of an order.
fn push_place_and_class(
    notes: &mut Vec<Note>,
    networks: &[Network],
    wagons: &[WagonRow],
    order: &OrderText,
) -> Result<(), AllocError>
    ensures { OnOk result (notes.new.items ≡ notes.old.items ++ (place_notes networks.now order.now ++ class_notes wagons.now order.now)) }
{
    let place = PlaceOfOrder {
        order: order.id(),
        place: order.place(),
    };
    push_if(
        notes,
        lacks_place(networks, order),
        Note::UnknownPlace(place),
    )?;
    let named = NamedOrder { order: order.id() };
    push_if(notes, lacks_class(wagons, order), Note::NoClass(named))
}

/// Adds the notes on the load and the latest moment of an order.
fn push_load_and_latest(
    notes: &mut Vec<Note>,
    wagons: &[WagonRow],
    order: &OrderText,
) -> Result<(), AllocError>
    ensures { OnOk result (notes.new.items ≡ notes.old.items ++ (load_notes wagons.now order.now ++ past_notes wagons.now order.now)) }
{
    let load = LoadOfOrder {
        order: order.id(),
        load: order.load(),
    };
    push_if(notes, lacks_load(wagons, order), Note::NoCarrier(load))?;
    let latest = LatestOfOrder {
        order: order.id(),
        latest: order.latest(),
    };
    push_if(notes, is_past(wagons, order), Note::Past(latest))
}

/// Whether no network has an order's place.
pub fn lacks_place(networks: &[Network], order: &OrderText) -> bool
    ensures { result ≡ lacks_place networks.now order.now }
{
    !has_place(networks, order.place())
}

/// Whether a network has a place.
fn has_place(networks: &[Network], place: Place) -> bool
    ensures { result ≡ has_place networks.now place }
{
    networks
        .iter()
        .any(|network| network.index_of(place).is_some())
}

/// Whether no wagon is of a class that an order lists.
pub fn lacks_class(wagons: &[WagonRow], order: &OrderText) -> bool
    ensures { result ≡ lacks_class wagons.now order.now }
{
    !has_class(wagons, order)
}

/// Whether there are wagons of a class that an order lists, and none of these carries its load.
pub fn lacks_load(wagons: &[WagonRow], order: &OrderText) -> bool
    ensures { result ≡ lacks_load wagons.now order.now }
{
    has_class(wagons, order) && !has_load(wagons, order)
}

/// Whether a wagon is of a class that an order lists.
fn has_class(wagons: &[WagonRow], order: &OrderText) -> bool
    ensures { result ≡ list_any (is_of_listed_class order.now) wagons.now }
{
    wagons.iter().any(|wagon| accepts(order, wagon.class))
}

/// Whether a wagon is of a class that an order lists and carries its load.
fn has_load(wagons: &[WagonRow], order: &OrderText) -> bool
    ensures { result ≡ list_any (carries_load order.now) wagons.now }
{
    wagons.iter().any(|wagon| carries_load(wagon, order))
}

/// Whether a wagon is of a class that an order lists and carries its load.
fn carries_load(wagon: &WagonRow, order: &OrderText) -> bool
    ensures { result ≡ carries_load order.now wagon.now }
{
    accepts(order, wagon.class) && order.load() <= wagon.load_limit
}

/// Whether an order's latest moment lies before that of some wagon's last message.
pub fn is_past(wagons: &[WagonRow], order: &OrderText) -> bool
    ensures { result ≡ is_past wagons.now order.now }
{
    wagons.iter().any(|wagon| is_before_last(order, wagon))
}

fn is_before_last(order: &OrderText, wagon: &WagonRow) -> bool
    ensures { result ≡ is_before_last order.now wagon.now }
{
    order.latest().seconds() < wagon.last.seconds()
}
