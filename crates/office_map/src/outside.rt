//! Places that the network in force doesn't have.
ghost use Rattle.std.specs.Prelude.{◌≡◌, ℕ, List, IfOk, OnOk, is_some};
ghost use Rattle.std.specs.List.{fold, list_any};
ghost use Rattle.line_network.specs.Network.{NetworkValue, are_one_place, place_index};
ghost use Rattle.office_map.specs.Outside.{outside_places, with_order_place, with_outside, with_wagon_place};

use crate::shown::ShownOrder;
use line_network::Network;
use rail_codes::Place;
use std::alloc::{AllocError, Global};
use wagons_and_orders::WagonRow;

/// The places at which these wagons are or that these orders name, but that the network doesn't have, each once: those of
/// the wagons first.
pub(crate) fn outside_places(
    alloc: Global,
    network: &Network,
    wagons: &[WagonRow],
    orders: &[ShownOrder],
) -> Result<Vec<Place>, AllocError>
    ensures { IfOk result (λ places. places.items ≡ outside_places network.now wagons.now orders.now) }
{
    let mut places = Vec::new(alloc);
    note_rows(&mut places, network, wagons)?;
    note_rows(&mut places, network, orders)?;
    Ok(places)
}

/// A row that has a place.
trait Placed {
    // the places with that of this row, where it isn't in the network
    ghost with_place: { NetworkValue → List (List ℕ) → Self → List (List ℕ) };

    /// Notes the row's place. `Err` only when out of memory.
    fn note(&self, places: &mut Vec<Place>, network: &Network) -> Result<(), AllocError>
        ensures { OnOk result (places.new.items ≡ with_place network.now places.old.items self.now) };
}

impl Placed for WagonRow {
    ghost with_place = { with_wagon_place };

    fn note(&self, places: &mut Vec<Place>, network: &Network) -> Result<(), AllocError> {
        note_outside(places, network, self.status.place())
    }
}

impl Placed for ShownOrder {
    ghost with_place = { with_order_place };

    fn note(&self, places: &mut Vec<Place>, network: &Network) -> Result<(), AllocError> {
        note_outside(places, network, self.text.place())
    }
}

/// Notes the places of rows.
fn note_rows<T: Placed>(
    places: &mut Vec<Place>,
    network: &Network,
    rows: &[T],
) -> Result<(), AllocError>
    ensures { OnOk result (places.new.items ≡ fold (T.with_place network.now) places.old.items rows.now) }
{
    for row in rows {
        row.note(places, network)?;
    }
    Ok(())
}

/// Notes a place that the network doesn't have.
fn note_outside(places: &mut Vec<Place>, network: &Network, place: Place) -> Result<(), AllocError>
    ensures { OnOk result (places.new.items ≡ with_outside network.now places.old.items place) }
{
    if has_place(network, place) || is_among(places, place) {
        return Ok(());
    }
    places.push(place)?;
    Ok(())
}

/// Whether a network has a place.
fn has_place(network: &Network, place: Place) -> bool
    ensures { result ≡ is_some (place_index network.now.places place) }
{
    network.index_of(place).is_some()
}

/// Whether a place is among these.
fn is_among(places: &[Place], place: Place) -> bool
    ensures { result ≡ list_any (are_one_place place) places.now }
{
    places.iter().any(|other| place == *other)
}
