//! The whole map.
ghost use Rattle.std.specs.Prelude.{◌≡◌, ◌+◌, ◌++◌, nat_le, IfOk, OnOk, decimal, slice_get, string_bytes};
ghost use Rattle.reply_texts.specs.Lines.{Adds};
ghost use Rattle.office_map.specs.Frame.{first_text, head_text, layout_words, legend_text, lines_text, outside_text, promises_text, room_words};
ghost use Rattle.office_map.specs.Lines.{line_parts};
ghost use Rattle.office_map.specs.Map.{has_named, head_of, room_of, IsChosen, IsMapText};
ghost use Rattle.office_map.specs.Promises.{promise_lines};
ghost use Rattle.office_map.specs.inner.Drawn.{edges_of_parts, IsDrawnOf};
ghost use Rattle.office_map.specs.inner.Noted.{with_place_at};

use crate::choice::Choice;
use crate::frame::{FIRST, HEAD, LEGEND, LINES, OUTSIDE, PROMISES, layout_words, room_words};
use crate::line_edges::{count_shown, push_lines};
use crate::outside::outside_places;
use crate::place_node::push_places;
use crate::promise_arrows::push_promises;
use crate::shown::{ShownOrder, are_shown, shown_orders, shown_places, shown_wagons};
use crate::words::{push_number, push_texts, push_words};
use line_network::Network;
use operating_db::OfficeState;
use place_names::Places;
use rail_codes::Place;
use std::alloc::{AllocError, Global};
use wagons_and_orders::WagonRow;

/// The most places and lines, each way counted, round which Graphviz leads lines and arrows: for these it takes a second, and
/// for many minutes.
const MAX_FEW: usize = 120;

/// What is drawn.
#[derive(Clone, Copy)]
struct Parts<'a> {
    /// The names and coordinates that are known.
    named: &'a Places,
    wagons: &'a [WagonRow],
    orders: &'a [ShownOrder],
    /// Of each place of the network, whether it is shown.
    shown: &'a [bool],
    /// The places of the network that are shown.
    places: &'a [Place],
    /// The places that aren't in the network.
    outside: &'a [Place],
}

/// The map of an office as a graph in Graphviz's language DOT, for `neato` or `sfdp`. The network is to be the one in force;
/// `named` has the names of places and where they lie, and `choice` says what is on the map.
///
/// A place is a box, with its name after its code. It has a line for each class of the wagons that are there, with how many
/// are free, promised and neither. A line for each order that lacks wagons or has some promised says how many it lacks, which
/// classes it accepts and until when, and how many of its wagons are there already. A place that the network doesn't have is
/// dashed. Lines have their kilometres and minutes. An arrow leads from where promised wagons are to where they are wanted,
/// with their number.
///
/// A place whose coordinates are known stands there, in their unit, and a line in the middle between two such places. Where
/// `named` is empty, the map is laid out by its lines alone. `Err` only when out of memory.
pub fn map_text(
    alloc: Global,
    state: &OfficeState,
    network: &Network,
    named: &Places,
    choice: &Choice,
) -> Result<String, AllocError>
    ensures { IfOk result (λ text. IsMapText state.now.office network.now named.now choice.now (string_bytes text)) }
{
    let wagons = shown_wagons(alloc, choice, state.wagon_rows())?;
    let orders = shown_orders(alloc, choice, state.order_rows())?;
    chosen(alloc, state, network, named, choice, &wagons, &orders)
}

/// A map with these wagons and orders, at the places that are asked for.
fn chosen(
    alloc: Global,
    state: &OfficeState,
    network: &Network,
    named: &Places,
    choice: &Choice,
    wagons: &[WagonRow],
    orders: &[ShownOrder],
) -> Result<String, AllocError>
    ensures { IfOk result (λ text. IsChosen state.now.office network.now named.now choice.now wagons.now orders.now (string_bytes text)) }
{
    let all = network_places(alloc, network)?;
    let shown = are_shown(alloc, choice, wagons, orders, &all)?;
    let places = shown_places(alloc, choice, wagons, orders, &all)?;
    let outside = outside_places(alloc, network, wagons, orders)?;
    let parts = Parts {
        named,
        wagons,
        orders,
        shown: &shown,
        places: &places,
        outside: &outside,
    };
    let mut text = String::new(alloc);
    push_map(alloc, &mut text, state, network, &parts)?;
    Ok(text)
}

/// Adds a map of these parts.
fn push_map(
    alloc: Global,
    text: &mut String,
    state: &OfficeState,
    network: &Network,
    parts: &Parts<'_>,
) -> Result<(), AllocError>
    ensures { OnOk result (Adds (IsDrawnOf state.now.office network.now parts.now) (string_bytes text.old) (string_bytes text.new)) }
{
    let few = has_few(
        parts.places.len(),
        parts.outside.len(),
        count_shown(network, parts.shown),
    );
    push_head(text, few, has_named(parts.named), state.network())?;
    push_places(
        alloc,
        text,
        parts.named,
        parts.wagons,
        parts.orders,
        parts.places,
    )?;
    text.push_str(OUTSIDE)?;
    push_places(
        alloc,
        text,
        parts.named,
        parts.wagons,
        parts.orders,
        parts.outside,
    )?;
    push_edges(alloc, text, state, network, parts)
}

/// Whether so many places, in the network and outside it, and so many lines are few.
fn has_few(places: usize, outside: usize, lines: usize) -> bool
    ensures { result ≡ nat_le (places + outside + lines) 120 }
{
    places <= MAX_FEW
        && outside <= MAX_FEW
        && lines <= MAX_FEW
        && places + outside + lines <= MAX_FEW
}

/// The places of a network.
fn network_places(alloc: Global, network: &Network) -> Result<Vec<Place>, AllocError>
    ensures { IfOk result (λ places. places.items ≡ network.now.places) }
{
    let mut places = Vec::new(alloc);
    for k in 0..network.places() {
        note_place(&mut places, network, k)?;
    }
    Ok(places)
}

/// Notes place `k` of a network, where it has one.
fn note_place(places: &mut Vec<Place>, network: &Network, k: usize) -> Result<(), AllocError>
    ensures { OnOk result (places.new.items ≡ with_place_at places.old.items (slice_get network.now.places k)) }
{
    if let Some(place) = network.place_at(k) {
        places.push(place)?;
    }
    Ok(())
}

/// Whether there are places whose names or coordinates are known.
fn has_named(named: &Places) -> bool
    ensures { result ≡ has_named named.now }
{
    !named.as_slice().is_empty()
}

/// Adds the head of a map with few places and lines, or with many, whether names or coordinates are known or not, with the
/// number of the network in force.
fn push_head(text: &mut String, few: bool, is_named: bool, network: u32) -> Result<(), AllocError>
    ensures { OnOk result (string_bytes text.new ≡ string_bytes text.old ++ head_of few is_named network) }
{
    push_room(text, few)?;
    push_network(text, network, LEGEND)?;
    push_words(text, layout_words(is_named))
}

/// Adds the head of a map, up to the number of the network in force.
fn push_room(text: &mut String, few: bool) -> Result<(), AllocError>
    ensures { OnOk result (string_bytes text.new ≡ string_bytes text.old ++ room_of few) }
{
    push_texts(text, FIRST, room_words(few), HEAD)
}

/// Adds the number of a network, and a text behind it.
fn push_network(text: &mut String, network: u32, behind: &str) -> Result<(), AllocError>
    ensures { OnOk result (string_bytes text.new ≡ string_bytes text.old ++ (decimal network ++ behind.now)) }
{
    push_number(text, u64::from(network))?;
    text.push_str(behind)
}

/// Adds the lines of a network, the promises of the wagons, and the end of the map.
fn push_edges(
    alloc: Global,
    text: &mut String,
    state: &OfficeState,
    network: &Network,
    parts: &Parts<'_>,
) -> Result<(), AllocError>
    ensures { OnOk result (string_bytes text.new ≡ string_bytes text.old ++ edges_of_parts state.now.office network.now parts.now) }
{
    text.push_str(LINES)?;
    push_lines(text, parts.named, network, parts.shown)?;
    text.push_str(PROMISES)?;
    push_promises(alloc, text, state, parts.wagons)?;
    push_words(text, "}\n")
}
