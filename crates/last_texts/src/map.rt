//! The map of a book's last version.
ghost use Rattle.std.specs.Prelude.{◌≡◌, ◌≤◌, IfErr, IfOk, MatchResult, None, Some, length, string_bytes};
ghost use Rattle.fleet_rows.specs.Rows.{order_in};
ghost use Rattle.last_texts.specs.MapOfLast.{IsMapOfLast, IsNoMapOfLast, is_on_map, order_fault};
ghost use Rattle.line_network.specs.Networks.{network_at};

use command_line::MapOptions;
use commit_book::Book;
use line_network::Network;
use office_files::Stop;
use office_map::{Choice, is_drawn, map_text};
use operating_db::OfficeState;
use place_names::Places;
use rail_codes::OrderId;
use std::alloc::Global;

/// What is to be on the map.
pub fn choice_of(options: &MapOptions<'_>) -> Choice
    ensures { result ≡ record { busy = options.now.busy; order = options.now.order; class = options.now.class } }
{
    Choice {
        busy: options.busy,
        order: options.order,
        class: options.class,
    }
}

/// The graph of a book's last version, over the network in force. Refused with `OrderNotOnMap` (84) where an order is asked for
/// that isn't on a map of all, else only with `OutOfMemory` (1).
pub fn last_map(
    alloc: Global,
    book: &Book,
    networks: &[Network],
    named: &Places,
    choice: &Choice,
) -> Result<String, Stop>
    requires { networks.now ≡ book.now.setting.networks }
    ensures map { IfOk result (λ text. IsMapOfLast book.now.setting book.now.state.history named.now choice.now (string_bytes text)) }
    ensures none { IfErr result (IsNoMapOfLast book.now.setting book.now.state.history choice.now) }
{
    let state = book.state();
    check_order(state, choice.order)?;
    let network = network_in(networks, state.network());
    Ok(map_text(alloc, state, network, named, choice)?)
}

/// That an order that is asked for is on a map of all. `OrderNotOnMap` (84) where it isn't.
fn check_order(state: &OfficeState, asked: Option<OrderId>) -> Result<(), Stop>
    ensures { MatchResult result (λ _. order_fault state.now.office asked ≡ None) (λ why. order_fault state.now.office asked ≡ Some why) }
{
    match asked {
        Some(id) => check_name(state, id),
        None => Ok(()),
    }
}

/// That the order of this name is on a map of all.
fn check_name(state: &OfficeState, id: OrderId) -> Result<(), Stop>
    ensures { MatchResult result (λ _. order_fault state.now.office (Some id) ≡ None) (λ why. order_fault state.now.office (Some id) ≡ Some why) }
{
    if is_on_map(state, id) {
        Ok(())
    } else {
        Err(Stop::OrderNotOnMap(id))
    }
}

/// Whether an order is on a map of all.
fn is_on_map(state: &OfficeState, id: OrderId) -> bool
    ensures { result ≡ is_on_map (order_in state.now.office.orders id) }
{
    match state.order(id) {
        Some(row) => is_drawn(row),
        None => false,
    }
}

/// The network of a number, counted from 1.
fn network_in(networks: &[Network], number: u32) -> &Network
    requires from_one { 1 ≤ number }
    requires few { number ≤ length networks.now }
    ensures { network_at networks.now number ≡ Some result.now }
{
    &networks[number as usize - 1]
}
