//! What is asked for, and which events name it.
ghost use Rattle.std.specs.Prelude.{◌≡◌};
ghost use Rattle.traces.specs.Asked.{is_order_in, is_wagon_in, names, names_order, names_wagon};

use move_messages::Event;
use rail_codes::{OrderId, WagonNumber};

/// What is asked for.
#[derive(Clone, Copy)]
pub enum Asked {
    /// The wagon of this number.
    Wagon(WagonNumber),
    /// The order of this name.
    Order(OrderId),
}

impl Asked {
    /// Whether an event names it. A message names its wagon, an order and a withdrawal name their order, and a commit names the
    /// wagon and the order of each pair. Takes no memory.
    pub fn is_named_by(&self, event: &Event) -> bool
        ensures { result ≡ names self.now event.now }
    {
        match self {
            Asked::Wagon(number) => is_wagon_named(*number, event),
            Asked::Order(id) => is_order_named(*id, event),
        }
    }
}

/// Whether an event names a wagon.
fn is_wagon_named(number: WagonNumber, event: &Event) -> bool
    ensures { result ≡ names_wagon number event.now }
{
    match event {
        Event::Message(message) => number == message.wagon,
        Event::Commit(commit) => is_wagon_in(number, commit.pairs.as_slice()),
        Event::Place(_) | Event::Withdraw(_) | Event::Revise(_) => false,
    }
}

/// Whether an event names an order.
fn is_order_named(id: OrderId, event: &Event) -> bool
    ensures { result ≡ names_order id event.now }
{
    match event {
        Event::Place(text) => id == text.id(),
        Event::Withdraw(withdrawn) => id == *withdrawn,
        Event::Commit(commit) => is_order_in(id, commit.pairs.as_slice()),
        Event::Message(_) | Event::Revise(_) => false,
    }
}

/// Whether a wagon stands in one of these pairs.
fn is_wagon_in(number: WagonNumber, pairs: &[(WagonNumber, OrderId)]) -> bool
    ensures { result ≡ is_wagon_in number pairs.now }
{
    pairs.iter().any(|pair| number == pair.0)
}

/// Whether an order stands in one of these pairs.
fn is_order_in(id: OrderId, pairs: &[(WagonNumber, OrderId)]) -> bool
    ensures { result ≡ is_order_in id pairs.now }
{
    pairs.iter().any(|pair| id == pair.1)
}
