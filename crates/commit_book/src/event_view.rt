//! Events that are lent.
ghost use Rattle.std.specs.Prelude.{◌≡◌};
ghost use Rattle.commit_book.specs.EventView.{lent_event};

use move_messages::{CommitText, Event, Message, OrderText};
use rail_codes::OrderId;

/// An event that is lent: of each kind, a reference to what it says.
#[derive(Clone, Copy)]
pub enum EventView<'a> {
    /// A movement message comes.
    Message(&'a Message),
    /// An order is placed.
    Place(&'a OrderText),
    /// An order is withdrawn.
    Withdraw(&'a OrderId),
    /// The pairs of a plan are promised.
    Commit(&'a CommitText),
    /// The network of this number, counted from 1, is in force from now on.
    Revise(&'a u32),
}

impl<'a> EventView<'a> {
    /// An event, lent.
    pub fn of(event: &'a Event) -> EventView<'a>
        ensures { lent_event result ≡ event.now }
    {
        match event {
            Event::Message(message) => EventView::Message(message),
            Event::Place(text) => EventView::Place(text),
            Event::Withdraw(id) => EventView::Withdraw(id),
            Event::Commit(commit) => EventView::Commit(commit),
            Event::Revise(network) => EventView::Revise(network),
        }
    }
}
