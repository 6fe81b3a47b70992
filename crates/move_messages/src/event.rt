//! Events: what a line may bring to an office.
ghost use Rattle.std.specs.Prelude.{◌≡◌, ◌↔◌, IfOk, IsTrue};

use crate::commit_text::{CommitText, is_same_commit};
use crate::message::{Message, is_same_message};
use crate::order_text::{OrderText, is_same_order};
use rail_codes::OrderId;
use std::alloc::{AllocError, Global};

/// What happens to an office.
#[derive(Drop)]
pub enum Event {
    /// A movement message comes.
    Message(Message),
    /// An order is placed.
    Place(OrderText),
    /// An order is withdrawn.
    Withdraw(OrderId),
    /// The pairs of a plan are promised.
    Commit(CommitText),
    /// The network of this number, counted from 1, is in force from now on.
    Revise(u32),
}

impl Event {
    /// The same event again. Only a commit's copy takes memory.
    pub fn copy(&self, alloc: Global) -> Result<Event, AllocError>
        ensures { IfOk result (λ copy. copy ≡ self.now) }
    {
        let copy = match self {
            Event::Message(message) => Event::Message(*message),
            Event::Place(text) => Event::Place(*text),
            Event::Withdraw(id) => Event::Withdraw(*id),
            Event::Commit(commit) => Event::Commit(commit.copy(alloc)?),
            Event::Revise(network) => Event::Revise(*network),
        };
        Ok(copy)
    }
}

/// Whether two events are one, part by part.
pub fn is_same_event(one: &Event, other: &Event) -> bool
    ensures { IsTrue result ↔ (one.now ≡ other.now) }
{
    match one {
        Event::Message(message) => match other {
            Event::Message(its_message) => is_same_message(message, its_message),
            _ => false,
        },
        Event::Place(text) => match other {
            Event::Place(its_text) => is_same_order(text, its_text),
            _ => false,
        },
        Event::Withdraw(id) => match other {
            Event::Withdraw(its_id) => is_same_id(*id, *its_id),
            _ => false,
        },
        Event::Commit(commit) => match other {
            Event::Commit(its_commit) => is_same_commit(commit, its_commit),
            _ => false,
        },
        Event::Revise(network) => match other {
            Event::Revise(its_network) => network == its_network,
            _ => false,
        },
    }
}

fn is_same_id(one: OrderId, other: OrderId) -> bool
    ensures { IsTrue result ↔ (one ≡ other) }
{
    one == other
}
