//! Events as a book keeps them.
ghost use Rattle.std.specs.Prelude.{◌≡◌, ◌↔◌, IfOk, IsTrue};
ghost use Rattle.commit_book.specs.EventView.{lent_event};
ghost use Rattle.move_messages.specs.declared.event.Event.TheVariants as event;

use crate::EventView;
use move_messages::{Event, Message, is_same_event, is_same_message};
use std::alloc::{AllocError, Global};
use std::marker::Model;

/// An event as a book keeps it. Nearly all are messages, so another event stands behind a pointer, and an entry takes
/// 48 bytes. A contract sees the event.
#[derive(Drop)]
pub struct Entry {
    kept: KeptEvent,
}

/// A message, or any event.
#[derive(Drop)]
enum KeptEvent {
    Message(Message),
    Other(Box<Event>),
}

impl Model for Entry {
    ghost use Rattle.commit_book.specs.inner.KeptEvent.{event_of};
    ghost use Rattle.move_messages.specs.declared.event.Event.{Event};

    ghost Value = { Event };

    ghost view = { λ entry. event_of entry.kept };
}

impl Entry {
    /// The entry of a message.
    pub fn of_message(message: &Message) -> Entry
        ensures { result ≡ event.Message message.now }
    {
        Entry {
            kept: KeptEvent::Message(*message),
        }
    }

    /// The entry of an event.
    pub(crate) fn of_event(boxed: Box<Event>) -> Entry
        ensures { result ≡ boxed.value }
    {
        Entry {
            kept: KeptEvent::Other(boxed),
        }
    }

    /// The entry of an event. Any but a message takes memory.
    pub fn of(alloc: Global, event: Event) -> Result<Entry, AllocError>
        ensures { IfOk result (λ entry. entry ≡ event) }
    {
        match event {
            Event::Message(message) => Ok(Entry::of_message(&message)),
            other => Ok(Entry::of_event(boxed(alloc, other)?)),
        }
    }

    /// The event, lent. Takes no memory.
    pub fn view(&self) -> EventView<'_>
        ensures { lent_event result ≡ self.now }
    {
        match &self.kept {
            KeptEvent::Message(message) => EventView::Message(message),
            KeptEvent::Other(event) => EventView::of(event),
        }
    }

    /// Whether two entries are of one event. Takes no memory.
    pub fn is_same(&self, other: &Entry) -> bool
        ensures { IsTrue result ↔ (self.now ≡ other.now) }
    {
        match &self.kept {
            KeptEvent::Message(message) => match &other.kept {
                KeptEvent::Message(its_message) => is_same_message(message, its_message),
                KeptEvent::Other(event) => is_same_event(&Event::Message(*message), event),
            },
            KeptEvent::Other(event) => other.is_event(event),
        }
    }

    /// Whether it is this event. Takes no memory.
    pub fn is_event(&self, event: &Event) -> bool
        ensures { IsTrue result ↔ (self.now ≡ event.now) }
    {
        match &self.kept {
            KeptEvent::Message(message) => is_same_event(&Event::Message(*message), event),
            KeptEvent::Other(other) => is_same_event(other, event),
        }
    }
}

/// An event behind a pointer. `Err` only when out of memory.
pub(crate) fn boxed(alloc: Global, event: Event) -> Result<Box<Event>, AllocError>
    ensures { IfOk result (λ boxed. boxed.value ≡ event) }
{
    Ok(Box::new(alloc, event)?)
}
