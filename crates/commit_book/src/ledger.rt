//! The accepted events, and the office after them.
ghost use Rattle.std.specs.Prelude.{◌≡◌, ◌<◌, ◌++◌, ◌∷◌, [], IfErr, IfNone, Err, IfOk, IfSome, IsOk, None, OnErr, OnOk, Some, length, option_map, slice_get, vec_capacity, vec_len};
ghost use Rattle.operating_db.specs.After.{after_call};
ghost use Rattle.operating_db.specs.ApplyFault.{IsRefusal};
ghost use Rattle.operating_db.specs.Steps.{IsPromised};
ghost use Rattle.commit_book.specs.History.{IsFresh};
ghost use Rattle.commit_book.specs.inner.Ledger.{IsIndexOf, IsMessageAt, IsMessageEntry, IsNoMessage, IsNoted, message_after, office_of, state_of};
ghost use Rattle.commit_book.specs.inner.MessageIds.{index_of};
ghost use Rattle.rail_codes.specs.declared.message_id.MessageId.{MessageId};

use crate::entry::{Entry, boxed};
use crate::message_ids::MessageIds;
use move_messages::{Event, Message};
use operating_db::{ApplyFault, OfficeState};
use rail_codes::MessageId;
use std::alloc::{AllocError, Global};
use std::marker::Model;

/// What came of a message that was to be entered.
#[derive(Clone, Copy)]
pub(crate) enum MessageEntry {
    /// It is the last event now.
    Entered,
    /// The event at this index is a message of its id.
    Known(usize),
}

/// The accepted events in their order, and the office after them. A contract sees the office that it began with, how many
/// networks there are, and the list of the events.
#[derive(Drop)]
pub(crate) struct Ledger {
    first: OfficeState,
    events: Vec<Entry>,
    // The index of each message among the events, by its id.
    ids: MessageIds,
    state: OfficeState,
}

impl Model for Ledger {
    ghost use Rattle.commit_book.specs.inner.Ledger.{LedgerValue, IsLedger};
    ghost use Rattle.commit_book.specs.inner.MessageIds.{index_of};

    ghost Value = { LedgerValue };

    ghost view = { λ ledger. record { first = ledger.first.office; networks = ledger.state.networks; events = ledger.events.items } };

    ghost invariant = { λ ledger. IsLedger ledger.first ledger.events.items (index_of ledger.ids) ledger.state };
}

impl Ledger {
    /// No event since this office.
    pub fn new(alloc: Global, first: OfficeState) -> Result<Ledger, AllocError>
        ensures { IfOk result (λ ledger. ledger ≡ record { first = first.office; networks = first.networks; events = [] }) }
    {
        let state = first.copy(alloc)?;
        Ok(Ledger {
            first,
            events: Vec::new(alloc),
            ids: MessageIds::none(alloc),
            state,
        })
    }

    /// The office that it began with.
    pub fn first(&self) -> &OfficeState
        ensures { result.now ≡ record { office = self.now.first; networks = self.now.networks } }
    {
        &self.first
    }

    /// How many events there are.
    pub fn len(&self) -> usize
        ensures { result ≡ length self.now.events }
    {
        self.events.len()
    }

    /// The event at an index.
    pub fn get(&self, index: usize) -> Option<&Entry>
        ensures { option_map (λ event. event.now) result ≡ slice_get self.now.events index }
    {
        self.events.get(index)
    }

    /// The office after all events.
    pub fn state(&self) -> &OfficeState
        ensures { result.now ≡ state_of self.now }
    {
        &self.state
    }

    /// The index of the message of an id.
    pub fn find(&self, id: MessageId) -> Option<usize>
        ensures found { IfSome result (λ index. IsMessageAt self.now.events id index) }
        ensures fresh { IfNone result (IsFresh id self.now.events) }
    {
        self.ids.index_of(&id)
    }

    /// Lets a message happen, as the last event, unless an event has its id. Refused as the office refuses it, or
    /// because memory is out where nothing else is wrong; nothing has changed then.
    pub fn enter_message(
        &mut self,
        message: &Message,
        index: Option<usize>,
    ) -> Result<MessageEntry, ApplyFault>
        ensures { IsMessageEntry self.old message.now result self.new }
    {
        // What it changes is some 150 bytes long, so it stays where it was made.
        let found = match self.state.change_by(message, index) {
            Ok(found) => found,
            Err(fault) => return self.known_or_refused(message, fault),
        };
        match note(&mut self.ids, &mut self.events, &message.id) {
            Ok(None) => {}
            Ok(Some(known)) => return Ok(MessageEntry::Known(known)),
            Err(_) => return Err(ApplyFault::OutOfMemory),
        }
        self.state.accept_change(message, &found);
        self.events.push_reserved(Entry::of_message(message));
        Ok(MessageEntry::Entered)
    }

    /// What comes of a message that the office refuses. No memory is asked for.
    fn known_or_refused(
        &self,
        message: &Message,
        fault: ApplyFault,
    ) -> Result<MessageEntry, ApplyFault>
        requires { message_after (state_of self.now) message.now ≡ Err fault }
        ensures { IsMessageEntry self.now message.now result self.now }
    {
        match self.ids.index_of(&message.id) {
            Some(known) => Ok(MessageEntry::Known(known)),
            None => Err(fault),
        }
    }

    /// Lets an event that is no message happen, as the last one; a commit must be possible. Refused as the office
    /// refuses it, or because memory is out where nothing else is wrong; nothing has changed then.
    pub fn enter(&mut self, alloc: Global, event: Event) -> Result<(), ApplyFault>
        requires other { IsNoMessage event }
        requires promised { IsPromised (office_of self.old) event }
        ensures entered { OnOk result (self.new ≡ record self.old { events = self.old.events ++ event ∷ [] }) }
        ensures possible { OnOk result (IsOk (after_call self.old.networks (office_of self.old) event)) }
        ensures refused { IfErr result (λ fault. IsRefusal (after_call self.old.networks (office_of self.old) event) fault) }
        ensures unchanged { OnErr result (self.new ≡ self.old) }
    {
        make_room(&self.state, &mut self.events, &event)?;
        let kept = boxed(alloc, event)?;
        self.state.apply(alloc, &kept)?;
        self.events.push_reserved(Entry::of_event(kept));
        Ok(())
    }

    /// Why an event is refused where no memory is to be had: as the office refuses it, or because memory is out where
    /// nothing else is wrong. Takes no memory.
    pub fn refusal_without_memory(&self, event: &Event) -> ApplyFault
        requires { IsPromised (office_of self.now) event.now }
        ensures { IsRefusal (after_call self.now.networks (office_of self.now) event.now) result }
    {
        match self.state.possible(event) {
            Ok(()) => ApplyFault::OutOfMemory,
            Err(fault) => fault,
        }
    }
}

/// Makes room behind the events for one that is possible. One that isn't is refused as the office refuses it, and no
/// memory is asked for then: the list stays as it was.
fn make_room(state: &OfficeState, events: &mut Vec<Entry>, event: &Event) -> Result<(), ApplyFault>
    requires { IsPromised state.now.office event.now }
    ensures possible { OnOk result (IsOk (after_call state.now.networks state.now.office event.now)) }
    ensures refused { IfErr result (λ fault. IsRefusal (after_call state.now.networks state.now.office event.now) fault) }
    ensures events { events.new.items ≡ events.old.items }
    ensures room { OnOk result (vec_len events.new < vec_capacity events.new) }
    ensures unasked { OnErr (after_call state.now.networks state.now.office event.now) (events.new ≡ events.old) }
{
    if let Err(fault) = state.possible(event) {
        return Err(fault);
    }
    events.reserve(1)?;
    Ok(())
}

/// Notes the index behind the events by the id of a message, and makes room for the message there; or, where an event
/// is a message of this id, gives its index and notes nothing. Where memory is refused, no event is, and nothing is
/// noted.
fn note(
    ids: &mut MessageIds,
    events: &mut Vec<Entry>,
    id: &MessageId,
) -> Result<Option<usize>, AllocError>
    requires { IsIndexOf events.old.items (index_of ids.old) }
    ensures noted { IsNoted events.old.items id.now result (index_of ids.new) }
    ensures events { events.new.items ≡ events.old.items }
    ensures room { IfOk result (λ known. IfNone known (vec_len events.new < vec_capacity events.new)) }
{
    if let Some(known) = known_where_full(ids, events, id)? {
        return Ok(Some(known));
    }
    ids.note(*events.allocator(), id, events.len())
}

/// Makes room behind the events. Where there is none yet, and an event is a message of this id, gives its index, and asks for
/// no memory. Where memory is refused, no event is.
fn known_where_full(
    ids: &MessageIds,
    events: &mut Vec<Entry>,
    id: &MessageId,
) -> Result<Option<usize>, AllocError>
    ensures known { IfOk result (λ known. IfSome known (λ index. index_of ids.now id.now ≡ Some index)) }
    ensures refused { OnErr result (index_of ids.now id.now ≡ None) }
    ensures unasked { IfSome (index_of ids.now id.now) (λ _. events.new ≡ events.old) }
    ensures events { events.new.items ≡ events.old.items }
    ensures room { IfOk result (λ known. IfNone known (vec_len events.new < vec_capacity events.new)) }
{
    if events.len() < events.capacity() {
        return Ok(None);
    }
    if let Some(known) = ids.index_of(id) {
        return Ok(Some(known));
    }
    events.reserve(1)?;
    Ok(None)
}
