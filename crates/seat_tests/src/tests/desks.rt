//! Desks, where the seats of a shared book call and are told.

use commit_book::{Call, Refusal, Reply};
use move_messages::Event;
use sessions::{BookLedger, Seat, SharedBook};
use std::alloc::{AllocError, Global};
use std::sync::Wait;
use std::test::Fail;
use test_samples::{Line, call, reply_text};

/// An open shared book, and what the calls of its seats need.
pub(crate) struct Desk<'a, L: BookLedger, R: Wait> {
    pub(crate) rt: &'a R,
    pub(crate) alloc: Global,
    pub(crate) shared: &'a SharedBook<L>,
}

impl<'a, L: BookLedger, R: Wait> Drop for Desk<'a, L, R> {
    fn drop(self) {
        let Self { rt, alloc, shared } = self;
    }
}

impl<'a, L: BookLedger, R: Wait> Desk<'a, L, R> {
    /// What a seat is told on a line's call.
    pub(crate) fn told(&self, seat: &mut Seat<L>, line: Line<'_>) -> Result<String, Fail> {
        let call = call(self.alloc, line)?;
        Ok(self.answer(seat, call)?)
    }

    /// What a seat is told on a call: `accepted 2`, `repeated 1`, `begun 1 network 1`, or `refused` with the number and the
    /// wagon or the order that has changed.
    pub(crate) fn answer(&self, seat: &mut Seat<L>, call: Call) -> Result<String, AllocError> {
        let (rt, alloc, shared) = (self.rt, self.alloc, self.shared);
        match call {
            Call::Event(event) => self.submit(seat, event),
            Call::Begin(at) => {
                let snap = shared.begin(rt, alloc, seat, at)?;
                let (version, network) = (snap.version(), snap.network());
                format!(in alloc; "begun {version} network {network}")
            }
        }
    }

    /// What a seat is told on an event, by the call of its kind.
    fn submit(&self, seat: &mut Seat<L>, event: Event) -> Result<String, AllocError> {
        let (rt, alloc, shared) = (self.rt, self.alloc, self.shared);
        match event {
            Event::Message(message) => text_of(alloc, shared.send(rt, alloc, seat, &message)),
            Event::Place(text) => text_of(alloc, shared.place(rt, alloc, seat, &text)),
            Event::Withdraw(id) => text_of(alloc, shared.withdraw(rt, alloc, seat, id)),
            Event::Commit(commit) => text_of(alloc, shared.commit(rt, alloc, seat, &commit)),
            Event::Revise(network) => text_of(alloc, shared.revise(rt, alloc, seat, network)),
        }
    }
}

/// The text of an answer.
pub(crate) fn text_of(alloc: Global, reply: Result<Reply, Refusal>) -> Result<String, AllocError> {
    match reply {
        Ok(reply) => reply_text(alloc, reply),
        Err(refusal) => refused(alloc, refusal),
    }
}

fn refused(alloc: Global, refusal: Refusal) -> Result<String, AllocError> {
    let number = refusal.number();
    match &refusal {
        Refusal::WagonChanged(wagon) => {
            let wagon = wagon.text(alloc)?;
            format!(in alloc; "refused {number} {wagon}")
        }
        Refusal::OrderChanged(order) => {
            let order = order.text(alloc)?;
            format!(in alloc; "refused {number} {order}")
        }
        _ => format!(in alloc; "refused {number}"),
    }
}
