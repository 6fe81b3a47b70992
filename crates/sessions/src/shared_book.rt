//! The shared book: one lock round the book that several seats share.
ghost use Rattle.std.specs.Prelude.{◌≡◌, ◌≤◌, ◌<◌, IfOk, IfSome, OnOk, vec_len, vec_capacity};
ghost use Rattle.commit_book.specs.Made.{IsMadeAmong};
ghost use Rattle.move_messages.specs.declared.event.Event.TheVariants as event;
ghost use Rattle.sessions.specs.AnyBook.{IsSnapAt};
ghost use Rattle.sessions.specs.Seat.{count_of, noted};
ghost use Rattle.sessions.specs.Submitted.{IsSubmitted};

use crate::counted_book::CountedBook;
use crate::{BookLedger, Receipt, Seat};
use commit_book::{Entry, MadeProblem, Refusal, Reply, Snap};
use move_messages::{CommitText, Event, Message, OrderText};
use rail_codes::{Moment, OrderId, WagonNumber};
use std::alloc::{AllocError, Global};
use std::hint::spin_loop;
use std::marker::Model;
use std::sync::{Arc, Mutex, MutexGuard, Wait};
use std::thread::yield_now;

/// How often a call tries to take the lock before it waits in turn. With a yield after each try that is longer than most
/// calls hold it.
const TRIES: u32 = 2_000;

/// The first tries, after each of which a call pauses and doesn't yield.
const QUICK_TRIES: u32 = 64;

/// The number of the line of a call that no line makes.
const NO_LINE: u64 = 0;

/// How many pauses of the processor stand between two quick tries.
const PAUSES: u32 = 100;

/// A book that several seats share. A contract sees how many seats it was opened with.
///
/// Each call of a seat takes the lock, makes one call of the book, and lets go; so each call may wait for others. What a
/// call does to the book is what the book's own call of that name does. No contract can name the book behind the lock: it
/// says that the answer is one that a book of the same setting gives to this call, whose history is as the headline says and has
/// at least as many entries as the seat has receipts.
#[derive(Drop)]
pub struct SharedBook<L: BookLedger> {
    pub(crate) book: Mutex<CountedBook<L>>,
    pub(crate) seats: u32,
    /// The numbers of the book's wagons, ascending.
    pub(crate) wagons: Vec<WagonNumber>,
}

impl<L: BookLedger> Model for SharedBook<L> {
    ghost use Rattle.std.specs.Prelude.{◌≡◌};
    ghost use Rattle.sessions.specs.Seat.{SharedBookValue};

    ghost Value = { SharedBookValue };

    ghost view = { λ shared. record { seats = shared.seats } };

    ghost invariant = { λ shared. shared.seats ≡ L.parts };
}

impl<L: BookLedger> SharedBook<L> {
    /// Sends a movement message. One that is accepted gives the seat a receipt; one that is an entry already is answered
    /// with `Repeated` and gives none. Refused, with book and seat unchanged: as `Book::message` refuses it, where
    /// `OutOfMemory` (1) comes only of a message that would be accepted. May wait.
    pub fn send(
        &self,
        rt: &impl Wait,
        alloc: Global,
        seat: &mut Seat<L>,
        message: &Message,
    ) -> Result<Reply, Refusal>
        ensures { IsSubmitted L.setting seat.old seat.new (event.Message message.now) result }
    {
        self.send_near(
            rt,
            alloc,
            seat,
            NO_LINE,
            message,
            self.index_of(message.wagon),
        )
    }

    /// The same, of a line of this number. The row of the message's wagon is looked for at an index first, where one is given.
    pub(crate) fn send_near(
        &self,
        rt: &impl Wait,
        alloc: Global,
        seat: &mut Seat<L>,
        line: u64,
        message: &Message,
        index: Option<usize>,
    ) -> Result<Reply, Refusal>
        ensures { IsSubmitted L.setting seat.old seat.new (event.Message message.now) result }
    {
        // The receipt's room comes first, then the book's call while the lock is held, then the receipt: once the book has
        // taken the message nothing can fail.
        if seat.receipts.reserve(1).is_err() {
            let mut book = self.locked(rt);
            return book.answer_without_memory(&mut seat.share, &Event::Message(*message));
        }
        let from = seat.line(line);
        let reply = match self
            .locked(rt)
            .enter_message(alloc, &mut seat.share, from, message, index)
        {
            Ok(reply) => reply,
            Err(refusal) => return Err(refusal),
        };
        note(&mut seat.receipts, reply, Entry::of_message(message));
        Ok(reply)
    }

    /// Where the row of a wagon stands among the book's rows, which no wagon joins or leaves. Takes no lock.
    pub(crate) fn index_of(&self, wagon: WagonNumber) -> Option<usize> {
        self.wagons.binary_search(&wagon).ok()
    }

    /// Places an order. One that is accepted gives the seat a receipt. Refused, with book and seat unchanged: as
    /// `Book::place` refuses it, where `OutOfMemory` (1) comes only of an order that would be accepted. May wait.
    pub fn place(
        &self,
        rt: &impl Wait,
        alloc: Global,
        seat: &mut Seat<L>,
        text: &OrderText,
    ) -> Result<Reply, Refusal>
        ensures { IsSubmitted L.setting seat.old seat.new (event.Place text.now) result }
    {
        self.submit(rt, alloc, seat, Event::Place(*text))
    }

    /// Withdraws an order. A withdrawal that is accepted gives the seat a receipt. Refused, with book and seat unchanged:
    /// as `Book::withdraw` refuses it, where `OutOfMemory` (1) comes only of a withdrawal that would be accepted. May wait.
    pub fn withdraw(
        &self,
        rt: &impl Wait,
        alloc: Global,
        seat: &mut Seat<L>,
        id: OrderId,
    ) -> Result<Reply, Refusal>
        ensures { IsSubmitted L.setting seat.old seat.new (event.Withdraw id) result }
    {
        self.submit(rt, alloc, seat, Event::Withdraw(id))
    }

    /// Puts the network of this number, counted from 1, in force. A revision that is accepted gives the seat a receipt.
    /// Refused, with book and seat unchanged: as `Book::revise` refuses it, where `OutOfMemory` (1) comes only of a revision
    /// that would be accepted. May wait.
    pub fn revise(
        &self,
        rt: &impl Wait,
        alloc: Global,
        seat: &mut Seat<L>,
        network: u32,
    ) -> Result<Reply, Refusal>
        ensures { IsSubmitted L.setting seat.old seat.new (event.Revise network) result }
    {
        self.submit(rt, alloc, seat, Event::Revise(network))
    }

    /// Promises the pairs of a commit. One that is accepted gives the seat a receipt. Refused, with book and seat
    /// unchanged: as `Book::commit` refuses it, where `OutOfMemory` (1) comes only behind 81 and 72. May wait.
    pub fn commit(
        &self,
        rt: &impl Wait,
        alloc: Global,
        seat: &mut Seat<L>,
        commit: &CommitText,
    ) -> Result<Reply, Refusal>
        ensures { IsSubmitted L.setting seat.old seat.new (event.Commit commit.now) result }
    {
        let Ok(copy) = commit.copy(alloc) else {
            let mut book = self.locked(rt);
            return Err(book.commit_without_memory(&mut seat.share, commit));
        };
        self.submit_other(rt, alloc, seat, NO_LINE, Event::Commit(copy), None)
    }

    /// The problem of the book's present version at a moment, which the book keeps so that a commit may name it. The
    /// version is at least the seat's count. The seat stays as it was. `Err` only when out of memory. May wait.
    pub fn begin(
        &self,
        rt: &impl Wait,
        alloc: Global,
        seat: &mut Seat<L>,
        at: Moment,
    ) -> Result<Snap, AllocError>
        ensures version { IfOk result (λ snap. count_of seat.old ≤ snap.version) }
        ensures moment { IfOk result (λ snap. snap.problem.at ≡ at) }
        ensures book { IfOk result (IsSnapAt L.setting (count_of seat.old) at) }
        ensures seat { seat.new ≡ seat.old }
    {
        self.locked(rt).begin(alloc, &mut seat.share, at)
    }

    /// Makes the call for an event at a seat, whose answer and refusals are those of the call of its kind: `send`, `place`,
    /// `withdraw`, `commit` or `revise`. May wait.
    pub fn submit(
        &self,
        rt: &impl Wait,
        alloc: Global,
        seat: &mut Seat<L>,
        event: Event,
    ) -> Result<Reply, Refusal>
        ensures { IsSubmitted L.setting seat.old seat.new event result }
    {
        self.submit_line(rt, alloc, seat, NO_LINE, event)
    }

    /// The same, of a line of this number.
    pub(crate) fn submit_line(
        &self,
        rt: &impl Wait,
        alloc: Global,
        seat: &mut Seat<L>,
        line: u64,
        event: Event,
    ) -> Result<Reply, Refusal>
        ensures { IsSubmitted L.setting seat.old seat.new event result }
    {
        match event {
            Event::Message(message) => {
                self.send_near(
                    rt,
                    alloc,
                    seat,
                    line,
                    &message,
                    self.index_of(message.wagon),
                )
            }
            other => self.submit_other(rt, alloc, seat, line, other, None),
        }
    }

    /// The same of a line's event that may want memory for its receipt. With a commit may come what was made of a problem over the
    /// book's networks: where the commit is of that problem, the table is not made while the lock is held.
    pub(crate) fn submit_other(
        &self,
        rt: &impl Wait,
        alloc: Global,
        seat: &mut Seat<L>,
        line: u64,
        event: Event,
        made: Option<Arc<MadeProblem>>,
    ) -> Result<Reply, Refusal>
        requires { IfSome made (λ made. IsMadeAmong L.setting.networks made.value) }
        ensures { IsSubmitted L.setting seat.old seat.new event result }
    {
        // As in `send`, with the receipt's entry too before the call. An answer that gives no receipt needs none of that
        // memory.
        let Ok(copy) = copy_with_room(alloc, &mut seat.receipts, &event) else {
            let mut book = self.locked(rt);
            return book.answer_without_memory(&mut seat.share, &event);
        };
        let from = seat.line(line);
        let reply = match self
            .locked(rt)
            .enter(alloc, &mut seat.share, from, event, made)
        {
            Ok(reply) => reply,
            Err(refusal) => return Err(refusal),
        };
        note(&mut seat.receipts, reply, copy);
        Ok(reply)
    }

    /// Says that notes of the book's lines are missing, where there are notes. May wait.
    pub(crate) fn lose_notes(&self, rt: &impl Wait) {
        self.locked(rt).lose_notes();
    }

    /// The book behind the lock. May wait.
    fn locked(&self, rt: &impl Wait) -> MutexGuard<'_, CountedBook<L>> {
        // Most calls are short, and to sleep and be woken takes long. A try takes the lock's cache line from the thread
        // that holds it, so something must keep the tries apart: pauses at first, which are short, then yields, since the
        // thread that holds the lock may wait for this one's processor.
        for attempt in 0..TRIES {
            if let Some(book) = self.book.try_lock() {
                return book;
            }
            if attempt < QUICK_TRIES {
                pause();
            } else {
                yield_now();
            }
        }
        self.book.lock(rt)
    }
}

/// Waits between two quick tries.
fn pause() {
    for _ in 0..PAUSES {
        spin_loop();
    }
}

/// The entry of a receipt, and room for one more behind the others.
fn copy_with_room(
    alloc: Global,
    receipts: &mut Vec<Receipt>,
    event: &Event,
) -> Result<Entry, AllocError>
    ensures copy { IfOk result (λ copy. copy ≡ event.now) }
    ensures receipts { receipts.new.items ≡ receipts.old.items }
    ensures room { OnOk result (vec_len receipts.new < vec_capacity receipts.new) }
{
    receipts.reserve(1)?;
    Entry::of(alloc, event.copy(alloc)?)
}

/// Puts the receipt of an accepted event behind the others; any other answer gives none.
fn note(receipts: &mut Vec<Receipt>, reply: Reply, event: Entry)
    requires { vec_len receipts.old < vec_capacity receipts.old }
    ensures { receipts.new.items ≡ noted receipts.old.items event reply }
{
    if let Reply::Accepted(entry) = reply {
        receipts.push_reserved(Receipt { entry, event });
    }
}
