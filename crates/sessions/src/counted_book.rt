//! The book behind the lock.
ghost use Rattle.std.specs.Prelude.{◌≡◌, ◌≤◌, ◌<◌, ◌+◌, Err, IfOk, IfSome, length};
ghost use Rattle.commit_book.specs.BookStep.{IsCall};
ghost use Rattle.commit_book.specs.Books.{IsNoEntry, answer_of, begun_of, IsSetting};
ghost use Rattle.commit_book.specs.Headline.{IsProved};
ghost use Rattle.commit_book.specs.Made.{IsMadeAmong};
ghost use Rattle.commit_book.specs.Snap.{snap_of};
ghost use Rattle.commit_book.specs.declared.call.Call.TheVariants as call;
ghost use Rattle.move_messages.specs.declared.event.Event.TheVariants as event;
ghost use Rattle.sessions.specs.AnyBook.{IsBooksAnswer};
ghost use Rattle.sessions.specs.inner.Counted.{IsEnteredBy, accepted_in};

use crate::BookLedger;
use crate::kept_notes::FileLine;
use crate::noted_book::NotedBook;
use commit_book::{MadeProblem, Refusal, Reply, Snap};
use move_messages::{CommitText, Event, Message};
use rail_codes::Moment;
use std::alloc::{AllocError, Global};
use std::sync::ledger::{Ledger, Share};
use std::sync::{Arc, ledger};

/// What stands behind the lock: a book with its notes, and the total of the ledger whose shares the seats have. The total is the number of
/// the book's entries, so the counts of all seats add up to it whenever the lock is taken.
#[derive(Drop)]
pub(crate) struct CountedBook<L: BookLedger> {
    pub(crate) noted: NotedBook,
    pub(crate) total: ledger::Book<L>,
    /// A share that has no part, into which those of the seats are merged when the shared book closes.
    pub(crate) rest: Share<L>,
    ghost counted: { length noted.book.state.history ≡ total.total },
    ghost own: { noted.book.setting ≡ L.setting },
    ghost no_part: { rest.parts ≡ 0 },
}

impl<L: BookLedger> CountedBook<L> {
    /// Lets an event of a seat's line be taken in by the book, and counts it on the seat's share if it was accepted. With a commit
    /// may come what was made of a problem over the book's networks.
    pub(crate) fn enter(
        &mut self,
        alloc: Global,
        share: &mut Share<L>,
        from: FileLine,
        event: Event,
        made: Option<Arc<MadeProblem>>,
    ) -> Result<Reply, Refusal>
        requires parts { 0 < share.old.parts }
        requires made { IfSome made (λ made. IsMadeAmong L.setting.networks made.value) }
        ensures entered { IsEnteredBy L.setting self.old.noted.book.state self.new.noted.book.state share.old.amount share.new.amount event result }
        ensures parts { share.new.parts ≡ share.old.parts }
    {
        self.audit(share);
        let CountedBook {
            noted,
            total,
            rest: _,
        } = self;
        let answer = noted.enter(alloc, from, event, made);
        noted.book.for_the_prover();
        let reply = match answer {
            Ok(reply) => reply,
            Err(refusal) => return Err(refusal),
        };
        count(total, share, reply);
        Ok(reply)
    }

    /// The same of a message. The row of its wagon is looked for at an index first, where one is given.
    pub(crate) fn enter_message(
        &mut self,
        alloc: Global,
        share: &mut Share<L>,
        from: FileLine,
        message: &Message,
        index: Option<usize>,
    ) -> Result<Reply, Refusal>
        requires { 0 < share.old.parts }
        ensures entered { IsEnteredBy L.setting self.old.noted.book.state self.new.noted.book.state share.old.amount share.new.amount (event.Message message.now) result }
        ensures parts { share.new.parts ≡ share.old.parts }
    {
        self.audit(share);
        let CountedBook {
            noted,
            total,
            rest: _,
        } = self;
        match noted.enter_message(alloc, from, message, index) {
            Ok(reply) => {
                noted.book.for_the_prover();
                count(total, share, reply);
                Ok(reply)
            }
            Err(refusal) => Err(refusal),
        }
    }

    /// What the call for an event is answered where no memory is to be had, which changes nothing.
    pub(crate) fn answer_without_memory(
        &mut self,
        share: &mut Share<L>,
        event: &Event,
    ) -> Result<Reply, Refusal>
        ensures answered { IsBooksAnswer L.setting share.old.amount event.now result }
        ensures no_entry { IsNoEntry result }
        ensures amount { share.new.amount ≡ share.old.amount }
        ensures parts { share.new.parts ≡ share.old.parts }
    {
        self.audit(share);
        self.noted.answer_without_memory(event)
    }

    /// The same of a commit.
    pub(crate) fn commit_without_memory(
        &mut self,
        share: &mut Share<L>,
        commit: &CommitText,
    ) -> Refusal
        ensures answered { IsBooksAnswer L.setting share.old.amount (event.Commit commit.now) (Err result) }
        ensures amount { share.new.amount ≡ share.old.amount }
        ensures parts { share.new.parts ≡ share.old.parts }
    {
        self.audit(share);
        self.noted.commit_without_memory(commit)
    }

    /// Says that notes are missing, where there are notes.
    pub(crate) fn lose_notes(&mut self) {
        self.noted.lose_notes();
    }

    /// The problem of the book's present version at a moment, which the book keeps. The seat's count is at most the
    /// version.
    pub(crate) fn begin(
        &mut self,
        alloc: Global,
        share: &mut Share<L>,
        at: Moment,
    ) -> Result<Snap, AllocError>
        ensures call { IsCall L.setting self.old.noted.book.state (call.Begin at) (begun_of result) self.new.noted.book.state }
        ensures given { IsSetting L.setting }
        ensures proved { IsProved L.setting self.old.noted.book.state.history }
        ensures within { share.old.amount ≤ length self.old.noted.book.state.history }
        ensures snap { IfOk result (λ snap. snap ≡ snap_of L.setting self.old.noted.book.state.history at) }
        ensures version { IfOk result (λ snap. share.old.amount ≤ snap.version) }
        ensures amount { share.new.amount ≡ share.old.amount }
        ensures parts { share.new.parts ≡ share.old.parts }
    {
        self.audit(share);
        self.noted.begin(alloc, at)
    }

    /// Holds a seat's share against the total, which changes nothing: the book was given what a book can be given, and its
    /// history is as the headline says and has at least as many entries as the seat has receipts.
    fn audit(&mut self, share: &mut Share<L>)
        ensures given { IsSetting L.setting }
        ensures proved { IsProved L.setting self.old.noted.book.state.history }
        ensures within { share.old.amount ≤ length self.old.noted.book.state.history }
        ensures noted { self.new.noted ≡ self.old.noted }
        ensures amount { share.new.amount ≡ share.old.amount }
        ensures parts { share.new.parts ≡ share.old.parts }
    {
        self.noted.book.for_the_prover();
        self.total.audit(share);
    }
}

/// Counts an accepted call on a share.
fn count<L: Ledger>(total: &mut ledger::Book<L>, share: &mut Share<L>, reply: Reply)
    requires { 0 < share.old.parts }
    ensures total { total.new.total ≡ total.old.total + accepted_in reply }
    ensures amount { share.new.amount ≡ share.old.amount + accepted_in reply }
    ensures parts { share.new.parts ≡ share.old.parts }
    ensures bound { share.new.amount ≤ total.new.total }
{
    if let Reply::Accepted(_) = reply {
        total.add(share, 1);
    }
    total.audit(share);
}
