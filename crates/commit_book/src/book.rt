//! The book: its history, the office after it, and the problems that commits may name.
ghost use Rattle.std.specs.Prelude.{◌≡◌, ◌↔◌, [], IfErr, IfNone, IfOk, IfSome, IsSome, IsTrue, OnErr, OnOk, Some, false, is_some, length, option_map, slice_get, true};
ghost use Rattle.line_network.specs.Networks.{network_at};
ghost use Rattle.operating_db.specs.Problem.{problem_of};
ghost use Rattle.operating_db.specs.RosterOffice.{first_office};
ghost use Rattle.operating_db.specs.Steps.{IsPromised};
ghost use Rattle.commit_book.specs.BookStep.{IsCall, is_full, is_kept};
ghost use Rattle.commit_book.specs.Books.{IsNoEntry, IsSetting, answer_of, begun_of, begun_with, entry_at, present_office, setting_with};
ghost use Rattle.commit_book.specs.inner.Entered.{IsEntered};
ghost use Rattle.commit_book.specs.inner.CommitTests.{IsAccepted, IsRefused};
ghost use Rattle.commit_book.specs.EventView.{lent_event};
ghost use Rattle.commit_book.specs.Headline.{IsProved};
ghost use Rattle.commit_book.specs.History.{IsTableAt, Owes, problem_at, replay, version};
ghost use Rattle.commit_book.specs.Made.{IsMadeAmong};
ghost use Rattle.move_messages.specs.declared.event.Event.TheVariants as event;
ghost use Rattle.commit_book.specs.inner.Kept.{IsChangeable, IsIndexOfKept, IsKeptAt, IsLasting, IsNetworkOf, IsTabled, begun_at, which_of};
ghost use Rattle.commit_book.specs.inner.Ledger.{IsMessageAt, IsNoMessage};
ghost use Rattle.price_checker.specs.Snap.{IsVersionNumber};
ghost use Rattle.commit_book.specs.Snap.{snap_of};
ghost use Rattle.commit_book.specs.declared.answer.Answer.TheVariants.{Refused};
ghost use Rattle.commit_book.specs.declared.call.Call.TheVariants as call;

use crate::ascending_problem::AscendingProblem;
use crate::begun_problem::BegunProblem;
use crate::commits::judge;
use crate::entry::Entry;
use crate::kept_problems::{
    KeptProblem, find_covering, forget_tables, index_of_kept, keep, last_made,
};
use crate::ledger::{Ledger, MessageEntry};
use crate::made_problem::MadeProblem;
use crate::same_problem::is_same_problem;
use crate::{EventView, Limits, Refusal, Reply, Snap};
use cost_table::{Cells, Problem};
use fleet_rows::Roster;
use line_network::{Networks, Tables};
use move_messages::{CommitText, Event, Message, OrderText};
use operating_db::OfficeState;
use rail_codes::{Moment, OrderId};
use std::alloc::{AllocError, Global};
use std::marker::Model;
use std::sync::Arc;

/// A history of events from an office on, which is legal whatever is called; the office after it; and the problems that
/// commits may name. Each `Book` method is one step of such a run, so any `Book` value has a history for which the
/// headline holds. A contract sees what the book was given, its history, and which problems it keeps.
pub struct Book {
    ledger: Ledger,
    networks: Arc<Networks>,
    limits: Limits,
    kept: Vec<KeptProblem>,
}

// Written out, it is proved here once; a derived one, in each crate that drops a value.
impl Drop for Book {
    fn drop(self) {
        let Book {
            ledger: _,
            networks: _,
            limits: _,
            kept: _,
        } = self;
    }
}

impl Model for Book {
    ghost use Rattle.commit_book.specs.Books.{BookValue};
    ghost use Rattle.commit_book.specs.inner.Kept.{IsBookOf, book_of};

    ghost Value = { BookValue };

    ghost view = { λ book. book_of book.ledger book.networks.value book.limits book.kept.items };

    ghost invariant = { λ book. IsBookOf book.ledger book.networks.value book.limits book.kept.items };
}

impl Book {
    /// A book with no entry and no kept problem, which begins with the office of a roster.
    pub fn new(
        alloc: Global,
        roster: Roster,
        networks: Arc<Networks>,
        limits: Limits,
    ) -> Result<Book, AllocError>
        ensures setting { IfOk result (λ book. book.setting ≡ setting_with (first_office roster) networks.value limits) }
        ensures state { IfOk result (λ book. book.state ≡ record { history = []; kept = [] }) }
    {
        let first = OfficeState::new(alloc, &roster, networks.count())?;
        Book::from_office(alloc, first, networks, limits)
    }

    /// A book with no entry and no kept problem, which begins with this office. It must be one where there are as many
    /// networks.
    pub fn from_office(
        alloc: Global,
        first: OfficeState,
        networks: Arc<Networks>,
        limits: Limits,
    ) -> Result<Book, AllocError>
        requires { first.networks ≡ length networks.value }
        ensures setting { IfOk result (λ book. book.setting ≡ setting_with first.office networks.value limits) }
        ensures state { IfOk result (λ book. book.state ≡ record { history = []; kept = [] }) }
    {
        let ledger = Ledger::new(alloc, first)?;
        Ok(Book {
            ledger,
            networks,
            limits,
            kept: Vec::new(alloc),
        })
    }

    /// How many entries there are, at most 1,000,000. Takes no memory.
    pub fn len(&self) -> u64
        ensures value { result ≡ length self.now.state.history }
        ensures limit { IsVersionNumber result }
    {
        self.limits.for_the_prover();
        self.ledger.len() as u64
    }

    /// The entry of a number, counted from 1, lent. Takes no memory.
    pub fn entry(&self, n: u64) -> Option<EventView<'_>>
        ensures { option_map lent_event result ≡ entry_at self.now.state.history n }
    {
        let entry = self.kept_entry(n)?;
        Some(entry.view())
    }

    /// Whether the entry of a number is this event. Takes no memory.
    pub fn is_entry(&self, n: u64, event: &Entry) -> bool
        ensures { IsTrue result ↔ (entry_at self.now.state.history n ≡ Some event.now) }
    {
        match self.kept_entry(n) {
            Some(entry) => entry.is_same(event),
            None => false,
        }
    }

    /// The entry of a number, as it is kept.
    fn kept_entry(&self, n: u64) -> Option<&Entry>
        ensures { option_map (λ event. event.now) result ≡ entry_at self.now.state.history n }
    {
        let index = n.checked_sub(1)?;
        self.ledger.get(index as usize)
    }

    /// The office after all entries. Whatever led to this book, its history is as the headline says, and it was given what
    /// a book can be given. Takes no memory.
    pub fn state(&self) -> &OfficeState
        ensures state { result.now ≡ present_office self.now }
        ensures proved { IsProved self.now.setting self.now.state.history }
        ensures setting { IsSetting self.now.setting }
    {
        self.for_the_prover();
        self.ledger.state()
    }

    /// Does nothing: for the prover alone, it says what holds of every book.
    pub fn for_the_prover(&self)
        ensures proved { IsProved self.now.setting self.now.state.history }
        ensures setting { IsSetting self.now.setting }
    {
        self.ledger.first().for_the_prover();
        self.networks.for_the_prover();
        self.limits.for_the_prover();
    }

    /// Takes an event in: its answer and its refusals, with nothing changed, are those of the call of its kind, `message`,
    /// `place`, `withdraw`, `commit` or `revise`.
    pub fn submit(&mut self, alloc: Global, event: Event) -> Result<Reply, Refusal>
        ensures call { IsCall self.old.setting self.old.state (call.Event event) (answer_of result) self.new.state }
        ensures setting { self.new.setting ≡ self.old.setting }
    {
        match event {
            Event::Message(message) => self.enter_message(&message, None),
            Event::Place(text) => self.enter(alloc, Event::Place(text)),
            Event::Withdraw(id) => self.enter(alloc, Event::Withdraw(id)),
            Event::Commit(commit) => self.enter_commit(alloc, commit),
            Event::Revise(network) => self.enter(alloc, Event::Revise(network)),
        }
    }

    /// The same. With a commit may come what was made of a problem over one of the book's networks: where that is the problem
    /// that the commit names, and the book has no table of it yet, it takes this one and makes none.
    pub fn submit_with(
        &mut self,
        alloc: Global,
        event: Event,
        made: Option<Arc<MadeProblem>>,
    ) -> Result<Reply, Refusal>
        requires { IfSome made (λ made. IsMadeAmong self.old.setting.networks made.value) }
        ensures call { IsCall self.old.setting self.old.state (call.Event event) (answer_of result) self.new.state }
        ensures setting { self.new.setting ≡ self.old.setting }
    {
        if let Some(made) = made {
            self.take(&event, made);
        }
        self.submit(alloc, event)
    }

    /// Takes a movement message in. One that is an entry already is answered with `Repeated`. Refused, with nothing
    /// changed: `IdReused` (71), another message has its id; `BookFull` (72); `UnknownWagon` (73); as the status table
    /// says (31 to 33); `OutOfMemory` (1).
    pub fn message(&mut self, alloc: Global, message: &Message) -> Result<Reply, Refusal>
        ensures call { IsCall self.old.setting self.old.state (call.Event (event.Message message.now)) (answer_of result) self.new.state }
        ensures setting { self.new.setting ≡ self.old.setting }
    {
        self.submit(alloc, Event::Message(*message))
    }

    /// The same. The row of the message's wagon is looked for at an index first, where one is given: it takes less time
    /// where that is right.
    pub fn message_near(
        &mut self,
        message: &Message,
        index: Option<usize>,
    ) -> Result<Reply, Refusal>
        ensures call { IsCall self.old.setting self.old.state (call.Event (event.Message message.now)) (answer_of result) self.new.state }
        ensures setting { self.new.setting ≡ self.old.setting }
    {
        self.enter_message(message, index)
    }

    /// Places an order. Refused, with nothing changed: `BookFull` (72); `OrderKnown` (74); `TooManyOpen` (75);
    /// `OutOfMemory` (1).
    pub fn place(&mut self, alloc: Global, text: &OrderText) -> Result<Reply, Refusal>
        ensures call { IsCall self.old.setting self.old.state (call.Event (event.Place text.now)) (answer_of result) self.new.state }
        ensures setting { self.new.setting ≡ self.old.setting }
    {
        self.submit(alloc, Event::Place(*text))
    }

    /// Withdraws an order. Refused, with nothing changed: `BookFull` (72); `UnknownOrder` (76); `OrderClosed` (77);
    /// `OutOfMemory` (1).
    pub fn withdraw(&mut self, alloc: Global, id: OrderId) -> Result<Reply, Refusal>
        ensures call { IsCall self.old.setting self.old.state (call.Event (event.Withdraw id)) (answer_of result) self.new.state }
        ensures setting { self.new.setting ≡ self.old.setting }
    {
        self.submit(alloc, Event::Withdraw(id))
    }

    /// Puts the network of this number, counted from 1, in force. Refused, with nothing changed: `BookFull` (72);
    /// `UnknownNetwork` (79); `SameNetwork` (80); `OutOfMemory` (1).
    pub fn revise(&mut self, alloc: Global, network: u32) -> Result<Reply, Refusal>
        ensures call { IsCall self.old.setting self.old.state (call.Event (event.Revise network)) (answer_of result) self.new.state }
        ensures setting { self.new.setting ≡ self.old.setting }
    {
        self.submit(alloc, Event::Revise(network))
    }

    /// Promises the pairs of a commit, where its prices prove them to be a plan of least cost of the kept problem that
    /// it names. Refused, with nothing changed: `NotKept` (81); `BookFull` (72); `Check`, as the price checker says of
    /// the pairs and the prices: `NotInProblem` (84), the first pair whose wagon or order isn't in that problem, else
    /// one of 61 to 66; `WagonChanged` (82), the first pair whose wagon isn't free now as it is in the problem;
    /// `OrderChanged` (83), the first pair whose order, with this pair and those before it, lacks fewer wagons now;
    /// `OutOfMemory` (1), which may come in place of 84 and what follows it.
    pub fn commit(&mut self, alloc: Global, commit: &CommitText) -> Result<Reply, Refusal>
        ensures call { IsCall self.old.setting self.old.state (call.Event (event.Commit commit.now)) (answer_of result) self.new.state }
        ensures setting { self.new.setting ≡ self.old.setting }
    {
        match self.judged(alloc, commit) {
            Ok(()) => self.enter_copy(alloc, commit),
            Err(refusal) => Err(refusal),
        }
    }

    /// The problem of the present version at a moment, which is kept so that a commit may name it. It goes behind the
    /// kept ones, unless it is among them; where there are as many as the limit says, the oldest is dropped. Its table is
    /// made when it is asked for, or when a commit names it. `Err` only when out of memory; nothing has changed then.
    pub fn begin(&mut self, alloc: Global, at: Moment) -> Result<Snap, AllocError>
        ensures call { IsCall self.old.setting self.old.state (call.Begin at) (begun_of result) self.new.state }
        ensures snap { IfOk result (λ snap. snap ≡ snap_of self.old.setting self.old.state.history at) }
        ensures kept { OnOk result (is_kept self.new.state.kept (length self.old.state.history, at) ≡ true) }
        ensures setting { self.new.setting ≡ self.old.setting }
    {
        let snap = self.snap(alloc, at)?;
        let _index = self.keep_present(snap.problem())?;
        Ok(snap)
    }

    /// The same, with the problem's table over the network in force. Where a kept problem of this version has a table that is
    /// that of this moment too, the two share it, and none is made.
    pub fn begin_with_table(
        &mut self,
        alloc: Global,
        at: Moment,
    ) -> Result<BegunProblem, AllocError>
        ensures call { IsCall self.old.setting self.old.state (call.Begin at) (begun_with result) self.new.state }
        ensures snap { IfOk result (λ begun. begun.snap ≡ snap_of self.old.setting self.old.state.history at) }
        ensures networks { IfOk result (λ begun. begun.networks ≡ self.old.setting.networks) }
        ensures table { IfOk result (λ begun. IsTableAt self.old.setting self.old.state.history (length self.old.state.history) at begun.table) }
        ensures kept { OnOk result (is_kept self.new.state.kept (length self.old.state.history, at) ≡ true) }
        ensures setting { self.new.setting ≡ self.old.setting }
    {
        let snap = self.snap(alloc, at)?;
        let made = self.made_for(alloc, self.len(), self.state().network(), snap.problem())?;
        let shared = Arc::try_clone(&made)?;
        let networks = Arc::try_clone(&self.networks)?;
        let index = self.keep_present(snap.problem())?;
        self.put(index, shared);
        Ok(BegunProblem::new(snap, made, networks))
    }

    /// What has the table of the problem of a version at a moment, over the network in force in that version; none where that
    /// problem isn't kept. `Err` only when out of memory. The book stays as it is.
    pub fn kept_table(
        &mut self,
        alloc: Global,
        version: u64,
        at: Moment,
    ) -> Result<Option<Arc<MadeProblem>>, AllocError>
        ensures kept { IfOk result (λ made. is_some made ≡ is_kept self.old.state.kept (version, at)) }
        ensures table { IfOk result (λ made. IfSome made (λ made. IsTableAt self.old.setting self.old.state.history version at made.value.timed.cells)) }
        ensures book { self.new ≡ self.old }
    {
        match self.index_of_kept(version, at) {
            Some(index) => Ok(Some(self.table_at(alloc, index)?)),
            None => Ok(None),
        }
    }

    /// What the call for an event is answered where no memory is to be had, and no call is made: what needs none; else
    /// `OutOfMemory` (1), so of an event that would be accepted, and of a commit of a kept problem on a book that isn't
    /// full. Takes no memory.
    pub fn answer_without_memory(&self, event: &Event) -> Result<Reply, Refusal>
        ensures call { IsCall self.now.setting self.now.state (call.Event event.now) (answer_of result) self.now.state }
        ensures no_entry { IsNoEntry result }
    {
        match event {
            Event::Message(message) => self.message_without_memory(message),
            Event::Place(_) => Err(self.refusal_without_memory(event)),
            Event::Withdraw(_) => Err(self.refusal_without_memory(event)),
            Event::Commit(commit) => Err(self.commit_without_memory(commit)),
            Event::Revise(_) => Err(self.refusal_without_memory(event)),
        }
    }

    /// The same of a commit: `NotKept` (81), `BookFull` (72), else `OutOfMemory` (1).
    pub fn commit_without_memory(&self, commit: &CommitText) -> Refusal
        ensures { IsCall self.now.setting self.now.state (call.Event (event.Commit commit.now)) (Refused result) self.now.state }
    {
        if !self.is_kept(commit.version, commit.at) {
            return Refusal::NotKept;
        }
        if self.is_full() {
            return Refusal::BookFull;
        }
        Refusal::OutOfMemory
    }

    /// The same of a message.
    fn message_without_memory(&self, message: &Message) -> Result<Reply, Refusal>
        ensures call { IsCall self.now.setting self.now.state (call.Event (event.Message message.now)) (answer_of result) self.now.state }
        ensures no_entry { IsNoEntry result }
    {
        match self.ledger.find(message.id) {
            Some(index) => self.answer_known(message, index),
            None => Err(self.refusal_without_memory(&Event::Message(*message))),
        }
    }

    /// Why an event that would be an entry is refused where no memory is to be had.
    fn refusal_without_memory(&self, event: &Event) -> Refusal
        requires { IsPromised (replay self.now.setting self.now.state.history) event.now }
        ensures { IsEntered self.now.setting self.now.state event.now (Refused result) self.now.state }
    {
        if self.is_full() {
            return Refusal::BookFull;
        }
        Refusal::from(self.ledger.refusal_without_memory(event))
    }

    /// The networks. Takes no memory.
    pub fn networks(&self) -> &Arc<Networks>
        ensures { result.now.value ≡ self.now.setting.networks }
    {
        &self.networks
    }

    /// Tests a commit, and makes the table of the problem that it names where there is none yet.
    fn judged(&mut self, alloc: Global, commit: &CommitText) -> Result<(), Refusal>
        ensures accepted { OnOk result (IsAccepted self.old.setting self.old.state commit.now) }
        ensures refused { IfErr result (λ refusal. IsRefused self.old.setting self.old.state commit.now refusal) }
        ensures book { self.new ≡ self.old }
    {
        let index = match self.index_of_kept(commit.version, commit.at) {
            Some(index) => index,
            None => return Err(Refusal::NotKept),
        };
        if self.is_full() {
            return Err(Refusal::BookFull);
        }
        let made = match self.table_at(alloc, index) {
            Ok(made) => made,
            Err(_) => return Err(Refusal::OutOfMemory),
        };
        self.judged_by(alloc, index, made.cells(), commit)
    }

    /// Tests a commit of the kept problem at an index by its table, where the book isn't full.
    fn judged_by(
        &self,
        alloc: Global,
        index: usize,
        cells: &Cells,
        commit: &CommitText,
    ) -> Result<(), Refusal>
        requires kept { IsIndexOfKept self.now.state.kept (commit.now.version, commit.now.at) index }
        requires room { is_full self.now.setting self.now.state.history ≡ false }
        requires table { IsTableAt self.now.setting self.now.state.history commit.now.version commit.now.at cells.now }
        ensures accepted { OnOk result (IsAccepted self.now.setting self.now.state commit.now) }
        ensures refused { IfErr result (λ refusal. IsRefused self.now.setting self.now.state commit.now refusal) }
    {
        judge(
            alloc,
            &self.kept[index].problem,
            cells,
            self.state(),
            commit,
        )
    }

    /// Whether there are as many entries as there may be.
    fn is_full(&self) -> bool
        ensures { result ≡ is_full self.now.setting self.now.state.history }
    {
        self.limits.entries() <= self.len()
    }

    /// What a message is answered where the book is full.
    fn answer_full(&self, message: &Message) -> Result<Reply, Refusal>
        requires { is_full self.now.setting self.now.state.history ≡ true }
        ensures { IsCall self.now.setting self.now.state (call.Event (event.Message message.now)) (answer_of result) self.now.state }
    {
        match self.ledger.find(message.id) {
            Some(index) => self.answer_known(message, index),
            None => Err(Refusal::BookFull),
        }
    }

    /// What a message is answered where the event at this index is a message of its id.
    fn answer_known(&self, message: &Message, index: usize) -> Result<Reply, Refusal>
        requires { IsMessageAt self.now.state.history message.now.id index }
        ensures call { IsCall self.now.setting self.now.state (call.Event (event.Message message.now)) (answer_of result) self.now.state }
        ensures no_entry { IsNoEntry result }
    {
        self.limits.for_the_prover();
        match self.ledger.get(index) {
            Some(entry) if entry.is_event(&Event::Message(*message)) => {
                Ok(Reply::Repeated(index as u64 + 1))
            }
            _ => Err(Refusal::IdReused),
        }
    }

    /// Takes a movement message in.
    fn enter_message(&mut self, message: &Message, index: Option<usize>) -> Result<Reply, Refusal>
        ensures call { IsCall self.old.setting self.old.state (call.Event (event.Message message.now)) (answer_of result) self.new.state }
        ensures setting { self.new.setting ≡ self.old.setting }
    {
        if self.is_full() {
            return self.answer_full(message);
        }
        match self.ledger.enter_message(message, index)? {
            MessageEntry::Entered => Ok(Reply::Accepted(self.len())),
            MessageEntry::Known(index) => self.answer_known(message, index),
        }
    }

    /// Tests a commit, and promises its pairs.
    fn enter_commit(&mut self, alloc: Global, commit: CommitText) -> Result<Reply, Refusal>
        ensures call { IsCall self.old.setting self.old.state (call.Event (event.Commit commit)) (answer_of result) self.new.state }
        ensures setting { self.new.setting ≡ self.old.setting }
    {
        // The prover has no plan for `self.judged(..)?` here.
        match self.judged(alloc, &commit) {
            Ok(()) => self.enter(alloc, Event::Commit(commit)),
            Err(refusal) => Err(refusal),
        }
    }

    /// Promises the pairs of a tested commit.
    fn enter_copy(&mut self, alloc: Global, commit: &CommitText) -> Result<Reply, Refusal>
        requires { IsAccepted self.old.setting self.old.state commit.now }
        ensures call { IsCall self.old.setting self.old.state (call.Event (event.Commit commit.now)) (answer_of result) self.new.state }
        ensures setting { self.new.setting ≡ self.old.setting }
    {
        match commit.copy(alloc) {
            Ok(copy) => self.enter(alloc, Event::Commit(copy)),
            Err(_) => Err(Refusal::OutOfMemory),
        }
    }

    /// Lets an event that is no message happen, which pays what it owes, unless the book is full.
    fn enter(&mut self, alloc: Global, event: Event) -> Result<Reply, Refusal>
        requires other { IsNoMessage event }
        requires promised { IsPromised (replay self.old.setting self.old.state.history) event }
        requires owed { Owes self.old.setting self.old.state.history event }
        ensures entered { IsEntered self.old.setting self.old.state event (answer_of result) self.new.state }
        ensures setting { self.new.setting ≡ self.old.setting }
    {
        if self.is_full() {
            return Err(Refusal::BookFull);
        }
        self.ledger.enter(alloc, event)?;
        Ok(Reply::Accepted(self.len()))
    }

    /// The problem of the present version at a moment, as a planner is given it.
    fn snap(&self, alloc: Global, at: Moment) -> Result<Snap, AllocError>
        ensures { IfOk result (λ snap. snap ≡ snap_of self.now.setting self.now.state.history at) }
    {
        let problem = self.present_problem(alloc, at)?;
        Ok(Snap::of(self.len(), self.state().network(), problem))
    }

    /// The problem of the present version at a moment: a copy of the one that is kept last, where that is of this version,
    /// else as the office's rows say.
    fn present_problem(&self, alloc: Global, at: Moment) -> Result<Problem, AllocError>
        ensures { IfOk result (λ problem. problem ≡ problem_of (replay self.now.setting self.now.state.history) at) }
    {
        match self.kept.last() {
            Some(last) if last.version == self.len() => last.problem.copy_at(at),
            _ => self.state().problem(alloc, at),
        }
    }

    /// Keeps the problem of the present version at a moment, unless that problem is kept: the index at which it is.
    fn keep_present(&mut self, problem: &Problem) -> Result<usize, AllocError>
        requires { problem.now ≡ problem_of (replay self.old.setting self.old.state.history) problem.now.at }
        ensures kept { OnOk result (self.new.state ≡ begun_at self.old.setting self.old.state problem.now.at) }
        ensures index { IfOk result (λ index. slice_get self.new.state.kept index ≡ Some (length self.old.state.history, problem.now.at)) }
        ensures setting { self.new.setting ≡ self.old.setting }
        ensures unchanged { OnErr result (self.new ≡ self.old) }
    {
        if let Some(index) = self.index_of_kept(self.len(), problem.at()) {
            return Ok(index);
        }
        let one = self.kept_present(problem)?;
        let most = self.limits.kept() as usize;
        let index = keep(&mut self.kept, most, one)?;
        Ok(index)
    }

    /// The index of the problem of a version at a moment among the kept ones.
    fn index_of_kept(&self, version: u64, at: Moment) -> Option<usize>
        ensures found { IfSome result (IsIndexOfKept self.now.state.kept (version, at)) }
        ensures none { IfNone result (is_kept self.now.state.kept (version, at) ≡ false) }
    {
        index_of_kept(&self.kept, version, at)
    }

    /// Whether the problem of a version at a moment is kept.
    fn is_kept(&self, version: u64, at: Moment) -> bool
        ensures { result ≡ is_kept self.now.state.kept (version, at) }
    {
        self.index_of_kept(version, at).is_some()
    }

    /// The problem of the present version at a moment, to be kept.
    fn kept_present(&self, problem: &Problem) -> Result<KeptProblem, AllocError>
        requires { problem.now ≡ problem_of (replay self.now.setting self.now.state.history) problem.now.at }
        ensures kept { IfOk result (λ one. IsKeptAt self.now.setting self.now.state.history one) }
        ensures which { IfOk result (λ one. which_of one ≡ (length self.now.state.history, problem.now.at)) }
    {
        self.state().for_the_prover();
        Ok(KeptProblem {
            version: self.len(),
            network: self.state().network(),
            problem: AscendingProblem::of(problem.copy()?),
            made: None,
        })
    }

    /// What has the table of the kept problem at an index: it is made where there is none yet, and kept.
    fn table_at(&mut self, alloc: Global, index: usize) -> Result<Arc<MadeProblem>, AllocError>
        requires { IsSome (slice_get self.old.state.kept index) }
        ensures table { IfOk result (λ made. IfSome (slice_get self.old.state.kept index) (λ which. IsTabled self.old.setting self.old.state.history which.0 which.1 made.value)) }
        ensures book { self.new ≡ self.old }
    {
        if let Some(made) = self.made_at(index) {
            return Arc::try_clone(made);
        }
        let made = self.made_of(alloc, index)?;
        let shared = Arc::try_clone(&made)?;
        self.put(index, shared);
        Ok(made)
    }

    /// What has the table of the kept problem at an index, where it was made.
    fn made_at(&self, index: usize) -> Option<&Arc<MadeProblem>>
        requires { IsSome (slice_get self.now.state.kept index) }
        ensures { IfSome result (λ made. IfSome (slice_get self.now.state.kept index) (λ which. IsTabled self.now.setting self.now.state.history which.0 which.1 made.now.value)) }
    {
        self.kept[index].made.as_ref()
    }

    /// What has the table of the kept problem at an index, to be kept there.
    fn made_of(&self, alloc: Global, index: usize) -> Result<Arc<MadeProblem>, AllocError>
        requires { IsSome (slice_get self.now.state.kept index) }
        ensures { IfOk result (λ made. IfSome (slice_get self.now.state.kept index) (λ which. IsTabled self.now.setting self.now.state.history which.0 which.1 made.value)) }
    {
        let kept = &self.kept[index];
        self.made_for(alloc, kept.version, kept.network, kept.problem.problem())
    }

    /// Keeps what has the table of the kept problem at an index. Of the others one table stays, that of the last one.
    fn put(&mut self, index: usize, made: Arc<MadeProblem>)
        requires kept { IsSome (slice_get self.old.state.kept index) }
        requires table { IfSome (slice_get self.old.state.kept index) (λ which. IsTabled self.old.setting self.old.state.history which.0 which.1 made.value) }
        ensures { self.new ≡ self.old }
    {
        self.kept[index].made = Some(made);
        forget_tables(&mut self.kept, index);
    }

    /// Keeps what was made of a problem over one of the networks, where an event is a commit of that problem, and it is kept
    /// without its table.
    fn take(&mut self, event: &Event, made: Arc<MadeProblem>)
        requires { IsMadeAmong self.old.setting.networks made.value }
        ensures { self.new ≡ self.old }
    {
        let Event::Commit(commit) = event else {
            return;
        };
        if let Some(index) = self.index_of_kept(commit.version, commit.at) {
            if self.is_made_of(index, &made) {
                self.put(index, made);
            }
        }
    }

    /// Whether the kept problem at an index is without its table, and this was made of it over the network of its version.
    fn is_made_of(&self, index: usize, made: &MadeProblem) -> bool
        requires kept { IsSome (slice_get self.now.state.kept index) }
        requires made { IsMadeAmong self.now.setting.networks made.now }
        ensures { IsTrue result → IfSome (slice_get self.now.state.kept index) (λ which. IsTabled self.now.setting self.now.state.history which.0 which.1 made.now) }
    {
        let kept = &self.kept[index];
        kept.made.is_none()
            && kept.network == made.network
            && is_same_problem(kept.problem.problem(), &made.problem)
    }

    /// What has the table of the problem of a version at a moment over the network in force in it: what a kept problem of
    /// that version has, where its table is that of this moment too, which is shared; else what is made of the problem.
    fn made_for(
        &self,
        alloc: Global,
        version: u64,
        network: u32,
        problem: &Problem,
    ) -> Result<Arc<MadeProblem>, AllocError>
        requires is_problem { problem.now ≡ problem_at self.now.setting self.now.state.history version problem.now.at }
        requires network { IsNetworkOf self.now.setting self.now.state.history version network }
        ensures { IfOk result (λ made. IsTabled self.now.setting self.now.state.history version problem.now.at made.value) }
    {
        match self.covering(version, problem.at()) {
            Some(made) => Arc::try_clone(made),
            None => self.with_table(alloc, version, network, problem),
        }
    }

    /// What a kept problem of a version has whose table is that of this moment too, where there is one.
    fn covering(&self, version: u64, at: Moment) -> Option<&Arc<MadeProblem>>
        ensures { IfSome result (λ made. IsTabled self.now.setting self.now.state.history version at made.now.value) }
    {
        match find_covering(&self.kept, version, at) {
            Some(kept) => kept.made.as_ref(),
            None => None,
        }
    }

    /// A copy of the problem of a version at a moment, with its table over the network in force in it, to be shared. The
    /// version is for the prover alone.
    fn with_table(
        &self,
        alloc: Global,
        _version: u64,
        network: u32,
        problem: &Problem,
    ) -> Result<Arc<MadeProblem>, AllocError>
        requires is_problem { problem.now ≡ problem_at self.now.setting self.now.state.history _version problem.now.at }
        requires network { IsNetworkOf self.now.setting self.now.state.history _version network }
        ensures { IfOk result (λ made. IsTabled self.now.setting self.now.state.history _version problem.now.at made.value) }
    {
        let made = match self.changeable(network, problem) {
            Some(earlier) => earlier.changed(alloc, problem, self.tables(network))?,
            None => MadeProblem::of(alloc, problem, network, self.tables(network))?,
        };
        Ok(Arc::new(alloc, made)?)
    }

    /// What was made last, where its table can be changed to be that of a problem over the network of this number.
    fn changeable(&self, network: u32, problem: &Problem) -> Option<&Arc<MadeProblem>>
        ensures network { IfSome result (λ made. made.now.value.network ≡ network) }
        ensures changeable { IfSome result (λ made. IsChangeable made.now.value problem.now) }
        ensures lasting { IfSome result (λ made. IsLasting self.now.setting made.now.value) }
    {
        let last = last_made(&self.kept)?;
        if last.network == network && last.is_changeable(problem) {
            Some(last)
        } else {
            None
        }
    }

    /// The distances of the network of a number.
    fn tables(&self, network: u32) -> &Tables
        requires { IsSome (network_at self.now.setting.networks network) }
        ensures { network_at self.now.setting.networks network ≡ Some result.now }
    {
        self.networks.get(network).unwrap()
    }
}
