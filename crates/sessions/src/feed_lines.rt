//! What a file's lines do at the file's seat.
ghost use Rattle.std.specs.Prelude.{◌≡◌, ◌∷◌, [], All, IfSome, Ok};
ghost use Rattle.commit_book.specs.Made.{IsMadeAmong};
ghost use Rattle.price_checker.specs.Snap.{IsInRange};
ghost use Rattle.line_fields.specs.declared.command.Command.TheVariants as command;
ghost use Rattle.move_messages.specs.declared.event.Event.TheVariants as event;
ghost use Rattle.sessions.specs.FedLines.{IsPlannedIn, IsPlansCommit, IsSubmitted, IsTakenIn, counted_of, is_refused, is_repeated, is_step, refused_as, wagon_of};
ghost use Rattle.sessions.specs.PlannersCommit.{IsCommitOf};
ghost use Rattle.sessions.specs.declared.feed_lines.Counted.TheVariants as counted;
ghost use Rattle.sessions.specs.inner.FeedLines.{Adds, AreEventsFed, IsEventFed, IsFedBehind, IsLineBrought, IsOneMore, IsReadBrought, IsReadFed};
ghost use Rattle.sessions.specs.inner.RefusedWagons.{AreNotedBy, IsNotedBehind};

use crate::file_seat::FileSeat;
use crate::planning::{Worked, work_with_table};
use crate::{BookLedger, Seat, SharedBook};
use commit_book::{MadeProblem, Refusal, Reply, Snap};
use line_engine::{Outcome, ReplyText, Responder};
use line_fields::{Command, LineFault, read_line};
use line_network::Networks;
use move_messages::{CommitText, Event, Message};
use rail_codes::{Moment, WagonNumber};
use std::alloc::{AllocError, Global};
use std::collections::VecDeque;
use std::marker::Model;
use std::sync::{Arc, Wait};

/// The most messages of a file that wait to be submitted. A thread that submits many in a row mostly keeps the lock, and the
/// book in its processor's cache.
const MAX_PENDING: usize = 64;

/// A message that waits to be submitted. A contract sees the event that it is.
#[derive(Drop)]
pub(crate) struct Waiting {
    /// The number of its line.
    line: u64,
    message: Message,
    /// Where the row of its wagon stands.
    index: Option<usize>,
}

impl Model for Waiting {
    ghost use Rattle.move_messages.specs.declared.event.Event.{Event};
    ghost use Rattle.move_messages.specs.declared.event.Event.TheVariants as event;

    ghost Value = { Event };

    ghost view = { λ waiting. event.Message waiting.message };
}

/// A file's seat and counts, and its messages that wait to be submitted, in the order of their lines.
#[derive(Drop)]
pub(crate) struct FileLines<'a, L: BookLedger> {
    pub(crate) file: FileSeat<'a, L>,
    pub(crate) pending: VecDeque<Waiting>,
    /// The number of the last line.
    pub(crate) number: u64,
}

/// What a line counts as.
#[derive(Clone, Copy)]
pub(crate) enum Counted {
    Accepted,
    Repeated,
    /// As refused: the status table refused a message of this wagon.
    OutOfStep(WagonNumber),
    Refused,
    Nowhere,
}

impl<'a, L: BookLedger> FileSeat<'a, L> {
    /// Counts a line. One that is accepted is on the seat's own count.
    fn count(&mut self, counted: Counted)
        ensures repeated { Adds (is_repeated counted) self.old.repeated self.new.repeated }
        ensures refused { Adds (is_refused counted) self.old.refused self.new.refused }
        ensures out_of_step { AreNotedBy (counted ∷ []) self.old.out_of_step self.new.out_of_step }
        ensures seat { self.new.seat ≡ self.old.seat }
    {
        match counted {
            Counted::Repeated => self.repeated = self.repeated.saturating_add(1),
            Counted::OutOfStep(wagon) => self.count_out_of_step(wagon),
            Counted::Refused => self.refused = self.refused.saturating_add(1),
            Counted::Accepted | Counted::Nowhere => {}
        }
    }

    /// Counts a message of a wagon that the status table refused.
    fn count_out_of_step(&mut self, wagon: WagonNumber)
        ensures repeated { self.new.repeated ≡ self.old.repeated }
        ensures refused { IsOneMore self.old.refused self.new.refused }
        ensures out_of_step { IsNotedBehind wagon self.old.out_of_step self.new.out_of_step }
        ensures seat { self.new.seat ≡ self.old.seat }
    {
        self.refused = self.refused.saturating_add(1);
        self.out_of_step.note(wagon);
    }
}

/// The wagon of a message.
fn wagon_of(event: &Event) -> Option<WagonNumber>
    ensures { result ≡ wagon_of event.now }
{
    match event {
        Event::Message(message) => Some(message.wagon),
        Event::Place(_) | Event::Withdraw(_) | Event::Commit(_) | Event::Revise(_) => None,
    }
}

/// What an answer counts as, to a message of a wagon or to another event.
fn counted_as(wagon: Option<WagonNumber>, answer: Result<Reply, Refusal>) -> Counted
    ensures { result ≡ counted_of wagon answer }
{
    match answer {
        Ok(Reply::Accepted(_)) => Counted::Accepted,
        Ok(Reply::Repeated(_)) => Counted::Repeated,
        Err(refusal) => refused_as(wagon, &refusal),
    }
}

/// What a refusal counts as.
fn refused_as(wagon: Option<WagonNumber>, refusal: &Refusal) -> Counted
    ensures { result ≡ refused_as wagon refusal.now }
{
    match wagon {
        None => Counted::Refused,
        Some(wagon) => {
            if is_step(refusal) {
                Counted::OutOfStep(wagon)
            } else {
                Counted::Refused
            }
        }
    }
}

/// Whether the status table refuses.
fn is_step(refusal: &Refusal) -> bool
    ensures { result ≡ is_step refusal.now }
{
    match refusal {
        Refusal::Step(_) => true,
        _ => false,
    }
}

/// Brings the lines of a file to a shared book that several files share. It gives no replies.
pub(crate) struct FeedLines<'a, W: Wait, L: BookLedger> {
    pub(crate) rt: &'a W,
    pub(crate) shared: &'a SharedBook<L>,
}

impl<'a, W: Wait, L: BookLedger> Drop for FeedLines<'a, W, L> {
    fn drop(self) {
        let FeedLines { rt: _, shared: _ } = self;
    }
}

impl<'a, W: Wait, L: BookLedger> FeedLines<'a, W, L> {
    /// Does what a line asks for, behind what waits; a message may wait where more lines have been read. A line that isn't
    /// read counts as refused.
    fn bring_line(&self, alloc: Global, lines: &mut FileLines<'a, L>, line: &[u8], more: bool)
        ensures { IsLineBrought lines.old line.now lines.new }
    {
        match read_line(alloc, line) {
            Ok(command) => self.bring(alloc, lines, command, more),
            Err(fault) => {
                self.submit_pending(alloc, lines);
                self.lose_unread(&fault);
                lines.file.count(Counted::Refused);
            }
        }
    }

    /// The notes of a line that isn't read are lost where memory was refused for it.
    fn lose_unread(&self, fault: &LineFault) {
        match fault {
            LineFault::OutOfMemory => self.shared.lose_notes(self.rt),
            _ => {}
        }
    }

    /// What a line counts as for which memory was refused, so that its notes are lost.
    fn without_memory(&self) -> Counted
        ensures { result ≡ counted.Refused }
    {
        self.shared.lose_notes(self.rt);
        Counted::Refused
    }

    /// The same of a command.
    fn bring(&self, alloc: Global, lines: &mut FileLines<'a, L>, command: Command, more: bool)
        ensures { IsReadBrought lines.old (Ok command) lines.new }
    {
        match command {
            Command::Event(event) if more => self.bring_event(alloc, lines, event),
            other => self.feed_behind(alloc, lines, other),
        }
    }

    /// The same of an event behind which more lines have been read.
    fn bring_event(&self, alloc: Global, lines: &mut FileLines<'a, L>, event: Event)
        ensures { IsReadBrought lines.old (Ok (command.Event event)) lines.new }
    {
        match event {
            Event::Message(message) => self.hold(alloc, lines, message),
            other => self.feed_behind(alloc, lines, Command::Event(other)),
        }
    }

    /// Lets a message wait. Where as many wait as may, or memory is refused, it is submitted behind them.
    fn hold(&self, alloc: Global, lines: &mut FileLines<'a, L>, message: Message)
        ensures { IsReadBrought lines.old (Ok (command.Event (event.Message message))) lines.new }
    {
        if lines.pending.len() >= MAX_PENDING {
            return self.feed_behind(alloc, lines, Command::Event(Event::Message(message)));
        }
        // The row is looked for here and not when the message is submitted, since other files wait meanwhile.
        let index = self.shared.index_of(message.wagon);
        let waiting = Waiting {
            line: lines.number,
            message,
            index,
        };
        if let Err(refused) = lines.pending.push_back(waiting) {
            let message = refused.value.message;
            self.feed_behind(alloc, lines, Command::Event(Event::Message(message)));
        }
    }

    /// Does what a command asks for, behind what waits.
    fn feed_behind(&self, alloc: Global, lines: &mut FileLines<'a, L>, command: Command)
        ensures { IsFedBehind lines.old (Ok command) lines.new }
    {
        self.submit_pending(alloc, lines);
        self.feed(alloc, &mut lines.file, lines.number, command);
    }

    /// Submits the messages that wait.
    pub(crate) fn submit_pending(&self, alloc: Global, lines: &mut FileLines<'a, L>)
        ensures fed { AreEventsFed lines.old.pending.items lines.old.file lines.new.file }
        ensures none { lines.new.pending.items ≡ [] }
    {
        if let Some(waiting) = lines.pending.pop_front() {
            self.feed_waiting(alloc, &mut lines.file, waiting);
            self.submit_pending(alloc, lines);
        }
    }

    /// Submits a message that waited, and counts it.
    fn feed_waiting(&self, alloc: Global, file: &mut FileSeat<'a, L>, waiting: Waiting)
        ensures { IsEventFed file.old waiting file.new }
    {
        let Waiting {
            line,
            message,
            index,
        } = waiting;
        let answer = self
            .shared
            .send_near(self.rt, alloc, &mut file.seat, line, &message, index);
        file.count(counted_as(Some(message.wagon), answer));
    }

    /// Does at a file's seat what the command of a line asks for, and counts it.
    fn feed(&self, alloc: Global, file: &mut FileSeat<'a, L>, line: u64, command: Command)
        ensures { IsReadFed file.old (Ok command) file.new }
    {
        let counted = self.take_in(alloc, file.networks, &mut file.seat, line, command);
        file.count(counted);
    }

    /// Does at a seat what a command asks for.
    fn take_in(
        &self,
        alloc: Global,
        networks: &Networks,
        seat: &mut Seat<L>,
        line: u64,
        command: Command,
    ) -> Counted
        requires { networks.now ≡ L.setting.networks }
        ensures { IsTakenIn L.setting seat.old seat.new command result }
    {
        match command {
            Command::Event(event) => self.submit(alloc, seat, line, event),
            Command::Begin(at) => match self.shared.begin(self.rt, alloc, seat, at) {
                Ok(_) => Counted::Nowhere,
                Err(_) => self.without_memory(),
            },
            Command::Plan(at) => self.plan(alloc, networks, seat, line, at),
            Command::Sheet => Counted::Nowhere,
        }
    }

    /// Submits an event at a seat.
    fn submit(&self, alloc: Global, seat: &mut Seat<L>, line: u64, event: Event) -> Counted
        ensures { IsSubmitted L.setting seat.old seat.new event result }
    {
        let wagon = wagon_of(&event);
        counted_as(
            wagon,
            self.shared.submit_line(self.rt, alloc, seat, line, event),
        )
    }

    /// Begins at a moment, plans with no lock held, and commits what was planned. It counts as the commit's answer, or as
    /// refused where the begin or the planning was.
    fn plan(
        &self,
        alloc: Global,
        networks: &Networks,
        seat: &mut Seat<L>,
        line: u64,
        at: Moment,
    ) -> Counted
        requires { networks.now ≡ L.setting.networks }
        ensures { IsPlannedIn L.setting seat.old seat.new at result }
    {
        let Ok(snap) = self.shared.begin(self.rt, alloc, seat, at) else {
            return self.without_memory();
        };
        match planned_commit(alloc, &snap, networks) {
            Some(planned) => self.commit(alloc, seat, line, planned),
            None => self.without_memory(),
        }
    }

    /// Submits the commit of a plan at a seat. Its table comes along, so that none is made while the lock is held.
    fn commit(&self, alloc: Global, seat: &mut Seat<L>, line: u64, planned: Planned) -> Counted
        requires { IsMadeAmong L.setting.networks planned.made.value }
        ensures { IsSubmitted L.setting seat.old seat.new (event.Commit planned.commit) result }
    {
        let Planned { commit, made } = planned;
        let event = Event::Commit(commit);
        let answer = self
            .shared
            .submit_other(self.rt, alloc, seat, line, event, Some(made));
        counted_as(None, answer)
    }
}

/// The commit of a plan, and what has the table of its problem.
#[derive(Drop)]
struct Planned {
    commit: CommitText,
    made: Arc<MadeProblem>,
}

/// The commit of what is planned for a snapshot; none where planning is refused.
fn planned_commit(alloc: Global, snap: &Snap, networks: &Networks) -> Option<Planned>
    ensures commit { IfSome result (λ planned. IsPlansCommit networks.now snap.now planned.commit) }
    ensures made { IfSome result (λ planned. IsMadeAmong networks.now planned.made.value) }
{
    match work_with_table(alloc, snap, networks) {
        Ok(worked) => commit_of(alloc, snap, worked),
        Err(_) => None,
    }
}

/// The commit of a plan for a snapshot, with what has the table; none where memory is refused.
fn commit_of(alloc: Global, snap: &Snap, worked: Worked) -> Option<Planned>
    requires { All (IsInRange snap.now.problem) worked.plan }
    ensures commit { IfSome result (λ planned. IsCommitOf snap.now worked.plan worked.prices.u.items worked.prices.v.items planned.commit) }
    ensures made { IfSome result (λ planned. planned.made.value ≡ worked.made) }
{
    let Worked { plan, prices, made } = worked;
    match snap.commit_text(alloc, &plan, &prices) {
        Ok(commit) => shared_with(alloc, commit, made),
        Err(_) => None,
    }
}

/// A commit with what has its table, to be shared; none where memory is refused.
fn shared_with(alloc: Global, commit: CommitText, made: MadeProblem) -> Option<Planned>
    ensures commit { IfSome result (λ planned. planned.commit ≡ commit) }
    ensures made { IfSome result (λ planned. planned.made.value ≡ made) }
{
    match Arc::new(alloc, made) {
        Ok(made) => Some(Planned { commit, made }),
        Err(_) => None,
    }
}

impl<'a, W: Wait, L: BookLedger> Responder for FeedLines<'a, W, L> {
    type State = FileLines<'a, L>;

    ghost replies = { λ _ old line _ _ new. IsLineBrought old line new };

    fn respond(
        &self,
        alloc: Global,
        lines: &mut FileLines<'a, L>,
        number: u64,
        line: &[u8],
        more: bool,
        _reply: &mut ReplyText,
    ) -> Outcome {
        lines.number = number;
        self.bring_line(alloc, lines, line, more);
        Outcome::Answered
    }
}
