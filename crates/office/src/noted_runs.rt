//! The run that brings command lines to a book and writes what a person should hear of to a second sink.
ghost use Rattle.std.specs.Prelude.{◌≡◌, ◌≤◌, ◌∷◌, ◌++◌, false, true, [], Err, MatchResult, None, Ok, decimal, length};
ghost use Rattle.line_engine.specs.Lines.{max_line_bytes};
ghost use Rattle.line_engine.specs.Outcome.{is_refusal};
ghost use Rattle.line_engine.specs.Replies.{max_head_bytes, out_of_memory_body};
ghost use Rattle.line_engine.specs.Runs.{RunsOver};
ghost use Rattle.line_fields.specs.declared.command.Command.TheVariants as command;
ghost use Rattle.journal_notes.specs.NoteLines.{memory_line};
ghost use Rattle.journal_notes.specs.NotedJournal.{first_journal};
ghost use Rattle.office.specs.NoteSinks.{IsWritten};
ghost use Rattle.office.specs.NotedRuns.{WritesBoth};
ghost use Rattle.office.specs.inner.NotedReads.{TakesRead};

use crate::command_lines::push_answer;
use crate::note_sink::NoteSink;
use crate::watched_book::WatchedBook;
use commit_book::Book;
use journal_notes::write_memory_line;
use line_engine::{
    LineLimit, Outcome, ReplyText, Responder, RunCount, RunFault, Sink, Source, run_replies,
};
use line_fields::{Command, LineFault, read_line};
use line_network::Network;
use move_messages::Event;
use rail_codes::Moment;
use reply_texts::push_line_refused;
use std::alloc::{AllocError, Global};
use std::marker::PhantomData;

/// A book, what its notes remember, and where they go.
#[derive(Drop)]
pub struct NotedBook<N> {
    pub kept: WatchedBook,
    pub notes: NoteSink<N>,
}

impl<N: Sink> NotedBook<N> {
    /// A book that runs on these networks, with no note yet.
    pub fn new(alloc: Global, book: Book, networks: Vec<Network>, sink: N) -> NotedBook<N>
        requires { networks.items ≡ book.setting.networks }
        ensures kept { result.kept ≡ first_journal book }
        ensures sink { result.notes.sink ≡ sink }
        ensures failure { result.notes.first_failure ≡ None }
    {
        NotedBook {
            kept: WatchedBook::new(alloc, book, networks),
            notes: NoteSink {
                sink,
                first_failure: None,
            },
        }
    }

    /// The line at whose notes the sink failed first. From then on nothing was written to it.
    pub fn first_failure(&self) -> Option<u64>
        ensures { result ≡ self.now.notes.first_failure }
    {
        self.notes.first_failure
    }

    /// The book as the lines left it, and the sink.
    pub fn into_parts(self) -> (Book, N)
        ensures book { result.0 ≡ self.kept.book }
        ensures sink { result.1 ≡ self.notes.sink }
    {
        let NotedBook { kept, notes } = self;
        let NoteSink {
            sink,
            first_failure: _,
        } = notes;
        (kept.into_book(), sink)
    }

    /// Takes a command: writes its notes, and puts its reply in place of what stood in `reply`.
    fn take_command(
        &mut self,
        alloc: Global,
        number: u64,
        command: &Command,
        reply: &mut ReplyText,
    ) -> Outcome
        ensures { TakesRead N.Sink number self.old (Ok command.now) reply.new (is_refusal result) self.new }
    {
        match command {
            Command::Event(event) => self.take_event(alloc, number, event, reply),
            Command::Begin(at) => self.take_begin(alloc, number, *at, reply),
            Command::Plan(at) => self.take_plan(alloc, number, *at, reply),
            Command::Sheet => self.take_sheet(alloc, number, reply),
        }
    }

    /// Takes an event.
    fn take_event(
        &mut self,
        alloc: Global,
        number: u64,
        event: &Event,
        reply: &mut ReplyText,
    ) -> Outcome
        ensures { TakesRead N.Sink number self.old (Ok (command.Event event.now)) reply.new (is_refusal result) self.new }
    {
        let answer = self.kept.take_event(alloc, number, event, reply);
        self.notes.write(number, reply.as_slice());
        begin_reply(reply, number);
        let pushed = push_answer(reply, answer);
        finish(reply, number, pushed)
    }

    /// Takes a begin.
    fn take_begin(
        &mut self,
        alloc: Global,
        number: u64,
        at: Moment,
        reply: &mut ReplyText,
    ) -> Outcome
        ensures { TakesRead N.Sink number self.old (Ok (command.Begin at)) reply.new (is_refusal result) self.new }
    {
        begin_reply(reply, number);
        match self.kept.begin(alloc, at, reply) {
            Ok(outcome) => outcome,
            Err(_) => self.refuse(number, reply),
        }
    }

    /// Takes a plan.
    fn take_plan(
        &mut self,
        alloc: Global,
        number: u64,
        at: Moment,
        reply: &mut ReplyText,
    ) -> Outcome
        ensures { TakesRead N.Sink number self.old (Ok (command.Plan at)) reply.new (is_refusal result) self.new }
    {
        begin_reply(reply, number);
        match self.kept.plan(alloc, at, reply) {
            Ok(outcome) => outcome,
            Err(_) => self.refuse(number, reply),
        }
    }

    /// Takes a sheet.
    fn take_sheet(&mut self, alloc: Global, number: u64, reply: &mut ReplyText) -> Outcome
        ensures { TakesRead N.Sink number self.old (Ok command.Sheet) reply.new (is_refusal result) self.new }
    {
        begin_reply(reply, number);
        match self.kept.sheet(alloc, reply) {
            Ok(outcome) => outcome,
            Err(_) => self.refuse(number, reply),
        }
    }

    /// Takes a line that is no command.
    fn take_fault(&mut self, number: u64, fault: &LineFault, reply: &mut ReplyText) -> Outcome
        ensures { TakesRead N.Sink number self.old (Err fault.now) reply.new (is_refusal result) self.new }
    {
        begin_reply(reply, number);
        match push_line_refused(reply, fault) {
            Ok(()) => Outcome::Refused,
            Err(_) => self.refuse(number, reply),
        }
    }

    /// Refuses a line for memory: its note and its reply say so.
    fn refuse(&mut self, number: u64, reply: &mut ReplyText) -> Outcome
        ensures text { reply.new ≡ decimal number ++ 32 ∷ out_of_memory_body }
        ensures refused { is_refusal result ≡ true }
        ensures kept { self.new.kept ≡ self.old.kept }
        ensures written { IsWritten N.Sink number (memory_line None number) self.old.notes self.new.notes }
    {
        write_memory_line(reply, None, number);
        self.notes.write(number, reply.as_slice());
        refuse_for_memory(reply, number);
        Outcome::Refused
    }
}

/// Begins the reply to a line anew: its number and a space. Takes no memory.
fn begin_reply(reply: &mut ReplyText, number: u64)
    ensures text { reply.new ≡ decimal number ++ 32 ∷ [] }
    ensures short { length reply.new ≤ max_head_bytes }
{
    reply.clear();
    let _ = reply.push_number(u128::from(number));
    let _ = reply.push_bytes(b" ");
}

/// Makes a line's reply `refused 1`, whatever stood there. Takes no memory.
fn refuse_for_memory(reply: &mut ReplyText, number: u64)
    ensures { reply.new ≡ decimal number ++ 32 ∷ out_of_memory_body }
{
    begin_reply(reply, number);
    let _ = reply.push_bytes(b"refused 1\n");
}

/// A reply as it stands, or `refused 1` where memory was refused for it.
fn finish(reply: &mut ReplyText, number: u64, pushed: Result<Outcome, AllocError>) -> Outcome
    ensures { MatchResult pushed (λ outcome. (result ≡ outcome) × (reply.new ≡ reply.old)) (λ _. (is_refusal result ≡ true) × (reply.new ≡ decimal number ++ 32 ∷ out_of_memory_body)) }
{
    match pushed {
        Ok(outcome) => outcome,
        Err(_) => {
            refuse_for_memory(reply, number);
            Outcome::Refused
        }
    }
}

/// Answers command lines, and writes their notes.
#[derive(Clone, Copy)]
pub struct NotedLines<N> {
    sink: PhantomData<N>,
}

impl<N: Sink> Responder for NotedLines<N> {
    type State = NotedBook<N>;

    ghost replies = { WritesBoth N.Sink };

    fn respond(
        &self,
        alloc: Global,
        noted: &mut NotedBook<N>,
        number: u64,
        line: &[u8],
        _more: bool,
        reply: &mut ReplyText,
    ) -> Outcome {
        match read_line(alloc, line) {
            Ok(command) => noted.take_command(alloc, number, &command, reply),
            Err(LineFault::OutOfMemory) => noted.refuse(number, reply),
            Err(fault) => noted.take_fault(number, &fault, reply),
        }
    }
}

/// Brings the command lines of a reader to a book as `run` does, with the same replies, and writes the notes of each line to a
/// second sink before its reply: an object of JSON on a line of its own for each, all of a line's by one write.
///
/// A line without a note writes nothing there. Where memory is refused for a line or its notes, the note is
/// `{"line":N,"note":"memory"}`. A write to the sink of notes that fails stops nothing: from then on nothing is written to it, and
/// `first_failure` names the line. It stops as `run` does: 1, and 91 to 94 with the line's number.
pub fn run_noted<R: Source, W: Sink, N: Sink>(
    alloc: Global,
    reader: &mut R,
    writer: &mut W,
    noted: &mut NotedBook<N>,
) -> Result<RunCount, RunFault>
    requires reader { R.has_failed reader.old ≡ false }
    requires writer { W.has_failed writer.old ≡ false }
    ensures { RunsOver (WritesBoth N.Sink) max_line_bytes R.Source W.Sink (reader.old, writer.old, noted.old) (reader.new, writer.new, noted.new) result }
{
    let limit = LineLimit::standard();
    let lines = NotedLines { sink: PhantomData };
    run_replies(alloc, limit, reader, writer, &lines, noted)
}
