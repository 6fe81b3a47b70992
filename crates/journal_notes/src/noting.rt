//! The lines of a journal, brought to a book, and the lines of their notes.
ghost use Rattle.std.specs.Prelude.{◌≡◌, ◌++◌, IfOk, IsOk, OnOk, false};
ghost use Rattle.line_engine.specs.Lines.{max_line_bytes};
ghost use Rattle.line_engine.specs.Runs.{RunsOver};
ghost use Rattle.journal_notes.specs.NotedJournal.{CommandCalls, IsBroughtInPart, NotesBegin, NotesCommand, NotesEvent, NotesLine, WritesNotes, ahead_of_event, first_journal};
ghost use Rattle.commit_book.specs.declared.call.Call.TheVariants as call;
ghost use Rattle.journal_notes.specs.EventNotes.{CallsTo};

use crate::events::bring_event;
use crate::heard::Heard;
use crate::note::Note;
use crate::note_lines::{outcome_of, write_memory_line, write_notes};
use crate::watch::Watch;
use commit_book::Book;
use line_engine::{
    LineLimit, Outcome, ReplyText, Responder, RunCount, RunFault, Sink, Source, run_replies,
};
use line_fields::{Command, LineFault, read_line};
use line_network::Network;
use move_messages::Event;
use rail_codes::Moment;
use std::alloc::{AllocError, Global};
use std::marker::Model;

/// Answers each line of a journal with its notes.
#[derive(Clone, Copy)]
pub struct NotesOfLines;

/// What the notes of a journal have come to: the book, what its notes remember of it, and the last two messages. A contract sees of
/// the watch the messages of each wagon that were refused in a row.
#[derive(Drop)]
pub struct NotedJournal {
    book: Book,
    networks: Vec<Network>,
    watch: Watch,
    heard: Heard,
}

impl Model for NotedJournal {
    ghost use Rattle.std.specs.Prelude.{◌≡◌};
    ghost use Rattle.journal_notes.specs.EventNotes.{office_of};
    ghost use Rattle.journal_notes.specs.NotedJournal.{JournalValue};
    ghost use Rattle.journal_notes.specs.Watches.{IsWatchOf};

    ghost Value = { JournalValue };

    ghost view = { λ journal. record { book = journal.book; streaks = journal.watch.streaks; heard = journal.heard } };

    ghost invariant = { λ journal. (journal.networks.items ≡ journal.book.setting.networks) × IsWatchOf (office_of journal.book) journal.watch };
}

impl NotedJournal {
    /// The notes of a journal that is brought to this book, which runs on these networks.
    pub fn new(alloc: Global, book: Book, networks: Vec<Network>) -> NotedJournal
        requires { networks.items ≡ book.setting.networks }
        ensures { result ≡ first_journal book }
    {
        let watch = Watch::of(alloc, book.state());
        NotedJournal {
            book,
            networks,
            watch,
            heard: Heard::nothing(),
        }
    }

    /// The book, lent.
    pub fn book(&self) -> &Book
        ensures { result.now ≡ self.now.book }
    {
        &self.book
    }

    /// The book, as the lines left it.
    pub fn into_book(self) -> Book
        ensures { result ≡ self.book }
    {
        self.book
    }

    /// Brings a line to the book: its notes. `Err` only when out of memory; the line may have been brought then.
    pub fn take_line(
        &mut self,
        alloc: Global,
        line: u64,
        bytes: &[u8],
    ) -> Result<Vec<Note>, AllocError>
        ensures notes { IfOk result (λ notes. NotesLine line self.old bytes.now notes.items self.new) }
        ensures book { IsBroughtInPart self.old.book bytes.now self.new.book }
    {
        match read_line(alloc, bytes) {
            Ok(command) => self.take_command(alloc, line, &command),
            Err(LineFault::OutOfMemory) => Err(AllocError),
            Err(_) => Ok(Vec::new(alloc)),
        }
    }

    /// The same of what the line says.
    fn take_command(
        &mut self,
        alloc: Global,
        line: u64,
        command: &Command,
    ) -> Result<Vec<Note>, AllocError>
        ensures notes { IfOk result (λ notes. NotesCommand line self.old command.now notes.items self.new) }
        ensures book { CommandCalls self.old.book command.now self.new.book }
    {
        match command {
            Command::Event(event) => self.take_event(alloc, line, event),
            Command::Begin(at) => self.begin(alloc, *at),
            Command::Plan(at) => self.begin(alloc, *at),
            Command::Sheet => Ok(Vec::new(alloc)),
        }
    }

    /// Begins a problem, which has no note.
    fn begin(&mut self, alloc: Global, at: Moment) -> Result<Vec<Note>, AllocError>
        ensures notes { IfOk result (λ notes. NotesBegin self.old at notes.items self.new) }
        ensures book { CallsTo self.old.book (call.Begin at) self.new.book }
    {
        let _snap = self.book.begin(alloc, at)?;
        Ok(Vec::new(alloc))
    }

    /// Brings an event to the book: its notes, and the one of the message before it.
    fn take_event(
        &mut self,
        alloc: Global,
        line: u64,
        event: &Event,
    ) -> Result<Vec<Note>, AllocError>
        ensures notes { IfOk result (λ notes. NotesEvent line self.old event.now notes.items self.new) }
        ensures book { CallsTo self.old.book (call.Event event.now) self.new.book }
    {
        let before = self.heard;
        let said = bring_event(
            alloc,
            &mut self.book,
            &self.networks,
            &mut self.watch,
            event,
        );
        self.heard = before.by_event(line, event);
        with_ahead_note(&before, event, said)
    }
}

/// The notes of an event, and behind them the one of the message before it. `Err` only when out of memory.
pub fn with_ahead_note(
    heard: &Heard,
    event: &Event,
    said: Result<Vec<Note>, AllocError>,
) -> Result<Vec<Note>, AllocError>
    ensures notes { IfOk result (λ notes. IfOk said (λ some. notes.items ≡ some.items ++ ahead_of_event heard.now event.now)) }
    ensures said { OnOk result (IsOk said) }
{
    let mut notes = said?;
    push_ahead_note(&mut notes, heard, event)?;
    Ok(notes)
}

/// Adds, at an event, the note of the message before it.
fn push_ahead_note(notes: &mut Vec<Note>, heard: &Heard, event: &Event) -> Result<(), AllocError>
    ensures { OnOk result (notes.new.items ≡ notes.old.items ++ ahead_of_event heard.now event.now) }
{
    match event {
        Event::Message(message) => heard.push_ahead_note(notes, message.moment),
        Event::Place(_) | Event::Withdraw(_) | Event::Commit(_) | Event::Revise(_) => Ok(()),
    }
}

impl Responder for NotesOfLines {
    type State = NotedJournal;

    ghost replies = { WritesNotes };

    fn respond(
        &self,
        alloc: Global,
        journal: &mut NotedJournal,
        number: u64,
        line: &[u8],
        _more: bool,
        reply: &mut ReplyText,
    ) -> Outcome {
        reply.clear();
        let notes = journal.take_line(alloc, number, line);
        match write_notes(alloc, reply, None, number, notes) {
            Ok(()) => outcome_of(reply),
            Err(_) => {
                write_memory_line(reply, None, number);
                Outcome::Refused
            }
        }
    }
}

/// Brings the lines of a journal to a book, one after the other, as a run does, and writes the notes of each in place of its reply:
/// an object of JSON on a line of its own for each.
///
/// Where memory is refused, the note is `{"line":N,"note":"memory"}`. A line with a note is counted in `refused`. A line has at
/// most 65,536 bytes. It stops as `run_replies` says: 1, and 91 to 94 with the line's number.
pub fn note_journal<R: Source, W: Sink>(
    alloc: Global,
    reader: &mut R,
    writer: &mut W,
    journal: &mut NotedJournal,
) -> Result<RunCount, RunFault>
    requires reader { R.has_failed reader.old ≡ false }
    requires writer { W.has_failed writer.old ≡ false }
    ensures { RunsOver WritesNotes max_line_bytes R.Source W.Sink (reader.old, writer.old, journal.old) (reader.new, writer.new, journal.new) result }
{
    let limit = LineLimit::standard();
    run_replies(alloc, limit, reader, writer, &NotesOfLines, journal)
}
