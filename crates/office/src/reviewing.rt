//! The review of a journal.
ghost use Rattle.std.specs.Prelude.{◌≡◌, ◌≢◌, Err, false, IfOk, IsOk, MatchResult, OnOk, length, nat_lt, string_bytes};
ghost use Rattle.line_engine.specs.Lines.{max_line_bytes};
ghost use Rattle.line_engine.specs.Outcome.{is_refusal};
ghost use Rattle.line_engine.specs.Runs.{RunsOver};
ghost use Rattle.line_fields.specs.Commands.{command_of};
ghost use Rattle.line_fields.specs.Fields.{Gives};
ghost use Rattle.line_fields.specs.declared.fault.LineFault.TheVariants.{OutOfMemory};
ghost use Rattle.office.specs.CommandNotes.{AreLineNotes};
ghost use Rattle.office.specs.Reviews.{IsReviewed, IsReviewedInPart, Reviews, first_review, heard_by, known_before, memory_note};
ghost use Rattle.office.specs.inner.Reviewing.{IsBrought, with_fullness_notes};

use crate::command_lines::CommandLines;
use crate::fullness::push_fullness_note;
use crate::line_notes::{Known, line_notes};
use commit_book::{Book, Limits};
use journal_notes::Heard;
use line_engine::{
    Handler, LineLimit, MAX_INPUT_LINES, Outcome, ReplyText, Responder, RunCount, RunFault, Sink,
    Source, run_replies,
};
use line_fields::{Command, LineFault, read_line};
use line_network::Network;
use place_names::Places;
use std::alloc::{AllocError, Global};
use std::marker::Model;

/// Answers each line of a journal with its notes.
#[derive(Clone, Copy)]
pub struct JournalNotes;

/// What a review has come to: the book, and what it knows of the lines before. A contract sees the book, the names of places, the
/// number of the last line that wasn't blank, and the last two messages.
#[derive(Drop)]
pub struct Review {
    book: Book,
    networks: Vec<Network>,
    named: Places,
    limits: Limits,
    line: u64,
    heard: Heard,
}

/// How many entries a book has, and which line was the last that wasn't blank.
#[derive(Clone, Copy)]
struct Counts {
    entries: u64,
    lines: u64,
}

impl Model for Review {
    ghost use Rattle.std.specs.Prelude.{◌≡◌};
    ghost use Rattle.office.specs.Reviews.{ReviewValue};

    ghost Value = { ReviewValue };

    ghost view = { λ r. record { book = r.book; named = r.named; line = r.line; heard = r.heard } };

    ghost invariant = { λ r. (r.networks.items ≡ r.book.setting.networks) × (r.limits.entries ≡ r.book.setting.entries) };
}

impl Review {
    /// The review of a journal that is brought to this book, which runs on these networks and has these limits. `named` has the
    /// names of places.
    pub fn new(book: Book, networks: Vec<Network>, limits: Limits, named: Places) -> Review
        requires networks { networks.items ≡ book.setting.networks }
        requires limits { limits.entries ≡ book.setting.entries }
        ensures { result ≡ first_review book named }
    {
        Review {
            book,
            networks,
            named,
            limits,
            line: 0,
            heard: Heard::nothing(),
        }
    }

    /// The book, as the lines left it.
    pub fn into_book(self) -> Book
        ensures { result ≡ self.book }
    {
        self.book
    }

    /// Brings a line to the book, and puts its notes in place of what stood in `reply`. `Err` only when out of memory; the line
    /// is brought then as far as memory allowed.
    fn take_line(
        &mut self,
        alloc: Global,
        line: u64,
        bytes: &[u8],
        reply: &mut ReplyText,
    ) -> Result<(), AllocError>
        ensures { MatchResult result (λ _. IsReviewed line self.old bytes.now reply.new self.new) (λ _. IsReviewedInPart line self.old bytes.now self.new) }
    {
        let read = read_line(alloc, bytes);
        let said = self.line_notes(alloc, line, bytes, &read);
        let before = self.counts();
        match self.bring(alloc, line, bytes, &read, reply) {
            Ok(()) => self.write_notes(line, said, before, reply),
            Err(refused) => Err(refused),
        }
    }

    /// How many entries there are, and which line was the last that wasn't blank.
    fn counts(&self) -> Counts
        ensures entries { result.entries ≡ length self.now.book.state.history }
        ensures lines { result.lines ≡ self.now.line }
    {
        Counts {
            entries: self.book.len(),
            lines: self.line,
        }
    }

    /// Puts the notes of a line in place of what stood there: those of the line by itself, where there was memory for them, and
    /// those of how full the book and the run are.
    fn write_notes(
        &self,
        line: u64,
        said: Result<String, AllocError>,
        before: Counts,
        notes: &mut ReplyText,
    ) -> Result<(), AllocError>
        ensures said { OnOk result (IsOk said) }
        ensures notes { OnOk result (IfOk said (λ text. notes.new ≡ with_fullness_notes (string_bytes text) line before self.now.book)) }
    {
        let mut text = said?;
        self.push_fullness_notes(&mut text, line, before)?;
        notes.clear();
        notes.push_str(&text)
    }

    /// The notes of a line, by what it was read as. `Err` too where it wasn't read for lack of memory.
    fn line_notes(
        &self,
        alloc: Global,
        line: u64,
        bytes: &[u8],
        read: &Result<Command, LineFault>,
    ) -> Result<String, AllocError>
        requires { Gives (λ command. command) read.now (command_of bytes.now) }
        ensures notes { IfOk result (λ text. AreLineNotes line (known_before self.now) bytes.now (string_bytes text)) }
        ensures is_read { OnOk result (read.now ≢ Err OutOfMemory) }
    {
        let known = Known {
            networks: &self.networks,
            named: &self.named,
            wagons: self.book.state().wagon_rows(),
            heard: &self.heard,
        };
        line_notes(alloc, line, &known, bytes, read)
    }

    /// Brings a line to the book, with the reply of a run in `scratch`.
    fn bring(
        &mut self,
        alloc: Global,
        line: u64,
        bytes: &[u8],
        read: &Result<Command, LineFault>,
        scratch: &mut ReplyText,
    ) -> Result<(), AllocError>
        ensures brought { IsBrought bytes.now self.old.book self.new.book result }
        ensures setting { self.new.book.setting ≡ self.old.book.setting }
        ensures named { self.new.named ≡ self.old.named }
        ensures line { self.new.line ≡ line }
        ensures heard { self.new.heard ≡ heard_by line self.old.heard read.now }
    {
        self.heard = heard_by(line, self.heard, read);
        self.line = line;
        bring_line(alloc, &mut self.book, bytes, scratch)
    }

    /// Adds the notes that the book or the run has become nine tenths full, by how many entries and lines there were before.
    fn push_fullness_notes(
        &self,
        text: &mut String,
        line: u64,
        before: Counts,
    ) -> Result<(), AllocError>
        ensures { OnOk result (string_bytes text.new ≡ with_fullness_notes (string_bytes text.old) line before self.now.book) }
    {
        let entries = self.book.len();
        let most = self.limits.entries();
        push_fullness_note(text, line, "entries", before.entries, entries, most)?;
        push_fullness_note(text, line, "lines", before.lines, line, MAX_INPUT_LINES)
    }
}

/// Brings a line to a book, with the reply of a run in `scratch`.
fn bring_line(
    alloc: Global,
    book: &mut Book,
    bytes: &[u8],
    scratch: &mut ReplyText,
) -> Result<(), AllocError>
    ensures brought { IsBrought bytes.now book.old book.new result }
    ensures setting { book.new.setting ≡ book.old.setting }
{
    scratch.clear();
    let _outcome = CommandLines.answer(alloc, book, bytes, false, scratch)?;
    Ok(())
}

/// The last two messages behind a line.
fn heard_by(line: u64, heard: Heard, read: &Result<Command, LineFault>) -> Heard
    ensures { result ≡ heard_by line heard read.now }
{
    match read {
        Ok(Command::Event(event)) => heard.by_event(line, event),
        _ => heard,
    }
}

impl Responder for JournalNotes {
    type State = Review;

    ghost replies = { Reviews };

    fn respond(
        &self,
        alloc: Global,
        review: &mut Review,
        number: u64,
        line: &[u8],
        _more: bool,
        reply: &mut ReplyText,
    ) -> Outcome {
        match review.take_line(alloc, number, line, reply) {
            Ok(()) => outcome_of(reply),
            Err(_) => {
                write_memory_note(reply, number);
                Outcome::Refused
            }
        }
    }
}

/// A line counts as refused where there is a note.
fn outcome_of(notes: &ReplyText) -> Outcome
    ensures { is_refusal result ≡ nat_lt 0 (length notes.now) }
{
    if notes.as_slice().is_empty() {
        Outcome::Answered
    } else {
        Outcome::Refused
    }
}

/// Puts the note of a line that is reviewed in part in place of what stood there. Takes no memory.
fn write_memory_note(notes: &mut ReplyText, line: u64)
    ensures { notes.new ≡ memory_note line }
{
    notes.clear();
    let _ = notes.push_number(u128::from(line));
    let _ = notes.push_bytes(b" memory\n");
}

/// Brings the lines of a journal to a book, one after the other, as a run does, and writes the notes of each in place of its reply.
///
/// The notes are those of the manual; blank lines have none. Where memory is refused, the note is `N memory`. A line with a note
/// is counted in `refused`. A line has at most 65,536 bytes. It stops as `run_lines` says: 1, and 91 to 94 with the line's
/// number.
pub fn review_journal<R: Source, W: Sink>(
    alloc: Global,
    reader: &mut R,
    writer: &mut W,
    review: &mut Review,
) -> Result<RunCount, RunFault>
    requires reader { R.has_failed reader.old ≡ false }
    requires writer { W.has_failed writer.old ≡ false }
    ensures { RunsOver Reviews max_line_bytes R.Source W.Sink (reader.old, writer.old, review.old) (reader.new, writer.new, review.new) result }
{
    let limit = LineLimit::standard();
    run_replies(alloc, limit, reader, writer, &JournalNotes, review)
}
