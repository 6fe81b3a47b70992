//! A book, and what its notes remember.
ghost use Rattle.std.specs.Prelude.{◌≡◌, ◌≤◌, length};
ghost use Rattle.commit_book.specs.BookStep.{IsCall};
ghost use Rattle.commit_book.specs.Books.{answer_of};
ghost use Rattle.commit_book.specs.declared.call.Call.TheVariants as call;
ghost use Rattle.line_engine.specs.Replies.{IsAnswered, max_head_bytes};
ghost use Rattle.line_fields.specs.declared.command.Command.TheVariants as command;
ghost use Rattle.journal_notes.specs.NotedJournal.{first_journal};
ghost use Rattle.office.specs.CommandReplies.{LeavesOutOfMemory, RepliesToCommand};
ghost use Rattle.office.specs.inner.NotedReads.{AreEventLines, KeepsNotes};

use crate::command_lines::{answer_begin, answer_plan, answer_sheet};
use commit_book::{Book, Refusal, Reply};
use journal_notes::{
    EventBefore, Heard, Watch, enter, notes_of, with_ahead_note, write_note_lines,
};
use line_engine::{Outcome, ReplyText};
use line_network::Network;
use move_messages::Event;
use rail_codes::Moment;
use std::alloc::{AllocError, Global};
use std::marker::Model;

/// A book, the networks that it runs on, what its notes remember of it, and the last two messages.
#[derive(Drop)]
pub struct WatchedBook {
    book: Book,
    networks: Vec<Network>,
    watch: Watch,
    heard: Heard,
}

impl Model for WatchedBook {
    ghost use Rattle.std.specs.Prelude.{◌≡◌};
    ghost use Rattle.journal_notes.specs.EventNotes.{office_of};
    ghost use Rattle.journal_notes.specs.NotedJournal.{JournalValue};
    ghost use Rattle.journal_notes.specs.Watches.{IsWatchOf};

    ghost Value = { JournalValue };

    ghost view = { λ kept. record { book = kept.book; streaks = kept.watch.streaks; heard = kept.heard } };

    ghost invariant = { λ kept. (kept.networks.items ≡ kept.book.setting.networks) × IsWatchOf (office_of kept.book) kept.watch };
}

impl WatchedBook {
    /// A book that runs on these networks, before the first line.
    pub(crate) fn new(alloc: Global, book: Book, networks: Vec<Network>) -> WatchedBook
        requires { networks.items ≡ book.setting.networks }
        ensures { result ≡ first_journal book }
    {
        let watch = Watch::of(alloc, book.state());
        WatchedBook {
            book,
            networks,
            watch,
            heard: Heard::nothing(),
        }
    }

    /// The book, as the lines left it.
    pub(crate) fn into_book(self) -> Book
        ensures { result ≡ self.book }
    {
        self.book
    }

    /// Brings an event to the book: its answer. The lines of its notes come in place of what stood in `text`.
    pub(crate) fn take_event(
        &mut self,
        alloc: Global,
        line: u64,
        event: &Event,
        text: &mut ReplyText,
    ) -> Result<Reply, Refusal>
        ensures call { IsCall self.old.book.setting self.old.book.state (call.Event event.now) (answer_of result) self.new.book.state }
        ensures setting { self.new.book.setting ≡ self.old.book.setting }
        ensures notes { AreEventLines line self.old event.now text.new self.new }
    {
        let heard = self.heard;
        let before = EventBefore::of(alloc, &self.networks, self.book.state(), event);
        let answer = enter(alloc, &mut self.book, event);
        let said = notes_of(
            alloc,
            before,
            event,
            &answer,
            self.book.state(),
            &mut self.watch,
        );
        self.heard = heard.by_event(line, event);
        let notes = with_ahead_note(&heard, event, said);
        write_note_lines(alloc, text, None, line, notes);
        answer
    }

    /// Begins a problem, and adds the reply.
    pub(crate) fn begin(
        &mut self,
        alloc: Global,
        at: Moment,
        reply: &mut ReplyText,
    ) -> Result<Outcome, AllocError>
        requires short { length reply.old ≤ max_head_bytes }
        ensures reply { IsAnswered RepliesToCommand LeavesOutOfMemory (command.Begin at) (reply.old, self.old.book) (reply.new, self.new.book) result }
        ensures notes { KeepsNotes self.old self.new }
    {
        answer_begin(alloc, &mut self.book, at, reply)
    }

    /// Begins a problem and plans it, and adds the reply.
    pub(crate) fn plan(
        &mut self,
        alloc: Global,
        at: Moment,
        reply: &mut ReplyText,
    ) -> Result<Outcome, AllocError>
        requires short { length reply.old ≤ max_head_bytes }
        ensures reply { IsAnswered RepliesToCommand LeavesOutOfMemory (command.Plan at) (reply.old, self.old.book) (reply.new, self.new.book) result }
        ensures notes { KeepsNotes self.old self.new }
    {
        answer_plan(alloc, &mut self.book, at, reply)
    }

    /// Adds the reply to a line that asks for the sheet.
    pub(crate) fn sheet(&self, alloc: Global, reply: &mut ReplyText) -> Result<Outcome, AllocError>
        requires short { length reply.old ≤ max_head_bytes }
        ensures reply { IsAnswered RepliesToCommand LeavesOutOfMemory command.Sheet (reply.old, self.now.book) (reply.new, self.now.book) result }
    {
        answer_sheet(alloc, &self.book, reply)
    }
}
