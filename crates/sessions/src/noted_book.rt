//! A book, and the notes of its lines where they are asked for.
ghost use Rattle.std.specs.Prelude.{◌≡◌, IfOk, IfSome};
ghost use Rattle.std.specs.Option.{ForSome};
ghost use Rattle.commit_book.specs.BookStep.{IsCall};
ghost use Rattle.commit_book.specs.Books.{IsNoEntry, answer_of, begun_of};
ghost use Rattle.commit_book.specs.Made.{IsMadeAmong};
ghost use Rattle.commit_book.specs.Snap.{snap_of};
ghost use Rattle.commit_book.specs.declared.answer.Answer.TheVariants as answer;
ghost use Rattle.commit_book.specs.declared.call.Call.TheVariants as call;
ghost use Rattle.move_messages.specs.declared.event.Event.TheVariants as event;
ghost use Rattle.sessions.specs.FeedReports.{AreNotesFor};
ghost use Rattle.sessions.specs.inner.KeptNotes.{AreKept};

use crate::FeedNotes;
use crate::kept_notes::{FileLine, KeptNotes};
use commit_book::{Book, MadeProblem, Refusal, Reply, Snap};
use move_messages::{CommitText, Event, Message};
use rail_codes::Moment;
use std::alloc::{AllocError, Global};
use std::sync::Arc;

/// A book, and the notes of its lines where they are asked for: they are those of all lines that led to it.
#[derive(Drop)]
pub(crate) struct NotedBook {
    pub(crate) book: Book,
    pub(crate) notes: Option<KeptNotes>,
    ghost kept: { ForSome notes (λ kept. ∥ AreKept book kept ∥₁) },
}

impl NotedBook {
    /// Lets an event of a line be taken in. With a commit may come what was made of a problem over the book's networks.
    pub(crate) fn enter(
        &mut self,
        alloc: Global,
        from: FileLine,
        event: Event,
        made: Option<Arc<MadeProblem>>,
    ) -> Result<Reply, Refusal>
        requires made { IfSome made (λ made. IsMadeAmong self.old.book.setting.networks made.value) }
        ensures call { IsCall self.old.book.setting self.old.book.state (call.Event event) (answer_of result) self.new.book.state }
        ensures setting { self.new.book.setting ≡ self.old.book.setting }
    {
        let NotedBook { book, notes } = self;
        match notes {
            None => book.submit_with(alloc, event, made),
            Some(kept) => kept.enter(alloc, book, from, event, made),
        }
    }

    /// The same of a message. The row of its wagon is looked for at an index first, where one is given.
    pub(crate) fn enter_message(
        &mut self,
        alloc: Global,
        from: FileLine,
        message: &Message,
        index: Option<usize>,
    ) -> Result<Reply, Refusal>
        ensures call { IsCall self.old.book.setting self.old.book.state (call.Event (event.Message message.now)) (answer_of result) self.new.book.state }
        ensures setting { self.new.book.setting ≡ self.old.book.setting }
    {
        let NotedBook { book, notes } = self;
        match notes {
            None => book.message_near(message, index),
            Some(kept) => kept.enter_message(alloc, book, from, message, index),
        }
    }

    /// What the call for an event is answered where no memory is to be had, which leaves the book as it is. Its notes are lost.
    pub(crate) fn answer_without_memory(&mut self, event: &Event) -> Result<Reply, Refusal>
        ensures call { IsCall self.old.book.setting self.old.book.state (call.Event event.now) (answer_of result) self.old.book.state }
        ensures no_entry { IsNoEntry result }
        ensures book { self.new.book ≡ self.old.book }
    {
        self.lose_notes();
        self.book.answer_without_memory(event)
    }

    /// The same of a commit.
    pub(crate) fn commit_without_memory(&mut self, commit: &CommitText) -> Refusal
        ensures call { IsCall self.old.book.setting self.old.book.state (call.Event (event.Commit commit.now)) (answer.Refused result) self.old.book.state }
        ensures book { self.new.book ≡ self.old.book }
    {
        self.lose_notes();
        self.book.commit_without_memory(commit)
    }

    /// Says that notes are missing, where there are notes.
    pub(crate) fn lose_notes(&mut self)
        ensures { self.new.book ≡ self.old.book }
    {
        let NotedBook { book: _, notes } = self;
        if let Some(kept) = notes {
            kept.lose();
        }
    }

    /// The problem of the book's present version at a moment, which the book keeps.
    pub(crate) fn begin(&mut self, alloc: Global, at: Moment) -> Result<Snap, AllocError>
        ensures call { IsCall self.old.book.setting self.old.book.state (call.Begin at) (begun_of result) self.new.book.state }
        ensures snap { IfOk result (λ snap. snap ≡ snap_of self.old.book.setting self.old.book.state.history at) }
        ensures setting { self.new.book.setting ≡ self.old.book.setting }
    {
        self.book.begin(alloc, at)
    }

    /// The book, and its notes where they were asked for.
    pub(crate) fn into_parts(self) -> (Book, Option<FeedNotes>)
        ensures book { result.0 ≡ self.book }
        ensures notes { IfSome result.1 (AreNotesFor self.book) }
    {
        let NotedBook { book, notes } = self;
        match notes {
            None => (book, None),
            Some(kept) => (book, Some(kept.into_notes())),
        }
    }
}
