//! The notes of a feed, while its lines are answered.
ghost use Rattle.std.specs.Prelude.{◌≡◌, [], true, IfOk, IfSome, IsOk, OnOk, Some, string_bytes};
ghost use Rattle.commit_book.specs.BookStep.{IsCall};
ghost use Rattle.commit_book.specs.Books.{answer_of};
ghost use Rattle.commit_book.specs.Made.{IsMadeAmong};
ghost use Rattle.commit_book.specs.declared.call.Call.TheVariants as call;
ghost use Rattle.journal_notes.specs.NoteLines.{IsNoteLine};
ghost use Rattle.move_messages.specs.declared.event.Event.TheVariants as event;
ghost use Rattle.reply_texts.specs.Lines.{Adds, AreLines};
ghost use Rattle.sessions.specs.inner.KeptNotes.{AreHeard, AreKept, AreWritten, IsNotedBehind};

use crate::FeedNotes;
use commit_book::{Book, MadeProblem, Refusal, Reply};
use journal_notes::{
    EventBefore, Heard, HeardMessage, Note, Watch, note_line, notes_of, with_ahead_note,
};
use line_engine::MAX_FILES;
use line_network::Network;
use move_messages::{Event, Message};
use std::alloc::{AllocError, Global};
use std::sync::Arc;

/// A line of a file. Both are counted from 1.
#[derive(Clone, Copy)]
pub(crate) struct FileLine {
    pub(crate) file: u32,
    pub(crate) line: u64,
}

/// The notes of the lines so far, and what the next ones need of them.
#[derive(Drop)]
pub(crate) struct KeptNotes {
    networks: Vec<Network>,
    watch: Watch,
    /// The last two messages of each file, by its number; the first ones are of no file.
    heard: Vec<Heard>,
    text: String,
    /// Whether memory was refused for a line or its notes. No note is added from then on.
    is_lost: bool,
}

impl KeptNotes {
    /// Of a book without entries, which runs on these networks, before the first line.
    pub(crate) fn new(
        alloc: Global,
        book: &Book,
        networks: Vec<Network>,
    ) -> Result<KeptNotes, AllocError>
        requires networks { networks.items ≡ book.now.setting.networks }
        requires no_entry { book.now.state.history ≡ [] }
        ensures { IfOk result (AreKept book.now) }
    {
        Ok(KeptNotes {
            networks,
            watch: Watch::of(alloc, book.state()),
            heard: nothing_heard(alloc)?,
            text: String::new(alloc),
            is_lost: false,
        })
    }

    /// The notes.
    pub(crate) fn into_notes(self) -> FeedNotes
        ensures text { result.text ≡ self.text }
        ensures lost { result.is_lost ≡ self.is_lost }
    {
        let KeptNotes {
            networks: _,
            watch: _,
            heard: _,
            text,
            is_lost,
        } = self;
        FeedNotes { text, is_lost }
    }

    /// Says that memory was refused for a line.
    pub(crate) fn lose(&mut self)
        ensures { self.new ≡ record self.old { is_lost = true } }
    {
        self.is_lost = true;
    }

    /// Brings an event to a book, and adds its notes. With a commit may come what was made of a problem over the book's networks.
    pub(crate) fn enter(
        &mut self,
        alloc: Global,
        book: &mut Book,
        from: FileLine,
        event: Event,
        made: Option<Arc<MadeProblem>>,
    ) -> Result<Reply, Refusal>
        requires kept { ∥ AreKept book.old self.old ∥₁ }
        requires made { IfSome made (λ made. IsMadeAmong book.old.setting.networks made.value) }
        ensures call { IsCall book.old.setting book.old.state (call.Event event) (answer_of result) book.new.state }
        ensures setting { book.new.setting ≡ book.old.setting }
        ensures kept { ∥ AreKept book.new self.new ∥₁ }
    {
        let Ok(copy) = event.copy(alloc) else {
            self.is_lost = true;
            return book.submit_with(alloc, event, made);
        };
        let before = EventBefore::of(alloc, &self.networks, book.state(), &copy);
        let answer = book.submit_with(alloc, event, made);
        self.note(alloc, book, from, &copy, before, &answer);
        answer
    }

    /// The same of a message. The row of its wagon is looked for at an index first, where one is given.
    pub(crate) fn enter_message(
        &mut self,
        alloc: Global,
        book: &mut Book,
        from: FileLine,
        message: &Message,
        index: Option<usize>,
    ) -> Result<Reply, Refusal>
        requires kept { ∥ AreKept book.old self.old ∥₁ }
        ensures call { IsCall book.old.setting book.old.state (call.Event (event.Message message.now)) (answer_of result) book.new.state }
        ensures setting { book.new.setting ≡ book.old.setting }
        ensures kept { ∥ AreKept book.new self.new ∥₁ }
    {
        let event = Event::Message(*message);
        let before = EventBefore::of(alloc, &self.networks, book.state(), &event);
        let answer = book.message_near(message, index);
        self.note(alloc, book, from, &event, before, &answer);
        answer
    }

    /// Adds the notes of an event that was answered so, by what they need of the book before it.
    fn note(
        &mut self,
        alloc: Global,
        book: &Book,
        from: FileLine,
        event: &Event,
        before: EventBefore,
        answer: &Result<Reply, Refusal>,
    )
        ensures { IsNotedBehind self.old from event.now before (answer_of answer.now) book.now self.new }
    {
        if self.is_lost {
            return;
        }
        let said = notes_of(alloc, before, event, answer, book.state(), &mut self.watch);
        if self.write(alloc, from, event, said).is_err() {
            self.is_lost = true;
        }
    }

    /// Writes the notes of an event of a line, with the one of the message before it.
    fn write(
        &mut self,
        alloc: Global,
        from: FileLine,
        event: &Event,
        said: Result<Vec<Note>, AllocError>,
    ) -> Result<(), AllocError>
        ensures networks { self.new.networks ≡ self.old.networks }
        ensures watch { self.new.watch ≡ self.old.watch }
        ensures lost { self.new.is_lost ≡ self.old.is_lost }
        ensures written { OnOk result (IfOk said (λ notes. AreWritten self.old from event.now notes.items self.new)) }
        ensures said { OnOk result (IsOk said) }
    {
        let file = from.file as usize;
        let Some(before) = self.heard.get(file).copied() else {
            return Err(AllocError);
        };
        self.heard[file] = before.by_event(from.line, event);
        let notes = with_ahead_note(&before, event, said)?;
        push_lines(alloc, &mut self.text, from, &notes)
    }
}

/// That nothing was heard of any file.
fn nothing_heard(alloc: Global) -> Result<Vec<Heard>, AllocError>
    ensures { IfOk result (λ files. AreHeard [] files.items) }
{
    // The borrow checker has to see the types that `Heard` is made of.
    let none: Option<HeardMessage> = None;
    let nothing = Heard {
        last: none,
        before_last: None,
    };
    Vec::from_elem(alloc, nothing, MAX_FILES + 1)
}

/// Adds a line for each note of a line.
fn push_lines(
    alloc: Global,
    text: &mut String,
    from: FileLine,
    notes: &[Note],
) -> Result<(), AllocError>
    ensures { OnOk result (Adds (AreLines (IsNoteLine (Some from.file) from.line) notes.now) (string_bytes text.old) (string_bytes text.new)) }
{
    for note in notes {
        push_line(alloc, text, from, note)?;
    }
    Ok(())
}

/// Adds the line of a note.
fn push_line(
    alloc: Global,
    text: &mut String,
    from: FileLine,
    note: &Note,
) -> Result<(), AllocError>
    ensures { OnOk result (Adds (IsNoteLine (Some from.file) from.line note.now) (string_bytes text.old) (string_bytes text.new)) }
{
    let object = note_line(alloc, Some(from.file), from.line, note)?;
    text.push_str(&object)?;
    text.push_str("\n")
}
