//! The last two messages of a journal, and the note of one that is ahead of those around it.
ghost use Rattle.std.specs.Prelude.{◌≡◌, ◌++◌, OnOk};
ghost use Rattle.journal_notes.specs.Heard.{ahead_notes, heard_at, heard_by_event, is_ahead, nothing_heard};

use crate::note::{HeardMessage, Note};
use move_messages::{Event, Message};
use rail_codes::Moment;
use std::alloc::AllocError;

/// A day in seconds.
const DAY: u64 = 86_400;

/// The last two messages of a journal.
#[derive(Clone, Copy)]
pub struct Heard {
    pub last: Option<HeardMessage>,
    pub before_last: Option<HeardMessage>,
}

impl Heard {
    /// Before the first message.
    pub fn nothing() -> Heard
        ensures { result ≡ nothing_heard }
    {
        Heard {
            last: None,
            before_last: None,
        }
    }

    /// The last two messages behind a line with this event.
    pub fn by_event(self, line: u64, event: &Event) -> Heard
        ensures { result ≡ heard_by_event line self event.now }
    {
        match event {
            Event::Message(message) => Heard {
                last: Some(heard_at(line, message)),
                before_last: self.last,
            },
            Event::Place(_) | Event::Withdraw(_) | Event::Commit(_) | Event::Revise(_) => self,
        }
    }

    /// Adds, at a message of this moment, the note that the message before it is ahead. `Err` only when out of memory.
    pub fn push_ahead_note(&self, notes: &mut Vec<Note>, after: Moment) -> Result<(), AllocError>
        ensures { OnOk result (notes.new.items ≡ notes.old.items ++ ahead_notes self.now after) }
    {
        let Some(before) = self.before_last else {
            return Ok(());
        };
        let Some(this) = self.last else {
            return Ok(());
        };
        if !is_ahead(before.moment, this.moment, after) {
            return Ok(());
        }
        notes.push(Note::Ahead(this))?;
        Ok(())
    }
}

/// The message of a line.
fn heard_at(line: u64, message: &Message) -> HeardMessage
    ensures { result ≡ heard_at line message.now }
{
    HeardMessage {
        line,
        wagon: message.wagon,
        moment: message.moment,
    }
}

/// Whether a moment is a day or more ahead of the one before it and of the one after it.
pub fn is_ahead(before: Moment, this: Moment, after: Moment) -> bool
    ensures { result ≡ is_ahead before this after }
{
    before.seconds() + DAY <= this.seconds() && after.seconds() + DAY <= this.seconds()
}
