//! Notes of a journal: what its lines do to a book that a person should hear of, as lines of JSON.
#![tactic(auto)]

mod event_before;
mod events;
mod heard;
mod known_wagon;
mod laws;
mod line_text;
mod message_notes;
mod note;
mod note_lines;
mod note_lists;
mod note_members;
mod noting;
mod office_notes;
mod order_notes;
mod overdue_notes;
mod status_name;
mod streaks;
mod watch;

pub use event_before::EventBefore;
pub use events::{enter, notes_of};
pub use heard::{Heard, is_ahead};
pub use known_wagon::KnownWagon;
pub use laws::promises_are_noted;
pub use line_text::note_line;
pub use note::{
    EndCause, EndedPromise, FilledOrder, HeardMessage, LatestOfOrder, LoadOfOrder, MissingWagons,
    NamedOrder, Note, OverdueOrder, PlaceOfOrder, RefusedMessage, WagonForOrder,
};
pub use note_lines::{push_lines, write_memory_line, write_note_lines};
pub use noting::{NotedJournal, NotesOfLines, note_journal, with_ahead_note};
pub use order_notes::{is_past, lacks_class, lacks_load, lacks_place};
pub use status_name::StatusName;
pub use streaks::{Streak, Streaks};
pub use watch::Watch;
