//! Runs over command lines: the run of the office, which replies to each line, and the review of a journal.
//!
//! A review brings each line to a book as a run does, and writes notes in place of the reply: on what passes in silence. They
//! tell of orders that no wagon can serve, of members that no command has, of messages that are ahead of the others, and of
//! what isn't told by a line alone.
#![tactic(auto)]

mod brackets;
mod command_lines;
mod fullness;
mod heard;
mod journal_end;
mod line_notes;
mod member_notes;
mod note_sink;
mod note_text;
mod noted_runs;
mod order_notes;
mod reviewing;
mod watched_book;

pub use command_lines::{CommandLines, run};
pub use journal_end::end_note;
pub use line_engine::{
    DeviceFailed, MAX_INPUT_LINES, MAX_LINE_BYTES, RunCount, RunFault, Sink, Source,
};
pub use note_sink::NoteSink;
pub use noted_runs::{NotedBook, NotedLines, run_noted};
pub use reviewing::{JournalNotes, Review, review_journal};
pub use watched_book::WatchedBook;
