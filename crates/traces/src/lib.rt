//! What happened to a wagon or an order, line by line of a journal.
//!
//! A journal's lines are brought to a book, as a run brings them. An event that names what is asked for, or changes its row, has
//! a step: the line, what the event says, how it was answered, and the row before and after it. The steps are printed as rows
//! for people, as CSV and as lines of JSON.
#![tactic(auto)]

mod asked;
mod asked_row;
mod cells;
mod event_brief;
mod following;
mod laws;
mod line_steps;
mod order_steps;
mod step;
mod text;
mod wagon_steps;

pub use asked::Asked;
pub use asked_row::AskedRow;
pub use event_brief::{CommitBrief, EventBrief};
pub use following::{FollowedLines, Trace, trace_journal};
pub use laws::rows_are_chained;
pub use step::{Step, StepAnswer};
pub use text::trace_text;
