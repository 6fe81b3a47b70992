//! Which problem a line of a journal is about, with its table.
//!
//! A journal's lines are brought to a book, as a run brings them. A plan line and a begin are about the problem that they begin,
//! and a commit that is accepted about the problem that it names. The problem of the last line comes with its table over the
//! network that was in force in its version.
#![tactic(auto)]

mod bringing;
mod laws;
mod line_steps;
mod problem_key;
mod snapshot_book;
mod snapshots;

pub use bringing::{BroughtLines, PlanLines, plan_lines};
pub use laws::last_line_is_taken;
pub use problem_key::ProblemKey;
