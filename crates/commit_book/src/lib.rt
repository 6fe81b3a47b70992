//! The book: a history of events that is legal whatever is called, and commits that are accepted exactly where their
//! prices prove them least in the version that they name.
#![tactic(auto)]

mod answer;
mod ascending_problem;
mod begun_problem;
mod book;
mod call;
mod call_runs;
mod commits;
mod entry;
mod event_view;
mod id_key;
mod kept_problems;
mod laws;
mod ledger;
mod made_problem;
mod message_ids;
mod reply;
mod rising_ids;
mod same_problem;

pub use answer::Answer;
pub use begun_problem::BegunProblem;
pub use book::Book;
pub use call::Call;
pub use entry::Entry;
pub use event_view::EventView;
pub use faults::Refusal;
pub use laws::every_commit_is_proved_least;
pub use made_problem::MadeProblem;
pub use price_checker::{Limits, MAX_ENTRIES, MAX_KEPT_PROBLEMS, Snap};
pub use reply::Reply;
