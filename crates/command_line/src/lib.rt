//! The command line of the program: its words, their options and their help.
#![tactic(auto)]

mod arguments;
mod explained;
mod help;
mod hints;
mod line_options;
mod map_options;
mod moves_options;
mod office_options;
mod plan_options;
mod review_options;
mod state_options;
mod trace_options;
mod values;
mod why_options;
mod words;
mod zone;

pub use explained::Explained;
pub use hints::hint;
pub use line_options::LineOptions;
pub use map_options::MapOptions;
pub use moves_options::{MAX_SILENT_HOURS, MovesOptions};
pub use office_options::{
    FeedOptions, OfficeOptions, ProblemOptions, RunOptions, SaveOptions, Start,
};
pub use plan_options::PlanOptions;
pub use review_options::ReviewOptions;
pub use state_options::StateOptions;
pub use trace_options::{Followed, TraceOptions};
pub use why_options::{Asked, MAX_NEAR, When, WhyOptions};
pub use words::{Word, not_utf8, read_words};
