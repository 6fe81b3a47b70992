//! Why calls of the libraries are refused, and the number of each reason; and the manual of refusals: what each number means,
//! where it comes, its usual cause, and what to do about it. The crates whose calls give a fault export it.
//!
//! There is an entry for each number of the list; that these are the numbers of all faults is a law of `wagons_program`.
#![tactic(auto)]

mod entries;
mod faults;
mod manual;

pub use faults::{
    ApplyFault, CheckFault, CheckpointFault, FeedFault, FleetFault, NamedFault, NetworkFault,
    PlanFault, RecordFault, Refusal, RosterFault, StepFault, TableFault, WorkFault,
};
pub use manual::{entry_text, manual_text};
