//! The planner: a plan at the lowest total cost, and dual prices that show it, by shortest augmenting paths.
#![tactic(auto)]

mod costs;
mod groups;
mod pair_list;
mod passes;
mod path;
mod planner;
mod search;
mod sequence;
mod state;
mod units;

pub use planner::{Planner, certified_plan, plan};
