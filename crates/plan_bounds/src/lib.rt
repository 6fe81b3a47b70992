//! Bounds: what the prices of a certificate say of every other plan of its table, and of the plans of tables that differ in
//! one order or one wagon.
#![tactic(auto)]

mod bounds;
mod laws;

pub use bounds::{Bounds, has_pair};
pub use laws::{prices_bound_other_plans, prices_bound_other_tables, slacks_are_the_difference};
