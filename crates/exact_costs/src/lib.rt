//! Exact costs: what the best plan costs more without a wagon, with a pair, where an order lacks one wagon more or gets more, and
//! less where it lacks one wagon less. Each number is the cost of a plan of its own, less that of the certified one.
//!
//! `Err` only when out of memory.
#![tactic(auto)]

mod changed_table;
mod exact;
mod further;
mod least;
mod order_costs;

pub use exact::ExactCosts;
pub use further::Further;
pub use order_costs::OrderCosts;
