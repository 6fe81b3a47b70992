//! The cost table of a problem over a network: a cell exactly where a free wagon suits an order and reaches it in time.
#![tactic(auto)]

mod alike;
mod allowed;
mod changed;
mod goals;
mod lasting;
mod making;
mod moved;
mod unwanted;

pub use allowed::{cells, timed_cells};
pub use changed::changed_cells;
pub use lasting::TimedCells;
