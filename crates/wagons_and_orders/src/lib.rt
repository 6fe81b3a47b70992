//! What an office knows of a wagon and of an order: a wagon's row, and what a movement message makes of it; an order's row,
//! how many wagons it lacks, and which wagon suits it.
#![tactic(auto)]

mod change;
mod free_wagon;
mod load;
mod numbers;
mod order_row;
mod order_state;
mod possible_rows;
mod status;
mod status_table;
mod suitability;
mod wagon_hints;
mod wagon_row;
mod wanted;

pub use change::{Change, Effect};
pub use faults::StepFault;
pub use free_wagon::{FreeWagon, free};
pub use load::Load;
pub use order_row::OrderRow;
pub use order_state::OrderState;
pub use possible_rows::{is_possible, rows_stay_possible};
pub use status::Status;
pub use status_table::step;
pub use suitability::{accepts, carries, suits};
pub use wagon_hints::WagonHints;
pub use wagon_row::WagonRow;
pub use wanted::Wanted;
