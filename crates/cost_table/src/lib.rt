//! Cost tables: which wagon may serve which order at which cost, what a missed wagon costs, and the cost of a plan; and the
//! problems that tables are made of, with their names.
#![tactic(auto)]

mod limits;
mod names;
mod pair_names;
mod plan;
mod plan_cost;
mod problem;
mod row;
mod row_block;
mod rows;
mod table_cells;
mod table_rows;

pub use faults::TableFault;
pub use limits::{MAX_COST, MAX_TABLE_LACK, MAX_TABLE_ORDERS, MAX_TABLE_WAGONS};
pub use names::Names;
pub use pair_names::PairNames;
pub use plan::Plan;
pub use plan_cost::cost;
pub use problem::Problem;
pub use row::Row;
pub use row_block::{RowBlock, room_for};
pub use table_cells::Cells;
pub use table_rows::{RowPlace, TableRows};
