//! A plan for people: a table of the wagons that go and of the orders that miss wagons, as text or as CSV.
//!
//! `Err` only when out of memory.
#![tactic(auto)]

mod listing;
mod phrases;
mod plan_list;
mod rows;
mod spreadsheet;
mod table;

pub use listing::list_of_plan;
pub use plan_list::{PlanList, Reason, Shortfall};
pub use plan_reasons::Journey;
pub use spreadsheet::csv_text;
pub use table::table_text;
