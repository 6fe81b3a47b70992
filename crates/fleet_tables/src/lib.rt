//! The wagons and the orders of an office as tables: for people, as CSV, as JSON lines.
//!
//! `Err` only when out of memory.
#![tactic(auto)]

mod order_rows;
mod wagon_rows;

pub use order_rows::orders_text;
pub use wagon_rows::fleet_text;
