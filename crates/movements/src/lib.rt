//! The promised movements of an office: which wagon goes where, by when, and whether it will be late; the orders that
//! aren't withdrawn, and the wagons that haven't been heard from. As a table for people, as CSV and as lines of JSON.
//!
//! `Err` only when out of memory.
#![tactic(auto)]

mod arrivals;
mod cells;
mod choice;
mod fields;
mod forms;
mod listing;
mod movement;
mod movement_list;
mod need;
mod outlook;
mod rows;
mod silence;
mod spreadsheet;
mod table;
mod words;

pub use choice::Choice;
pub use forms::{json_text, movements_text};
pub use listing::list_of_movements;
pub use movement::{Movement, Way};
pub use movement_list::MovementList;
pub use need::OrderNeed;
pub use outlook::Outlook;
pub use silence::SilentWagon;
pub use spreadsheet::{csv_rows, csv_text};
pub use table::table_text;
