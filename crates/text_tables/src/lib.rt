//! Rows of cells as texts: as lines with columns for people, as CSV for a spreadsheet, as lines of JSON for a program; moments
//! as a clock shows them, and places with their names.
//!
//! `Err` only when out of memory, and where CSV is asked for of rows with more or fewer cells than the first.
#![tactic(auto)]

mod aligned;
mod clock;
mod csv_rows;
mod form;
mod json_rows;
mod laws;
mod place_cells;
mod row;

pub use aligned::{Side, push_aligned};
pub use clock::{Clock, shown};
pub use csv_rows::csv_rows_text;
pub use form::{Form, rows_text};
pub use json_rows::{json_rows_text, json_text};
pub use laws::rows_are_lines_of_json;
pub use place_cells::{place_cell, push_place, push_place_in};
pub use row::{Row, titles_row};
