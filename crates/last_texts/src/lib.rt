//! What the words of the program print of a book's last version: its problem, its plan, the reasons of that plan, its map,
//! its promised movements, its wagons and orders, and its checkpoint; and the trace of what happened to a wagon or an order.
#![tactic(auto)]

mod fills;
mod map;
mod movers;
mod moves;
mod plan;
mod save;
mod state;
mod table;
mod trace;
mod why;
mod zone;

pub use fills::{FilledJournal, FillsOfLines, LateFills, fill_journal};
pub use map::{choice_of, last_map};
pub use moves::last_moves;
pub use plan::last_plan_text;
pub use save::last_saved;
pub use state::{last_fleet, last_orders};
pub use table::last_table;
pub use trace::shown_trace;
pub use why::{last_reasons, reasons_of_problem};
pub use zone::{ZoneFile, read_zone};
