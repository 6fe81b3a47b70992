//! The wagons of a fleet, read from a table in CSV, and the rows that an office keeps of each wagon and of each order, found
//! by number and by name.
#![tactic(auto)]

mod empty_wagons;
mod limits;
mod order_rows;
mod reading;
mod roster;
mod roster_field;
mod roster_refusal;
mod roster_so_far;
mod wagon_record;
mod wagon_rows;

pub use faults::RosterFault;
pub use limits::{MAX_OPEN_WAGONS, MAX_ROSTER_WAGONS};
pub use order_rows::OrderRows;
pub use reading::read_roster;
pub use roster::Roster;
pub use roster_field::{RosterField, unfit_field};
pub use roster_refusal::RosterRefusal;
pub use wagon_record::is_header as is_roster_header;
pub use wagon_rows::WagonRows;
