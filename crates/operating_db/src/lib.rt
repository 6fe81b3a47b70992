//! The operating database: what each event does to the office.
#![tactic(auto)]

mod fleet_change;
mod laws;
mod lists;
mod message_change;
mod office_state;
mod pair_counts;
mod promises;

pub use faults::{ApplyFault, FleetFault};
pub use fleet_change::changed_fleet_is_unique;
pub use fleet_rows::{Roster, RosterFault};
pub use laws::{events_keep_offices, nothing_is_lost};
pub use message_change::MessageChange;
pub use office_state::OfficeState;
pub use pair_counts::times_of_order;
