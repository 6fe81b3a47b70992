//! What is listed.

use crate::movement::Movement;
use crate::need::OrderNeed;
use crate::silence::SilentWagon;
use rail_codes::Moment;

/// The promised movements of a version of an office at a moment.
#[derive(Drop)]
pub struct MovementList {
    /// The version.
    pub version: u64,
    /// The moment.
    pub at: Moment,
    /// The promised wagons, ascending by number.
    pub movements: Vec<Movement>,
    /// The orders that aren't withdrawn, as placed.
    pub orders: Vec<OrderNeed>,
    /// The wagons that haven't been heard from, ascending by number.
    pub silent: Vec<SilentWagon>,
}
