//! The row of a wagon.

use crate::Status;
use rail_codes::{ClassCode, Moment, OrderId, WagonNumber};

/// What the office knows of a wagon.
#[derive(Clone, Copy, PartialEq, Eq)]
pub struct WagonRow {
    /// Its number.
    pub number: WagonNumber,
    /// Its class.
    pub class: ClassCode,
    /// The most that it carries, in kg.
    pub load_limit: u32,
    /// What it is doing, and where.
    pub status: Status,
    /// Whether it is held.
    pub held: bool,
    /// The moment that its last accepted message names, in seconds since 1970.
    pub last: Moment,
    /// The order that it is promised to.
    pub promise: Option<OrderId>,
}
