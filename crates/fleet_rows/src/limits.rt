//! How many rows there may be.

/// The most wagons of a roster.
pub const MAX_ROSTER_WAGONS: u32 = 1_000;

/// The most wagons that the open orders of an office may want in all.
pub const MAX_OPEN_WAGONS: u32 = 500;
