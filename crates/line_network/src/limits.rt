//! The limits of a network.

/// The most places of a network.
pub const MAX_PLACES: usize = 2_000;
/// The most records of lines that a network is read from.
pub const MAX_LINE_RECORDS: u32 = 20_000;
/// The most kilometres of one line; the fewest is 1.
pub const MAX_LINE_KM: u32 = 10_000;
/// The most minutes of one line; the fewest is 1.
pub const MAX_LINE_MINUTES: u32 = 10_000;
