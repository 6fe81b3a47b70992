//! The limits of a table.

/// The most wagons of a table.
pub const MAX_TABLE_WAGONS: usize = 1_000;
/// The most orders of a table.
pub const MAX_TABLE_ORDERS: usize = 500;
/// The most wagons that all orders of a table lack together.
pub const MAX_TABLE_LACK: u64 = 500;
/// The most that a cell or a missed wagon costs, in kilometres.
pub const MAX_COST: u64 = 1_000_000_000;
