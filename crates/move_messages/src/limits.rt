//! The limits of an order's numbers.

/// The most classes that an order accepts; it accepts one at least.
pub const MAX_CLASSES: usize = 8;

/// The greatest load of an order's wagon, in kg.
pub const MAX_LOAD: u32 = 200_000;

/// The greatest penalty of a missing wagon, in km.
pub const MAX_PENALTY: u64 = 1_000_000_000;

/// The most wagons that one order asks for; it asks for one at least.
pub const MAX_ORDER_WAGONS: u32 = 20;
