//! The limits of the numbers in a command line that stand in no order.

/// The greatest version that a commit names.
pub const MAX_VERSION: u64 = 1_000_000;

/// The highest number of a network that a line may name; networks are numbered from 1.
pub const MAX_REVISION: u32 = 8;
