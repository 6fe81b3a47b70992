//! The numbers of a checkpoint and their limits.

/// The one format that there is.
pub(crate) const LINE_FORMAT: u64 = 1;

/// The most lines of a checkpoint beside its last one.
pub const MAX_LINES: u64 = 1_000_000;
