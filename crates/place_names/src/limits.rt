//! How many places there may be, and how long their texts are.

/// The most places that a file may name.
pub(crate) const MAX_NAMED_PLACES: u32 = 2_000;

/// The most bytes of a place's name.
pub(crate) const MAX_NAME_BYTES: usize = 60;

/// The most digits of a coordinate before its point.
pub(crate) const MAX_WHOLE_DIGITS: usize = 7;

/// The most digits of a coordinate behind its point.
pub(crate) const MAX_FRACTION_DIGITS: usize = 6;
