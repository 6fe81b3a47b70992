//! A pair that fails a test.

use crate::reasons::Test;

/// A pair that fails a test, and the first test that it fails.
#[derive(Clone, Copy)]
pub(crate) struct Failed {
    /// The pair.
    pub(crate) pair: (usize, usize),
    /// The test.
    pub(crate) test: Test,
}
