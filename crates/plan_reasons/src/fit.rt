//! A pair that fails no test.

/// A pair that fails no test, and what plans with it cost more, in km.
#[derive(Clone, Copy)]
pub struct Fit {
    /// The pair.
    pub pair: (usize, usize),
    /// What plans with it cost more.
    pub more: u64,
}
