//! What it costs to give an order further wagons.

/// What the best plan costs more that gives an order more wagons than the certified plan does, in kilometres.
#[derive(Clone, Copy)]
pub enum Further {
    /// Exactly so much.
    Exactly(u64),
    /// So much, at least: 1,000,000,000 less the order's penalty.
    Over(u64),
    /// No plan gives it more.
    Never,
}
