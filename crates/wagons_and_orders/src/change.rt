//! What an accepted message changes.

use crate::WagonRow;

/// What becomes of the promise of a wagon's row.
#[derive(Clone, Copy)]
pub enum Effect {
    /// Nothing: it stays, or there is none.
    None,
    /// It ends, and its order is filled by this wagon.
    Fills,
    /// It ends, and its order waits again.
    Ends,
}

/// What an accepted message changes.
#[derive(Clone, Copy)]
pub struct Change {
    /// The wagon's row after the message.
    pub row: WagonRow,
    /// What becomes of the promise that the row had before it.
    pub effect: Effect,
}
