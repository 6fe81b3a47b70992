//! Receipts.

use commit_book::Entry;

/// That a call of a seat was accepted: the number of its entry, counted from 1, and the event.
#[derive(Drop)]
pub struct Receipt {
    /// The number of the entry.
    pub entry: u64,
    /// The event, which `view` lends.
    pub event: Entry,
}
