//! Why no shared book was opened.
ghost use Rattle.std.specs.Prelude.{◌≡◌};

use commit_book::Book;
use std::sync::ledger::Blank;

/// Why no shared book was opened: out of memory (1). What it was to be opened with is handed back.
#[derive(Drop)]
pub struct OpenFault {
    /// The ledger.
    pub blank: Blank,
    /// The book.
    pub book: Book,
}

impl OpenFault {
    /// The number that stands for the fault in a reply: 1.
    pub fn number(&self) -> u32
        ensures { result ≡ 1 }
    {
        1
    }
}
