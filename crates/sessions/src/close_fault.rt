//! Why no shared book was closed.
ghost use Rattle.std.specs.Prelude.{◌≡◌};

use crate::{BookLedger, Seat, SharedBook};
use commit_book::Book;

/// Why a shared book was not closed, or a book is not what its receipts say.
#[derive(Drop)]
pub enum CloseFault<L: BookLedger> {
    /// Fewer seats came than the shared book was opened with (95). SharedBook and seats are handed back.
    SeatsMissing(SharedBook<L>, Vec<Seat<L>>),
    /// An entry of the book is not the event of a receipt (96): the seat's number and the entry's. The book, with as many
    /// entries as all seats have receipts, and the seats are handed back.
    ReceiptLost(u32, u64, Book, Vec<Seat<L>>),
}

impl<L: BookLedger> CloseFault<L> {
    ghost use Rattle.sessions.specs.CloseFault.{fault_number};

    /// The number that stands for the fault in a reply: 95 or 96.
    pub fn number(&self) -> u32
        ensures { result ≡ fault_number self.now }
    {
        match self {
            CloseFault::SeatsMissing(_, _) => 95,
            CloseFault::ReceiptLost(_, _, _, _) => 96,
        }
    }
}
