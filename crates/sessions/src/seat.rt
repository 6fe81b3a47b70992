//! Seats.
ghost use Rattle.std.specs.Prelude.{◌≡◌};

use crate::Receipt;
use crate::kept_notes::FileLine;
use std::alloc::Global;
use std::marker::Model;
use std::sync::ledger::{Ledger, Share};

/// What one caller holds at a book that several share: its number, and a receipt for each call that was accepted. A contract
/// sees these two.
///
/// A seat belongs to the shared book of its ledger `L`. It has one part of that ledger, and as much of the ledger's total as it
/// has receipts.
#[derive(Drop)]
pub struct Seat<L: Ledger> {
    pub(crate) number: u32,
    pub(crate) share: Share<L>,
    pub(crate) receipts: Vec<Receipt>,
}

impl<L: Ledger> Model for Seat<L> {
    ghost use Rattle.std.specs.Prelude.{◌≡◌, length};
    ghost use Rattle.sessions.specs.Seat.{SeatValue};

    ghost Value = { SeatValue };

    ghost view = { λ seat. record { number = seat.number; receipts = seat.receipts.items } };

    ghost invariant = { λ seat. (seat.share.parts ≡ 1) × (seat.share.amount ≡ length seat.receipts.items) };
}

impl<L: Ledger> Seat<L> {
    ghost use Rattle.sessions.specs.Seat.{count_of, new_seat};

    /// A seat with no receipt.
    pub(crate) fn new(alloc: Global, number: u32, share: Share<L>) -> Seat<L>
        requires part { share.parts ≡ 1 }
        requires amount { share.amount ≡ 0 }
        ensures { result ≡ new_seat number }
    {
        Seat {
            number,
            share,
            receipts: Vec::new(alloc),
        }
    }

    /// The seat's number, counted from 1.
    pub fn number(&self) -> u32
        ensures { result ≡ self.now.number }
    {
        self.number
    }

    /// A line of the seat's file, which has the seat's number.
    pub(crate) fn line(&self, line: u64) -> FileLine {
        FileLine {
            file: self.number,
            line,
        }
    }

    /// How many of the seat's calls were accepted.
    pub fn count(&self) -> u64
        ensures { result ≡ count_of self.now }
    {
        self.receipts.len() as u64
    }

    /// The entry and the event of each accepted call, in the order of the calls.
    pub fn receipts(&self) -> &[Receipt]
        ensures { result.now ≡ self.now.receipts }
    {
        &self.receipts
    }
}
