//! Offices that are closed: with too few seats, and with all.
ghost use Rattle.std.specs.Prelude.{◌≡◌, IfOk, IfSome};

use commit_book::Book;
use sessions::{BookLedger, CloseFault, Seat, SharedBook, close};
use std::alloc::Global;
use std::test::Fail;

/// Closes a shared book that lacks seats, and takes what is handed back.
fn handed_back<L: BookLedger>(
    shared: SharedBook<L>,
    seats: Vec<Seat<L>>,
) -> Option<(SharedBook<L>, Vec<Seat<L>>)>
    requires { shared.seats ≡ L.parts }
    ensures { IfSome result (λ back. (back.0 ≡ shared) × (back.1 ≡ seats)) }
{
    match close(shared, seats) {
        Err(CloseFault::SeatsMissing(shared, seats)) => Some((shared, seats)),
        _ => None,
    }
}

/// The shared book, which is not closed with no seat.
fn open_with_none<L: BookLedger>(
    alloc: Global,
    shared: SharedBook<L>,
) -> Result<SharedBook<L>, Fail>
    requires { shared.seats ≡ L.parts }
    ensures { IfOk result (λ back. back ≡ shared) }
{
    match handed_back(shared, Vec::new(alloc)) {
        Some((shared, _none)) => Ok(shared),
        None => Err(Fail::new("closed with no seat")),
    }
}

/// The shared book and its seats; it is not closed with all but one.
fn open_without_last<L: BookLedger>(
    shared: SharedBook<L>,
    seats: Vec<Seat<L>>,
) -> Result<(SharedBook<L>, Vec<Seat<L>>), Fail>
    requires { shared.seats ≡ L.parts }
    ensures { IfOk result (λ back. back.0 ≡ shared) }
{
    let mut seats = seats;
    let Some(last) = seats.pop() else {
        return Err(Fail::new("no seat"));
    };
    let Some((shared, mut seats)) = handed_back(shared, seats) else {
        return Err(Fail::new("closed without a seat"));
    };
    match seats.push(last) {
        Ok(()) => Ok((shared, seats)),
        Err(_) => Err(Fail::new("no memory")),
    }
}

/// The book of a shared book that is closed with no seat, with all but one, and with all: the last of these closes it.
pub(crate) fn closed<L: BookLedger>(
    alloc: Global,
    shared: SharedBook<L>,
    seats: Vec<Seat<L>>,
) -> Result<Book, Fail>
    requires { shared.seats ≡ L.parts }
{
    let shared = open_with_none(alloc, shared)?;
    let (shared, seats) = open_without_last(shared, seats)?;
    match close(shared, seats) {
        Ok(book) => Ok(book),
        Err(_) => Err(Fail::new("not closed")),
    }
}
