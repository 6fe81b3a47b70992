//! How a shared book is opened.
ghost use Rattle.std.specs.Prelude.{◌≡◌, ◌≤◌, [], IfErr, IfOk, vec_capacity};
ghost use Rattle.sessions.specs.Seat.{IsSeatCount, new_seats};

use crate::counted_book::CountedBook;
use crate::noted_book::NotedBook;
use crate::{BookLedger, OpenFault, Seat, SharedBook};
use commit_book::Book;
use rail_codes::WagonNumber;
use std::alloc::{AllocError, Global};
use std::sync::Mutex;
use std::sync::ledger::{Blank, Ledger, Share};
use wagons_and_orders::WagonRow;

/// The most seats.
pub const MAX_SEATS: u32 = 64;

// No clause names it, since who opens a shared book tests its number by it.
const _: () = prove!(MAX_SEATS == 64);

/// Opens a shared book over a book without entries, with so many seats, 1 to 64, numbered from 1. The blank is that of the
/// ledger `L`, made with one part for each seat; the ledger stands for the book's setting. Where memory is refused, blank and
/// book are handed back.
pub fn open<L: BookLedger>(
    alloc: Global,
    blank: Blank,
    book: Book,
    count: u32,
) -> Result<(SharedBook<L>, Vec<Seat<L>>), OpenFault>
    requires ledger { blank.name ≡ L.name }
    requires parts { blank.parts ≡ L.parts }
    requires one_each { blank.parts ≡ count }
    requires count { IsSeatCount count }
    requires no_entry { book.state.history ≡ [] }
    requires setting { book.setting ≡ L.setting }
    ensures shared { IfOk result (λ opened. opened.0.seats ≡ count) }
    ensures seats { IfOk result (λ opened. opened.1.items ≡ new_seats count) }
    ensures handed_back { IfErr result (λ fault. (fault.blank ≡ blank) × (fault.book ≡ book)) }
{
    let noted = NotedBook { book, notes: None };
    match open_noted(alloc, blank, noted, count) {
        Ok(opened) => Ok(opened),
        Err((blank, noted)) => {
            let NotedBook { book, notes: _ } = noted;
            Err(OpenFault { blank, book })
        }
    }
}

/// The same over a book whose notes may be asked for.
pub(crate) fn open_noted<L: BookLedger>(
    alloc: Global,
    blank: Blank,
    noted: NotedBook,
    count: u32,
) -> Result<(SharedBook<L>, Vec<Seat<L>>), (Blank, NotedBook)>
    requires ledger { blank.name ≡ L.name }
    requires parts { blank.parts ≡ L.parts }
    requires one_each { blank.parts ≡ count }
    requires count { IsSeatCount count }
    requires no_entry { noted.book.state.history ≡ [] }
    requires setting { noted.book.setting ≡ L.setting }
    ensures shared { IfOk result (λ opened. opened.0.seats ≡ count) }
    ensures seats { IfOk result (λ opened. opened.1.items ≡ new_seats count) }
    ensures handed_back { IfErr result (λ fault. (fault.0 ≡ blank) × (fault.1 ≡ noted)) }
{
    let Ok(mut seats) = Vec::with_capacity(alloc, count as usize) else {
        return Err((blank, noted));
    };
    let Ok(wagons) = numbers_of(alloc, noted.book.state().wagon_rows()) else {
        return Err((blank, noted));
    };
    let (total, mut rest) = blank.open::<L>();
    seat_all(alloc, &mut seats, &mut rest, count);
    let book = Mutex::new(CountedBook { noted, total, rest });
    Ok((
        SharedBook {
            book,
            seats: count,
            wagons,
        },
        seats,
    ))
}

/// The numbers of wagons, in the order of their rows.
fn numbers_of(alloc: Global, rows: &[WagonRow]) -> Result<Vec<WagonNumber>, AllocError> {
    let mut numbers = Vec::with_capacity(alloc, rows.len())?;
    for row in rows {
        numbers.push(row.number)?;
    }
    Ok(numbers)
}

/// Makes the seats, each with a part of a share.
fn seat_all<L: Ledger>(alloc: Global, seats: &mut Vec<Seat<L>>, rest: &mut Share<L>, count: u32)
    requires none { seats.old.items ≡ [] }
    requires room { count ≤ vec_capacity seats.old }
    requires parts { rest.old.parts ≡ count }
    requires amount { rest.old.amount ≡ 0 }
    ensures seats { seats.new.items ≡ new_seats count }
    ensures parts { rest.new.parts ≡ 0 }
{
    for number in 0..count {
        let share = rest.split_off(1, 0);
        seats.push_reserved(Seat::new(alloc, number + 1, share));
    }
}
