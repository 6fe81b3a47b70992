//! How a shared book is closed.
ghost use Rattle.std.specs.Prelude.{◌≡◌, ◌≤◌, ◌+◌, ◌↔◌, All, IfErr, IfNone, IfOk, IfSome, IsTrue, length};
ghost use Rattle.std.specs.List.{sum_by};
ghost use Rattle.sessions.specs.Closing.{HasEntries, HasEntry, IsLost};
ghost use Rattle.sessions.specs.CloseFault.{IsHandedBack, IsMissing};
ghost use Rattle.sessions.specs.Seat.{count_of};
ghost use Rattle.sessions.specs.inner.Others.{IsOther, IsTooFew};

use crate::counted_book::CountedBook;
use crate::noted_book::NotedBook;
use crate::{BookLedger, CloseFault, Receipt, Seat, SharedBook};
use commit_book::Book;
use std::sync::ledger;
use std::sync::ledger::Share;
use std::thread;
use std::thread::Threads;

/// Closes a shared book, and answers its book: it has the setting that it was opened with and as many entries as all seats have
/// receipts, and each receipt's event is the entry of its number.
///
/// The first of these is answered: `SeatsMissing` (95), exactly where fewer seats come than the shared book was opened with;
/// shared book and seats are handed back. `ReceiptLost` (96), only where the entry of a receipt is not its event; the book,
/// with as many entries as all seats have receipts, and the seats are handed back. Takes no memory, and waits for nobody.
pub fn close<L: BookLedger>(
    shared: SharedBook<L>,
    seats: Vec<Seat<L>>,
) -> Result<Book, CloseFault<L>>
    ensures setting { IfOk result (λ book. book.setting ≡ L.setting) }
    ensures counts { IfOk result (λ book. length book.state.history ≡ sum_by count_of seats.items) }
    ensures receipts { IfOk result (λ book. All (HasEntries book.state.history) seats.items) }
    ensures fault { IfErr result (IsHandedBack L.setting shared seats) }
    ensures missing { IsMissing result shared seats.items }
{
    let (noted, seats) = audited(shared, seats)?;
    let NotedBook { book, notes: _ } = noted;
    match first_lost(&book, &seats) {
        Some((number, entry)) => Err(CloseFault::ReceiptLost(number, entry, book, seats)),
        None => Ok(book),
    }
}

/// The same, with the book's notes, where the receipts of the seats are looked at side by side, by a thread for each seat. May
/// wait for these threads.
pub(crate) fn close_by_threads<L: BookLedger, T: Threads>(
    rt: &T,
    shared: SharedBook<L>,
    seats: Vec<Seat<L>>,
) -> Result<NotedBook, CloseFault<L>>
    ensures setting { IfOk result (λ noted. noted.book.setting ≡ L.setting) }
    ensures counts { IfOk result (λ noted. length noted.book.state.history ≡ sum_by count_of seats.items) }
    ensures receipts { IfOk result (λ noted. All (HasEntries noted.book.state.history) seats.items) }
    ensures fault { IfErr result (IsHandedBack L.setting shared seats) }
    ensures missing { IsMissing result shared seats.items }
{
    let (noted, seats) = audited(shared, seats)?;
    match first_lost_by_threads(rt, &noted.book, &seats) {
        Some((number, entry)) => {
            let NotedBook { book, notes: _ } = noted;
            Err(CloseFault::ReceiptLost(number, entry, book, seats))
        }
        None => Ok(noted),
    }
}

/// The book behind the lock, once no seat is missing, and the seats as they came: the book has as many entries as they
/// have receipts.
fn audited<L: BookLedger>(
    shared: SharedBook<L>,
    seats: Vec<Seat<L>>,
) -> Result<(NotedBook, Vec<Seat<L>>), CloseFault<L>>
    ensures seats { IfOk result (λ parts. parts.1 ≡ seats) }
    ensures setting { IfOk result (λ parts. parts.0.book.setting ≡ L.setting) }
    ensures counts { IfOk result (λ parts. length parts.0.book.state.history ≡ sum_by count_of seats.items) }
    ensures all { IfOk result (λ parts. shared.seats ≤ length seats.items) }
    ensures missing { IfErr result (λ fault. IsTooFew shared seats fault) }
{
    if seats.len() < shared.seats as usize {
        return Err(CloseFault::SeatsMissing(shared, seats));
    }
    let SharedBook {
        book,
        seats: _,
        wagons: _,
    } = shared;
    let CountedBook {
        noted,
        mut total,
        mut rest,
    } = book.into_inner();
    let mut seats = seats;
    audit_all(&mut total, &mut rest, &mut seats);
    Ok((noted, seats))
}

/// The first receipt whose event is not the entry of its number, as `first_lost` finds it, where the receipts of each seat are
/// looked at by a thread of their own. Only receipts are lent to it, since a seat's share can't be lent to threads.
#[cycle(seats)]
fn first_lost_by_threads<L: BookLedger, T: Threads>(
    rt: &T,
    book: &Book,
    seats: &[Seat<L>],
) -> Option<(u32, u64)>
    ensures none { IfNone result (All (HasEntries book.now.state.history) seats.now) }
    ensures some { IfSome result (λ lost. IsLost book.now.state.history seats.now lost.0 lost.1) }
{
    let Some((seat, others)) = seats.split_first() else {
        return None;
    };
    let receipts = seat.receipts();
    let (one, other) = thread::join(
        rt,
        move || -> Option<u64>
            ensures none { IfNone result (All (HasEntry book.entry.now.state.history) receipts.entry.now) }
            ensures some { IfSome result (IsOther book.entry.now.state.history receipts.entry.now) }
        { first_other(book, receipts) },
        move || -> Option<(u32, u64)>
            ensures none { IfNone result (All (HasEntries book.entry.now.state.history) others.entry.now) }
            ensures some { IfSome result (λ lost. IsLost book.entry.now.state.history others.entry.now lost.0 lost.1) }
        { first_lost_by_threads(rt, book, others) },
    );
    match one {
        Some(entry) => Some((seat.number(), entry)),
        None => other,
    }
}

/// The first receipt whose event is not the entry of its number: its seat's number, and the entry's.
fn first_lost<L: BookLedger>(book: &Book, seats: &[Seat<L>]) -> Option<(u32, u64)>
    ensures none { IfNone result (All (HasEntries book.now.state.history) seats.now) }
    ensures some { IfSome result (λ lost. IsLost book.now.state.history seats.now lost.0 lost.1) }
{
    for seat in seats {
        if let Some(entry) = first_other(book, seat.receipts()) {
            return Some((seat.number(), entry));
        }
    }
    None
}

/// The number of the first receipt whose event is not the entry of that number.
fn first_other(book: &Book, receipts: &[Receipt]) -> Option<u64>
    ensures none { IfNone result (All (HasEntry book.now.state.history) receipts.now) }
    ensures some { IfSome result (IsOther book.now.state.history receipts.now) }
{
    for receipt in receipts {
        if !has_entry(book, receipt) {
            return Some(receipt.entry);
        }
    }
    None
}

/// Whether the event of a receipt is the entry of its number.
fn has_entry(book: &Book, receipt: &Receipt) -> bool
    ensures { IsTrue result ↔ HasEntry book.now.state.history receipt.now }
{
    book.is_entry(receipt.entry, &receipt.event)
}

/// Holds the shares of all seats together against the total, which changes nothing: the seats' counts add up to it. Each
/// seat lends its share to the sum while the seats behind it are looked at, so it has it back at the end.
fn audit_all<L: BookLedger>(total: &mut ledger::Book<L>, sum: &mut Share<L>, seats: &mut [Seat<L>])
    requires all { L.parts ≤ sum.old.parts + length seats.old }
    requires few { sum.old.parts ≤ L.parts }
    ensures total { total.old.total ≡ sum.old.amount + sum_by count_of seats.old }
    ensures backed { sum.old.parts ≡ 0 → sum.old.amount ≡ 0 }
    ensures kept { total.new.total ≡ total.old.total }
    ensures seats { seats.new ≡ seats.old }
    ensures parts { sum.new.parts ≡ sum.old.parts }
    ensures amount { sum.new.amount ≡ sum.old.amount }
{
    total.audit(sum);
    let Some((seat, others)) = seats.split_first_mut() else {
        return;
    };
    let count = seat.count();
    seat.share.give(sum, 1, count);
    audit_all(total, sum, others);
    sum.give(&mut seat.share, 1, count);
}
