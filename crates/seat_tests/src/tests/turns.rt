//! Turns of seats: what they call, and what they are told.

use super::desks::Desk;
use super::scenes::{Action, played};
use commit_book::{Book, Call, Entry};
use sessions::{BookLedger, Seat};
use std::alloc::Global;
use std::sync::Wait;
use std::test::Fail;
use std::thread::Threads;
use test_samples::{Line, Start, call};

/// A line, and what a seat is told on its call.
pub(crate) type Told = (Line<'static>, &'static str);

/// The number of a seat, its calls with what it is told on each, and how many of all its calls are accepted then.
#[derive(Clone, Copy)]
pub(crate) struct Turn(pub(crate) u32, pub(crate) &'static [Told], pub(crate) u64);

/// The entry that a call became, by what was told on it.
fn entry_told(told: &str) -> Option<u64> {
    told.strip_prefix("accepted ")?.parse::<u64>().ok()
}

/// The entry that a line's event is.
fn entry_of(alloc: Global, line: Line<'_>) -> Result<Entry, Fail> {
    match call(alloc, line)? {
        Call::Event(event) => Ok(Entry::of(alloc, event)?),
        Call::Begin(_) => Err(Fail::new("no event")),
    }
}

/// Whether a seat is told this on a line's call, and has a receipt more where that is accepted.
fn is_told<L: BookLedger, R: Wait>(
    desk: &Desk<'_, L, R>,
    seat: &mut Seat<L>,
    line: Line<'_>,
    wanted: &str,
) -> Result<bool, Fail> {
    let count = seat.count();
    if desk.told(seat, line)?.as_str() != wanted {
        return Ok(false);
    }
    let Some(entry) = entry_told(wanted) else {
        return Ok(seat.count() == count);
    };
    let receipt = seat.receipts().last().ok_or("no receipt")?;
    let is_noted = receipt.entry == entry && receipt.event.is_same(&entry_of(desk.alloc, line)?);
    Ok(is_noted && seat.count() == count.saturating_add(1))
}

/// Whether a turn of the case of this name goes so.
fn goes<L: BookLedger, R: Wait>(
    desk: &Desk<'_, L, R>,
    seats: &mut [Seat<L>],
    name: &str,
    turn: &Turn,
) -> Result<bool, Fail> {
    let Turn(number, calls, count) = *turn;
    let place = number.checked_sub(1).ok_or("seats are numbered from 1")?;
    let seat = seats.get_mut(place as usize).ok_or("no such seat")?;
    for (line, wanted) in calls {
        if !is_told(desk, seat, *line, wanted)? {
            return Err(Fail::new(format_args!("{name}: seat {number} is not told {wanted}")));
        }
    }
    Ok(seat.count() == count && seat.number() == number)
}

/// Whether all turns of the case of this name go so, one after the other.
pub(crate) fn take_turns<L: BookLedger, R: Wait>(
    desk: &Desk<'_, L, R>,
    seats: &mut [Seat<L>],
    name: &str,
    turns: &[Turn],
) -> Result<bool, Fail> {
    for turn in turns {
        if !goes(desk, seats, name, turn)? {
            return Err(Fail::new(format_args!("{name}: another count")));
        }
    }
    Ok(true)
}

/// Whether a book has a line's event as the entry that was told, if one was.
fn has_entry(alloc: Global, book: &Book, line: Line<'_>, told: &str) -> Result<bool, Fail> {
    let Some(number) = entry_told(told) else {
        return Ok(true);
    };
    Ok(book.is_entry(number, &entry_of(alloc, line)?))
}

/// Whether a book has the events of all accepted calls of these turns, and no other entry.
fn has_entries(alloc: Global, book: &Book, turns: &[Turn]) -> Result<bool, Fail> {
    let mut entries = 0u64;
    for Turn(_, calls, _) in turns {
        for (line, told) in *calls {
            if !has_entry(alloc, book, *line, told)? {
                return Ok(false);
            }
            entries = entries.saturating_add(u64::from(entry_told(told).is_some()));
        }
    }
    Ok(book.len() == entries)
}

/// A name, a book that starts so, and the turns of its seats.
pub(crate) type Case = (&'static str, Start<'static>, &'static [Turn]);

/// Whether a case's turns go so, and the book has their entries when the shared book is closed. It has as many seats as the
/// highest number says.
fn goes_so<R: Threads + Wait + Sync>(rt: &R, alloc: Global, case: &Case) -> Result<bool, Fail> {
    let (name, start, turns) = *case;
    let seats = turns.iter().map(|turn| turn.0).max().unwrap_or(0);
    let book = played(rt, alloc, start, seats, Action::Turns(name, turns))?;
    has_entries(alloc, &book, turns)
}

/// Fails with the name of the first case that goes otherwise.
pub(crate) fn play<R: Threads + Wait + Sync>(
    rt: &R,
    alloc: Global,
    cases: &[Case],
) -> Result<(), Fail> {
    for case in cases {
        if !goes_so(rt, alloc, case)? {
            return Err(Fail::new(format_args!("{}: other entries", case.0)));
        }
    }
    Ok(())
}
