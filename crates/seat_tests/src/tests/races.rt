//! Two threads that plan the same problem.

use super::desks::Desk;
use super::scenes::{Action, played};
use commit_book::Call;
use sessions::{BookLedger, Seat, SharedBook};
use std::alloc::Global;
use std::sync::Wait;
use std::test::Fail;
use std::thread::{Threads, join};
use test_samples::{BEGIN, COMMIT, Line, ORDER, SAMPLE, call};

/// A seat's call, as a thread makes it: the seat, and what it is told, unless memory is out.
fn calls<L: BookLedger, R: Wait>(
    rt: &R,
    alloc: Global,
    shared: &SharedBook<L>,
    seat: Seat<L>,
    call: Call,
) -> (Seat<L>, Option<String>) {
    let mut seat = seat;
    let desk = Desk { rt, alloc, shared };
    let told = desk.answer(&mut seat, call).ok();
    (seat, told)
}

/// The last two seats.
fn last_two<L: BookLedger>(seats: &mut Vec<Seat<L>>) -> Option<(Seat<L>, Seat<L>)> {
    let second = seats.pop()?;
    let first = seats.pop()?;
    Some((first, second))
}

/// Makes a line's call on two seats, a thread for each.
fn call_at_once<L: BookLedger + Send + Sync, R: Threads + Wait + Sync>(
    desk: &Desk<'_, L, R>,
    (first, second): (Seat<L>, Seat<L>),
    (one, other): (Call, Call),
) -> ((Seat<L>, Option<String>), (Seat<L>, Option<String>)) {
    let (rt, alloc, shared) = (desk.rt, desk.alloc, desk.shared);
    join(
        rt,
        move || calls(rt, alloc, shared, first, one),
        move || calls(rt, alloc, shared, second, other),
    )
}

/// Makes a line's call on two seats, a thread for each: what they are told.
fn call_twice<L: BookLedger + Send + Sync, R: Threads + Wait + Sync>(
    desk: &Desk<'_, L, R>,
    seats: &mut Vec<Seat<L>>,
    line: Line<'_>,
) -> Result<(String, String), Fail> {
    let both = (call(desk.alloc, line)?, call(desk.alloc, line)?);
    let two = last_two(seats).ok_or("two seats are wanted")?;
    let (one, other) = call_at_once(desk, two, both);
    told_to_both(seats, one, other)
}

/// What two seats were told, which go back behind the others.
fn told_to_both<L: BookLedger>(
    seats: &mut Vec<Seat<L>>,
    (first, told): (Seat<L>, Option<String>),
    (second, other_told): (Seat<L>, Option<String>),
) -> Result<(String, String), Fail> {
    if seats.push(first).is_err() || seats.push(second).is_err() {
        return Err(Fail::new("no memory"));
    }
    match (told, other_told) {
        (Some(told), Some(other_told)) => Ok((told, other_told)),
        _ => Err(Fail::new("no answer")),
    }
}

/// Whether two seats are told these two texts on a line, whichever of them gets the first.
fn are_told<L: BookLedger + Send + Sync, R: Threads + Wait + Sync>(
    desk: &Desk<'_, L, R>,
    seats: &mut Vec<Seat<L>>,
    line: Line<'_>,
    one: &str,
    other: &str,
) -> Result<bool, Fail> {
    let (first, second) = call_twice(desk, seats, line)?;
    Ok(
        (first.as_str() == one && second.as_str() == other)
            || (first.as_str() == other && second.as_str() == one),
    )
}

/// Whether the first seat's order is the first entry.
fn is_placed<L: BookLedger, R: Wait>(
    desk: &Desk<'_, L, R>,
    seats: &mut [Seat<L>],
) -> Result<bool, Fail> {
    let seat = seats.first_mut().ok_or("no seat")?;
    let told = desk.told(seat, ORDER)?;
    Ok(told.as_str() == "accepted 1")
}

/// How many calls of all seats were accepted.
fn count_of<L: BookLedger>(seats: &[Seat<L>]) -> u64 {
    let mut count = 0u64;
    for seat in seats {
        count = count.saturating_add(seat.count());
    }
    count
}

/// Whether two threads begin at version 1, and one of them commits the plan as entry 2, while the other is refused for its
/// wagon.
pub(crate) fn races<L: BookLedger + Send + Sync, R: Threads + Wait + Sync>(
    desk: &Desk<'_, L, R>,
    seats: &mut Vec<Seat<L>>,
) -> Result<bool, Fail> {
    let is_placed = is_placed(desk, seats)?;
    let begun = "begun 1 network 1";
    let are_begun = are_told(desk, seats, BEGIN, begun, begun)?;
    let is_one = are_told(desk, seats, COMMIT, "accepted 2", "refused 82 218124712173")?;
    Ok(is_placed && are_begun && is_one && count_of(seats) == 2)
}

#[test]
fn one_of_two_commits(rt: HostRuntime) -> Result<(), Fail> {
    let book = played(&rt, rt.alloc(), SAMPLE, 2, Action::Racing)?;
    assert_eq!(rt; book.len(), 2);
    Ok(())
}
