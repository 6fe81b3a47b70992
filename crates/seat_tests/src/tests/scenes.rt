//! Scenes of a shared book: what happens between its opening and its closing.
ghost use Rattle.std.specs.Prelude.{◌≡◌, []};
ghost use Rattle.sessions.specs.Seat.{IsSeatCount};

use super::closing::closed;
use super::crowds::add_up;
use super::desks::Desk;
use super::opening::opens;
use super::planning::{plans, revises};
use super::races::races;
use super::turns::{Turn, take_turns};
use commit_book::Book;
use sessions::{BookLedger, MAX_SEATS, Seat, open};
use std::alloc::Global;
use std::marker::Brand;
use std::sync::Wait;
use std::sync::ledger::Blank;
use std::test::Fail;
use std::thread::Threads;
use test_samples::{Start, book_of};

/// What happens at a shared book.
#[derive(Clone, Copy)]
pub(crate) enum Action {
    /// The seats have these turns, of the case of this name.
    Turns(&'static str, &'static [Turn]),
    /// The seats are new, and one of them places all orders that may be open.
    Opening,
    /// A seat commits a planner's work.
    Planning,
    /// A seat revises to the second network, so that a plan wants more than the first.
    Revising,
    /// Two threads plan the same problem.
    Racing,
    /// 64 seats call on 8 threads.
    Crowding,
}

/// Whether it happens so.
fn happens<L: BookLedger + Send + Sync, R: Threads + Wait + Sync>(
    desk: &Desk<'_, L, R>,
    seats: &mut Vec<Seat<L>>,
    action: Action,
) -> Result<bool, Fail> {
    match action {
        Action::Turns(name, turns) => take_turns(desk, seats, name, turns),
        Action::Opening => opens(desk, seats),
        Action::Planning => plans(desk, seats),
        Action::Revising => revises(desk, seats),
        Action::Racing => races(desk, seats),
        Action::Crowding => add_up(desk, seats),
    }
}

/// What becomes of a book that is shared by so many seats, and handed back when an action has gone as it must.
fn book_after<L: BookLedger + Send + Sync, R: Threads + Wait + Sync>(
    rt: &R,
    alloc: Global,
    blank: Blank,
    book: Book,
    seats: u32,
    action: Action,
) -> Result<Book, Fail>
    requires ledger { blank.name ≡ L.name }
    requires parts { blank.parts ≡ L.parts }
    requires one_each { blank.parts ≡ seats }
    requires count { IsSeatCount seats }
    requires no_entry { book.state.history ≡ [] }
    requires setting { book.setting ≡ L.setting }
{
    let Ok((shared, mut seats)) = open::<L>(alloc, blank, book, seats) else {
        return Err(Fail::new("no shared"));
    };
    let goes = {
        let shared = &shared;
        happens(&Desk { rt, alloc, shared }, &mut seats, action)?
    };
    let book = closed(alloc, shared, seats)?;
    if !goes {
        return Err(Fail::new("it goes otherwise"));
    }
    Ok(book)
}

/// The book that is left when so many seats have shared one that starts so, and an action has gone as it must.
pub(crate) fn played<R: Threads + Wait + Sync>(
    rt: &R,
    alloc: Global,
    start: Start<'_>,
    seats: u32,
    action: Action,
) -> Result<Book, Fail> {
    if seats < 1 || MAX_SEATS < seats {
        return Err(Fail::new("too few seats or too many"));
    }
    let book = book_of(alloc, start)?;
    let blank = Blank::new(u64::from(seats));
    book_after::<Brand, R>(rt, alloc, blank, book, seats, action)
}
