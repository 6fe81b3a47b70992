//! What the notes of a run of lines remember.
ghost use Rattle.std.specs.Prelude.{◌≡◌, ◌≤◌, ◌<◌, ◌||◌, [], max, nat_le, nat_lt, true};
ghost use Rattle.std.specs.List.{list_all};
ghost use Rattle.commit_book.specs.Books.{answer_of};
ghost use Rattle.fleet_rows.specs.Rows.{wagon_in};
ghost use Rattle.move_messages.specs.Order.{Order};
ghost use Rattle.journal_notes.specs.EventNotes.{is_accepted};
ghost use Rattle.journal_notes.specs.OrderNotes.{is_past};
ghost use Rattle.journal_notes.specs.Watches.{IsWatchOf, is_calm};
ghost use Rattle.journal_notes.specs.inner.Advances.{Advances, Hears, Lowers, last_of};

use crate::streaks::Streaks;
use commit_book::{Refusal, Reply};
use move_messages::Event;
use operating_db::OfficeState;
use rail_codes::{Moment, WagonNumber};
use std::alloc::Global;
use std::marker::Model;
use wagons_and_orders::{OrderRow, WagonRow};

/// What the notes of a run of lines remember: how many messages of each wagon were refused in a row; the newest moment of the
/// wagons' last messages; and a bound, so that a message that isn't past it makes no order overdue. A contract sees them as numbers
/// of seconds.
#[derive(Drop)]
pub struct Watch {
    pub(crate) streaks: Streaks,
    newest: u64,
    calm_until: u64,
}

impl Model for Watch {
    ghost use Rattle.journal_notes.specs.Watches.{WatchValue};

    ghost Value = { WatchValue };

    ghost view = { λ watch. record { streaks = watch.streaks; newest = watch.newest; calm_until = watch.calm_until } };
}

impl Watch {
    /// The watch of an office, before the first line. Takes no memory.
    pub fn of(alloc: Global, state: &OfficeState) -> Watch
        ensures watch { IsWatchOf state.now.office result }
        ensures streaks { result.streaks ≡ [] }
    {
        let newest = newest_of(state.wagon_rows());
        Watch {
            streaks: Streaks::none(alloc),
            newest,
            calm_until: bound_of(state.order_rows(), newest),
        }
    }

    /// The newest moment.
    pub(crate) fn newest(&self) -> u64
        ensures { result ≡ self.now.newest }
    {
        self.newest
    }

    /// The bound.
    pub(crate) fn calm_until(&self) -> u64
        ensures { result ≡ self.now.calm_until }
    {
        self.calm_until
    }

    /// Goes on by an event that was answered so, where this is the office now. Takes no memory.
    pub(crate) fn advance(
        &mut self,
        event: &Event,
        answer: &Result<Reply, Refusal>,
        state: &OfficeState,
    )
        ensures watch { Advances event.now (answer_of answer.now) state.now.office self.old self.new }
        ensures streaks { self.new.streaks ≡ self.old.streaks }
    {
        if !is_entry(answer) {
            return;
        }
        match event {
            Event::Message(message) => self.hear(state, message.wagon),
            Event::Place(order) => self.lower(order.latest()),
            Event::Withdraw(_) | Event::Commit(_) | Event::Revise(_) => {}
        }
    }

    /// Hears a message of this wagon.
    fn hear(&mut self, state: &OfficeState, number: WagonNumber)
        ensures watch { Hears state.now.office number self.old self.new }
        ensures streaks { self.new.streaks ≡ self.old.streaks }
    {
        let newest = self.newest.max(last_of(state, number));
        self.calm_until = self.bound_at(state, newest);
        self.newest = newest;
    }

    /// The bound at a newest moment.
    fn bound_at(&self, state: &OfficeState, newest: u64) -> u64
        ensures below { newest ≤ self.now.calm_until → result ≡ self.now.calm_until }
        ensures above { self.now.calm_until < newest → list_all (is_calm newest result) state.now.office.orders ≡ true }
    {
        if newest <= self.calm_until {
            return self.calm_until;
        }
        bound_of(state.order_rows(), newest)
    }

    /// An order is placed.
    fn lower(&mut self, latest: Moment)
        ensures watch { Lowers latest self.old self.new }
        ensures streaks { self.new.streaks ≡ self.old.streaks }
    {
        self.calm_until = lowered_by(self.calm_until, self.newest, latest);
    }
}

/// Whether an event is an entry by its answer.
fn is_entry(answer: &Result<Reply, Refusal>) -> bool
    ensures { result ≡ is_accepted (answer_of answer.now) }
{
    match answer {
        Ok(Reply::Accepted(_)) => true,
        Ok(Reply::Repeated(_)) => false,
        Err(_) => false,
    }
}

/// The moment of a wagon's last message in an office; 0 where the office has no such wagon.
fn last_of(state: &OfficeState, number: WagonNumber) -> u64
    ensures { result ≡ last_of (wagon_in state.now.office.wagons number) }
{
    match state.wagon(number) {
        None => 0,
        Some(row) => row.last.seconds(),
    }
}

/// The newest moment of the last messages of wagons; 0 where there is none.
fn newest_of(rows: &[WagonRow]) -> u64
    ensures { (order : Order) → is_past rows.now order ≡ nat_lt order.latest result }
{
    let mut newest: u64 = 0;
    for row in rows {
        newest = newest.max(row.last.seconds());
    }
    newest
}

/// The first latest moment of an open order that doesn't lie before a newest moment, or a bound beyond all moments.
fn bound_of(rows: &[OrderRow], newest: u64) -> u64
    ensures { list_all (is_calm newest result) rows.now ≡ true }
{
    let mut bound = u64::MAX;
    for row in rows {
        bound = lowered(bound, newest, row);
    }
    bound
}

/// A bound that goes no further than an order.
fn lowered(bound: u64, newest: u64, row: &OrderRow) -> u64
    ensures under { is_calm newest result row.now ≡ true }
    ensures lower { result ≤ bound }
{
    if !row.is_open() {
        return bound;
    }
    lowered_by(bound, newest, row.text().latest())
}

/// A bound that goes no further than a latest moment, where that doesn't lie before the newest moment.
fn lowered_by(bound: u64, newest: u64, latest: Moment) -> u64
    ensures under { (nat_lt latest newest || nat_le result latest) ≡ true }
    ensures lower { result ≤ bound }
{
    let latest = latest.seconds();
    if latest < newest || bound < latest {
        return bound;
    }
    latest
}
