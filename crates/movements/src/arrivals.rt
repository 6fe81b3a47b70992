//! When a wagon can be at a place.
ghost use Rattle.std.specs.Prelude.{◌≡◌, ◌≤◌};
ghost use Rattle.rail_codes.specs.Moment.{last_second};
ghost use Rattle.movements.specs.Arrivals.{IsWalkOf, IsWayOf, arrival_of, departure, has_arrived, here};

use crate::movement::Way;
use line_network::Tables;
use rail_codes::{Moment, Place};
use wagons_and_orders::{Status, WagonRow};

/// The way of a wagon to a place. One that has arrived there has no kilometre left, and has been there since its last message.
/// There is none for another where no walk leads there.
pub(crate) fn way_of(tables: &Tables, at: Moment, row: &WagonRow, to: Place) -> Option<Way>
    ensures { IsWayOf tables.now at row.now to result }
{
    if has_arrived(&row.status, to) {
        return Some(here(row));
    }
    walk_of(tables, at, row, to)
}

/// The way of a wagon that has arrived.
fn here(row: &WagonRow) -> Way
    ensures { result ≡ here row.now }
{
    Way {
        km: 0,
        minutes: 0,
        arrival: row.last.seconds(),
    }
}

/// The way of a wagon that hasn't arrived; none where no walk leads to the place.
fn walk_of(tables: &Tables, at: Moment, row: &WagonRow, to: Place) -> Option<Way>
    ensures { IsWalkOf tables.now at row.now to result }
{
    match tables.between(row.status.place(), to) {
        None => None,
        Some((km, minutes)) => Some(Way {
            km,
            minutes,
            arrival: arrival(at, row, minutes),
        }),
    }
}

/// The earliest moment at which a wagon can be at a place that is so many minutes away, in seconds since 1970.
fn arrival(at: Moment, row: &WagonRow, minutes: u32) -> u64
    ensures { result ≡ arrival_of at row.now minutes }
{
    let there = departure(at, &row.status, row.last) + 60 * u64::from(minutes);
    there.max(at.seconds())
}

/// Whether a wagon has arrived at a place.
fn has_arrived(status: &Status, to: Place) -> bool
    ensures { result ≡ has_arrived status.now to }
{
    match *status {
        Status::Arrived(_, place) => place == to,
        _ => false,
    }
}

/// When a wagon with a last message left where it is, or can leave at the earliest.
fn departure(at: Moment, status: &Status, last: Moment) -> u64
    ensures value { result ≡ departure at status.now last }
    ensures small { result ≤ last_second }
{
    at.for_the_prover();
    last.for_the_prover();
    match *status {
        Status::Empty(_, ready) => ready.seconds().max(at.seconds()),
        Status::Journey(_, _) => last.seconds(),
        _ => last.seconds().max(at.seconds()),
    }
}
