//! 64 seats on 8 threads, which make 50 calls each.

use super::desks::Desk;
use super::scenes::{Action, played};
use commit_book::Reply;
use move_messages::{Message, MessageKind};
use rail_codes::{Company, MessageId, Moment, Place, WagonNumber};
use sessions::{BookLedger, Seat, SharedBook};
use std::alloc::Global;
use std::sync::Wait;
use std::test::Fail;
use std::thread::{Threads, map_vec};
use test_samples::{NEAR, SAMPLE, UNKNOWN, company, moment, place, wagon};

/// The seats of a thread.
const SEATS: u32 = 8;

/// The calls of a seat, of which 13 are new messages.
const CALLS: u32 = 50;

/// What the messages name, and the moment of the problems.
#[derive(Clone, Copy)]
struct Codes {
    company: Company,
    near: WagonNumber,
    unknown: WagonNumber,
    place: Place,
    moment: Moment,
}

fn read_codes() -> Result<Codes, Fail> {
    Ok(Codes {
        company: company("0080")?,
        near: wagon(NEAR)?,
        unknown: wagon(UNKNOWN)?,
        place: place("DE00002")?,
        moment: moment("2026-03-01T00:00:00Z")?,
    })
}

/// A message that holds a wagon where the nearer one stands.
fn hold(codes: &Codes, number: u32, wagon: WagonNumber) -> Message {
    Message {
        id: MessageId {
            company: codes.company,
            number,
        },
        kind: MessageKind::Exception(true),
        wagon,
        place: codes.place,
        moment: codes.moment,
    }
}

/// Whether a begin answers a version not below the seat's count.
fn begins<L: BookLedger, R: Wait>(desk: &Desk<'_, L, R>, seat: &mut Seat<L>, at: Moment) -> bool {
    let count = seat.count();
    match desk.shared.begin(desk.rt, desk.alloc, seat, at) {
        Ok(snap) => snap.version() >= count,
        Err(_) => false,
    }
}

/// Whether one of a seat's calls is answered as it must be, whatever other seats call: a new message, the same again, a
/// begin, and a message of a wagon that the roster doesn't have, in turn.
fn calls<L: BookLedger, R: Wait>(
    desk: &Desk<'_, L, R>,
    seat: &mut Seat<L>,
    codes: &Codes,
    k: u32,
) -> bool {
    let number = seat.number().wrapping_mul(64).wrapping_add(k / 4);
    if k % 4 == 2 {
        return begins(desk, seat, codes.moment);
    }
    let message = if k % 4 == 3 {
        hold(codes, number.wrapping_add(32), codes.unknown)
    } else {
        hold(codes, number, codes.near)
    };
    match desk.shared.send(desk.rt, desk.alloc, seat, &message) {
        Ok(Reply::Accepted(_)) => k % 4 == 0,
        Ok(Reply::Repeated(_)) => k % 4 == 1,
        Err(refusal) => k % 4 == 3 && refusal.number() == 73,
    }
}

/// The calls of some seats, one seat after the other; whether all were answered as they must be.
fn all_calls<L: BookLedger, R: Wait>(
    rt: &R,
    alloc: Global,
    shared: &SharedBook<L>,
    seats: Vec<Seat<L>>,
    codes: &Codes,
) -> (Vec<Seat<L>>, bool) {
    let mut seats = seats;
    let mut are_right = true;
    let desk = Desk { rt, alloc, shared };
    for seat in seats.iter_mut() {
        for k in 0..CALLS {
            are_right = calls(&desk, seat, codes, k) && are_right;
        }
    }
    (seats, are_right)
}

/// Deals the seats out, the same number to each thread.
fn dealt<L: BookLedger>(alloc: Global, seats: &mut Vec<Seat<L>>) -> Option<Vec<Vec<Seat<L>>>> {
    let mut groups = Vec::new(alloc);
    for _ in 0..SEATS {
        let mut group = Vec::new(alloc);
        for _ in 0..SEATS {
            group.push(seats.pop()?).ok()?;
        }
        groups.push(group).ok()?;
    }
    Some(groups)
}

/// Gathers the seats, and answers the sum of their counts; none where a call was answered otherwise.
fn gathered<L: BookLedger>(
    seats: &mut Vec<Seat<L>>,
    done: Vec<(Vec<Seat<L>>, bool)>,
) -> Option<u64> {
    let mut count = 0u64;
    for (group, are_right) in done {
        if !are_right {
            return None;
        }
        for seat in group {
            count = count.wrapping_add(seat.count());
            seats.push(seat).ok()?;
        }
    }
    Some(count)
}

/// Whether the counts of all seats add up to 64 times 13 entries.
pub(crate) fn add_up<L: BookLedger + Send + Sync, R: Threads + Wait + Sync>(
    desk: &Desk<'_, L, R>,
    seats: &mut Vec<Seat<L>>,
) -> Result<bool, Fail> {
    let (rt, alloc, shared) = (desk.rt, desk.alloc, desk.shared);
    let groups = dealt(alloc, seats).ok_or("too few seats")?;
    let codes = &read_codes()?;
    let done = map_vec(
        rt,
        groups,
        &|group| { all_calls(rt, alloc, shared, group, codes) },
    )?;
    Ok(gathered(seats, done).ok_or("another answer")? == 832)
}

#[test]
fn counts_add_up(rt: HostRuntime) -> Result<(), Fail> {
    let book = played(&rt, rt.alloc(), SAMPLE, 64, Action::Crowding)?;
    assert_eq!(rt; book.len(), 832);
    Ok(())
}
