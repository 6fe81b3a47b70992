//! New seats, and more orders than may be open.

use super::desks::Desk;
use super::scenes::{Action, played};
use sessions::{BookLedger, Seat};
use std::sync::Wait;
use std::test::Fail;
use test_samples::{Line, SAMPLE, WITHDRAWAL};

/// Whether a seat is told this when it places an order of this name for so many wagons.
fn places<L: BookLedger, R: Wait>(
    desk: &Desk<'_, L, R>,
    seat: &mut Seat<L>,
    name: &str,
    wagons: u32,
    wanted: &str,
) -> Result<bool, Fail> {
    let line = Line::Order(name, "04:00:00", 1_000, wagons);
    Ok(desk.told(seat, line)?.as_str() == wanted)
}

/// Whether a seat places so many orders, O1 and so on, for 20 wagons each, which become the first entries.
fn places_all<L: BookLedger, R: Wait>(
    desk: &Desk<'_, L, R>,
    seat: &mut Seat<L>,
    orders: u32,
) -> Result<bool, Fail> {
    for k in 0..orders {
        let number = u64::from(k) + 1;
        let name = format!(in desk.alloc; "O{number}")?;
        let wanted = format!(in desk.alloc; "accepted {number}")?;
        if !places(desk, seat, &name, 20, &wanted)? {
            return Ok(false);
        }
    }
    Ok(true)
}

/// Whether 25 orders for 20 wagons each are all that may be open, until one is withdrawn.
fn fills<L: BookLedger, R: Wait>(desk: &Desk<'_, L, R>, seat: &mut Seat<L>) -> Result<bool, Fail> {
    let all = places_all(desk, seat, 25)?;
    let refused = places(desk, seat, "O26", 1, "refused 75")?;
    let withdrawn = desk.told(seat, WITHDRAWAL)?;
    let placed = places(desk, seat, "O26", 1, "accepted 27")?;
    Ok(all && refused && withdrawn.as_str() == "accepted 26" && placed)
}

/// Whether three seats have the numbers 1 to 3 and no receipt, and the third can place all orders that may be open.
pub(crate) fn opens<L: BookLedger, R: Wait>(
    desk: &Desk<'_, L, R>,
    seats: &mut [Seat<L>],
) -> Result<bool, Fail> {
    for (k, seat) in seats.iter().enumerate() {
        if seat.number() as usize != k + 1 || seat.count() != 0 || !seat.receipts().is_empty() {
            return Ok(false);
        }
    }
    let last = seats.get_mut(2).ok_or("no third seat")?;
    Ok(fills(desk, last)? && last.count() == 27)
}

#[test]
fn new_seats(rt: HostRuntime) -> Result<(), Fail> {
    let book = played(&rt, rt.alloc(), SAMPLE, 3, Action::Opening)?;
    assert_eq!(rt; book.len(), 27);
    Ok(())
}
