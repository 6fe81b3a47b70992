//! The office of a book: its free wagons, and what can be promised.

use super::runs::book_after;
use commit_book::{Book, Refusal};
use rail_codes::{OrderId, WagonNumber};
use std::alloc::Global;
use std::test::Fail;
use test_samples::Line::{Commit, Hold, Order};
use test_samples::{
    BEGIN, COMMIT, FAR, Line, NEAR, ORDER, SAMPLE, UNKNOWN, book_of, class, order_id, place, wagon,
};

const HOLD: Line<'static> = Hold(1, NEAR, "DE00002", "01:30:00", true);

const LET_GO: Line<'static> = Hold(2, NEAR, "DE00002", "01:45:00", false);

/// How many wagons of a class are free at a place after these lines' calls.
const FREE: &[(&[Line<'static>], &str, &str, usize)] = &[
    (&[ORDER, BEGIN], "Eanos", "DE00002", 1),
    (&[ORDER, BEGIN], "Eanos", "DE00003", 0),
    (&[ORDER, BEGIN], "eanos", "DE00002", 0),
    (&[ORDER, BEGIN, COMMIT], "Eanos", "DE00002", 0),
    (&[ORDER, BEGIN, COMMIT, HOLD], "Eanos", "DE00002", 0),
    (&[ORDER, BEGIN, COMMIT, HOLD, LET_GO], "Eanos", "DE00002", 1),
];

/// How many wagons of a class are free at a place after these lines' calls.
fn free_after(alloc: Global, lines: &[Line<'_>], name: &str, at: &str) -> Result<usize, Fail> {
    let (class, place) = (class(name)?, place(at)?);
    let book = book_after(alloc, lines)?;
    Ok(book.state().free_count(class, place))
}

#[test]
fn free_wagons_are_counted(rt: HostRuntime) -> Result<(), Fail> {
    for (lines, class, place, count) in FREE {
        let found = free_after(rt.alloc(), lines, class, place)?;
        assert_eq!(rt; found, *count, "{class} {place}");
    }
    Ok(())
}

const SECOND: Line<'static> = Order("O2", "04:00:00", 1_000, 1);

/// Two orders.
const PLACED: &[Line<'static>] = &[ORDER, SECOND];

/// Two orders, of which each is promised a wagon.
const PROMISED: &[Line<'static>] = &[
    ORDER,
    SECOND,
    BEGIN,
    Commit(2, &[(FAR, "O2"), (NEAR, "O1")], &[100, 0], &[150, 150]),
];

/// Whether wagons can be promised to orders after these lines' calls.
const PROMISES: &[(&[Line<'static>], &[(&str, &str)], bool)] = &[
    (PLACED, &[(FAR, "O1"), (FAR, "O2")], false),
    (PLACED, &[(FAR, "O1"), (NEAR, "O1")], false),
    (PLACED, &[(UNKNOWN, "O1")], false),
    (PLACED, &[(FAR, "O3")], false),
    (PLACED, &[], true),
    (PLACED, &[(FAR, "O2"), (NEAR, "O1")], true),
    (PROMISED, &[(FAR, "O2")], false),
];

/// The pairs of these wagons and orders.
fn pairs_of(alloc: Global, names: &[(&str, &str)]) -> Result<Vec<(WagonNumber, OrderId)>, Fail> {
    let mut pairs = Vec::new(alloc);
    for (number, name) in names {
        pairs.push((wagon(number)?, order_id(name)?))?;
    }
    Ok(pairs)
}

/// Whether these wagons can be promised to these orders after these lines' calls.
fn can_promise(alloc: Global, lines: &[Line<'_>], names: &[(&str, &str)]) -> Result<bool, Fail> {
    let pairs = pairs_of(alloc, names)?;
    let book = book_after(alloc, lines)?;
    Ok(book.state().can_promise(&pairs))
}

#[test]
fn pairs_that_can_be_promised(rt: HostRuntime) -> Result<(), Fail> {
    for (lines, names, possible) in PROMISES {
        let found = can_promise(rt.alloc(), lines, names)?;
        assert_eq!(rt; found, *possible, "{names:?}");
    }
    Ok(())
}

/// The number with which a revision to a network is refused.
fn refused_by(alloc: Global, book: &mut Book, network: u32) -> Option<u32> {
    match book.revise(alloc, network) {
        Ok(_) => None,
        // Named apart, since a fault inside a refusal is to be known here.
        Err(Refusal::Check(fault)) => Some(fault.number()),
        Err(refusal) => Some(refusal.number()),
    }
}

/// The same of the sample's book.
fn refusal_of(alloc: Global, network: u32) -> Result<Option<u32>, Fail> {
    let mut book = book_of(alloc, SAMPLE)?;
    Ok(refused_by(alloc, &mut book, network))
}

#[test]
fn there_is_no_network_0(rt: HostRuntime) -> Result<(), Fail> {
    assert_eq!(rt; refusal_of(rt.alloc(), 0)?, Some(79));
    Ok(())
}
