//! The tables of kept problems.

use super::runs::book_after;
use commit_book::Book;
use std::alloc::Global;
use std::test::Fail;
use test_samples::{BEGIN, ORDER, moment};

/// Whether the problem of a version at a moment is kept, and its table is of two wagons and one order.
fn has_table(alloc: Global, book: &mut Book, version: u64, at: &str) -> Result<bool, Fail> {
    match book.kept_table(alloc, version, moment(at)?)? {
        Some(made) => Ok(made.cells().wagons() == 2 && made.cells().orders() == 1),
        None => Ok(false),
    }
}

#[test]
fn a_kept_problem_has_a_table(rt: HostRuntime) -> Result<(), Fail> {
    let mut book = book_after(rt.alloc(), &[ORDER, BEGIN])?;
    assert!(rt; has_table(rt.alloc(), &mut book, 1, "2026-03-01T01:00:00Z")?);
    assert!(rt; has_table(rt.alloc(), &mut book, 1, "2026-03-01T01:00:00Z")?);
    assert!(rt; !has_table(rt.alloc(), &mut book, 1, "2026-03-01T02:00:00Z")?);
    assert!(rt; !has_table(rt.alloc(), &mut book, 0, "2026-03-01T01:00:00Z")?);
    Ok(())
}
