//! Entries of a book.

use super::runs::book_after;
use commit_book::{Book, Call, Entry, EventView};
use move_messages::Event;
use std::alloc::Global;
use std::test::Fail;
use test_samples::{BEGIN, COMMIT, Line, ORDER, call};

/// Lines that leave two entries: the second commit is refused.
const LINES: &[Line<'static>] = &[ORDER, BEGIN, COMMIT, COMMIT];

/// Whether there is an entry of this number after these lines' calls.
fn has_entry(alloc: Global, lines: &[Line<'_>], n: u64) -> Result<bool, Fail> {
    let book = book_after(alloc, lines)?;
    Ok(book.entry(n).is_some())
}

#[test]
fn entries_are_counted_from_1(rt: HostRuntime) -> Result<(), Fail> {
    for (n, there) in [
        (0, false),
        (1, true),
        (2, true),
        (3, false),
        (u64::MAX, false),
    ] {
        assert_eq!(rt; has_entry(rt.alloc(), LINES, n)?, there, "{n}");
    }
    assert!(rt; !has_entry(rt.alloc(), &[], 1)?);
    Ok(())
}

/// Whether the entry of a number is the event of a line, and that event's copy.
fn is_entry(alloc: Global, book: &Book, n: u64, line: Line<'_>) -> Result<bool, Fail> {
    let Call::Event(event) = call(alloc, line)? else {
        return Err(Fail::new("no event"));
    };
    let copy = Entry::of(alloc, event.copy(alloc)?)?;
    let entry = Entry::of(alloc, event)?;
    Ok(book.is_entry(n, &entry) && book.is_entry(n, &copy))
}

/// Whether the entry of a number is lent as a commit of a version.
fn is_commit_of(book: &Book, n: u64, version: u64) -> bool {
    match book.entry(n) {
        Some(EventView::Commit(commit)) => commit.version == version,
        _ => false,
    }
}

#[test]
fn an_entry_is_its_event(rt: HostRuntime) -> Result<(), Fail> {
    let book = book_after(rt.alloc(), LINES)?;
    assert!(rt; is_entry(rt.alloc(), &book, 2, COMMIT)?);
    assert!(rt; is_commit_of(&book, 2, 1));
    assert!(rt; !is_commit_of(&book, 1, 1));
    Ok(())
}
