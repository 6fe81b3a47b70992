//! Runs of calls by command lines.

use commit_book::{Answer, Book, Refusal, Reply};
use std::alloc::Global;
use std::test::Fail;
use test_samples::{BEGIN, COMMIT, DEPARTURE, Line, ORDER, SAMPLE, book_of, call};

/// What a book answers to a run of these lines' calls.
fn run(alloc: Global, book: &mut Book, lines: &[Line<'_>]) -> Result<Vec<Answer>, Fail> {
    let mut calls = Vec::new(alloc);
    for line in lines {
        calls.push(call(alloc, *line)?)?;
    }
    Ok(book.run(alloc, &calls)?)
}

/// The sample's book after a run of these lines' calls.
pub(crate) fn book_after(alloc: Global, lines: &[Line<'_>]) -> Result<Book, Fail> {
    let mut book = book_of(alloc, SAMPLE)?;
    let _answers = run(alloc, &mut book, lines)?;
    Ok(book)
}

/// Whether the sample's book answers this to a run of these lines' calls.
fn answers(alloc: Global, lines: &[Line<'_>], wanted: &[Answer]) -> Result<bool, Fail> {
    let mut book = book_of(alloc, SAMPLE)?;
    Ok(run(alloc, &mut book, lines)?.as_slice() == wanted)
}

#[test]
fn a_run_of_calls(rt: HostRuntime) -> Result<(), Fail> {
    let lines = [ORDER, BEGIN, COMMIT, DEPARTURE, DEPARTURE, ORDER];
    let wanted = [
        Answer::Done(Reply::Accepted(1)),
        Answer::Begun(1),
        Answer::Done(Reply::Accepted(2)),
        Answer::Done(Reply::Accepted(3)),
        Answer::Done(Reply::Repeated(3)),
        Answer::Refused(Refusal::OrderKnown),
    ];
    assert!(rt; answers(rt.alloc(), &lines, &wanted)?);
    Ok(())
}
