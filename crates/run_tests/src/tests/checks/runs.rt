//! Whole runs: pieces of any size, a million lines, and stops.

use crate::tests::End;
use line_engine::{LineLimit, RunFault};
use std::alloc::Global;
use std::test::Fail;
use table_lines::check_run;
use test_samples::{MemorySink, MemorySource};

/// Three lines: one that isn't JSON, a blank one, and one that is no object.
pub(crate) const INPUT: &[u8] = b"{\n \t\r\n[]";

pub(crate) const OUTPUT: &[u8] = b"1 refused 21\n3 refused 22\n";

/// Whether a run over the three lines, which are read and written in pieces of this size, goes to its end.
fn is_answered(alloc: Global, step: usize) -> Result<bool, Fail> {
    let mut reader = MemorySource::new(INPUT, step);
    let mut writer = MemorySink::new(alloc, step);
    let count = check_run(alloc, LineLimit::standard(), &mut reader, &mut writer)?;
    let is_counted = (count.lines, count.refused, count.unended) == (3, 2, true);
    Ok(is_counted && writer.bytes() == OUTPUT)
}

#[test]
fn pieces(rt: HostRuntime) -> Result<(), Fail> {
    for step in [1, 2, 3, 100] {
        assert!(rt; is_answered(rt.alloc(), step)?, "{step}");
    }
    Ok(())
}

/// How often a run over the three lines writes, where the writer takes all of a piece.
fn writes(alloc: Global) -> Result<u64, Fail> {
    let mut reader = MemorySource::new(INPUT, 1);
    let mut writer = MemorySink::new(alloc, usize::MAX);
    check_run(alloc, LineLimit::standard(), &mut reader, &mut writer)?;
    Ok(writer.writes())
}

/// Each reply is one write.
#[test]
fn one_write_a_reply(rt: HostRuntime) -> Result<(), Fail> {
    assert_eq!(rt; writes(rt.alloc())?, 2);
    Ok(())
}

/// How a run over memory ends.
fn end_of(alloc: Global, input: &[u8]) -> End {
    let mut reader = MemorySource::new(input, usize::MAX);
    let mut writer = MemorySink::new(alloc, usize::MAX);
    match check_run(alloc, LineLimit::standard(), &mut reader, &mut writer) {
        Ok(count) => Ok((count.lines, count.refused)),
        Err(fault) => Err((fault.number(), fault.line())),
    }
}

/// How a run ends over so many line feeds, and then these bytes.
fn end_of_line_feeds(alloc: Global, count: usize, last: &str) -> Result<End, Fail> {
    let mut bytes = vec![in alloc; b'\n'; count]?;
    bytes.extend_from_slice(last.as_bytes())?;
    Ok(end_of(alloc, &bytes))
}

/// So many line feeds and then these bytes, each with how a run over them ends: a line past the millionth is one too many,
/// with a line feed at its end or without.
#[test]
fn a_million_lines(rt: HostRuntime) -> Result<(), Fail> {
    for (count, last, end) in [
        (1_000_000, "", Ok((1_000_000, 0))),
        (999_999, " ", Ok((1_000_000, 0))),
        (1_000_001, "", Err((91, Some(1_000_001)))),
        (1_000_000, " ", Err((91, Some(1_000_001)))),
        (1_000_000, "[]", Err((91, Some(1_000_001)))),
    ] {
        let found = end_of_line_feeds(rt.alloc(), count, last)?;
        assert_eq!(rt; found, end, "{count}");
    }
    Ok(())
}

/// A stop has the number of its line, but where no line was begun.
#[test]
fn numbers_of_stops(rt: HostRuntime) {
    for (fault, number, line) in [
        (RunFault::OutOfMemory, 1, None),
        (RunFault::TooManyLines(1_000_001), 91, Some(1_000_001)),
        (RunFault::LineTooLong(7), 92, Some(7)),
        (RunFault::ReadFailed(8), 93, Some(8)),
        (RunFault::WriteFailed(9), 94, Some(9)),
    ] {
        assert_eq!(rt; (fault.number(), fault.line()), (number, line));
    }
}
