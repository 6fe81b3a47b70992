//! An input of a million lines.

use super::runs::end_of;
use crate::tests::End;
use std::alloc::Global;
use std::test::Fail;
use test_samples::SAMPLE;

/// How a run over so many line feeds ends, and how many entries the book has then.
fn end_of_line_feeds(alloc: Global, count: usize) -> Result<(End, u64), Fail> {
    let input = vec![in alloc; b'\n'; count]?;
    end_of(alloc, SAMPLE, &input)
}

/// The millionth line is the last.
#[test]
fn limits(rt: HostRuntime) -> Result<(), Fail> {
    for (count, end) in [
        (1_000_000, Ok((1_000_000, 0))),
        (1_000_001, Err((91, Some(1_000_001)))),
    ] {
        let found = end_of_line_feeds(rt.alloc(), count)?;
        assert_eq!(rt; found, (end, 0), "{count}");
    }
    Ok(())
}
