//! Runs in memory.

use crate::tests::End;
use office::{RunFault, run};
use std::alloc::Global;
use std::test::Fail;
use test_samples::{MemorySink, MemorySource, SAMPLE, Start, book_of};

/// Whether a run over these bytes, from a book that starts so, ends with this output and counts these refusals.
pub(crate) fn is_answered(
    alloc: Global,
    start: Start<'_>,
    input: &[u8],
    output: &[u8],
    refused: u64,
) -> Result<bool, Fail> {
    let mut book = book_of(alloc, start)?;
    let mut reader = MemorySource::new(input, usize::MAX);
    let mut writer = MemorySink::new(alloc, usize::MAX);
    let end = run(alloc, &mut reader, &mut writer, &mut book);
    // A `?` on a stop, with the book at hand, gave the prover one part more, of some 35 seconds.
    let is_counted = match end {
        Ok(count) => count.refused == refused,
        Err(_) => false,
    };
    Ok(is_counted && writer.bytes() == output)
}

/// How a run over these bytes ends, and how many entries the book has then.
pub(crate) fn end_of(alloc: Global, start: Start<'_>, input: &[u8]) -> Result<(End, u64), Fail> {
    let mut book = book_of(alloc, start)?;
    let mut reader = MemorySource::new(input, usize::MAX);
    let mut writer = MemorySink::new(alloc, usize::MAX);
    let end = match run(alloc, &mut reader, &mut writer, &mut book) {
        Ok(count) => Ok((count.lines, count.refused)),
        Err(fault) => Err((fault.number(), fault.line())),
    };
    Ok((end, book.len()))
}

/// Where a device fails: how many bytes it moves at once, and how many in all before it fails.
#[derive(Clone, Copy)]
pub(crate) struct Failing {
    pub(crate) step: usize,
    pub(crate) room: usize,
}

/// A device that moves all bytes, at once.
pub(crate) const SOUND: Failing = Failing {
    step: usize::MAX,
    room: usize::MAX,
};

/// How a run over these bytes, from the sample's book, stops where its devices fail so.
#[derive(Clone, Copy)]
pub(crate) struct Stop<'a> {
    pub(crate) fault: RunFault,
    pub(crate) output: &'a [u8],
    pub(crate) entries: u64,
}

/// Whether a run over these bytes, from the sample's book, stops so.
pub(crate) fn stops(
    alloc: Global,
    input: &[u8],
    reading: Failing,
    writing: Failing,
    stop: Stop<'_>,
) -> Result<bool, Fail> {
    let mut book = book_of(alloc, SAMPLE)?;
    let mut reader = MemorySource::failing(input, reading.step, reading.room, false);
    let mut writer = MemorySink::failing(alloc, writing.step, writing.room, false);
    let end = run(alloc, &mut reader, &mut writer, &mut book);
    let is_stopped = end == Err(stop.fault);
    Ok(is_stopped && writer.bytes() == stop.output && book.len() == stop.entries)
}
