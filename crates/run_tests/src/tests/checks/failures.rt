//! Readers and writers that fail, each time or once: no read and no write is tried again.

use super::runs::{INPUT, OUTPUT};
use line_engine::{LineLimit, RunFault, Source, StdDevice};
use std::alloc::Global;
use table_lines::check_run;
use test_samples::{MemoryReader, MemorySink, MemorySource, MemoryWriter};

/// The first bytes of the output.
fn output(count: usize) -> &'static [u8] {
    &OUTPUT[..count.min(OUTPUT.len())]
}

/// Whether a run over a source that fails stops so, after these bytes of output.
fn stops_reading<S: Source + Drop>(alloc: Global, mut reader: S, line: u64, output: &[u8]) -> bool {
    if reader.failed() {
        return false;
    }
    let mut writer = MemorySink::new(alloc, usize::MAX);
    let answer = check_run(alloc, LineLimit::standard(), &mut reader, &mut writer);
    answer == Err(RunFault::ReadFailed(line)) && writer.bytes() == output
}

/// The number of the line that the next byte would belong to, and how much is written, behind so many bytes of the
/// input.
const READS: [(u64, usize, &[usize]); 3] = [(1, 0, &[0, 1]), (2, 13, &[2, 4]), (3, 13, &[6, 7, 8])];

#[test]
fn a_reader_fails(rt: HostRuntime) {
    for (line, written, places) in READS {
        let output = output(written);
        for given in places {
            for once in [false, true] {
                let reader = MemorySource::failing(INPUT, 1, *given, once);
                let stops = stops_reading(rt.alloc(), reader, line, output);
                assert!(rt; stops, "{given} {once}");
                let reader = StdDevice::new(MemoryReader::failing(INPUT, *given, once));
                let stops = stops_reading(rt.alloc(), reader, line, output);
                assert!(rt; stops, "{given} {once}, a reader of std");
            }
        }
    }
}

/// Whether a run stops in a line's reply where the writer, which takes so many bytes at once, fails behind so many
/// bytes, once or each time; and how many writes are tried.
fn stops_writing(
    alloc: Global,
    step: usize,
    room: usize,
    once: bool,
    line: u64,
    writes: u64,
) -> bool {
    let mut reader = MemorySource::new(INPUT, 100);
    let mut writer = MemorySink::failing(alloc, step, room, once);
    let answer = check_run(alloc, LineLimit::standard(), &mut reader, &mut writer);
    let is_written = writer.bytes() == output(room);
    answer == Err(RunFault::WriteFailed(line)) && is_written && writer.writes() == writes
}

#[test]
fn a_writer_fails(rt: HostRuntime) {
    for (step, room, line, writes) in [
        (1, 0, 1, 1),
        (1, 5, 1, 6),
        (1, 12, 1, 13),
        (1, 13, 3, 14),
        (1, 25, 3, 26),
        (100, 0, 1, 1),
        (100, 13, 3, 2),
    ] {
        for once in [false, true] {
            let stops = stops_writing(rt.alloc(), step, room, once, line, writes);
            assert!(rt; stops, "{step} {room} {once}");
        }
    }
}

/// The same over a writer of std, which takes all at once.
fn stops_writing_std(alloc: Global, room: usize, once: bool, line: u64, writes: u64) -> bool {
    let mut reader = MemorySource::new(INPUT, 100);
    let mut written = MemoryWriter::failing(alloc, room, once);
    let mut writer = StdDevice::new(&mut written);
    let answer = check_run(alloc, LineLimit::standard(), &mut reader, &mut writer);
    let is_written = written.bytes() == output(room);
    answer == Err(RunFault::WriteFailed(line)) && is_written && written.writes() == writes
}

#[test]
fn a_writer_of_std_fails(rt: HostRuntime) {
    for (room, line, writes) in [(0, 1, 1), (13, 3, 2)] {
        for once in [false, true] {
            let stops = stops_writing_std(rt.alloc(), room, once, line, writes);
            assert!(rt; stops, "{room} {once}");
        }
    }
}
