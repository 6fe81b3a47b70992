//! Readers and writers that fail in the script of departures: the book is as after the lines before.

use super::runs::{Failing, SOUND, Stop, stops};
use super::scripts::{DEPARTURES, DEPARTURES_REPLIES};
use office::RunFault;
use std::alloc::Global;
use std::test::Fail;

/// The first bytes of the replies.
fn replies(count: usize) -> &'static [u8] {
    let all = DEPARTURES_REPLIES.as_bytes();
    &all[..count.min(all.len())]
}

/// Whether the run stops at a line where the reader fails behind so many bytes.
fn stops_reading(
    alloc: Global,
    given: usize,
    line: u64,
    written: usize,
    entries: u64,
) -> Result<bool, Fail> {
    let reading = Failing {
        step: 7,
        room: given,
    };
    let stop = Stop {
        fault: RunFault::ReadFailed(line),
        output: replies(written),
        entries,
    };
    stops(alloc, DEPARTURES.as_bytes(), reading, SOUND, stop)
}

/// Of each line of the script: its number, and before it the bytes of the replies and the entries.
const BEFORE: [(u64, usize, u64); 3] = [(1, 0, 0), (2, 13, 1), (3, 26, 1)];

/// The reader fails behind each byte of the script; the next byte would belong to the line.
#[test]
fn a_reader_fails(rt: HostRuntime) -> Result<(), Fail> {
    let mut start = 0usize;
    for (text, (line, written, entries)) in DEPARTURES.split_inclusive('\n').zip(BEFORE) {
        for into in 0..text.len() {
            let given = start.saturating_add(into);
            let stopped = stops_reading(rt.alloc(), given, line, written, entries)?;
            assert!(rt; stopped, "{given}");
        }
        start = start.saturating_add(text.len());
    }
    let stopped = stops_reading(rt.alloc(), start, 4, 39, 1)?;
    assert!(rt; stopped, "{start}");
    Ok(())
}

/// Whether the run stops at a line where the writer, which takes so many bytes at once, fails behind so many.
fn stops_writing(
    alloc: Global,
    step: usize,
    room: usize,
    line: u64,
    entries: u64,
) -> Result<bool, Fail> {
    let writing = Failing { step, room };
    let stop = Stop {
        fault: RunFault::WriteFailed(line),
        output: replies(room),
        entries,
    };
    stops(alloc, DEPARTURES.as_bytes(), SOUND, writing, stop)
}

/// The writer fails at each of its writes; the line is done then.
#[test]
fn a_writer_fails(rt: HostRuntime) -> Result<(), Fail> {
    for room in 0..39usize {
        let (line, entries) = (room as u64 / 13 + 1, 1);
        let stopped = stops_writing(rt.alloc(), 1, room, line, entries)?;
        assert!(rt; stopped, "{room}");
    }
    for (room, line) in [(0, 1), (13, 2), (26, 3)] {
        let stopped = stops_writing(rt.alloc(), usize::MAX, room, line, 1)?;
        assert!(rt; stopped, "{room} at once");
    }
    Ok(())
}
