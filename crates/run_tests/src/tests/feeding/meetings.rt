//! Files whose readers wait for one another, and a reader that fails.
ghost use Rattle.std.specs.Prelude.{◌≡◌, None, false};

use super::feeds::fed;
use super::files::{FIRST, REPORT, SECOND, is_text_of};
use line_engine::{DeviceFailed, Source};
use sessions::FeedReport;
use std::alloc::Global;
use std::sync::Wait;
use std::sync::atomic::{AtomicU64, Ordering};
use std::test::Fail;
use std::thread::Threads;
use test_samples::MemorySource;

/// How often a reader looks whether the other was asked, before it gives up.
const TURNS: u32 = 10_000_000;

/// A reader that gives no byte until another one has been asked for some, so many times.
#[derive(Drop)]
struct Meeting<'a> {
    bytes: MemorySource<'a>,
    asked: &'a AtomicU64,
    other: &'a AtomicU64,
    times: u64,
    gave_up: bool,
}

/// Whether the other was asked for bytes so many times, within the turns.
fn was_asked(other: &AtomicU64, times: u64) -> bool {
    for _ in 0..TURNS {
        if other.load(Ordering::SeqCst) >= times {
            return true;
        }
    }
    false
}

impl<'a> Meeting<'a> {
    fn new(text: &'a str, asked: &'a AtomicU64, other: &'a AtomicU64, times: u64) -> Meeting<'a>
        ensures { ⟦<Meeting<'a> as Source>⟧.has_failed result ≡ false }
    {
        Meeting {
            bytes: MemorySource::new(text.as_bytes(), usize::MAX),
            asked,
            other,
            times,
            gave_up: false,
        }
    }
}

impl<'a> Source for Meeting<'a> {
    ghost remaining = { λ _. None };

    ghost has_failed = { λ s. ⟦<MemorySource<'a> as Source>⟧.has_failed s.bytes };

    fn read(&mut self, piece: &mut [u8]) -> Result<usize, DeviceFailed> {
        self.asked.fetch_add(1, Ordering::SeqCst);
        if !was_asked(self.other, self.times) {
            self.gave_up = true;
        }
        self.bytes.read(piece)
    }

    fn failed(&self) -> bool {
        self.bytes.failed()
    }
}

/// Whether the two files are reported where each reader waits for the other, and neither gave up.
fn is_met<T: Threads + Wait + Sync>(rt: &T, alloc: Global) -> Result<bool, Fail> {
    let (first, second) = (AtomicU64::new(0), AtomicU64::new(0));
    let one = Meeting::new(FIRST, &first, &second, 1);
    let other = Meeting::new(SECOND, &second, &first, 1);
    let readers = vec![in alloc; one, other]?;
    let report = fed(rt, alloc, readers)?;
    Ok(is_text_of(alloc, &report, REPORT)? && report.files.iter().all(|file| !file.reader.gave_up))
}

#[test]
fn two_at_once(rt: HostRuntime) -> Result<(), Fail> {
    assert!(rt; is_met(&rt, rt.alloc())?);
    Ok(())
}

/// A departure of a wagon, and its arrival from another railway.
const DEPARTURE: &str =
    r#"{"type":"departure","company":"0080","number":1,"wagon":"338447961008","place":"DE00001","moment":"2026-03-01T02:00:00Z"}
"#;

const ARRIVAL: &str =
    r#"{"type":"arrival","company":"0081","number":1,"wagon":"338447961008","place":"DE00003","moment":"2026-03-01T05:00:00Z"}
"#;

/// Whether a message is in the book when its reader is asked for more: another file's message, which is read only then, follows
/// on it.
fn is_taken_in<T: Threads + Wait + Sync>(rt: &T, alloc: Global) -> Result<bool, Fail> {
    let (first, second) = (AtomicU64::new(0), AtomicU64::new(0));
    let one = Meeting::new(DEPARTURE, &first, &second, 0);
    let other = Meeting::new(ARRIVAL, &second, &first, 2);
    let readers = vec![in alloc; one, other]?;
    let report = fed(rt, alloc, readers)?;
    Ok(
        report
            .files
            .iter()
            .all(|file| file.accepted == 1 && !file.reader.gave_up),
    )
}

#[test]
fn what_was_read_is_taken_in(rt: HostRuntime) -> Result<(), Fail> {
    assert!(rt; is_taken_in(&rt, rt.alloc())?);
    Ok(())
}

/// Whether a file fails behind so many bytes of its reader with 93, after so many accepted lines.
fn is_unread<T: Threads + Wait + Sync>(
    rt: &T,
    alloc: Global,
    given: usize,
    accepted: u64,
) -> Result<bool, Fail> {
    let reader = MemorySource::failing(FIRST.as_bytes(), usize::MAX, given, false);
    let readers = vec![in alloc; reader]?;
    let report = fed(rt, alloc, readers)?;
    Ok(is_failed(&report) && report.book.len() == accepted)
}

/// Whether the first file was stopped by its reader.
fn is_failed(report: &FeedReport<MemorySource<'_>>) -> bool {
    match report.files.first() {
        Some(file) => file.failed == Some(93) && file.reader.failed(),
        None => false,
    }
}

/// The reader fails before the first byte, within the first line, and within the second.
#[test]
fn a_reader_fails(rt: HostRuntime) -> Result<(), Fail> {
    for (given, accepted) in [(0, 0), (7, 0), (130, 1)] {
        assert!(rt; is_unread(&rt, rt.alloc(), given, accepted)?, "{given}");
    }
    Ok(())
}
