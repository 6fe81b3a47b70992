//! A reader and a source over memory, which fail where a test says so.

ghost use Rattle.std.specs.Prelude.{◌≡◌, ◌≤◌, false, None, IfSome, length};

use crate::devices::answer;
use line_engine::{DeviceFailed, Source};
use std::io;
use std::io::Read;

/// Bytes that are given in pieces.
#[derive(Drop)]
struct Supply<'a> {
    rest: &'a [u8],
    /// The most bytes of a piece.
    step: usize,
    /// How many bytes are given before the failure, if there is one.
    until_failure: Option<usize>,
    /// Whether only one read fails, and the next goes on.
    fails_once: bool,
}

impl<'a> Supply<'a> {
    fn new(
        rest: &'a [u8],
        step: usize,
        until_failure: Option<usize>,
        fails_once: bool,
    ) -> Supply<'a> {
        Supply {
            rest,
            step,
            until_failure,
            fails_once,
        }
    }

    /// The next bytes, into the piece's front, and how many; `None` where the read fails.
    fn read(&mut self, piece: &mut [u8]) -> Option<usize>
        ensures { IfSome result (λ count. count ≤ length piece.new) }
    {
        let mut count = self.rest.len().min(piece.len()).min(self.step.max(1));
        if let Some(left) = self.until_failure {
            if left == 0 {
                self.until_failure = if self.fails_once { None } else { Some(0) };
                return None;
            }
            count = count.min(left);
            self.until_failure = Some(left - count);
        }
        let (front, rest) = self.rest.split_at(count);
        piece[..count].copy_from_slice(front);
        self.rest = rest;
        Some(count)
    }
}

/// A source over memory.
#[derive(Drop)]
pub struct MemorySource<'a> {
    supply: Supply<'a>,
    has_failed: bool,
}

impl<'a> MemorySource<'a> {
    /// Gives its bytes in pieces of at most `step` bytes.
    pub fn new(bytes: &'a [u8], step: usize) -> MemorySource<'a>
        ensures { ⟦<MemorySource<'a> as Source>⟧.has_failed result ≡ false }
    {
        MemorySource {
            supply: Supply::new(bytes, step, None, false),
            has_failed: false,
        }
    }

    /// Gives so many bytes, then fails: once, and goes on behind it, or each time.
    pub fn failing(bytes: &'a [u8], step: usize, given: usize, once: bool) -> MemorySource<'a>
        ensures { ⟦<MemorySource<'a> as Source>⟧.has_failed result ≡ false }
    {
        MemorySource {
            supply: Supply::new(bytes, step, Some(given), once),
            has_failed: false,
        }
    }
}

impl Source for MemorySource<'_> {
    ghost remaining = { λ _. None };

    ghost has_failed = { λ s. s.has_failed };

    fn read(&mut self, piece: &mut [u8]) -> Result<usize, DeviceFailed> {
        let count = self.supply.read(piece);
        answer(count, &mut self.has_failed)
    }

    fn failed(&self) -> bool {
        self.has_failed
    }
}

/// A reader of std over memory.
#[derive(Drop)]
pub struct MemoryReader<'a> {
    supply: Supply<'a>,
}

impl<'a> MemoryReader<'a> {
    /// Gives so many bytes, then fails: once, and goes on behind it, or each time.
    pub fn failing(bytes: &'a [u8], given: usize, once: bool) -> MemoryReader<'a> {
        MemoryReader {
            supply: Supply::new(bytes, usize::MAX, Some(given), once),
        }
    }
}

impl Read for MemoryReader<'_> {
    fn read(&mut self, buf: &mut [u8]) -> io::Result<usize> {
        match self.supply.read(buf) {
            Some(count) => Ok(count),
            None => Err(io::Error::from(io::ErrorKind::Other)),
        }
    }
}
