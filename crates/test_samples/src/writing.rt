//! A writer and a sink over memory, which count their writes and fail where a test says so.

ghost use Rattle.std.specs.Prelude.{◌≡◌, ◌≤◌, ◌<◌, false, None, IfSome, length};

use crate::devices::answer;
use line_engine::{DeviceFailed, Sink};
use std::alloc::Global;
use std::io;
use std::io::Write;

/// Bytes that were taken in pieces.
#[derive(Drop)]
struct Store {
    bytes: Vec<u8>,
    /// The most bytes that are taken at once.
    step: usize,
    /// How many bytes are taken before the failure.
    room: usize,
    /// Whether only one write fails, and the next goes on.
    fails_once: bool,
    /// How many writes were tried.
    writes: u64,
}

impl Store {
    fn new(alloc: Global, step: usize, room: usize, fails_once: bool) -> Store {
        Store {
            bytes: Vec::new(alloc),
            step,
            room,
            fails_once,
            writes: 0,
        }
    }

    /// Takes the piece's front, and answers how many bytes; `None` where the write fails.
    fn write(&mut self, piece: &[u8]) -> Option<usize>
        ensures bound { IfSome result (λ count. count ≤ length piece.now) }
        ensures progress { IfSome result (λ count. 0 < length piece.now → 0 < count) }
    {
        if piece.is_empty() {
            return Some(0);
        }
        self.writes = self.writes.saturating_add(1);
        let count = piece.len().min(self.step.max(1));
        if self.bytes.len() >= self.room {
            if self.fails_once {
                self.room = usize::MAX;
            }
            return None;
        }
        match self.bytes.extend_from_slice(&piece[..count]) {
            Ok(()) => Some(count),
            Err(_) => None,
        }
    }
}

/// A sink over memory.
#[derive(Drop)]
pub struct MemorySink {
    store: Store,
    has_failed: bool,
}

impl MemorySink {
    /// Takes at most `step` bytes a write.
    pub fn new(alloc: Global, step: usize) -> MemorySink
        ensures { ⟦<MemorySink as Sink>⟧.has_failed result ≡ false }
    {
        MemorySink {
            store: Store::new(alloc, step, usize::MAX, false),
            has_failed: false,
        }
    }

    /// Takes at most `step` bytes a write, and fails once it holds `room` bytes: in one write, and goes on behind it,
    /// or each time.
    pub fn failing(alloc: Global, step: usize, room: usize, once: bool) -> MemorySink
        ensures { ⟦<MemorySink as Sink>⟧.has_failed result ≡ false }
    {
        MemorySink {
            store: Store::new(alloc, step, room, once),
            has_failed: false,
        }
    }

    /// What was written.
    pub fn bytes(&self) -> &[u8] {
        self.store.bytes.as_slice()
    }

    /// How many writes were tried.
    pub fn writes(&self) -> u64 {
        self.store.writes
    }
}

impl Sink for MemorySink {
    ghost contents = { λ _. None };

    ghost has_failed = { λ s. s.has_failed };

    fn write(&mut self, piece: &[u8]) -> Result<usize, DeviceFailed> {
        let count = self.store.write(piece);
        answer(count, &mut self.has_failed)
    }

    fn failed(&self) -> bool {
        self.has_failed
    }
}

/// A writer of std over memory.
#[derive(Drop)]
pub struct MemoryWriter {
    store: Store,
}

impl MemoryWriter {
    /// Takes all bytes of a write, and fails once it holds `room` bytes: in one write, and goes on behind it, or each
    /// time.
    pub fn failing(alloc: Global, room: usize, once: bool) -> MemoryWriter {
        MemoryWriter {
            store: Store::new(alloc, usize::MAX, room, once),
        }
    }

    /// What was written.
    pub fn bytes(&self) -> &[u8] {
        self.store.bytes.as_slice()
    }

    /// How many writes were tried.
    pub fn writes(&self) -> u64 {
        self.store.writes
    }
}

impl Write for MemoryWriter {
    fn write(&mut self, buf: &[u8]) -> io::Result<usize> {
        match self.store.write(buf) {
            Some(count) => Ok(count),
            None => Err(io::Error::from(io::ErrorKind::Other)),
        }
    }

    fn flush(&mut self) -> io::Result<()> {
        Ok(())
    }
}
