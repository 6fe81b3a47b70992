//! Reading from std's `Read`, and writing to std's `Write`.
ghost use Rattle.std.specs.Prelude.{◌≡◌, false};

use crate::device::{DeviceFailed, Sink, Source};
use std::io::{Read, Write};

/// A source over std's `Read`, or a sink over std's `Write`. A write that takes no byte of a piece that isn't empty is a
/// failure.
#[derive(Drop)]
pub struct StdDevice<D> {
    pub device: D,
    /// Whether a call has failed so far.
    pub has_failed: bool,
}

impl<D> StdDevice<D> {
    /// A device of which no call has failed.
    pub fn new(device: D) -> StdDevice<D>
        ensures device { result.device ≡ device }
        ensures fresh { result.has_failed ≡ false }
    {
        StdDevice {
            device,
            has_failed: false,
        }
    }
}

impl<R: Read> Source for StdDevice<R> {
    ghost remaining = { λ s. R.remaining s.device };

    ghost has_failed = { λ s. s.has_failed };

    fn read(&mut self, piece: &mut [u8]) -> Result<usize, DeviceFailed> {
        match self.device.read(piece) {
            Ok(count) => Ok(count),
            Err(_) => {
                self.has_failed = true;
                Err(DeviceFailed)
            }
        }
    }

    fn failed(&self) -> bool {
        self.has_failed
    }
}

impl<W: Write> Sink for StdDevice<W> {
    ghost contents = { λ s. W.contents s.device };

    ghost has_failed = { λ s. s.has_failed };

    fn write(&mut self, piece: &[u8]) -> Result<usize, DeviceFailed> {
        match self.device.write(piece) {
            Ok(count) if count > 0 || piece.is_empty() => Ok(count),
            _ => {
                self.has_failed = true;
                Err(DeviceFailed)
            }
        }
    }

    fn failed(&self) -> bool {
        self.has_failed
    }
}
