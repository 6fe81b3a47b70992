//! Replies that nobody reads.
ghost use Rattle.std.specs.Prelude.{None, false};

use crate::device::{DeviceFailed, Sink};

/// Where replies go that nobody reads. A write never fails.
#[derive(Drop)]
pub struct NoReplies;

impl Sink for NoReplies {
    ghost contents = { λ _. None };

    ghost has_failed = { λ _. false };

    fn write(&mut self, piece: &[u8]) -> Result<usize, DeviceFailed> {
        Ok(piece.len())
    }

    fn failed(&self) -> bool {
        false
    }
}
