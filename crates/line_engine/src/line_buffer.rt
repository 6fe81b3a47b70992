//! The bytes of the line that is being read.
ghost use Rattle.std.specs.Prelude.{◌≡◌, ◌+◌, ◌≤◌, ◌++◌, ◌↔◌, [], length, IsOk, IfOk, OnOk, OnErr};

use crate::line_limit::LineLimit;
use std::alloc::{AllocError, Global};
use std::marker::Model;

/// A line grew past the limit.
#[derive(Clone, Copy)]
pub struct LineTooLong;

/// The line that is being read, in memory that is allocated once.
#[derive(Drop)]
pub struct LineBuffer {
    bytes: Vec<u8>,
    limit: LineLimit,
}

impl Model for LineBuffer {
    ghost use Rattle.std.specs.Prelude.{◌≤◌, vec_len, vec_capacity};
    ghost use Rattle.line_engine.specs.inner.BufferedLine.{BufferedLine};

    ghost Value = { BufferedLine };

    ghost view = { λ b. record { bytes = b.bytes.items; most = b.limit } };

    ghost invariant = { λ b. (vec_len b.bytes ≤ b.limit) × (b.limit ≤ vec_capacity b.bytes) };
}

impl LineBuffer {
    /// An empty line, with memory for as many bytes as the limit allows.
    pub fn new(alloc: Global, limit: LineLimit) -> Result<LineBuffer, AllocError>
        ensures { IfOk result (λ buffer. (buffer.bytes ≡ []) × (buffer.most ≡ limit)) }
    {
        Ok(LineBuffer {
            bytes: Vec::with_capacity(alloc, limit.bytes() as usize)?,
            limit,
        })
    }

    pub fn clear(&mut self)
        ensures emptied { self.new.bytes ≡ [] }
        ensures most { self.new.most ≡ self.old.most }
    {
        self.bytes.clear();
    }

    pub fn as_slice(&self) -> &[u8]
        ensures value { result.now ≡ self.now.bytes }
        ensures within { length self.now.bytes ≤ self.now.most }
    {
        self.bytes.as_slice()
    }

    /// Adds bytes at the line's end, where the line stays within the limit. Takes no memory.
    pub fn push(&mut self, more: &[u8]) -> Result<(), LineTooLong>
        ensures fits { IsOk result ↔ (length self.old.bytes + length more.now ≤ self.old.most) }
        ensures ok { OnOk result (self.new.bytes ≡ self.old.bytes ++ more.now) }
        ensures err { OnErr result (self.new.bytes ≡ self.old.bytes) }
        ensures most { self.new.most ≡ self.old.most }
    {
        let most = self.limit.bytes() as usize;
        if more.len() > most - self.bytes.len() {
            return Err(LineTooLong);
        }
        self.bytes.extend_from_slice(more).map_err(|_| LineTooLong)
    }
}
