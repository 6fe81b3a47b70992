//! The text of a reply.
ghost use Rattle.std.specs.Prelude.{◌≡◌, ◌+◌, ◌<◌, ◌≤◌, ◌++◌, [], ◌∷◌, length, decimal, OnOk, IfOk, IsOk};
ghost use Rattle.line_engine.specs.Replies.{least_room, max_head_bytes, out_of_memory_body};

use itoa::Buffer;
use std::alloc::{AllocError, Global};
use std::marker::Model;

/// Room for the number of a line and a short reply, allocated once.
const LEAST_ROOM: usize = 256;

/// A reply while it is put together.
#[derive(Drop)]
pub struct ReplyText {
    bytes: Vec<u8>,
}

impl Model for ReplyText {
    ghost use Rattle.std.specs.Prelude.{ℕ, List, ◌≤◌, vec_capacity};
    ghost use Rattle.line_engine.specs.Replies.{least_room};

    ghost Value = { List ℕ };

    ghost view = { λ t. t.bytes.items };

    ghost invariant = { λ t. least_room ≤ vec_capacity t.bytes };
}

impl ReplyText {
    pub(crate) fn new(alloc: Global) -> Result<ReplyText, AllocError>
        ensures { IfOk result (λ text. text ≡ []) }
    {
        Ok(ReplyText {
            bytes: Vec::with_capacity(alloc, LEAST_ROOM)?,
        })
    }

    /// Empties the text.
    pub fn clear(&mut self)
        ensures { self.new ≡ [] }
    {
        self.bytes.clear();
    }

    /// Begins the reply to this line anew: its number and a space. Takes no memory.
    pub(crate) fn begin(&mut self, number: u64)
        ensures text { self.new ≡ decimal number ++ 32 ∷ [] }
        ensures short { length self.new ≤ max_head_bytes }
    {
        let mut digits = Buffer::new();
        let text = digits.format(number);
        self.bytes.clear();
        let _ = self.bytes.extend_from_slice(text.as_bytes());
        let _ = self.bytes.push(b' ');
    }

    /// Makes this line's reply `refused 1`, whatever stood here. Takes no memory.
    pub(crate) fn refuse_for_memory(&mut self, number: u64)
        ensures { self.new ≡ decimal number ++ 32 ∷ out_of_memory_body }
    {
        self.begin(number);
        let _ = self.bytes.extend_from_slice(b"refused 1\n");
    }

    pub fn as_slice(&self) -> &[u8]
        ensures { result.now ≡ self.now }
    {
        self.bytes.as_slice()
    }

    /// Adds text at the end. Up to 256 bytes in all take no memory.
    pub fn push_str(&mut self, text: &str) -> Result<(), AllocError>
        ensures ok { OnOk result (self.new ≡ self.old ++ text.now) }
        ensures long { OnOk result (length self.new ≡ length self.old + length text.now) }
        ensures room { length self.old + length text.now ≤ least_room → IsOk result }
    {
        self.bytes.extend_from_slice(text.as_bytes())
    }

    /// Adds bytes at the end. Up to 256 bytes in all take no memory.
    pub fn push_bytes(&mut self, bytes: &[u8]) -> Result<(), AllocError>
        ensures ok { OnOk result (self.new ≡ self.old ++ bytes.now) }
        ensures long { OnOk result (length self.new ≡ length self.old + length bytes.now) }
        ensures room { length self.old + length bytes.now ≤ least_room → IsOk result }
    {
        self.bytes.extend_from_slice(bytes)
    }

    /// Adds a whole number in decimal digits at the end. Up to 256 bytes in all take no memory.
    pub fn push_number(&mut self, number: u128) -> Result<(), AllocError>
        ensures ok { OnOk result (self.new ≡ self.old ++ decimal number) }
        ensures short { OnOk result (length self.new ≤ length self.old + 40) }
        ensures room { length self.old + 40 ≤ least_room → IsOk result }
    {
        let mut digits = Buffer::new();
        self.push_str(digits.format(number))
    }
}
