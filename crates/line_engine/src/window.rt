//! What was read and not yet cut into lines.
ghost use Rattle.std.specs.Prelude.{◌≡◌, ℕ, ◌<◌, ◌≤◌, ◌++◌, ◌||◌, List, [], ◌∷◌, length, true, false, IsOk, IfOk, IfErr, OnOk, Ok, is_err};
ghost use Rattle.std.specs.Io.KnownBytes.{Consumes, IsAtEnd};
ghost use Rattle.line_engine.specs.Lines.{line_feed, has_feed};
ghost use Rattle.line_engine.specs.inner.Cutting.{GrowsTooLong, Moves, ReadsLine};

use crate::device::Source;
use crate::line_buffer::LineBuffer;
use memchr::{memchr, memrchr};
use std::alloc::{AllocError, Global};
use std::marker::Model;

/// How many bytes are asked for at once.
const PIECE_LEN: usize = 16_384;

/// What ended a line.
#[derive(Clone, Copy)]
pub enum LineEnd {
    Feed,
    Input,
}

/// Why no line could be cut.
#[derive(Clone, Copy)]
pub enum LineStop {
    TooLong,
    ReadFailed,
}

/// The bytes that were read and not yet cut into lines.
#[derive(Drop)]
pub struct Window {
    piece: Vec<u8>,
    start: usize,
    end: usize,
    /// Where the last line that is whole and isn't blank ends, or 0.
    whole: usize,
}

impl Model for Window {
    ghost use Rattle.std.specs.Prelude.{ℕ, List, ◌-◌, ◌<◌, ◌≤◌, vec_len, slice_range};

    ghost Value = { List ℕ };

    ghost view = { λ w. slice_range w.piece.items w.start w.end };

    ghost invariant = { λ w. (w.start ≤ w.end) × (w.end ≤ vec_len w.piece) × (0 < vec_len w.piece) };
}

/// The bytes before the next line feed, all of them where there is none, and whether there is one.
fn before_feed(bytes: &[u8]) -> (&[u8], bool)
    ensures free { has_feed result.0.now ≡ false }
    ensures feed { result.1 ≡ true → (rest : List ℕ) × (bytes.now ≡ result.0.now ++ line_feed ∷ rest) }
    ensures none { result.1 ≡ false → result.0.now ≡ bytes.now }
{
    match memchr(b'\n', bytes) {
        Some(at) => (&bytes[..at], true),
        None => (bytes, false),
    }
}

/// Where the last of these lines ends that is whole and isn't blank, without what follows it; 0 where there is none.
fn end_of_lines(bytes: &[u8]) -> usize {
    match memrchr(b'\n', bytes) {
        Some(at) => bytes[..at].trim_ascii_end().len(),
        None => 0,
    }
}

impl Window {
    pub fn new(alloc: Global) -> Result<Window, AllocError>
        ensures { IfOk result (λ window. window ≡ []) }
    {
        Ok(Window {
            piece: vec![in alloc; 0; PIECE_LEN]?,
            start: 0,
            end: 0,
            whole: 0,
        })
    }

    /// Reads on where nothing is left, and answers whether there is a byte.
    pub fn fill<R: Source>(&mut self, reader: &mut R) -> Result<bool, LineStop>
        ensures taken { (taken : List ℕ) × (self.new ≡ self.old ++ taken) × Consumes (R.remaining reader.old) (R.remaining reader.new) taken }
        ensures more { result ≡ Ok true → 0 < length self.new }
        ensures end { result ≡ Ok false → (self.new ≡ []) × IsAtEnd (R.remaining reader.new) }
        ensures err { IfErr result (λ stop. (stop ≡ LineStop.ReadFailed) × (self.old ≡ []) × (self.new ≡ [])) }
        ensures failure { R.has_failed reader.new ≡ (is_err result || R.has_failed reader.old) }
    {
        if self.start < self.end {
            return Ok(true);
        }
        let count = reader
            .read(self.piece.as_mut_slice())
            .map_err(|_| LineStop::ReadFailed)?;
        self.start = 0;
        self.end = count;
        self.whole = end_of_lines(&self.piece[..count]);
        Ok(count > 0)
    }

    /// Whether a line is left that is whole and isn't blank. No contract says so: it may only spare time.
    pub fn has_line(&self) -> bool {
        self.start < self.whole
    }

    /// Moves the bytes before the next line feed to the line's end, and answers whether there is one.
    pub fn cut(&mut self, line: &mut LineBuffer) -> Result<bool, LineStop>
        ensures within { OnOk result (length line.new.bytes ≤ line.new.most) }
        ensures ok { IfOk result (λ ended. Moves self.old self.new line.old.bytes line.new.bytes ended) }
        ensures err { IfErr result (GrowsTooLong line.old self.old) }
        ensures most { line.new.most ≡ line.old.most }
    {
        let (front, is_ended) = before_feed(&self.piece[self.start..self.end]);
        if line.push(front).is_err() {
            return Err(LineStop::TooLong);
        }
        if !is_ended {
            self.start = self.end;
            return Ok(false);
        }
        self.start += front.len() + 1;
        Ok(true)
    }

    /// Reads one line without what ended it.
    pub fn read_line<R: Source>(
        &mut self,
        reader: &mut R,
        line: &mut LineBuffer,
    ) -> Result<LineEnd, LineStop>
        requires { 0 < length self.old }
        ensures cut { ReadsLine R.Source line.old.most (reader.old, self.old) (reader.new, self.new) line.new.bytes result }
        ensures most { line.new.most ≡ line.old.most }
        ensures failure { R.has_failed reader.old ≡ false → IsOk result → R.has_failed reader.new ≡ false }
    {
        line.clear();
        loop {
            if self.cut(line)? {
                return Ok(LineEnd::Feed);
            }
            if !self.fill(reader)? {
                return Ok(LineEnd::Input);
            }
        }
    }
}
