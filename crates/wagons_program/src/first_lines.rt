//! The first lines of an input.
ghost use Rattle.std.specs.Prelude.{◌≡◌, ◌<◌, ◌≤◌, ◌++◌, ℕ, List, length, option_map, take};
ghost use Rattle.wagons_program.specs.FirstLines.{first_lines};

use std::io;
use std::io::Read;

/// An input that ends behind so many of its lines.
#[derive(Drop)]
pub(crate) struct FirstLines<I> {
    input: I,
    /// How many line feeds are still to come.
    left: u64,
}

impl<I: Read> FirstLines<I> {
    /// The first lines of this input, so many of them.
    pub(crate) fn new(input: I, lines: u64) -> FirstLines<I>
        ensures input { result.input ≡ input }
        ensures left { result.left ≡ lines }
    {
        FirstLines { input, left: lines }
    }
}

impl<I: Read> Read for FirstLines<I> {
    ghost remaining = { λ s. option_map (λ bytes. first_lines bytes s.left) (I.remaining s.input) };

    fn read(&mut self, buf: &mut [u8]) -> io::Result<usize> {
        if self.left == 0 {
            return Ok(0);
        }
        let count = self.input.read(buf)?;
        let front = front_of(&buf[..count], self.left);
        self.left = front.left;
        Ok(front.bytes)
    }
}

/// The front of a piece of an input, up to the last line feed that is still to come.
#[derive(Clone, Copy)]
struct Front {
    /// How many bytes it has.
    bytes: usize,
    /// How many line feeds are still to come behind it.
    left: u64,
}

/// The front of a piece, where so many line feeds are still to come.
fn front_of(piece: &[u8], lines: u64) -> Front
    ensures within { result.bytes ≤ length piece.now }
    ensures some { 0 < lines → 0 < length piece.now → 0 < result.bytes }
    ensures first { (rest : List ℕ) → first_lines (piece.now ++ rest) lines ≡ take result.bytes piece.now ++ first_lines rest result.left }
{
    let mut left = lines;
    for (index, byte) in piece.iter().enumerate() {
        if left == 0 {
            return Front { bytes: index, left };
        }
        if *byte == b'\n' {
            left -= 1;
        }
    }
    Front {
        bytes: piece.len(),
        left,
    }
}
