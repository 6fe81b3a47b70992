//! What a run reads from and writes to.
ghost use Rattle.std.specs.Prelude.{◌≡◌, ℕ, ◌<◌, Bool, ◌||◌, List, Option, length, is_err, IfOk};
ghost use Rattle.std.specs.Io.{ReadsAtMost, WritesAtMost};
ghost use Rattle.std.specs.Io.KnownBytes.{ReadConsumes, WriteAppends};

/// A read or a write failed; an interrupted one too.
#[derive(Clone, Copy)]
pub struct DeviceFailed;

/// Where bytes come from.
pub trait Source {
    /// The bytes that reads will give from here on, where they are known.
    ghost remaining: { Self → Option (List ℕ) };

    /// Whether a read has failed so far.
    ghost has_failed: { Self → Bool };

    /// Reads into the piece's front, and answers how many bytes. None come into a piece that isn't
    /// empty only at the end. A failure takes no byte, and is remembered.
    fn read(&mut self, piece: &mut [u8]) -> Result<usize, DeviceFailed>
        ensures bound { ReadsAtMost result piece.new }
        ensures bytes { ReadConsumes (remaining self.old) (remaining self.new) result piece.new }
        ensures failure { has_failed self.new ≡ (is_err result || has_failed self.old) };

    /// Whether a read has failed so far.
    fn failed(&self) -> bool
        ensures { result ≡ has_failed self.now };
}

/// Where bytes go.
pub trait Sink {
    /// The bytes written so far, where they are known.
    ghost contents: { Self → Option (List ℕ) };

    /// Whether a write has failed so far.
    ghost has_failed: { Self → Bool };

    /// Writes the piece's front, and answers how many bytes: at least one of a piece that isn't
    /// empty. A failure has taken no byte, and is remembered.
    fn write(&mut self, piece: &[u8]) -> Result<usize, DeviceFailed>
        ensures bound { WritesAtMost result piece.now }
        ensures progress { IfOk result (λ count. 0 < length piece.now → 0 < count) }
        ensures bytes { WriteAppends (contents self.old) (contents self.new) result piece.now }
        ensures failure { has_failed self.new ≡ (is_err result || has_failed self.old) };

    /// Whether a write has failed so far.
    fn failed(&self) -> bool
        ensures { result ≡ has_failed self.now };
}
