//! The most bytes of a line.
ghost use Rattle.std.specs.Prelude.{◌≡◌, ◌↔◌, IsSome, IfSome};
ghost use Rattle.line_engine.specs.Lines.{IsLineLimit, max_line_bytes};

use std::marker::Model;

/// The most bytes of a line where nothing else is said, its line feed not counted.
pub const MAX_LINE_BYTES: u32 = 65_536;
/// The most that a limit may be.
pub const LARGEST_LINE_LIMIT: u32 = 67_108_864;

/// The most bytes of a line, 1 to 67,108,864, its line feed not counted. A contract sees the number.
#[derive(Clone, Copy)]
pub struct LineLimit {
    bytes: u32,
}

impl Model for LineLimit {
    ghost use Rattle.std.specs.Prelude.{ℕ};
    ghost use Rattle.line_engine.specs.Lines.{IsLineLimit};

    ghost Value = { ℕ };

    ghost view = { λ limit. limit.bytes };

    ghost invariant = { λ limit. IsLineLimit limit.bytes };

    ghost inverse = { λ n. record { bytes = n } };
}

impl LineLimit {
    /// The limit where nothing else is said: 65,536 bytes.
    pub fn standard() -> LineLimit
        ensures { result ≡ max_line_bytes }
    {
        LineLimit {
            bytes: MAX_LINE_BYTES,
        }
    }

    /// This limit; none where it isn't 1 to 67,108,864 bytes.
    pub fn new(bytes: u32) -> Option<LineLimit>
        ensures accepts { IsSome result ↔ IsLineLimit bytes }
        ensures kept { IfSome result (λ limit. limit ≡ bytes) }
    {
        if !(1..=LARGEST_LINE_LIMIT).contains(&bytes) {
            return None;
        }
        Some(LineLimit { bytes })
    }

    /// The most bytes, 1 to 67,108,864.
    pub fn bytes(self) -> u32
        ensures value { result ≡ self }
        ensures range { IsLineLimit result }
    {
        self.bytes
    }
}
