//! What is read off a text.
ghost use Rattle.std.specs.Prelude.{◌≡◌, ℕ, List, Result};
ghost use Rattle.rail_codes.specs.declared.code_fault.CodeFault.{CodeFault};
ghost use Rattle.rail_codes.specs.Moment.{moment_of};

use crate::code::{Code, Shape};
use crate::{CodeFault, Moment};

/// What is read off a text: a code of some shape, or a moment.
pub trait FromText: Copy {
    /// What a text is read as, or its fault.
    ghost meaning: { List ℕ → Result Self CodeFault };

    /// Reads a text.
    fn from_text(text: &str) -> Result<Self, CodeFault>
        ensures { result ≡ meaning text.now };
}

impl<S: Shape<ROOM>, const ROOM: usize> FromText for Code<S, ROOM> {
    ghost meaning = { S.code_of };

    fn from_text(text: &str) -> Result<Code<S, ROOM>, CodeFault> {
        Code::read(text)
    }
}

impl FromText for Moment {
    ghost meaning = { moment_of };

    fn from_text(text: &str) -> Result<Moment, CodeFault> {
        Moment::read(text)
    }
}
