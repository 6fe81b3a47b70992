//! Codes: short ASCII texts, each of one shape.
ghost use Rattle.std.specs.Prelude.{◌≡◌, ◌↔◌, ℕ, List, length, Result, Ok, IsOk, IfOk, string_bytes};
ghost use Rattle.std.specs.Str.{IsAscii};
ghost use Rattle.rail_codes.specs.declared.code_fault.CodeFault.{CodeFault};

use crate::CodeFault;
use crate::ascii_text::ascii_text;
use crate::short_text::ShortText;
use std::alloc::{AllocError, Global};
use std::marker::{Model, PhantomData};

/// A shape of texts of at most `ROOM` characters, and how a code of this shape is read.
pub trait Shape<const ROOM: usize> {
    /// Which texts have the shape.
    ghost HasShape: { List ℕ → Type 0 };

    /// What is kept of a text that is read.
    ghost kept: { List ℕ → List ℕ } = { λ text. text };

    /// What a text is read as: what is kept of it where that has the shape, else the fault.
    ghost code_of: { List ℕ → Result (List ℕ) CodeFault };

    /// The characters of the code that a text is read as.
    fn read(text: &[u8]) -> Result<ShortText<ROOM>, CodeFault>
        ensures meaning { result ≡ code_of text.now }
        ensures accepts { IsOk result ↔ HasShape (kept text.now) }
        ensures kept { IfOk result (λ characters. characters ≡ kept text.now) }
        ensures shape { IfOk result HasShape };

    ghost reads_back: { (text : List ℕ) → HasShape text → code_of text ≡ Ok text };
}

/// A text of the shape `S`, which has at most `ROOM` characters. A contract sees the characters as ASCII codes. Codes are
/// compared as texts.
#[derive_where(Clone, Copy, Debug, PartialEq, Eq, PartialOrd, Ord, Hash)]
pub struct Code<S: Shape<ROOM>, const ROOM: usize> {
    text: ShortText<ROOM>,
    #[derive_where(skip)]
    shape: PhantomData<S>,
}

impl<S: Shape<ROOM>, const ROOM: usize> Model for Code<S, ROOM> {
    ghost use Rattle.std.specs.Prelude.{ℕ, List};

    ghost Value = { List ℕ };

    ghost view = { λ c. c.text };

    ghost invariant = { λ c. S.HasShape c.text };

    ghost inverse = { λ characters. record { text = characters; shape = record {} } };
}

impl<S: Shape<ROOM>, const ROOM: usize> Code<S, ROOM> {
    /// Reads a code as its type says, which also says how a text is refused.
    pub fn read(text: &str) -> Result<Code<S, ROOM>, CodeFault>
        ensures meaning { result ≡ S.code_of text.now }
        ensures accepts { IsOk result ↔ S.HasShape (S.kept text.now) }
        ensures kept { IfOk result (λ code. code ≡ S.kept text.now) }
    {
        let text = S::read(text.as_bytes())?;
        Ok(Code {
            text,
            shape: PhantomData,
        })
    }

    /// The characters as ASCII codes.
    pub fn as_bytes(&self) -> &[u8]
        ensures value { result.now ≡ self.now }
        ensures valid { S.HasShape result.now }
        ensures ascii { IsAscii result.now }
    {
        self.text.as_bytes()
    }

    /// The characters of a code that always has `ROOM` of them.
    pub(crate) fn as_array(&self) -> &[u8; ROOM]
        requires { (text : List ℕ) → S.HasShape text → length text ≡ ROOM }
        ensures value { result.now ≡ self.now }
        ensures valid { S.HasShape result.now }
    {
        self.text.as_array()
    }

    /// The code as text.
    pub fn text(&self, alloc: Global) -> Result<String, AllocError>
        ensures printed { IfOk result (λ s. string_bytes s ≡ self.now) }
        ensures reads_back { S.code_of self.now ≡ Ok self.now }
    {
        ascii_text(alloc, self.as_bytes())
    }
}
