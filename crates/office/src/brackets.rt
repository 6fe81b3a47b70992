//! Whether an object or a list is still open at the end of a line.
ghost use Rattle.std.specs.Prelude.{◌≡◌, ◌+◌, ◌^◌, ◌<◌, ◌≤◌, ℕ, List, ◌∷◌};
ghost use Rattle.office.specs.LineNotes.{is_closing, is_left_open, is_opening, outside_texts};
ghost use Rattle.office.specs.inner.Counted.{CountsClosing, CountsOpening};
ghost use Rattle.office.specs.declared.brackets.Reading.TheVariants as at;

/// Where a byte of a line stands.
#[derive(Clone, Copy)]
pub enum Reading {
    /// Outside of JSON texts.
    Outside,
    /// In a text.
    Inside,
    /// In a text, behind a backslash.
    Escaped,
}

/// How many brackets were read outside of texts, and where the next byte stands.
#[derive(Clone, Copy)]
struct Brackets {
    reading: Reading,
    opened: u64,
    closed: u64,
}

/// Whether a line has more opening brackets than closing ones outside of its texts.
pub(crate) fn is_left_open(bytes: &[u8]) -> bool
    ensures { result ≡ is_left_open bytes.now }
{
    let mut brackets = Brackets {
        reading: Reading::Outside,
        opened: 0,
        closed: 0,
    };
    for byte in bytes {
        brackets = brackets.with(*byte);
    }
    brackets.closed < brackets.opened
}

impl Brackets {
    /// The same with one byte more.
    fn with(self, byte: u8) -> Brackets
        requires few_opened { self.opened < 2 ^ 63 }
        requires few_closed { self.closed < 2 ^ 63 }
        ensures opened { CountsOpening self byte result }
        ensures closed { CountsClosing self byte result }
        ensures few_opened { result.opened ≤ self.opened + 1 }
        ensures few_closed { result.closed ≤ self.closed + 1 }
    {
        match self.reading {
            Reading::Outside => self.with_outside(byte),
            Reading::Inside => Brackets {
                reading: behind_inside(byte),
                ..self
            },
            Reading::Escaped => Brackets {
                reading: Reading::Inside,
                ..self
            },
        }
    }

    /// The same with a byte that stands outside of texts.
    fn with_outside(self, byte: u8) -> Brackets
        requires few_opened { self.opened < 2 ^ 63 }
        requires few_closed { self.closed < 2 ^ 63 }
        ensures opened { CountsOpening (record self { reading = at.Outside }) byte result }
        ensures closed { CountsClosing (record self { reading = at.Outside }) byte result }
        ensures few_opened { result.opened ≤ self.opened + 1 }
        ensures few_closed { result.closed ≤ self.closed + 1 }
    {
        if byte == b'"' {
            return Brackets {
                reading: Reading::Inside,
                ..self
            };
        }
        Brackets {
            reading: Reading::Outside,
            opened: self.opened + u64::from(is_opening(byte)),
            closed: self.closed + u64::from(is_closing(byte)),
        }
    }
}

/// Where the next byte stands behind this one, which stands in a text.
fn behind_inside(byte: u8) -> Reading
    ensures { (rest : List ℕ) → outside_texts at.Inside (byte ∷ rest) ≡ outside_texts result rest }
{
    if byte == b'\\' {
        return Reading::Escaped;
    }
    if byte == b'"' {
        return Reading::Outside;
    }
    Reading::Inside
}

fn is_opening(byte: u8) -> bool
    ensures { result ≡ is_opening byte }
{
    byte == b'{' || byte == b'['
}

fn is_closing(byte: u8) -> bool
    ensures { result ≡ is_closing byte }
{
    byte == b'}' || byte == b']'
}
