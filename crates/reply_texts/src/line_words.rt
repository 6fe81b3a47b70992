//! Words of a line, each behind a space. `Err` only when out of memory; part of the text may be there then.
ghost use Rattle.std.specs.Prelude.{◌≡◌, ◌++◌, decimal, OnOk, string_bytes};
ghost use Rattle.std.specs.Str.{IsAscii};
ghost use Rattle.reply_texts.specs.Words.{IsMomentWord, next_word};
ghost use Rattle.reply_texts.specs.Lines.{Adds};

use itoa::Buffer;
use rail_codes::{Moment, push_ascii};
use std::alloc::AllocError;

/// Adds a code's characters.
pub fn push_code(text: &mut String, characters: &[u8]) -> Result<(), AllocError>
    requires { IsAscii characters.now }
    ensures { OnOk result (string_bytes text.new ≡ string_bytes text.old ++ next_word characters.now) }
{
    text.push_str(" ")?;
    push_ascii(text, characters)
}

/// Adds a word.
pub fn push_word(text: &mut String, word: &str) -> Result<(), AllocError>
    ensures { OnOk result (string_bytes text.new ≡ string_bytes text.old ++ next_word word.now) }
{
    text.push_str(" ")?;
    text.push_str(word)
}

/// Adds a number.
pub fn push_number(text: &mut String, number: u64) -> Result<(), AllocError>
    ensures { OnOk result (string_bytes text.new ≡ string_bytes text.old ++ next_word (decimal number)) }
{
    let mut digits = Buffer::new();
    push_word(text, digits.format(number))
}

/// Adds a moment.
pub fn push_moment(text: &mut String, moment: Moment) -> Result<(), AllocError>
    ensures { OnOk result (Adds (IsMomentWord moment) (string_bytes text.old) (string_bytes text.new)) }
{
    text.push_str(" ")?;
    moment.push_text(text)
}
