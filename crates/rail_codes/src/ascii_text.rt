//! A code's text as a `str`, as a `String`, and at the end of one.
ghost use Rattle.std.specs.Prelude.{◌≡◌, ◌++◌, IfOk, OnErr, OnOk, string_bytes};
ghost use Rattle.std.specs.Str.{IsAscii};

use std::alloc::{AllocError, Global};

/// The same ASCII characters as text, which nothing has to look at again.
pub(crate) fn ascii_str(characters: &[u8]) -> &str
    requires { IsAscii characters.now }
    ensures { result.now ≡ characters.now }
{
    unsafe { str::from_utf8_unchecked(characters) }
}

/// A `String` of these ASCII characters, by one allocation.
pub(crate) fn ascii_text(alloc: Global, characters: &[u8]) -> Result<String, AllocError>
    requires { IsAscii characters.now }
    ensures { IfOk result (λ s. string_bytes s ≡ characters.now) }
{
    String::from_str(alloc, ascii_str(characters))
}

/// Adds these ASCII characters to a text.
pub fn push_ascii(text: &mut String, characters: &[u8]) -> Result<(), AllocError>
    requires { IsAscii characters.now }
    ensures added { OnOk result (string_bytes text.new ≡ string_bytes text.old ++ characters.now) }
    ensures kept { OnErr result (string_bytes text.new ≡ string_bytes text.old) }
{
    text.push_str(ascii_str(characters))
}
