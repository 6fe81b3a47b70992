//! Text that goes into a writer of JSON, and the text that it wrote. Nothing is allocated here.

ghost use Rattle.std.specs.Prelude.{◌≡◌, [], Ok, string_bytes};
ghost use Rattle.json.specs.Lex.{tokens};
ghost use Rattle.json.specs.Print.{print};

use json::Writer;
use rail_codes::{Code, Shape};
use std::str;

/// The characters of a code as text, which reads as the code.
pub fn code_str<S: Shape<ROOM>, const ROOM: usize>(code: &Code<S, ROOM>) -> &str
    ensures value { result.now ≡ code.now }
    ensures reads { S.code_of code.now ≡ Ok code.now }
{
    let characters = code.as_bytes();
    // A code's characters are ASCII, so nothing looks at them again.
    unsafe { str::from_utf8_unchecked(characters) }
}

/// What was written, as text.
pub fn written_text(out: Writer) -> String
    requires { out.before ≡ [] }
    ensures text { string_bytes result ≡ print out.tokens }
    ensures tokens { tokens (string_bytes result) ≡ out.tokens }
{
    let bytes = out.into_inner();
    // A writer's bytes are UTF-8, so nothing looks at them again.
    unsafe { String::from_utf8_unchecked(bytes) }
}
