//! Texts that others chose, as they are shown.
ghost use Rattle.std.specs.Prelude.{◌≡◌, ◌≤◌, ◌<◌, ◌++◌, IfOk, OnOk, drop, length, option_map, string_bytes, take};
ghost use Rattle.fault_texts.specs.Shown.{dots, first_letter, hex_digit, is_plain, quoted, shown, shown_byte};

use crate::words::push_words;
use csv_records::text_of;
use std::alloc::AllocError;

/// The most bytes of a field that are shown.
const MAX_SHOWN: usize = 60;

/// Adds a field in quotation marks, cut where it is long.
pub(crate) fn push_quoted(text: &mut String, field: &[u8]) -> Result<(), AllocError>
    ensures { OnOk result (string_bytes text.new ≡ string_bytes text.old ++ quoted field.now) }
{
    push_words(text, "\"")?;
    push_shown(text, start_of(field))?;
    push_words(text, "\"")?;
    push_words(text, dots(field))?;
    Ok(())
}

/// The bytes of a field that are shown.
fn start_of(field: &[u8]) -> &[u8]
    ensures { result.now ≡ take 60 field.now }
{
    if field.len() <= MAX_SHOWN {
        field
    } else {
        &field[..MAX_SHOWN]
    }
}

/// Two dots behind a field that is cut.
fn dots(field: &[u8]) -> &'static str
    ensures { result.now ≡ dots field.now }
{
    if field.len() <= MAX_SHOWN { "" } else { ".." }
}

/// Adds a text as it is shown.
pub(crate) fn push_shown(text: &mut String, said: &[u8]) -> Result<(), AllocError>
    ensures { OnOk result (string_bytes text.new ≡ string_bytes text.old ++ shown said.now) }
{
    let mut rest = said;
    while !rest.is_empty() {
        let count = push_first(text, rest)?;
        let (_, after) = rest.split_at(count);
        rest = after;
    }
    Ok(())
}

/// Adds the first letter or byte of a text as it is shown, and answers how many bytes it has.
fn push_first(text: &mut String, rest: &[u8]) -> Result<usize, AllocError>
    requires { 0 < length rest.now }
    ensures some { IfOk result (λ n. 1 ≤ n) }
    ensures within { IfOk result (λ n. n ≤ length rest.now) }
    ensures shown { IfOk result (λ n. string_bytes text.new ++ shown (drop n rest.now) ≡ string_bytes text.old ++ shown rest.now) }
{
    if let Some(letter) = first_letter(rest) {
        text.push_str(letter)?;
        return Ok(2);
    }
    push_byte(text, rest[0])?;
    Ok(1)
}

/// The Latin letter of two bytes with which a text begins.
fn first_letter(rest: &[u8]) -> Option<&str>
    ensures { option_map (λ letter. letter.now) result ≡ first_letter rest.now }
{
    if rest.len() < 2 || rest[0] < 0xC3 || rest[0] > 0xC8 {
        return None;
    }
    text_of(&rest[..2])
}

/// Adds a byte as it is shown.
fn push_byte(text: &mut String, byte: u8) -> Result<(), AllocError>
    ensures { OnOk result (string_bytes text.new ≡ string_bytes text.old ++ shown_byte byte) }
{
    if is_plain(byte) {
        text.push(char::from(byte))
    } else {
        text.push_str("\\x")?;
        text.push(char::from(hex_digit(byte / 16)))?;
        text.push(char::from(hex_digit(byte % 16)))
    }
}

/// Whether a byte is a printable ASCII character that is neither a quotation mark nor a backslash.
fn is_plain(byte: u8) -> bool
    ensures { result ≡ is_plain byte }
{
    32 <= byte && byte <= 126 && byte != b'"' && byte != b'\\'
}

/// A number below 16 as 0 to 9 or A to F.
fn hex_digit(digit: u8) -> u8
    requires { digit < 16 }
    ensures digit { result ≡ hex_digit digit }
    ensures ascii { result < 128 }
{
    if digit < 10 {
        b'0' + digit
    } else {
        b'A' + (digit - 10)
    }
}
