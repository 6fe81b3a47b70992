//! Where something is wrong. `Err` only when out of memory; part of the text may be there then.
ghost use Rattle.std.specs.Prelude.{◌≡◌, ◌++◌, codes, decimal, IfOk, OnOk, string_bytes};
ghost use Rattle.fault_texts.specs.Shown.{shown};
ghost use Rattle.fault_texts.specs.Where.{at_field, at_line, at_record, file_text};

use crate::shown::push_shown;
use itoa::Buffer;
use std::alloc::{AllocError, Global};

/// Adds words.
pub(crate) fn push_words(text: &mut String, words: &str) -> Result<(), AllocError>
    ensures { OnOk result (string_bytes text.new ≡ string_bytes text.old ++ words.now) }
{
    text.push_str(words)
}

/// Adds a number.
pub(crate) fn push_number(text: &mut String, number: u64) -> Result<(), AllocError>
    ensures { OnOk result (string_bytes text.new ≡ string_bytes text.old ++ decimal number) }
{
    let mut digits = Buffer::new();
    text.push_str(digits.format(number))
}

/// A text that begins with a file and a record of it.
pub(crate) fn at_record(alloc: Global, path: &str, number: u32) -> Result<String, AllocError>
    ensures { IfOk result (λ text. string_bytes text ≡ at_record path.now number) }
{
    let mut text = String::new(alloc);
    push_shown(&mut text, path.as_bytes())?;
    push_words(&mut text, ", record ")?;
    push_number(&mut text, u64::from(number))?;
    Ok(text)
}

/// A text that begins with a file, a record of it, and a field of that.
pub(crate) fn at_field(
    alloc: Global,
    path: &str,
    number: u32,
    name: &str,
) -> Result<String, AllocError>
    ensures { IfOk result (λ text. string_bytes text ≡ at_field path.now number name.now) }
{
    let mut text = at_record(alloc, path, number)?;
    push_words(&mut text, ", ")?;
    push_words(&mut text, name)?;
    push_words(&mut text, ": ")?;
    Ok(text)
}

/// A text that begins with a file and a line of it.
pub(crate) fn at_line(alloc: Global, path: &str, number: u64) -> Result<String, AllocError>
    ensures { IfOk result (λ text. string_bytes text ≡ at_line path.now number) }
{
    let mut text = String::new(alloc);
    push_shown(&mut text, path.as_bytes())?;
    push_words(&mut text, ", line ")?;
    push_number(&mut text, number)?;
    Ok(text)
}

/// A file and a record of it, and what is said of that.
pub(crate) fn record_text(
    alloc: Global,
    path: &str,
    number: u32,
    said: &str,
) -> Result<String, AllocError>
    ensures { IfOk result (λ text. string_bytes text ≡ at_record path.now number ++ said.now) }
{
    let mut text = at_record(alloc, path, number)?;
    push_words(&mut text, said)?;
    Ok(text)
}

/// A file and a line of it, and what is said of that.
pub(crate) fn said_of_line(
    alloc: Global,
    path: &str,
    number: u64,
    said: &str,
) -> Result<String, AllocError>
    ensures { IfOk result (λ text. string_bytes text ≡ at_line path.now number ++ said.now) }
{
    let mut text = at_line(alloc, path, number)?;
    push_words(&mut text, said)?;
    Ok(text)
}

/// A file whose reading failed.
pub(crate) fn failed_text(alloc: Global, path: &str) -> Result<String, AllocError>
    ensures { IfOk result (λ text. string_bytes text ≡ shown path.now ++ codes ": it couldn't be read") }
{
    let mut text = String::new(alloc);
    push_shown(&mut text, path.as_bytes())?;
    push_words(&mut text, ": it couldn't be read")?;
    Ok(text)
}

/// A file, and what the system said of it.
pub fn file_text(alloc: Global, path: &str, said: &str) -> Result<String, AllocError>
    ensures { IfOk result (λ text. string_bytes text ≡ file_text path.now said.now) }
{
    let mut text = String::new(alloc);
    push_shown(&mut text, path.as_bytes())?;
    push_words(&mut text, ": ")?;
    push_words(&mut text, said)?;
    Ok(text)
}
