//! What is said of a file that doesn't begin with the header that is wanted.
ghost use Rattle.std.specs.Prelude.{◌≡◌, [], IfOk, string_bytes};
ghost use Rattle.csv.specs.Records.{fields_of};
ghost use Rattle.fault_texts.specs.HeaderText.{first_field, guess, has_semicolon, header_text, is_utf16};

use crate::shown::push_shown;
use crate::words::{at_record, push_words};
use csv::ByteRecord;
use fleet_rows::is_roster_header;
use line_network::is_network_header;
use std::alloc::{AllocError, Global};

/// The header that is wanted, and what the file may be, by its first record.
pub(crate) fn header_text(
    alloc: Global,
    path: &str,
    wanted: &str,
    fields: &ByteRecord,
) -> Result<String, AllocError>
    ensures { IfOk result (λ text. string_bytes text ≡ header_text path.now wanted.now (fields_of fields.now)) }
{
    if fields.is_empty() {
        return empty_text(alloc, path, wanted);
    }
    let mut text = at_record(alloc, path, 1)?;
    push_words(&mut text, ": the header must be ")?;
    push_words(&mut text, wanted)?;
    push_words(&mut text, guess(fields))?;
    Ok(text)
}

/// What is said of an empty file.
fn empty_text(alloc: Global, path: &str, wanted: &str) -> Result<String, AllocError>
    ensures { IfOk result (λ text. string_bytes text ≡ header_text path.now wanted.now []) }
{
    let mut text = String::new(alloc);
    push_shown(&mut text, path.as_bytes())?;
    push_words(
        &mut text,
        ": the file is empty, and must begin with the header ",
    )?;
    push_words(&mut text, wanted)?;
    Ok(text)
}

/// What a file may be, by its first record.
fn guess(fields: &ByteRecord) -> &'static str
    ensures { result.now ≡ guess (fields_of fields.now) }
{
    let first = first_field(fields);
    if is_roster_header(fields) {
        "; this is the header of a roster"
    } else if is_network_header(fields) {
        "; this is the header of a network"
    } else if is_utf16(first) {
        "; the file is UTF-16, and must be UTF-8"
    } else if has_semicolon(first) {
        "; it has semicolons, where commas must stand"
    } else {
        ""
    }
}

/// The first field of a record, empty where it has none.
fn first_field(fields: &ByteRecord) -> &[u8]
    ensures { result.now ≡ first_field (fields_of fields.now) }
{
    match fields.get(0) {
        Some(field) => field,
        None => &[],
    }
}

/// Whether a text begins with the byte order mark of UTF-16.
fn is_utf16(text: &[u8]) -> bool
    ensures { result ≡ is_utf16 text.now }
{
    text.starts_with(&[0xFF, 0xFE]) || text.starts_with(&[0xFE, 0xFF])
}

/// Whether a text has a semicolon.
fn has_semicolon(text: &[u8]) -> bool
    ensures { result ≡ has_semicolon text.now }
{
    text.iter().any(|byte| *byte == b';')
}
