//! What is said of a record that isn't as it must be.
ghost use Rattle.std.specs.Prelude.{◌≡◌, IfOk, Some, None, string_bytes};
ghost use Rattle.fault_texts.specs.BadRecord.{bad_record_text, unfit_text};
ghost use Rattle.fault_texts.specs.inner.UnfitTexts.{unfit_texts};

use crate::headers::header_text;
use crate::shown::push_quoted;
use crate::words::{at_field, at_record, push_number, push_words};
use csv_records::RecordAt;
use std::alloc::{AllocError, Global};

/// A field that isn't as its rule asks: its name, its text, and what that isn't.
pub(crate) type Unfit<'a> = (&'static str, &'a [u8], &'static str);

/// A record that isn't as it must be, the first of them being the header; what is wrong with another is given.
pub(crate) fn bad_record_text(
    alloc: Global,
    path: &str,
    header: &str,
    must: u32,
    at: &RecordAt,
    unfit: Option<Unfit<'_>>,
) -> Result<String, AllocError>
    ensures { IfOk result (λ text. string_bytes text ≡ bad_record_text path.now header.now must at.now (unfit_texts unfit.entry)) }
{
    if at.number == 1 {
        return header_text(alloc, path, header, &at.fields);
    }
    match unfit {
        Some(unfit) => unfit_text(alloc, path, at.number, unfit),
        None => count_text(alloc, path, at.number, must, at.fields.len()),
    }
}

/// A field that isn't as its rule asks, and what it isn't.
fn unfit_text(
    alloc: Global,
    path: &str,
    number: u32,
    unfit: Unfit<'_>,
) -> Result<String, AllocError>
    ensures { IfOk result (λ text. string_bytes text ≡ unfit_text path.now number (Some (unfit.entry.0.now, unfit.entry.1.now, unfit.entry.2.now)) 0 0) }
{
    let (name, said, complaint) = unfit;
    let mut text = at_field(alloc, path, number, name)?;
    push_quoted(&mut text, said)?;
    push_words(&mut text, complaint)?;
    Ok(text)
}

/// How many fields there are, where they are not as many as must be.
fn count_text(
    alloc: Global,
    path: &str,
    number: u32,
    must: u32,
    has: usize,
) -> Result<String, AllocError>
    ensures { IfOk result (λ text. string_bytes text ≡ unfit_text path.now number None must has) }
{
    let mut text = at_record(alloc, path, number)?;
    push_words(&mut text, ": it must have ")?;
    push_number(&mut text, u64::from(must))?;
    push_words(&mut text, " fields, and has ")?;
    push_number(&mut text, has as u64)?;
    Ok(text)
}
