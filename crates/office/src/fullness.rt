//! The notes that a book, or a run, has become nine tenths full. `Err` only when out of memory; part of the text may be there
//! then.
ghost use Rattle.std.specs.Prelude.{◌≡◌, ◌++◌, ◌≤◌, OnOk, string_bytes};
ghost use Rattle.office.specs.Fullness.{becomes_nearly_full, fullness_note, is_nearly_full};

use crate::note_text::{end_note, push_head};
use reply_texts::line_words::push_number;
use std::alloc::AllocError;

/// Adds the note that a count has become nine tenths of the most that it may be, where it has between these two counts.
pub(crate) fn push_fullness_note(
    text: &mut String,
    line: u64,
    word: &str,
    before: u64,
    after: u64,
    most: u64,
) -> Result<(), AllocError>
    ensures { OnOk result (string_bytes text.new ≡ string_bytes text.old ++ fullness_note line word.now before after most) }
{
    if is_nearly_full(before, most) || !is_nearly_full(after, most) {
        return Ok(());
    }
    push_head(text, line, word)?;
    push_number(text, after)?;
    push_number(text, most)?;
    end_note(text)
}

/// Whether a count is nine tenths of the most that it may be, or more.
fn is_nearly_full(count: u64, most: u64) -> bool
    ensures { result ≡ is_nearly_full count most }
{
    9 * u128::from(most) <= 10 * u128::from(count)
}
