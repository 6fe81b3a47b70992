//! The text of a note. `Err` only when out of memory; part of the text may be there then.
ghost use Rattle.std.specs.Prelude.{◌≡◌, ◌++◌, ◌∷◌, [], OnOk, string_bytes};
ghost use Rattle.office.specs.NoteText.{note, note_head};

use itoa::Buffer;
use reply_texts::line_words::push_word;
use std::alloc::AllocError;

/// Begins a note: the number of its line, and the word that says its kind.
pub(crate) fn push_head(text: &mut String, line: u64, word: &str) -> Result<(), AllocError>
    ensures { OnOk result (string_bytes text.new ≡ string_bytes text.old ++ note_head line word.now) }
{
    let mut digits = Buffer::new();
    text.push_str(digits.format(line))?;
    push_word(text, word)
}

/// Ends a note.
pub(crate) fn end_note(text: &mut String) -> Result<(), AllocError>
    ensures { OnOk result (string_bytes text.new ≡ string_bytes text.old ++ 10 ∷ []) }
{
    text.push_str("\n")
}

/// Adds a note that has no values.
pub(crate) fn push_note(text: &mut String, line: u64, word: &str) -> Result<(), AllocError>
    ensures { OnOk result (string_bytes text.new ≡ string_bytes text.old ++ note line word.now []) }
{
    push_head(text, line, word)?;
    end_note(text)
}
