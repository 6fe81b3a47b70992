//! The end of a journal: whether its last line is whole.
ghost use Rattle.std.specs.Prelude.{◌≡◌, IfOk, string_bytes};
ghost use Rattle.office.specs.JournalEnd.{end_note};

use crate::note_text::push_note;
use line_engine::RunCount;
use std::alloc::{AllocError, Global};

/// The note that the last line has no line feed, where that is so: by the count of the run over the journal. `Err` only when
/// out of memory.
pub fn end_note(alloc: Global, count: RunCount) -> Result<String, AllocError>
    ensures { IfOk result (λ text. string_bytes text ≡ end_note count) }
{
    let mut text = String::new(alloc);
    if count.unended {
        push_note(&mut text, count.lines, "unended")?;
    }
    Ok(text)
}
