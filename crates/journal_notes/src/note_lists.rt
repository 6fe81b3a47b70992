//! Notes as lists.
ghost use Rattle.std.specs.Prelude.{◌≡◌, ◌++◌, OnOk};
ghost use Rattle.journal_notes.specs.NoteLists.{noted};

use crate::note::Note;
use std::alloc::AllocError;

/// Adds a note where a condition holds. `Err` only when out of memory.
pub(crate) fn push_if(notes: &mut Vec<Note>, holds: bool, note: Note) -> Result<(), AllocError>
    ensures { OnOk result (notes.new.items ≡ notes.old.items ++ noted holds note) }
{
    if !holds {
        return Ok(());
    }
    notes.push(note)?;
    Ok(())
}
