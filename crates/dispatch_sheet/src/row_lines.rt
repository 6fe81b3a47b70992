//! Lines that are added to a text, one for each row.
ghost use Rattle.std.specs.Prelude.{List, ℕ, OnOk, string_bytes};
ghost use Rattle.reply_texts.specs.Lines.{Adds, AreLines};

use std::alloc::AllocError;

/// A row that has a line of its own on a sheet.
pub(crate) trait Lined {
    // the text is the line of this row
    ghost is_line: { Self → List ℕ → Type 0 };

    /// Adds the row's line. `Err` only when out of memory.
    fn push_line(&self, text: &mut String) -> Result<(), AllocError>
        ensures { OnOk result (Adds (is_line self.now) (string_bytes text.old) (string_bytes text.new)) };
}

/// Adds a line for each row.
pub(crate) fn push_lines<T: Lined>(text: &mut String, rows: &[T]) -> Result<(), AllocError>
    ensures { OnOk result (Adds (AreLines T.is_line rows.now) (string_bytes text.old) (string_bytes text.new)) }
{
    for row in rows {
        row.push_line(text)?;
    }
    Ok(())
}
