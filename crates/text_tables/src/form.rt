//! The forms in which rows are printed.
ghost use Rattle.std.specs.Prelude.{◌≡◌, IfOk};
ghost use Rattle.text_tables.specs.Aligned.{aligned_text};
ghost use Rattle.text_tables.specs.CsvRows.{csv_text};
ghost use Rattle.text_tables.specs.Form.{rows_text};
ghost use Rattle.text_tables.specs.JsonRows.{json_lines};

use crate::aligned::{Side, push_aligned};
use crate::csv_rows::csv_rows_text;
use crate::json_rows::json_rows_text;
use crate::row::Row;
use std::alloc::{AllocError, Global};

/// How rows are printed.
#[derive(Clone, Copy)]
pub enum Form {
    /// As lines with columns, for people.
    Table,
    /// As CSV, for a spreadsheet.
    Csv,
    /// As lines of JSON, for a program.
    Json,
}

/// Rows in a form. The first row has the titles. Each row must have as many cells as the first: CSV is refused else, by the
/// same error as when out of memory.
pub fn rows_text(
    alloc: Global,
    form: Form,
    sides: &[Side],
    rows: &[Row],
) -> Result<Vec<u8>, AllocError>
    ensures { IfOk result (λ text. text.items ≡ rows_text form sides.now rows.now) }
{
    match form {
        Form::Table => table_bytes(alloc, sides, rows),
        Form::Csv => csv_bytes(alloc, rows),
        Form::Json => json_bytes(alloc, sides, rows),
    }
}

/// Rows as lines with columns.
fn table_bytes(alloc: Global, sides: &[Side], rows: &[Row]) -> Result<Vec<u8>, AllocError>
    ensures { IfOk result (λ text. text.items ≡ aligned_text sides.now rows.now) }
{
    let mut text = String::new(alloc);
    push_aligned(alloc, &mut text, sides, rows)?;
    Ok(text.into_bytes())
}

/// Rows as CSV.
fn csv_bytes(alloc: Global, rows: &[Row]) -> Result<Vec<u8>, AllocError>
    ensures { IfOk result (λ text. text.items ≡ csv_text rows.now) }
{
    match csv_rows_text(alloc, rows) {
        Ok(text) => Ok(text),
        Err(_) => Err(AllocError),
    }
}

/// Rows as lines of JSON.
fn json_bytes(alloc: Global, sides: &[Side], rows: &[Row]) -> Result<Vec<u8>, AllocError>
    ensures { IfOk result (λ text. text.items ≡ json_lines sides.now rows.now) }
{
    let text = json_rows_text(alloc, sides, rows)?;
    Ok(text.into_bytes())
}
