//! Rows as lines of JSON.
ghost use Rattle.std.specs.Prelude.{◌≡◌, ◌++◌, ◌∷◌, [], IfOk, OnOk, length, string_bytes};
ghost use Rattle.std.specs.Char.{is_ascii_digit};
ghost use Rattle.std.specs.List.{flat_map, list_all};
ghost use Rattle.text_tables.specs.JsonRows.{is_whole_number, json_lines, json_text, member_text, members_text, object_line, stands_bare, value_text};
ghost use Rattle.text_tables.specs.inner.Joined.{next_part};

use crate::aligned::{Side, side_at};
use crate::row::Row;
use json::Writer;
use line_fields::written_text;
use std::alloc::{AllocError, Global};

/// Rows as lines of JSON. The first row has the titles. Each other row is a line, an object whose members are the titles with
/// the row's cells. An empty cell is `null`. A whole number at the right stands bare; any other cell is a string. There are no
/// titles where no row stands below them.
pub fn json_rows_text(alloc: Global, sides: &[Side], rows: &[Row]) -> Result<String, AllocError>
    ensures { IfOk result (λ text. string_bytes text ≡ json_lines sides.now rows.now) }
{
    let mut text = String::new(alloc);
    match rows {
        [] => Ok(text),
        [titles, below @ ..] => {
            push_objects(&mut text, sides, titles, below)?;
            Ok(text)
        }
    }
}

/// Adds the line of each row.
fn push_objects(
    text: &mut String,
    sides: &[Side],
    titles: &Row,
    rows: &[Row],
) -> Result<(), AllocError>
    ensures { OnOk result (string_bytes text.new ≡ string_bytes text.old ++ flat_map (object_line sides.now titles.now) rows.now) }
{
    for row in rows {
        push_object(text, sides, titles, row)?;
    }
    Ok(())
}

/// Adds the line of a row.
fn push_object(text: &mut String, sides: &[Side], titles: &Row, row: &Row) -> Result<(), AllocError>
    ensures { OnOk result (string_bytes text.new ≡ string_bytes text.old ++ object_line sides.now titles.now row.now) }
{
    text.push_str("{")?;
    push_members(text, sides, titles, row)?;
    text.push_str("}\n")
}

/// Adds the members of all columns.
fn push_members(
    text: &mut String,
    sides: &[Side],
    titles: &Row,
    row: &Row,
) -> Result<(), AllocError>
    ensures { OnOk result (string_bytes text.new ≡ string_bytes text.old ++ members_text sides.now titles.now row.now) }
{
    for k in 0..titles.len() {
        push_next_member(text, sides, titles, row, k)?;
    }
    Ok(())
}

/// Adds the member of column `k`, behind a comma where others stand before it.
fn push_next_member(
    text: &mut String,
    sides: &[Side],
    titles: &Row,
    row: &Row,
    k: usize,
) -> Result<(), AllocError>
    ensures { OnOk result (string_bytes text.new ≡ string_bytes text.old ++ next_part 44 k (member_text sides.now titles.now row.now k)) }
{
    if k == 0 {
        return push_member(text, sides, titles, row, k);
    }
    text.push_str(",")?;
    push_member(text, sides, titles, row, k)
}

/// Adds the member of column `k`.
fn push_member(
    text: &mut String,
    sides: &[Side],
    titles: &Row,
    row: &Row,
    k: usize,
) -> Result<(), AllocError>
    ensures { OnOk result (string_bytes text.new ≡ string_bytes text.old ++ member_text sides.now titles.now row.now k) }
{
    push_json_text(text, titles.cell(k))?;
    text.push_str(":")?;
    push_value(text, side_at(sides, k), row.cell(k))
}

/// Adds what stands for a cell.
fn push_value(text: &mut String, side: Side, cell: &str) -> Result<(), AllocError>
    ensures { OnOk result (string_bytes text.new ≡ string_bytes text.old ++ value_text side cell.now) }
{
    if cell.is_empty() {
        text.push_str("null")
    } else if stands_bare(side, cell) {
        text.push_str(cell)
    } else {
        push_json_text(text, cell)
    }
}

/// Whether a cell is a number in a column of numbers.
fn stands_bare(side: Side, cell: &str) -> bool
    ensures { result ≡ stands_bare side cell.now }
{
    match side {
        Side::Left => false,
        Side::Right => is_whole_number(cell.as_bytes()),
    }
}

/// Whether a text is a whole number as JSON has it.
fn is_whole_number(text: &[u8]) -> bool
    ensures { result ≡ is_whole_number text.now }
{
    are_digits(text) && !(1 < text.len() && text[0] == b'0')
}

/// Whether each character is a decimal digit.
fn are_digits(text: &[u8]) -> bool
    ensures { result ≡ list_all is_ascii_digit text.now }
{
    text.iter().all(|c| c.is_ascii_digit())
}

/// Adds a text as JSON has it.
fn push_json_text(text: &mut String, value: &str) -> Result<(), AllocError>
    ensures { OnOk result (string_bytes text.new ≡ string_bytes text.old ++ json_text value.now) }
{
    let quoted = json_text(*text.allocator(), value)?;
    text.push_str(quoted.as_str())
}

/// A text as JSON has it: in quotation marks, with what must be escaped escaped.
pub fn json_text(alloc: Global, value: &str) -> Result<String, AllocError>
    ensures { IfOk result (λ text. string_bytes text ≡ json_text value.now) }
{
    let mut out = Writer::new(Vec::new(alloc));
    out.string(value)?;
    Ok(written_text(out))
}
