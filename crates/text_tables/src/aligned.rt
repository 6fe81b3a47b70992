//! Tables as lines with columns.
ghost use Rattle.std.specs.Prelude.{◌≡◌, ◌<◌, ◌++◌, IfOk, OnOk, length, map, max, replicate, slice_index_or, string_bytes};
ghost use Rattle.std.specs.List.{flat_map, range_with_len};
ghost use Rattle.text_tables.specs.Aligned.{aligned, aligned_text, cell_width, column_text, column_width, filled, row_line};
ghost use Rattle.text_tables.specs.declared.aligned.Side.TheVariants.{Left};

use crate::row::Row;
use std::alloc::{AllocError, Global};
use unicode_width::UnicodeWidthStr;

/// At which side of its column a cell stands.
#[derive(Clone, Copy)]
pub enum Side {
    /// At the left, as texts do.
    Left,
    /// At the right, as numbers do.
    Right,
}

/// Adds a line for each row.
pub fn push_aligned(
    alloc: Global,
    text: &mut String,
    sides: &[Side],
    rows: &[Row],
) -> Result<(), AllocError>
    ensures { OnOk result (string_bytes text.new ≡ string_bytes text.old ++ aligned_text sides.now rows.now) }
{
    let widths = column_widths(alloc, sides.len(), rows)?;
    for row in rows {
        push_row(text, sides, rows, &widths, row)?;
    }
    Ok(())
}

/// How wide each of so many columns is.
fn column_widths(alloc: Global, columns: usize, rows: &[Row]) -> Result<Vec<usize>, AllocError>
    ensures { IfOk result (λ widths. widths.items ≡ map (column_width rows.now) (range_with_len 0 columns)) }
{
    let mut widths = Vec::with_capacity(alloc, columns)?;
    for k in 0..columns {
        widths.push(column_width(rows, k))?;
    }
    Ok(widths)
}

/// How wide column `k` is.
fn column_width(rows: &[Row], k: usize) -> usize
    ensures { result ≡ column_width rows.now k }
{
    let mut width = 0;
    for row in rows {
        width = wider(width, row.cell(k));
    }
    width
}

/// A width, or that of a cell, if that is wider.
fn wider(width: usize, cell: &str) -> usize
    ensures { result ≡ max width (cell_width cell.now) }
{
    width.max(cell.width())
}

/// Adds the line of a row. The rows, of which the columns have their widths, are for the prover alone.
fn push_row(
    text: &mut String,
    sides: &[Side],
    rows: &[Row],
    widths: &[usize],
    row: &Row,
) -> Result<(), AllocError>
    requires { widths.now ≡ map (column_width rows.now) (range_with_len 0 (length sides.now)) }
    ensures { OnOk result (string_bytes text.new ≡ string_bytes text.old ++ row_line sides.now rows.now row.now) }
{
    for k in 0..sides.len() {
        push_column(text, sides, rows, widths, row, k)?;
    }
    text.push_str("\n")
}

/// Adds what stands in column `k` of a line.
fn push_column(
    text: &mut String,
    sides: &[Side],
    rows: &[Row],
    widths: &[usize],
    row: &Row,
    k: usize,
) -> Result<(), AllocError>
    requires widths { widths.now ≡ map (column_width rows.now) (range_with_len 0 (length sides.now)) }
    requires column { k < length sides.now }
    ensures { OnOk result (string_bytes text.new ≡ string_bytes text.old ++ column_text sides.now rows.now row.now k) }
{
    if k + 1 == sides.len() {
        return text.push_str(row.cell(k));
    }
    push_filled(text, side_at(sides, k), width_at(widths, k), row.cell(k))
}

/// Adds a cell with the spaces that fill its column and those behind it.
fn push_filled(text: &mut String, side: Side, width: usize, cell: &str) -> Result<(), AllocError>
    ensures { OnOk result (string_bytes text.new ≡ string_bytes text.old ++ filled side width cell.now) }
{
    push_cell(text, side, width, cell)?;
    text.push_str("  ")
}

/// At which side the cells of column `k` stand.
pub(crate) fn side_at(sides: &[Side], k: usize) -> Side
    ensures { result ≡ slice_index_or sides.now k Left }
{
    match sides.get(k) {
        Some(side) => *side,
        None => Side::Left,
    }
}

/// The width of column `k`.
fn width_at(widths: &[usize], k: usize) -> usize
    ensures { result ≡ slice_index_or widths.now k 0 }
{
    match widths.get(k) {
        Some(width) => *width,
        None => 0,
    }
}

/// Adds a cell with the spaces that fill its column.
fn push_cell(text: &mut String, side: Side, width: usize, cell: &str) -> Result<(), AllocError>
    ensures { OnOk result (string_bytes text.new ≡ string_bytes text.old ++ aligned side width cell.now) }
{
    let spaces = width.saturating_sub(cell.width());
    match side {
        Side::Left => {
            text.push_str(cell)?;
            push_spaces(text, spaces)
        }
        Side::Right => {
            push_spaces(text, spaces)?;
            text.push_str(cell)
        }
    }
}

/// Adds so many spaces.
fn push_spaces(text: &mut String, count: usize) -> Result<(), AllocError>
    ensures { OnOk result (string_bytes text.new ≡ string_bytes text.old ++ replicate count 32) }
{
    for _space in 0..count {
        text.push_str(" ")?;
    }
    Ok(())
}
