//! The wagons of a place: how many of each class are free, promised, and neither.
ghost use Rattle.std.specs.Prelude.{◌≡◌, ◌++◌, ◌<◌, [], count_by, length, OnOk, string_bytes};
ghost use Rattle.std.specs.List.{list_any};
ghost use Rattle.office_map.specs.Wagons.{class_at, class_cell, class_line, free_cell, other_cell, promised_cell, class_lines, is_free, is_free_of, is_of_class, is_other, is_other_of, is_promised, is_promised_of, number_cell, number_on};

use crate::words::{FREE_COLOUR, PROMISED_COLOUR, push_between, push_number, push_words};
use rail_codes::ClassCode;
use std::alloc::AllocError;
use wagons_and_orders::{WagonRow, free};

/// Adds a line of a label for each class of these wagons: how many are free, promised, and neither.
pub(crate) fn push_class_lines(text: &mut String, rows: &[WagonRow]) -> Result<(), AllocError>
    ensures { OnOk result (string_bytes text.new ≡ string_bytes text.old ++ class_lines rows.now) }
{
    for i in 0..rows.len() {
        push_class_at(text, rows, i)?;
    }
    Ok(())
}

/// Adds the line of the class of the wagon at `i`, unless a wagon of it stands earlier.
fn push_class_at(text: &mut String, rows: &[WagonRow], i: usize) -> Result<(), AllocError>
    requires { i < length rows.now }
    ensures { OnOk result (string_bytes text.new ≡ string_bytes text.old ++ class_at rows.now i) }
{
    let Some(row) = rows.get(i) else {
        return Ok(());
    };
    if has_class(&rows[..i], row.class) {
        return Ok(());
    }
    push_class_line(text, rows, row.class)
}

/// Whether one of these wagons is of a class.
fn has_class(rows: &[WagonRow], class: ClassCode) -> bool
    ensures { result ≡ list_any (is_of_class class) rows.now }
{
    rows.iter().any(|row| class == row.class)
}

/// Adds the line of a class.
fn push_class_line(text: &mut String, rows: &[WagonRow], class: ClassCode) -> Result<(), AllocError>
    ensures { OnOk result (string_bytes text.new ≡ string_bytes text.old ++ class_line rows.now class) }
{
    push_class_cell(text, class)?;
    push_free_cell(text, rows, class)?;
    push_promised_cell(text, rows, class)?;
    push_other_cell(text, rows, class)?;
    push_words(text, "</TR>\n")
}

/// Adds the name of a class.
fn push_class_cell(text: &mut String, class: ClassCode) -> Result<(), AllocError>
    ensures { OnOk result (string_bytes text.new ≡ string_bytes text.old ++ class_cell class) }
{
    push_between(
        text,
        "    <TR><TD ALIGN=\"LEFT\">",
        class.as_bytes(),
        "</TD>",
    )
}

/// Adds how many wagons of a class are free.
fn push_free_cell(text: &mut String, rows: &[WagonRow], class: ClassCode) -> Result<(), AllocError>
    ensures { OnOk result (string_bytes text.new ≡ string_bytes text.old ++ free_cell rows.now class) }
{
    push_number_cell(text, FREE_COLOUR, count_free(rows, class))
}

/// Adds how many wagons of a class are promised.
fn push_promised_cell(
    text: &mut String,
    rows: &[WagonRow],
    class: ClassCode,
) -> Result<(), AllocError>
    ensures { OnOk result (string_bytes text.new ≡ string_bytes text.old ++ promised_cell rows.now class) }
{
    push_number_cell(text, PROMISED_COLOUR, count_promised(rows, class))
}

/// Adds how many wagons of a class are neither.
fn push_other_cell(text: &mut String, rows: &[WagonRow], class: ClassCode) -> Result<(), AllocError>
    ensures { OnOk result (string_bytes text.new ≡ string_bytes text.old ++ other_cell rows.now class) }
{
    push_number_cell(text, "", count_others(rows, class))
}

/// Adds a number on a colour, or an empty cell.
fn push_number_cell(text: &mut String, colour: &str, number: usize) -> Result<(), AllocError>
    ensures { OnOk result (string_bytes text.new ≡ string_bytes text.old ++ number_cell colour.now number) }
{
    text.push_str("<TD WIDTH=\"14\"")?;
    push_number_on(text, colour, number)?;
    push_words(text, "</TD>")
}

/// Adds a number on a colour, and nothing in place of 0.
fn push_number_on(text: &mut String, colour: &str, number: usize) -> Result<(), AllocError>
    ensures { OnOk result (string_bytes text.new ≡ string_bytes text.old ++ number_on colour.now number) }
{
    if number == 0 {
        return text.push_str(">");
    }
    text.push_str(colour)?;
    text.push_str(">")?;
    push_number(text, number as u64)
}

/// How many wagons of a class are free.
fn count_free(rows: &[WagonRow], class: ClassCode) -> usize
    ensures { result ≡ count_by (is_free_of class) rows.now }
{
    rows.iter()
        .filter(|row| class == row.class && is_free(row))
        .count()
}

/// How many wagons of a class are promised.
fn count_promised(rows: &[WagonRow], class: ClassCode) -> usize
    ensures { result ≡ count_by (is_promised_of class) rows.now }
{
    rows.iter()
        .filter(|row| class == row.class && is_promised(row))
        .count()
}

/// How many wagons of a class are neither.
fn count_others(rows: &[WagonRow], class: ClassCode) -> usize
    ensures { result ≡ count_by (is_other_of class) rows.now }
{
    rows.iter()
        .filter(|row| class == row.class && is_other(row))
        .count()
}

/// Whether a wagon is free.
fn is_free(row: &WagonRow) -> bool
    ensures { result ≡ is_free row.now }
{
    free(row).is_some()
}

/// Whether a wagon is promised.
fn is_promised(row: &WagonRow) -> bool
    ensures { result ≡ is_promised row.now }
{
    row.promise.is_some()
}

/// Whether a wagon is neither free nor promised.
fn is_other(row: &WagonRow) -> bool
    ensures { result ≡ is_other row.now }
{
    !(is_free(row) || is_promised(row))
}
