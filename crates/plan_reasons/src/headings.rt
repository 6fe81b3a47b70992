//! The lines that name the words of other lines. `Err` only when out of memory; part of the line may be there then.
ghost use Rattle.std.specs.Prelude.{◌≡◌, ◌++◌, OnOk, string_bytes};
ghost use Rattle.plan_reasons.specs.declared.style.Style.TheVariants.{Text};
ghost use Rattle.plan_reasons.specs.Headings.{
  counted_columns,
  fits_columns,
  heading,
  heading_over,
  order_columns,
  stays_columns,
  test_columns,
  wagon_columns,
  way_columns,
  why_columns,
};
ghost use Rattle.plan_reasons.specs.PlaceFields.{names_of};

use crate::line_form::LineForm;
use crate::numbers::Numbers;
use crate::reasons::Test;
use crate::style::Style;
use std::alloc::AllocError;

/// Adds a heading: in a text of words, these behind `#`.
pub(crate) fn push_heading(text: &mut String, style: Style, columns: &str) -> Result<(), AllocError>
    ensures { OnOk result (string_bytes text.new ≡ string_bytes text.old ++ heading style columns.now) }
{
    match style {
        Style::Text => push_columns(text, columns),
        Style::Json => Ok(()),
    }
}

/// Adds a heading before so many lines, if there is one.
pub(crate) fn push_heading_over(
    text: &mut String,
    style: Style,
    columns: &str,
    lines: usize,
) -> Result<(), AllocError>
    ensures { OnOk result (string_bytes text.new ≡ string_bytes text.old ++ heading_over style columns.now lines) }
{
    if lines == 0 {
        return Ok(());
    }
    push_heading(text, style, columns)
}

/// Adds a line of words behind `#`.
fn push_columns(text: &mut String, columns: &str) -> Result<(), AllocError>
    ensures { OnOk result (string_bytes text.new ≡ string_bytes text.old ++ heading Text columns.now) }
{
    text.push_str("# ")?;
    text.push_str(columns)?;
    text.push_str("\n")
}

/// The words of the line of the whole.
pub(crate) fn why_columns() -> &'static str
    ensures { result.now ≡ why_columns }
{
    "why version free orders cost go stay miss"
}

/// The words of the line of an order.
pub(crate) fn order_columns(numbers: Numbers) -> &'static str
    ensures { result.now ≡ order_columns numbers }
{
    match numbers {
        Numbers::Exact => {
            "order name lacks gets misses class load way time cheaper more less further"
        }
        Numbers::Bounds => "order name lacks gets misses class load way time cheaper price further",
    }
}

/// The words of the line of a wagon that goes.
pub(crate) fn wagon_columns() -> &'static str
    ensures { result.now ≡ wagon_columns }
{
    "wagon number order km arrival without"
}

/// The words of the line of a wagon that stays.
pub(crate) fn stays_columns() -> &'static str
    ensures { result.now ≡ stays_columns }
{
    "stays number"
}

/// The words of the line of a pair that fails no test.
pub(crate) fn fits_columns() -> &'static str
    ensures { result.now ≡ fits_columns }
{
    "fits number name km more"
}

/// The words of the line that counts the wagons of other classes.
pub(crate) fn counted_columns() -> &'static str
    ensures { result.now ≡ counted_columns }
{
    "class count name classes"
}

/// The words of the line of a pair that fails a test.
pub(crate) fn test_columns(form: &LineForm<'_>, test: Test) -> &'static str
    ensures { result.now ≡ test_columns (names_of form.now) test }
{
    match test {
        Test::Class => "class number name class classes",
        Test::Load => "load number name limit load",
        Test::Way => way_columns(form),
        Test::InTime => "late number name arrival latest",
        Test::Cheaper => "costly number name km penalty",
    }
}

/// The words of the line of a pair without a way: with the names of places, where they are asked for.
fn way_columns(form: &LineForm<'_>) -> &'static str
    ensures { result.now ≡ way_columns (names_of form.now) }
{
    match form.names {
        Some(_) => "way number name from from_name to to_name",
        None => "way number name from to",
    }
}
