//! How a line is written: what it says first, then fields, each a name and a value. `Err` only when out of memory; part of the
//! line may be there then.
ghost use Rattle.std.specs.Prelude.{◌≡◌, ◌++◌, codes, decimal, OnOk, string_bytes};
ghost use Rattle.std.specs.Str.{IsAscii};
ghost use Rattle.reply_texts.specs.Lines.{Adds};
ghost use Rattle.text_tables.specs.JsonRows.{json_text};
ghost use Rattle.plan_reasons.specs.Fields.{ending, field, first_field, naming, nothing, opening, quoted};
ghost use Rattle.plan_reasons.specs.inner.Added.{IsMomentField, IsMomentValue};

use itoa::Buffer;
use rail_codes::{Moment, push_ascii};
use std::alloc::AllocError;
use text_tables::json_text;

/// How a line is written.
#[derive(Clone, Copy)]
pub enum Style {
    /// Values parted by one space, the first behind a word that says what the line is.
    Text,
    /// A JSON object without spaces, whose first member says what the line is.
    Json,
}

/// Begins a line: what it says first.
fn open_line(text: &mut String, style: Style, name: &str) -> Result<(), AllocError>
    ensures { OnOk result (string_bytes text.new ≡ string_bytes text.old ++ opening style name.now) }
{
    match style {
        Style::Text => {
            text.push_str(name)?;
            text.push_str(" ")
        }
        Style::Json => {
            text.push_str("{\"")?;
            text.push_str(name)?;
            text.push_str("\":")
        }
    }
}

/// Adds what stands before a later value.
pub(crate) fn push_name(text: &mut String, style: Style, name: &str) -> Result<(), AllocError>
    ensures { OnOk result (string_bytes text.new ≡ string_bytes text.old ++ naming style name.now) }
{
    match style {
        Style::Text => text.push_str(" "),
        Style::Json => {
            text.push_str(",\"")?;
            text.push_str(name)?;
            text.push_str("\":")
        }
    }
}

/// Ends a line.
pub(crate) fn end_line(text: &mut String, style: Style) -> Result<(), AllocError>
    ensures { OnOk result (string_bytes text.new ≡ string_bytes text.old ++ ending style) }
{
    match style {
        Style::Text => text.push_str("\n"),
        Style::Json => text.push_str("}\n"),
    }
}

/// The value where there is none.
pub(crate) fn nothing(style: Style) -> &'static str
    ensures { result.now ≡ nothing style }
{
    match style {
        Style::Text => "-",
        Style::Json => "null",
    }
}

/// Adds a text: as it is, or as JSON has it.
fn push_shown(text: &mut String, style: Style, value: &str) -> Result<(), AllocError>
    ensures { OnOk result (string_bytes text.new ≡ string_bytes text.old ++ quoted style value.now) }
{
    match style {
        Style::Text => text.push_str(value),
        Style::Json => push_json(text, value),
    }
}

/// Adds a text as JSON has it.
pub(crate) fn push_json(text: &mut String, value: &str) -> Result<(), AllocError>
    ensures { OnOk result (string_bytes text.new ≡ string_bytes text.old ++ json_text value.now) }
{
    let quoted = json_text(*text.allocator(), value)?;
    text.push_str(quoted.as_str())
}

/// Adds a code's characters.
pub(crate) fn push_quoted(
    text: &mut String,
    style: Style,
    characters: &[u8],
) -> Result<(), AllocError>
    requires { IsAscii characters.now }
    ensures { OnOk result (string_bytes text.new ≡ string_bytes text.old ++ quoted style characters.now) }
{
    match style {
        Style::Text => push_ascii(text, characters),
        Style::Json => push_json_code(text, characters),
    }
}

/// Adds a code's characters as JSON has a text.
fn push_json_code(text: &mut String, characters: &[u8]) -> Result<(), AllocError>
    requires { IsAscii characters.now }
    ensures { OnOk result (string_bytes text.new ≡ string_bytes text.old ++ json_text characters.now) }
{
    let mut code = String::new(*text.allocator());
    push_ascii(&mut code, characters)?;
    push_json(text, code.as_str())
}

/// Begins a line with a number.
pub(crate) fn first_number(
    text: &mut String,
    style: Style,
    name: &str,
    number: u64,
) -> Result<(), AllocError>
    ensures { OnOk result (string_bytes text.new ≡ string_bytes text.old ++ first_field style name.now (decimal number)) }
{
    let mut digits = Buffer::new();
    open_line(text, style, name)?;
    text.push_str(digits.format(number))
}

/// Begins a line with a code.
pub(crate) fn first_code(
    text: &mut String,
    style: Style,
    name: &str,
    characters: &[u8],
) -> Result<(), AllocError>
    requires { IsAscii characters.now }
    ensures { OnOk result (string_bytes text.new ≡ string_bytes text.old ++ first_field style name.now (quoted style characters.now)) }
{
    open_line(text, style, name)?;
    push_quoted(text, style, characters)
}

/// Adds a value as it is.
pub(crate) fn push_field(
    text: &mut String,
    style: Style,
    name: &str,
    value: &str,
) -> Result<(), AllocError>
    ensures { OnOk result (string_bytes text.new ≡ string_bytes text.old ++ field style name.now value.now) }
{
    push_name(text, style, name)?;
    text.push_str(value)
}

/// Adds a number.
pub(crate) fn number_field(
    text: &mut String,
    style: Style,
    name: &str,
    number: u64,
) -> Result<(), AllocError>
    ensures { OnOk result (string_bytes text.new ≡ string_bytes text.old ++ field style name.now (decimal number)) }
{
    let mut digits = Buffer::new();
    push_field(text, style, name, digits.format(number))
}

/// Adds a code.
pub(crate) fn code_field(
    text: &mut String,
    style: Style,
    name: &str,
    characters: &[u8],
) -> Result<(), AllocError>
    requires { IsAscii characters.now }
    ensures { OnOk result (string_bytes text.new ≡ string_bytes text.old ++ field style name.now (quoted style characters.now)) }
{
    push_name(text, style, name)?;
    push_quoted(text, style, characters)
}

/// Adds a moment.
pub(crate) fn moment_field(
    text: &mut String,
    style: Style,
    name: &str,
    moment: Moment,
) -> Result<(), AllocError>
    ensures { OnOk result (Adds (IsMomentField style name.now moment) (string_bytes text.old) (string_bytes text.new)) }
{
    push_name(text, style, name)?;
    push_moment(text, style, moment)
}

/// Adds a moment's text.
fn push_moment(text: &mut String, style: Style, moment: Moment) -> Result<(), AllocError>
    ensures { OnOk result (Adds (IsMomentValue style moment) (string_bytes text.old) (string_bytes text.new)) }
{
    let shown = moment.text(*text.allocator())?;
    push_shown(text, style, shown.as_str())
}
