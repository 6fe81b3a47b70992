//! A place in a line, with its name behind it where names are asked for. `Err` only when out of memory; part of the line may be
//! there then.
ghost use Rattle.std.specs.Prelude.{◌≡◌, ◌++◌, OnOk, string_bytes};
ghost use Rattle.plan_reasons.specs.Fields.{field};
ghost use Rattle.plan_reasons.specs.PlaceFields.{name_field, names_of, place_field};
ghost use Rattle.text_tables.specs.JsonRows.{json_text};

use crate::line_form::LineForm;
use crate::style::{Style, code_field, push_json, push_name};
use rail_codes::Place;
use std::alloc::AllocError;

/// Adds a place, and its name behind it where names are asked for.
pub(crate) fn place_field(
    text: &mut String,
    form: &LineForm<'_>,
    code: &str,
    name: &str,
    place: Place,
) -> Result<(), AllocError>
    ensures { OnOk result (string_bytes text.new ≡ string_bytes text.old ++ place_field form.now.style (names_of form.now) code.now name.now place) }
{
    code_field(text, form.style, code, place.as_bytes())?;
    push_place_name(text, form, name, place)
}

/// Adds the name of a place where names are asked for.
fn push_place_name(
    text: &mut String,
    form: &LineForm<'_>,
    name: &str,
    place: Place,
) -> Result<(), AllocError>
    ensures { OnOk result (string_bytes text.new ≡ string_bytes text.old ++ name_field form.now.style (names_of form.now) name.now place) }
{
    match form.names {
        Some(places) => push_text(text, form.style, name, places.name_of(place)),
        None => Ok(()),
    }
}

/// Adds a text as JSON has it.
fn push_text(text: &mut String, style: Style, name: &str, value: &str) -> Result<(), AllocError>
    ensures { OnOk result (string_bytes text.new ≡ string_bytes text.old ++ field style name.now (json_text value.now)) }
{
    push_name(text, style, name)?;
    push_json(text, value)
}
