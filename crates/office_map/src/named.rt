//! A place's name in a cell, and where the place lies.
ghost use Rattle.std.specs.Prelude.{◌≡◌, ◌++◌, chars, OnOk, option_map, string_bytes};
ghost use Rattle.std.specs.List.{flat_map};
ghost use Rattle.office_map.specs.Names.{coordinates_of, escaped, escaped_character, name_words};

use place_names::{Coordinates, Places};
use rail_codes::Place;
use std::alloc::AllocError;

/// Where a place lies, if that is said.
pub(crate) fn coordinates_of(named: &Places, place: Place) -> Option<&Coordinates>
    ensures { option_map (λ at. at.now) result ≡ coordinates_of named.now place }
{
    match named.find(place) {
        Some(one) => one.coordinates.as_ref(),
        None => None,
    }
}

/// Adds a name after a place's code, if the place has one.
pub(crate) fn push_name(text: &mut String, name: &str) -> Result<(), AllocError>
    ensures { OnOk result (string_bytes text.new ≡ string_bytes text.old ++ name_words name.now) }
{
    if name.is_empty() {
        return Ok(());
    }
    text.push_str(" ")?;
    push_escaped(text, name)
}

/// Adds a name as a cell has it.
fn push_escaped(text: &mut String, name: &str) -> Result<(), AllocError>
    ensures { OnOk result (string_bytes text.new ≡ string_bytes text.old ++ escaped name.now) }
{
    for character in name.chars() {
        push_character(text, character)?;
    }
    Ok(())
}

/// Adds a character as a cell has it.
fn push_character(text: &mut String, character: char) -> Result<(), AllocError>
    ensures { OnOk result (string_bytes text.new ≡ string_bytes text.old ++ escaped_character character) }
{
    match character {
        '&' => text.push_str("&amp;"),
        '<' => text.push_str("&lt;"),
        '>' => text.push_str("&gt;"),
        '\\' => text.push_str("\\\\"),
        '\u{fffe}' | '\u{ffff}' => text.push_str("?"),
        _ => text.push(character),
    }
}
