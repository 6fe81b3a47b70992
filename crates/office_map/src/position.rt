//! Where places and lines stand.
ghost use Rattle.std.specs.Prelude.{◌≡◌, ◌++◌, OnOk, option_map, string_bytes};
ghost use Rattle.office_map.specs.Positions.{middle, middle_of, position_at, position_of};

use crate::words::{push_texts, push_words};
use place_names::{Coordinates, Decimal};
use std::alloc::AllocError;
use std::fmt::Write;

/// Adds where a place stands, if it is said where it lies.
pub(crate) fn push_position(text: &mut String, at: Option<&Coordinates>) -> Result<(), AllocError>
    ensures { OnOk result (string_bytes text.new ≡ string_bytes text.old ++ position_of (option_map (λ c. c.now) at.entry)) }
{
    match at {
        Some(at) => push_position_at(text, at.x.as_str(), at.y.as_str()),
        None => Ok(()),
    }
}

/// Adds where a place stands.
fn push_position_at(text: &mut String, x: &str, y: &str) -> Result<(), AllocError>
    ensures { OnOk result (string_bytes text.new ≡ string_bytes text.old ++ position_at x.now y.now) }
{
    push_texts(text, ", pos=\"", x, ",")?;
    push_words(text, y)?;
    push_words(text, "\", pin=true")
}

/// Adds where a line stands, if it is said where its ends lie.
pub(crate) fn push_middle(
    text: &mut String,
    from: Option<&Coordinates>,
    to: Option<&Coordinates>,
) -> Result<(), AllocError>
    ensures { OnOk result (string_bytes text.new ≡ string_bytes text.old ++ middle_of (option_map (λ c. c.now) from.entry) (option_map (λ c. c.now) to.entry)) }
{
    match (from, to) {
        (Some(from), Some(to)) => push_middle_at(text, from, to),
        _ => Ok(()),
    }
}

/// Adds the middle between two ends.
fn push_middle_at(text: &mut String, from: &Coordinates, to: &Coordinates) -> Result<(), AllocError>
    ensures { OnOk result (string_bytes text.new ≡ string_bytes text.old ++ position_at (middle from.now.x to.now.x) (middle from.now.y to.now.y)) }
{
    push_words(text, ", pos=\"")?;
    push_middle_of(text, &from.x, &to.x)?;
    push_words(text, ",")?;
    push_middle_of(text, &from.y, &to.y)?;
    push_words(text, "\", pin=true")
}

/// Adds the middle between two numbers.
fn push_middle_of(text: &mut String, a: &Decimal, b: &Decimal) -> Result<(), AllocError>
    ensures { OnOk result (string_bytes text.new ≡ string_bytes text.old ++ middle a.now b.now) }
{
    let doubled = a.millionths() + b.millionths();
    let middle = doubled * 5;
    write!(text, "{middle}e-7")
}
