//! Words of a map. `Err` only when out of memory; part of the text may be there then.
ghost use Rattle.std.specs.Prelude.{◌≡◌, ◌++◌, decimal, OnOk, string_bytes};
ghost use Rattle.std.specs.Str.{IsAscii};
ghost use Rattle.office_map.specs.Words.{quoted};

use rail_codes::push_ascii;
use std::alloc::AllocError;
use std::fmt::Write;

/// The colour of free wagons.
pub(crate) const FREE_COLOUR: &str = " BGCOLOR=\"darkseagreen1\"";

/// The colour of promised wagons, and of orders whose wagons are all promised.
pub(crate) const PROMISED_COLOUR: &str = " BGCOLOR=\"lightskyblue1\"";

/// The colour of orders that lack wagons.
pub(crate) const WAITING_COLOUR: &str = " BGCOLOR=\"orange\"";

/// Adds a name in quotes.
pub(crate) fn push_quoted(text: &mut String, name: &[u8]) -> Result<(), AllocError>
    requires { IsAscii name.now }
    ensures { OnOk result (string_bytes text.new ≡ string_bytes text.old ++ quoted name.now) }
{
    text.push_str("\"")?;
    push_ascii(text, name)?;
    text.push_str("\"")
}

/// Adds a text.
pub(crate) fn push_words(text: &mut String, words: &str) -> Result<(), AllocError>
    ensures { OnOk result (string_bytes text.new ≡ string_bytes text.old ++ words.now) }
{
    text.push_str(words)
}

/// Adds three texts.
pub(crate) fn push_texts(
    text: &mut String,
    first: &str,
    second: &str,
    third: &str,
) -> Result<(), AllocError>
    ensures { OnOk result (string_bytes text.new ≡ string_bytes text.old ++ (first.now ++ second.now ++ third.now)) }
{
    text.push_str(first)?;
    text.push_str(second)?;
    text.push_str(third)
}

/// Adds a name between two texts.
pub(crate) fn push_between(
    text: &mut String,
    before: &str,
    name: &[u8],
    behind: &str,
) -> Result<(), AllocError>
    requires { IsAscii name.now }
    ensures { OnOk result (string_bytes text.new ≡ string_bytes text.old ++ (before.now ++ name.now ++ behind.now)) }
{
    text.push_str(before)?;
    push_ascii(text, name)?;
    text.push_str(behind)
}

/// Adds a number.
pub(crate) fn push_number(text: &mut String, number: u64) -> Result<(), AllocError>
    ensures { OnOk result (string_bytes text.new ≡ string_bytes text.old ++ decimal number) }
{
    write!(text, "{number}")
}
