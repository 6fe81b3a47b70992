//! The option that names a time zone.
ghost use Rattle.std.specs.Prelude.{◌≡◌, IfOk, IfSome, codes};
ghost use Rattle.std.specs.Bool.{OnTrue};
ghost use Rattle.std.specs.List.{list_all};
ghost use Rattle.command_line.specs.Options.{IsZoneName, is_zone_character};
ghost use Rattle.command_line.specs.Values.{given_in, lent, value_of};

use crate::values::{fault_of_word, value_of};
use clap::error::ErrorKind;
use clap::{ArgMatches, Error};
use std::alloc::{AllocError, Global};

/// The time zone that was given to a word, by its name for the usage. A name that can't be one is a fault of the arguments.
pub(crate) fn zone_of<'a>(
    alloc: Global,
    word: &str,
    matches: &ArgMatches<'a>,
) -> Result<Option<&'a str>, Error>
    ensures zone { IfOk result (λ zone. lent zone ≡ value_of (codes "zone") (given_in matches.now)) }
    ensures name { IfOk result (λ zone. IfSome zone (λ name. IsZoneName name.now)) }
{
    match value_of(matches, "zone") {
        Some(name) => {
            if !is_zone_name(name) {
                return Err(no_zone(alloc, word, name)?);
            }
            Ok(Some(name))
        }
        None => Ok(None),
    }
}

/// Whether a text may name a time zone: letters, digits and `_`, `+`, `-` and `/`. So no name leads out of the folder in which
/// the time zones are.
fn is_zone_name(name: &str) -> bool
    ensures { OnTrue result (IsZoneName name.now) }
{
    !name.is_empty() && are_zone_characters(name.as_bytes())
}

/// Whether each of these may stand in the name of a time zone.
fn are_zone_characters(characters: &[u8]) -> bool
    ensures { result ≡ list_all is_zone_character characters.now }
{
    characters.iter().all(|c| is_zone_character(*c))
}

/// Whether a character may stand in the name of a time zone.
fn is_zone_character(c: u8) -> bool
    ensures { result ≡ is_zone_character c }
{
    c.is_ascii_alphanumeric() || c == b'_' || c == b'+' || c == b'-' || c == b'/'
}

/// The fault that a text names no time zone.
fn no_zone(alloc: Global, word: &str, name: &str) -> Result<Error, AllocError> {
    let reason = format!(in alloc;
        "invalid value '{name}' for '--zone <ZONE>': a time zone is named as Europe/Berlin"
    )?;
    fault_of_word(alloc, word, ErrorKind::InvalidValue, reason.as_str())
}
