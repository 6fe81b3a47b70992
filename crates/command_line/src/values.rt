//! What was given to the arguments of a word: texts, numbers and codes.
ghost use Rattle.std.specs.Prelude.{◌≡◌, ◌≤◌, IfOk, Ok};
ghost use Rattle.command_line.specs.Values.{IsFlagOf, IsNumberOf, IsOptionalNumberOf, IsReadAs, all_lent, given_in, lent, needed_value, value_of, values_of};

use clap::error::ErrorKind;
use clap::{ArgMatches, Command, Error};
use rail_codes::FromText;
use std::alloc::{AllocError, Global};

/// The code that the value of a word's option is. A value that is none is a fault of the arguments, which names the refusal.
pub(crate) fn code_from<C: FromText>(
    alloc: Global,
    word: &str,
    option: &str,
    text: &str,
) -> Result<C, Error>
    ensures { IfOk result (λ code. C.meaning text.now ≡ Ok code) }
{
    match C::from_text(text) {
        Ok(code) => Ok(code),
        Err(fault) => {
            let number = fault.number();
            let reason = format!(in alloc;
                "invalid value '{text}' for '{option}': `wagons explain {number}` says why"
            )?;
            Err(fault_of_word(alloc, word, ErrorKind::InvalidValue, reason.as_str())?)
        }
    }
}

/// The same of an option that may be missing, by its name and as usage lines show it.
pub(crate) fn code_of<C: FromText>(
    alloc: Global,
    word: &str,
    name: &str,
    option: &str,
    matches: &ArgMatches<'_>,
) -> Result<Option<C>, Error>
    ensures { IfOk result (IsReadAs C.meaning (value_of name.now (given_in matches.now))) }
{
    match value_of(matches, name) {
        Some(text) => Ok(Some(code_from(alloc, word, option, text)?)),
        None => Ok(None),
    }
}

/// The value of an argument, if it has one; the first of several.
pub(crate) fn value_of<'a>(matches: &ArgMatches<'a>, name: &str) -> Option<&'a str>
    ensures { lent result ≡ value_of name.now (given_in matches.now) }
{
    matches.get_str(name)
}

/// The value of an option without which `clap` has refused the word before.
pub(crate) fn needed_value<'a>(matches: &ArgMatches<'a>, name: &str) -> &'a str
    ensures { result.now ≡ needed_value name.now (given_in matches.now) }
{
    match value_of(matches, name) {
        Some(value) => value,
        None => "",
    }
}

/// The values of an argument, in the order in which they were given.
pub(crate) fn values_of<'a>(
    alloc: Global,
    matches: &ArgMatches<'a>,
    name: &str,
) -> Result<Vec<&'a str>, AllocError>
    ensures { IfOk result (λ values. all_lent values.items ≡ values_of name.now (given_in matches.now)) }
{
    match matches.get_strs(name) {
        Some(values) => Vec::from_slice(alloc, values),
        None => Ok(Vec::new(alloc)),
    }
}

/// Whether an option was given that takes no value.
pub(crate) fn is_given(matches: &ArgMatches<'_>, name: &str) -> bool
    ensures { IsFlagOf name.now (given_in matches.now) result }
{
    matches.get_flag(name)
}

/// The number of an option, from 1 to `most`. `clap` has filled in its default and refused a number out of this range
/// before, so `clamp` changes nothing; it lets callers rely on the range.
pub(crate) fn number_of(matches: &ArgMatches<'_>, name: &str, most: u64) -> u64
    requires { 1 ≤ most }
    ensures least { 1 ≤ result }
    ensures most { result ≤ most }
    ensures number { IsNumberOf name.now most (given_in matches.now) result }
{
    matches.get_one::<u64>(name).unwrap_or(most).clamp(1, most)
}

/// The number of an option, if it was given.
pub(crate) fn number_if_given(matches: &ArgMatches<'_>, name: &str) -> Option<u64>
    ensures { IsOptionalNumberOf name.now (given_in matches.now) result }
{
    matches.get_one::<u64>(name)
}

/// The fault that the number of a word's option isn't from 1 to `most`.
pub(crate) fn out_of_range(
    alloc: Global,
    word: &str,
    option: &str,
    number: u64,
    most: u64,
) -> Result<Error, AllocError> {
    let reason = format!(in alloc;
        "invalid value '{number}' for '{option}': {number} is not in 1..={most}"
    )?;
    fault_of_word(alloc, word, ErrorKind::InvalidValue, reason.as_str())
}

/// A fault of a word's arguments, of this kind and for this reason. Its usage is the word's name alone.
pub(crate) fn fault_of_word(
    alloc: Global,
    word: &str,
    kind: ErrorKind,
    reason: &str,
) -> Result<Error, AllocError> {
    let mut command = Command::new(alloc, "wagons").bin_name(word)?;
    command.error(kind, reason)
}
