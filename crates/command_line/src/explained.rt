//! What `explain` is asked for: a refusal by its number or its name.
ghost use Rattle.std.specs.Prelude.{◌+◌, IfOk, MatchOption, OnOk};
ghost use Rattle.command_line.specs.Explained.{AreEntriesFor, AreEntriesNamed, HasName, IsEntryAlone, IsExplained, IsNamedEntry};
ghost use Rattle.command_line.specs.Values.{all_lent, given_in, lent};
ghost use Rattle.command_line.specs.inner.Named.{AreNamedBelow, HasNameOf, SaysName};

use crate::help;
use crate::values::value_of;
use crate::words::word_command;
use clap::error::ErrorKind;
use clap::{ArgMatches, Error};
use faults::entry_text;
use std::alloc::{AllocError, Global};

/// The numbers of refusals are below this one.
const NUMBERS_END: u32 = 1_000;

/// What `explain` prints.
#[derive(Drop)]
pub enum Explained {
    /// The whole manual of refusals.
    Manual,
    /// These entries of it: one, or those of the refusals that share a name.
    Entries(Vec<&'static str>),
}

/// What `explain` is asked for. A number or a name that no refusal has is a fault of the arguments.
pub(crate) fn read_explained(alloc: Global, matches: &ArgMatches<'_>) -> Result<Explained, Error>
    ensures { IfOk result (IsExplained (given_in matches.now)) }
{
    match value_of(matches, "code") {
        Some(code) => Ok(Explained::Entries(entries_for(alloc, code)?)),
        None => Ok(Explained::Manual),
    }
}

/// The entries for a code, a number or a name.
fn entries_for(alloc: Global, code: &str) -> Result<Vec<&'static str>, Error>
    ensures { IfOk result (λ entries. AreEntriesFor code.now (all_lent entries.items)) }
{
    match code.parse::<u32>() {
        Ok(number) => entry_of(alloc, number, code),
        Err(_) => entries_named(alloc, code),
    }
}

/// The entry of the refusal of a number, which was written as this code.
fn entry_of(alloc: Global, number: u32, code: &str) -> Result<Vec<&'static str>, Error>
    ensures { IfOk result (λ entries. IsEntryAlone number (all_lent entries.items)) }
{
    match entry_text(number) {
        Some(entry) => Ok(Vec::from_slice(alloc, &[entry])?),
        None => Err(no_refusal(alloc, "code", code)?),
    }
}

/// The entries of the refusals of a name.
fn entries_named(alloc: Global, name: &str) -> Result<Vec<&'static str>, Error>
    ensures { IfOk result (λ entries. AreEntriesNamed name.now (all_lent entries.items)) }
{
    let entries = all_named(alloc, name)?;
    if entries.is_empty() {
        return Err(no_refusal(alloc, "name", name)?);
    }
    Ok(entries)
}

/// The entries of the refusals of a name, if any.
fn all_named(alloc: Global, name: &str) -> Result<Vec<&'static str>, AllocError>
    ensures { IfOk result (λ entries. AreEntriesNamed name.now (all_lent entries.items)) }
{
    let mut entries = Vec::new(alloc);
    for number in 0..NUMBERS_END {
        push_named(&mut entries, number, name)?;
    }
    Ok(entries)
}

/// Adds the entry of the refusal of a number, if it has this name.
fn push_named(entries: &mut Vec<&'static str>, number: u32, name: &str) -> Result<(), AllocError>
    ensures { OnOk result (AreNamedBelow name.now number (all_lent entries.old.items) → AreNamedBelow name.now (number + 1) (all_lent entries.new.items)) }
{
    if let Some(entry) = named_entry(number, name) {
        entries.push(entry)?;
    }
    Ok(())
}

/// The entry of the refusal of a number, if it has this name.
fn named_entry(number: u32, name: &str) -> Option<&'static str>
    ensures { MatchOption result (¬ HasName number name.now) (λ entry. IsNamedEntry number name.now entry.now) }
{
    match entry_text(number) {
        Some(entry) => {
            if is_named(entry, name) {
                Some(entry)
            } else {
                None
            }
        }
        None => None,
    }
}

/// Whether an entry is that of a refusal of this name.
fn is_named(entry: &str, name: &str) -> bool
    ensures { SaysName entry.now name.now result }
{
    match name_in(entry) {
        Some(found) => found == name,
        None => false,
    }
}

/// The name in the first line of an entry, which is `## NUMBER NAME`.
fn name_in(entry: &str) -> Option<&str>
    ensures { HasNameOf entry.now (lent result) }
{
    let (line, _) = entry.split_once('\n')?;
    let (_, behind_hashes) = line.split_once(' ')?;
    let (_, name) = behind_hashes.split_once(' ')?;
    Some(name)
}

/// The fault that no refusal has this code of a kind.
fn no_refusal(alloc: Global, kind: &str, code: &str) -> Result<Error, AllocError> {
    let text = format!(in alloc;
        "no refusal has the {kind} {code}; `wagons explain` lists those there are"
    )?;
    let mut command = word_command(alloc, help::EXPLAIN)?.bin_name("wagons explain")?;
    command.error(ErrorKind::InvalidValue, text.as_str())
}
