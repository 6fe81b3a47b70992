//! The arguments of words: tables of what each is, and how clap is told of them.
ghost use Rattle.std.specs.Prelude.{IfOk, map};
ghost use Rattle.command_line.specs.Arguments as kind;
ghost use Rattle.command_line.specs.inner.Tables.{AddsRules, IsReadBy, rule_for};

use clap::builder::ValueParser;
use clap::{Arg, ArgAction, ArgGroup, Command};
use line_engine::MAX_FILES;
use std::alloc::{AllocError, Global};

/// An argument of a word.
#[derive(Clone, Copy)]
pub(crate) struct Argument {
    /// Its name.
    pub(crate) name: &'static str,
    /// What it takes.
    pub(crate) takes: Takes,
    /// What it is, on a line.
    pub(crate) help: &'static str,
    /// What it is, if more is to be said.
    pub(crate) long_help: Option<&'static str>,
}

/// What an argument takes. Help calls a value as is said here.
#[derive(Clone, Copy)]
pub(crate) enum Takes {
    /// Nothing: an option that is given or not.
    Nothing,
    /// An option's value.
    Value(&'static str),
    /// The value of an option that must be given.
    Needed(&'static str),
    /// The values of an option that may stand several times.
    Values(&'static str),
    /// The values of an option that must be given, and may stand several times.
    NeededValues(&'static str),
    /// An option's number, from 1 to this one.
    Number(u64),
    /// The same, and what it is if it isn't given.
    NumberOr(u64, &'static str),
    /// A word's own value, which may be missing.
    Own(&'static str),
    /// A word's own values: 1 to 16 files.
    Files,
}

/// Two options of which at most one may be given.
#[derive(Clone, Copy)]
pub(crate) struct Group {
    /// Its name.
    pub(crate) name: &'static str,
    /// The names of the options.
    pub(crate) options: [&'static str; 2],
    /// Whether one must be given.
    pub(crate) required: bool,
}

/// A word with these arguments.
pub(crate) fn with_arguments<'a>(
    alloc: Global,
    word: Command<'a>,
    arguments: &[Argument],
) -> Result<Command<'a>, AllocError>
    ensures { IfOk result (AddsRules (map rule_for arguments.now) word.entry) }
{
    let mut word = word;
    for it in arguments {
        word = word.arg(as_argument(alloc, *it))?;
    }
    Ok(word)
}

/// A word with these groups.
pub(crate) fn with_groups<'a>(
    alloc: Global,
    word: Command<'a>,
    groups: &[Group],
) -> Result<Command<'a>, AllocError> {
    let mut word = word;
    for it in groups {
        word = word.group(as_group(alloc, *it)?)?;
    }
    Ok(word)
}

/// A group, as clap takes it.
fn as_group<'a>(alloc: Global, it: Group) -> Result<ArgGroup<'a>, AllocError> {
    let [one, other] = it.options;
    let group = ArgGroup::new(alloc, it.name).arg(one)?;
    group.required(it.required).arg(other)
}

/// An argument, as clap takes it.
fn as_argument<'a>(alloc: Global, it: Argument) -> Arg<'a>
    ensures { IsReadBy (rule_for it) result }
{
    let argument = taking(alloc, it).help(it.help);
    match it.long_help {
        Some(text) => argument.long_help(text),
        None => argument,
    }
}

/// An argument with what it takes.
fn taking<'a>(alloc: Global, it: Argument) -> Arg<'a>
    ensures { IsReadBy (rule_for it) result }
{
    match it.takes {
        Takes::Nothing => flag(alloc, it.name),
        Takes::Value(value) => single(alloc, it.name, value),
        Takes::Needed(value) => single(alloc, it.name, value).required(true),
        Takes::Values(value) => several(alloc, it.name, value),
        Takes::NeededValues(value) => several(alloc, it.name, value).required(true),
        Takes::Number(most) => number(alloc, it.name, most),
        Takes::NumberOr(most, standard) => number(alloc, it.name, most).default_value(standard),
        Takes::Own(value) => Arg::new(alloc, it.name).value_name(value),
        Takes::Files => files(alloc, it.name),
    }
}

/// An option without a value.
fn flag<'a>(alloc: Global, name: &'static str) -> Arg<'a>
    ensures { IsReadBy (kind.flag name.entry.now) result }
{
    Arg::new(alloc, name).long(name).action(ArgAction::SetTrue)
}

/// An option with one value.
fn single<'a>(alloc: Global, name: &'static str, value: &'static str) -> Arg<'a>
    ensures { IsReadBy (kind.valued name.entry.now) result }
{
    Arg::new(alloc, name)
        .long(name)
        .value_name(value)
        .action(ArgAction::Set)
}

/// An option with a value each time that it is given.
fn several<'a>(alloc: Global, name: &'static str, value: &'static str) -> Arg<'a>
    ensures { IsReadBy (kind.repeated name.entry.now) result }
{
    Arg::new(alloc, name)
        .long(name)
        .value_name(value)
        .action(ArgAction::Append)
}

/// An option with a number from 1 to `most`.
fn number<'a>(alloc: Global, name: &'static str, most: u64) -> Arg<'a>
    ensures { IsReadBy (kind.number most name.entry.now) result }
{
    single(alloc, name, "N").value_parser(ValueParser::unsigned(1, most))
}

/// 1 to 16 files.
fn files<'a>(alloc: Global, name: &'static str) -> Arg<'a>
    ensures { IsReadBy (kind.unnamed_files name.entry.now) result }
{
    Arg::new(alloc, name)
        .value_name("FILE")
        .required(true)
        .num_args(1..=MAX_FILES)
}
