//! The options of the words that open an office: its files and limits.
ghost use Rattle.std.specs.Prelude.{IfOk};
ghost use Rattle.rail_codes.specs.WagonNumber.{wagon_number_of};
ghost use Rattle.command_line.specs.Options.{AreFeedOptions, AreLimitsOf, AreOfficeOptions, AreProblemOptions, AreRunOptions, AreSaveOptions, BeginsBy};
ghost use Rattle.command_line.specs.Values.{AreReadAs, all_lent, given_in};

use crate::values::{code_from, needed_value, number_if_given, number_of, value_of, values_of};
use clap::{ArgMatches, Error};
use line_network::MAX_WORKERS;
use price_checker::{Limits, MAX_ENTRIES, MAX_KEPT_PROBLEMS};
use rail_codes::{Moment, WagonNumber};
use std::alloc::{AllocError, Global};

/// The file that an office begins with.
#[derive(Clone, Copy)]
pub enum Start<'a> {
    /// A roster: no order, the first network.
    Roster(&'a str),
    /// A checkpoint: the office that it says.
    Checkpoint(&'a str),
}

/// What an office is opened with.
#[derive(Drop)]
pub struct OfficeOptions<'a> {
    /// The file that the office begins with.
    pub start: Start<'a>,
    /// The files of the networks, in their order.
    pub networks: Vec<&'a str>,
    /// How large the book may grow.
    pub limits: Limits,
    /// How many threads compute the distances.
    pub workers: usize,
}

impl<'a> OfficeOptions<'a> {
    /// The options that were given, and the defaults of the others. `clap` has refused words without a network before, and
    /// those without a roster or a checkpoint, or with both.
    pub(crate) fn read(
        alloc: Global,
        matches: &ArgMatches<'a>,
    ) -> Result<OfficeOptions<'a>, AllocError>
        ensures { IfOk result (AreOfficeOptions (given_in matches.now)) }
    {
        let networks = values_of(alloc, matches, "network")?;
        Ok(OfficeOptions {
            start: start_of(matches),
            networks,
            limits: limits_of(matches),
            workers: number_of(matches, "workers", MAX_WORKERS as u64) as usize,
        })
    }
}

/// The file that the office begins with.
fn start_of<'a>(matches: &ArgMatches<'a>) -> Start<'a>
    ensures { BeginsBy (given_in matches.now) result }
{
    match value_of(matches, "from") {
        Some(path) => Start::Checkpoint(path),
        None => Start::Roster(needed_value(matches, "roster")),
    }
}

/// How large the book may grow.
fn limits_of(matches: &ArgMatches<'_>) -> Limits
    ensures { AreLimitsOf (given_in matches.now) result }
{
    let entries = number_of(matches, "entries", MAX_ENTRIES);
    let kept = number_of(matches, "kept", MAX_KEPT_PROBLEMS as u64);
    Limits::new(entries, kept as u32).unwrap()
}

/// What `run` is asked to do.
#[derive(Drop)]
pub struct RunOptions<'a> {
    /// What the office is opened with.
    pub office: OfficeOptions<'a>,
    /// The file that notes are written to.
    pub notes: Option<&'a str>,
}

impl<'a> RunOptions<'a> {
    /// The options that were given.
    pub(crate) fn read(
        alloc: Global,
        matches: &ArgMatches<'a>,
    ) -> Result<RunOptions<'a>, AllocError>
        ensures { IfOk result (AreRunOptions (given_in matches.now)) }
    {
        let office = OfficeOptions::read(alloc, matches)?;
        Ok(RunOptions {
            office,
            notes: value_of(matches, "notes"),
        })
    }
}

/// What `feed` is asked to do.
#[derive(Drop)]
pub struct FeedOptions<'a> {
    /// What the office is opened with.
    pub office: OfficeOptions<'a>,
    /// The files of commands, in their order.
    pub files: Vec<&'a str>,
    /// The file that notes are written to.
    pub notes: Option<&'a str>,
}

impl<'a> FeedOptions<'a> {
    /// The options and files that were given. `clap` has refused words without a file before.
    pub(crate) fn read(
        alloc: Global,
        matches: &ArgMatches<'a>,
    ) -> Result<FeedOptions<'a>, AllocError>
        ensures { IfOk result (AreFeedOptions (given_in matches.now)) }
    {
        let office = OfficeOptions::read(alloc, matches)?;
        let files = values_of(alloc, matches, "file")?;
        let notes = value_of(matches, "notes");
        Ok(FeedOptions {
            office,
            files,
            notes,
        })
    }
}

/// What `table` is asked to do.
#[derive(Drop)]
pub struct ProblemOptions<'a> {
    /// What the office is opened with.
    pub office: OfficeOptions<'a>,
    /// The moment of the problem.
    pub at: Moment,
}

impl<'a> ProblemOptions<'a> {
    /// The options that were given to a word, by its name for the usage. A moment that is none is a fault of the
    /// arguments. `clap` has refused words without one before.
    pub(crate) fn read(
        alloc: Global,
        word: &str,
        matches: &ArgMatches<'a>,
    ) -> Result<ProblemOptions<'a>, Error>
        ensures { IfOk result (AreProblemOptions (given_in matches.now)) }
    {
        let at = code_from(alloc, word, "--at <MOMENT>", needed_value(matches, "at"))?;
        let office = OfficeOptions::read(alloc, matches)?;
        Ok(ProblemOptions { office, at })
    }
}

/// What `save` is asked to do.
#[derive(Drop)]
pub struct SaveOptions<'a> {
    /// What the office is opened with.
    pub office: OfficeOptions<'a>,
    /// How many lines are read, 1 to 1,000,000; none if all are.
    pub upto: Option<u64>,
    /// The roster whose rows are added.
    pub with: Option<&'a str>,
    /// The wagons that leave.
    pub without: Vec<WagonNumber>,
}

impl<'a> SaveOptions<'a> {
    /// The options that were given. A wagon that is no wagon number is a fault of the arguments.
    pub(crate) fn read(alloc: Global, matches: &ArgMatches<'a>) -> Result<SaveOptions<'a>, Error>
        ensures { IfOk result (AreSaveOptions (given_in matches.now)) }
    {
        let texts = values_of(alloc, matches, "without")?;
        let without = leaving(alloc, &texts)?;
        let office = OfficeOptions::read(alloc, matches)?;
        Ok(SaveOptions {
            office,
            upto: number_if_given(matches, "upto"),
            with: value_of(matches, "with"),
            without,
        })
    }
}

/// The wagons that these texts say, in their order.
fn leaving(alloc: Global, texts: &[&str]) -> Result<Vec<WagonNumber>, Error>
    ensures { IfOk result (λ wagons. AreReadAs wagon_number_of (all_lent texts.now) wagons.items) }
{
    let mut wagons = Vec::with_capacity(alloc, texts.len())?;
    for text in texts {
        wagons.push(code_from(alloc, "wagons save", "--without <NUMBER>", text)?)?;
    }
    Ok(wagons)
}
