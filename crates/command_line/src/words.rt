//! The command line: its words, and the faults of arguments.
ghost use Rattle.std.specs.Prelude.{◌≡◌, IfOk, map};
ghost use Rattle.clap.specs.Simple.{app_of, new_shape, subcommand_rows_of, with_subcommand};
ghost use Rattle.command_line.specs.Program.{program, without_words, words};
ghost use Rattle.command_line.specs.Values.{given_in};
ghost use Rattle.command_line.specs.Words.{IsAskedBy, IsWordFor, IsWordOf};
ghost use Rattle.command_line.specs.inner.Tables.{IsWordBy, shape_for};

use crate::arguments::{with_arguments, with_groups};
use crate::explained::{Explained, read_explained};
use crate::help;
use crate::help::WordHelp;
use crate::line_options::LineOptions;
use crate::map_options::MapOptions;
use crate::moves_options::MovesOptions;
use crate::office_options::{FeedOptions, ProblemOptions, RunOptions, SaveOptions};
use crate::plan_options::PlanOptions;
use crate::review_options::ReviewOptions;
use crate::state_options::StateOptions;
use crate::trace_options::TraceOptions;
use crate::why_options::WhyOptions;
use clap::error::ErrorKind;
use clap::{ArgMatches, Command, Error};
use std::alloc::{AllocError, Global};
use std::convert::AsStr;

/// The words, in the order in which help lists them.
const WORDS: [WordHelp; 15] = [
    help::CHECK,
    help::SOLVE,
    help::RUN,
    help::FEED,
    help::MOVES,
    help::FLEET,
    help::ORDERS,
    help::TRACE,
    help::MAP,
    help::PLAN,
    help::TABLE,
    help::WHY,
    help::REVIEW,
    help::SAVE,
    help::EXPLAIN,
];

/// What the program is asked to do.
#[derive(Drop)]
pub enum Word<'a> {
    /// Check the table lines of standard input.
    Check(LineOptions),
    /// Plan the table lines of standard input.
    Solve(LineOptions),
    /// Bring the command lines of standard input to an office.
    Run(RunOptions<'a>),
    /// Bring the command lines of files to an office, all at once.
    Feed(FeedOptions<'a>),
    /// Bring the command lines of standard input to an office, and print where its promised wagons are and what is late.
    Moves(MovesOptions<'a>),
    /// Bring the command lines of standard input to an office, and print its wagons.
    Fleet(StateOptions<'a>),
    /// Bring the command lines of standard input to an office, and print its orders.
    Orders(StateOptions<'a>),
    /// Bring the command lines of standard input to an office, and print what happened to a wagon or an order.
    Trace(TraceOptions<'a>),
    /// Bring the command lines of standard input to an office, and draw it.
    Map(MapOptions<'a>),
    /// Bring the command lines of standard input to an office, plan it, and print the plan for people.
    Plan(PlanOptions<'a>),
    /// Bring the command lines of standard input to an office, and print its problem as a table line.
    Table(ProblemOptions<'a>),
    /// Bring the command lines of standard input to an office, plan it, and say why the plan is as it is.
    Why(WhyOptions<'a>),
    /// Bring the command lines of standard input to an office, and note what passes in silence.
    Review(ReviewOptions<'a>),
    /// Bring the command lines of standard input to an office, and save it.
    Save(SaveOptions<'a>),
    /// Print entries of the manual of refusals, or the whole manual.
    Explain(Explained),
}

/// What the words ask for, the program's name first; without a word it is `Check`. Else the error is a request for help
/// or for this version, a fault of the arguments in clap's own text, or out of memory.
pub fn read_words<'a, S: AsStr>(
    alloc: Global,
    version: &'a str,
    words: &'a [S],
) -> Result<Word<'a>, Error>
    ensures { IfOk result (IsAskedBy (map S.text words.entry.now)) }
{
    // The words are read twice, since clap promises what they give to each argument only if a command has no group: with
    // the groups, which refuse words, and then without them.
    let _ = command_line(alloc, version)?.try_get_matches_from(words)?;
    let matches = ungrouped_line(alloc, version)?.try_get_matches_from(words)?;
    read_matches(alloc, &matches)
}

/// What matches ask for.
fn read_matches<'a>(alloc: Global, matches: &ArgMatches<'a>) -> Result<Word<'a>, Error>
    ensures { IfOk result (IsWordFor (subcommand_rows_of matches.now)) }
{
    match matches.subcommand() {
        Some((name, options)) => read_word(alloc, name, options),
        None => Ok(Word::Check(LineOptions::standard())),
    }
}

/// What a word asks for.
fn read_word<'a>(alloc: Global, name: &str, options: &ArgMatches<'a>) -> Result<Word<'a>, Error>
    ensures { IfOk result (IsWordOf name.now (given_in options.now)) }
{
    match name {
        "check" => Ok(Word::Check(LineOptions::read(options))),
        "solve" => Ok(Word::Solve(LineOptions::read(options))),
        "run" => Ok(Word::Run(RunOptions::read(alloc, options)?)),
        "feed" => Ok(Word::Feed(FeedOptions::read(alloc, options)?)),
        "moves" => Ok(Word::Moves(MovesOptions::read(alloc, options)?)),
        "fleet" => Ok(Word::Fleet(StateOptions::read(alloc, "wagons fleet", options)?)),
        "orders" => Ok(Word::Orders(StateOptions::read(alloc, "wagons orders", options)?)),
        "trace" => Ok(Word::Trace(TraceOptions::read(alloc, options)?)),
        "map" => Ok(Word::Map(MapOptions::read(alloc, options)?)),
        "plan" => Ok(Word::Plan(PlanOptions::read(alloc, options)?)),
        "table" => Ok(Word::Table(ProblemOptions::read(alloc, "wagons table", options)?)),
        "why" => Ok(Word::Why(WhyOptions::read(alloc, options)?)),
        "review" => Ok(Word::Review(ReviewOptions::read(alloc, options)?)),
        "save" => Ok(Word::Save(SaveOptions::read(alloc, options)?)),
        "explain" => Ok(Word::Explain(read_explained(alloc, options)?)),
        _ => Err(no_word(alloc, name)?),
    }
}

/// The fault that there is no such word. `clap` has refused it before.
fn no_word(alloc: Global, name: &str) -> Result<Error, AllocError> {
    let reason = format!(in alloc; "unrecognized subcommand '{name}'")?;
    let mut command = command_line(alloc, "")?;
    command.error(ErrorKind::InvalidSubcommand, reason.as_str())
}

/// The fault that an argument is not UTF-8.
pub fn not_utf8(alloc: Global) -> Result<Error, AllocError> {
    let mut command = command_line(alloc, "")?;
    command.error(
        ErrorKind::InvalidValue,
        "invalid UTF-8 was detected in one or more arguments",
    )
}

/// The words that the program of this version knows. Usage lines name it `wagons`, whatever its file is called.
fn command_line<'a>(alloc: Global, version: &'a str) -> Result<Command<'a>, AllocError> {
    let words = words();
    let mut line = program(alloc, version)?;
    for help in &words {
        line = line.subcommand(word_command(alloc, *help)?)?;
    }
    Ok(line)
}

/// The same without the groups of their options.
fn ungrouped_line<'a>(alloc: Global, version: &'a str) -> Result<Command<'a>, AllocError>
    ensures { IfOk result (λ line. app_of line ≡ program) }
{
    let words = words();
    let mut line = program(alloc, version)?;
    for help in &words {
        line = with_ungrouped_word(alloc, line, *help)?;
    }
    Ok(line)
}

/// The table of words. A proof goes over it here, and nowhere else.
fn words() -> [WordHelp; 15]
    ensures { map shape_for result ≡ words }
{
    WORDS
}

/// A program, and one more word, without the groups of its options.
fn with_ungrouped_word<'a>(
    alloc: Global,
    line: Command<'a>,
    help: WordHelp,
) -> Result<Command<'a>, AllocError>
    ensures { IfOk result (λ r. app_of r ≡ with_subcommand (app_of line.entry) (shape_for help)) }
{
    let word = ungrouped_command(alloc, help)?;
    line.subcommand(word)
}

/// The program of this version, and no word.
fn program<'a>(alloc: Global, version: &'a str) -> Result<Command<'a>, AllocError>
    ensures { IfOk result (λ program. app_of program ≡ without_words) }
{
    let program = Command::new(alloc, "wagons").bin_name("wagons")?;
    Ok(
        program
            .version(version)
            .about(help::ABOUT)
            .after_help(help::EXAMPLES),
    )
}

/// A word with its help and what it takes.
pub(crate) fn word_command<'a>(alloc: Global, help: WordHelp) -> Result<Command<'a>, AllocError> {
    let word = ungrouped_command(alloc, help)?;
    let word = with_groups(alloc, word, help.groups)?;
    match help.usage {
        Some(usage) => Ok(word.override_usage(usage)),
        None => Ok(word),
    }
}

/// The same without the groups of its options.
fn ungrouped_command<'a>(alloc: Global, help: WordHelp) -> Result<Command<'a>, AllocError>
    ensures { IfOk result (IsWordBy (shape_for help)) }
{
    let mut word = bare_command(alloc, help);
    for arguments in help.arguments {
        word = with_arguments(alloc, word, arguments)?;
    }
    Ok(word)
}

/// A word with its help, before it takes anything.
fn bare_command<'a>(alloc: Global, help: WordHelp) -> Command<'a>
    ensures { IsWordBy (new_shape help.name.now) result }
{
    Command::new(alloc, help.name)
        .about(help.about)
        .long_about(help.long_about)
        .after_help(help.example)
}
