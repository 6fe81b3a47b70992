//! The program from its arguments to its exit status.
ghost use Rattle.std.specs.Prelude.{◌≡◌, IfErr, IfOk, None, false, map, string_bytes};
ghost use Rattle.office_files.specs.declared.stop.Stop.TheVariants.{WriteFailed};
ghost use Rattle.wagons_program.specs.Status.{exit_status};
ghost use Rattle.wagons_program.specs.Streams.{IsUnprinted, streams};
ghost use Rattle.wagons_program.specs.Words.{AreEnded, IsDone, IsTextOf, IsUndone};

use crate::check::check;
use crate::explain::explain;
use crate::feed::feed;
use crate::map::map;
use crate::moves::moves;
use crate::noting::review_in_form;
use crate::plan::plan;
use crate::run::run;
use crate::save::save;
use crate::solve::solve;
use crate::state::{fleet, orders};
use crate::status::{DONE, STOPPED};
use crate::table::table;
use crate::terminal::{Terminal, TerminalInput};
use crate::trace::trace;
use crate::why::why;
use clap::Error;
use clap::error::ErrorKind;
use command_line::{Word, hint, not_utf8, read_words};
use line_engine::{Source, StdDevice};
use office_files::{FileSystem, Stop, Stopped};
use std::convert::AsStr;
use std::io;
use std::io::{Read, Write};
use std::sync::Wait;
use std::thread::Threads;

/// Does what the arguments of the program of this version ask for: what came of reading them, and standard input and output, are
/// handed in. The status
/// is 0, or 1 where a line was refused, or 2 where the program could not run or stopped; standard error says why then. It also
/// says, once, that lines are read from a terminal, where they are. Where the arguments can't be read, nothing is printed.
pub fn run_program<
    R: FileSystem + Eprint + Threads + Wait + AllocGlobal + Sync,
    I: Read + Drop,
    O: Write,
>(
    rt: &R,
    version: &str,
    arguments: io::Result<Vec<String>>,
    input: Terminal<I>,
    output: &mut StdDevice<O>,
) -> u8
    requires { output.old.has_failed ≡ false }
    ensures read { IfOk arguments (λ words. AreEnded (R.bytes_at rt.now) ⟦<StdDevice<R::File> as Source>⟧.remaining ⟦<StdDevice<R::File> as Source>⟧.has_failed (map string_bytes words.items) (streams (I.remaining input.input) (O.contents output.old.device) (O.contents output.new.device)) result) }
    ensures unread { IfErr arguments (λ error. (result ≡ 2) × (output.new ≡ output.old)) }
{
    match arguments {
        Ok(words) => {
            let input = TerminalInput::new(rt, input);
            run_words(rt, version, words.as_slice(), input, output)
        }
        Err(error) => told(rt, refuse_arguments(rt, &error)),
    }
}

/// Does what these words ask for, the program's name first, with these in place of standard input and output, and answers the
/// exit status: 0, or 1 where a line was refused, or 2 where the program could not run or stopped; standard error says why then.
pub fn run_words<
    R: FileSystem + Eprint + Threads + Wait + AllocGlobal + Sync,
    S: AsStr,
    I: Read + Drop,
    O: Write,
>(rt: &R, version: &str, words: &[S], input: I, output: &mut StdDevice<O>) -> u8
    requires { output.old.has_failed ≡ false }
    ensures { AreEnded (R.bytes_at rt.now) ⟦<StdDevice<R::File> as Source>⟧.remaining ⟦<StdDevice<R::File> as Source>⟧.has_failed (map S.text words.entry.now) (streams (I.remaining input) (O.contents output.old.device) (O.contents output.new.device)) result }
{
    match read_words(rt.alloc(), version, words) {
        Ok(word) => told(rt, do_word(rt, &word, input, output)),
        Err(error) => told(rt, print_text(rt, &error, &mut output.device)),
    }
}

/// Does what a word asks for.
fn do_word<R: FileSystem + Eprint + Threads + Wait + AllocGlobal + Sync, I: Read + Drop, O: Write>(
    rt: &R,
    word: &Word<'_>,
    input: I,
    output: &mut StdDevice<O>,
) -> Result<u8, Stopped>
    requires { output.old.has_failed ≡ false }
    ensures ok { IfOk result (IsDone (R.bytes_at rt.now) ⟦<StdDevice<R::File> as Source>⟧.remaining ⟦<StdDevice<R::File> as Source>⟧.has_failed word.now (streams (I.remaining input) (O.contents output.old.device) (O.contents output.new.device))) }
    ensures err { IfErr result (λ stopped. IsUndone (R.bytes_at rt.now) word.now (streams (I.remaining input) (O.contents output.old.device) (O.contents output.new.device)) stopped.stop) }
{
    match word {
        Word::Check(options) => check(rt.alloc(), options.limit, input, output),
        Word::Solve(options) => solve(rt.alloc(), options.limit, input, output),
        Word::Run(options) => run(rt, options, input, output),
        Word::Feed(options) => feed(rt, options, &mut output.device),
        Word::Moves(options) => moves(rt, options, input, &mut output.device),
        Word::Fleet(options) => fleet(rt, options, input, &mut output.device),
        Word::Orders(options) => orders(rt, options, input, &mut output.device),
        Word::Trace(options) => trace(rt, options, input, &mut output.device),
        Word::Map(options) => map(rt, options, input, &mut output.device),
        Word::Plan(options) => plan(rt, options, input, &mut output.device),
        Word::Table(options) => table(rt, options, input, &mut output.device),
        Word::Why(options) => why(rt, options, input, &mut output.device),
        Word::Review(options) => review_in_form(rt, options, input, output),
        Word::Save(options) => save(rt, options, input, &mut output.device),
        Word::Explain(explained) => explain(rt.alloc(), explained, &mut output.device),
    }
}

/// The status; where the program could not run or stopped, standard error says why.
fn told<R: Eprint>(rt: &R, status: Result<u8, Stopped>) -> u8
    ensures { result ≡ exit_status status }
{
    match status {
        Ok(status) => status,
        Err(stopped) => {
            // Where standard error fails too, nobody is left to tell.
            let _ = eprintln!(rt; "{stopped}");
            STOPPED
        }
    }
}

/// Says why the arguments could not be read: out of memory, or one that isn't UTF-8.
fn refuse_arguments<R: Eprint + AllocGlobal>(rt: &R, error: &io::Error) -> Result<u8, Stopped>
    ensures { IfOk result (λ status. status ≡ 2) }
{
    match error.kind() {
        io::ErrorKind::OutOfMemory => Err(Stopped::from(Stop::OutOfMemory)),
        _ => say_fault(rt, &not_utf8(rt.alloc())?),
    }
}

/// Prints help or the version: status 0. Else standard error says a fault of the arguments with a hint where there is one: status 2.
fn print_text<R: Eprint + AllocGlobal, O: Write>(
    rt: &R,
    error: &Error,
    output: &mut O,
) -> Result<u8, Stopped>
    ensures ok { IfOk result (IsTextOf error.now (streams None (O.contents output.old) (O.contents output.new))) }
    ensures err { IfErr result (λ stopped. IsUnprinted (streams None (O.contents output.old) (O.contents output.new)) stopped.stop) }
{
    match error.kind() {
        ErrorKind::OutOfMemory => Err(Stopped::from(Stop::OutOfMemory)),
        ErrorKind::DisplayHelp | ErrorKind::DisplayVersion => print_shown(error, output),
        _ => say_fault(rt, error),
    }
}

/// Prints help or the version: status 0.
fn print_shown<O: Write>(error: &Error, output: &mut O) -> Result<u8, Stopped>
    ensures ok { IfOk result (λ status. status ≡ 0) }
    ensures err { IfErr result (λ stopped. stopped.stop ≡ WriteFailed) }
{
    if write!(output, "{error}").is_err() {
        return Err(Stopped::from(Stop::WriteFailed));
    }
    Ok(DONE)
}

/// Says a fault of the arguments with a hint where there is one: status 2.
fn say_fault<R: Eprint + AllocGlobal>(rt: &R, error: &Error) -> Result<u8, Stopped>
    ensures { IfOk result (λ status. status ≡ 2) }
{
    if rt.eprint(error).is_err() {
        return Err(Stopped::from(Stop::WriteFailed));
    }
    if let Ok(Some(hint)) = hint(rt.alloc(), error) {
        // The fault itself is told; where standard error fails now, nobody is left to tell.
        let _ = eprintln!(rt; "{hint}");
    }
    Ok(STOPPED)
}
