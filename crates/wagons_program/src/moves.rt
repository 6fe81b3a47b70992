//! The word `moves`.
ghost use Rattle.std.specs.Prelude.{◌≡◌, false, IfErr, IfOk, None};
ghost use Rattle.last_texts.specs.Fills.{FindsFills};
ghost use Rattle.line_engine.specs.Lines.{max_line_bytes};
ghost use Rattle.wagons_program.specs.Brought.{AreAnswered, lines_over};
ghost use Rattle.wagons_program.specs.Moved.{AreMovesPrinted, IsFilledBy, IsFirstFilledFor};
ghost use Rattle.wagons_program.specs.Streams.{IsUnprinted, streams};

use crate::early::tell_if_early;
use crate::noting::begin_journal;
use crate::opening::leave_book;
use crate::printing::write_whole;
use crate::status::{DONE, status_of_run};
use command_line::{MovesOptions, OfficeOptions};
use last_texts::{FilledJournal, fill_journal, last_moves, read_zone};
use line_engine::{LineLimit, StdDevice};
use office_files::{FileSystem, Stop, Stopped, read_places, told_of_lines};
use std::alloc::Global;
use std::io;
use std::io::{Read, Write};
use std::sync::Wait;
use std::thread::Threads;

/// Opens an office, brings the command lines of an input to it without replies, and prints the promised movements of its last
/// version at a moment: status 0, whether a line was refused or not. The names of places and the time zone are read first.
pub(crate) fn moves<
    R: FileSystem + Eprint + Threads + Wait + AllocGlobal,
    I: Read + Drop,
    O: Write,
>(rt: &R, options: &MovesOptions<'_>, input: I, output: &mut O) -> Result<u8, Stopped>
    ensures ok { IfOk result (AreMovesPrinted (R.bytes_at rt.now) options.now (streams (I.remaining input) (O.contents output.old) (O.contents output.new))) }
    ensures err { IfErr result (λ stopped. IsUnprinted (streams (I.remaining input) (O.contents output.old) (O.contents output.new)) stopped.stop) }
{
    let places = read_places(rt, options.places)?;
    let zone = read_zone(rt, options.zone)?;
    let filled = bring_filled(rt, &options.problem.office, input)?;
    tell_if_early(rt, options.problem.at, filled.journal.book().state());
    let text = last_moves(rt.alloc(), &filled, options, &places, &zone);
    leave_book(filled.journal.into_book());
    write_whole(output, &text?)?;
    Ok(DONE)
}

/// Opens an office, and brings the command lines of an input to it to their end, with the orders that they fill.
fn bring_filled<R: FileSystem + Threads + Wait + AllocGlobal, I: Read + Drop>(
    rt: &R,
    options: &OfficeOptions<'_>,
    input: I,
) -> Result<FilledJournal, Stopped>
    ensures { IfOk result (IsFilledBy (R.bytes_at rt.now) options.now (I.remaining input)) }
{
    let mut journal = begin_filled(rt, options)?;
    let outcome = fill_lines(rt.alloc(), input, &mut journal);
    match told_of_lines(rt.alloc(), LineLimit::standard(), outcome) {
        Ok(_status) => whole_journal(journal),
        Err(stopped) => {
            leave_book(journal.journal.into_book());
            Err(stopped)
        }
    }
}

/// A journal, unless memory was refused for a line.
fn whole_journal(journal: FilledJournal) -> Result<FilledJournal, Stopped>
    ensures same { IfOk result (λ whole. whole ≡ journal) }
    ensures whole { IfOk result (λ whole. whole.is_partial ≡ false) }
{
    if journal.is_partial {
        leave_book(journal.journal.into_book());
        return Err(Stopped::from(Stop::OutOfMemory));
    }
    Ok(journal)
}

/// Opens an office, before the first line of its journal.
fn begin_filled<R: FileSystem + Threads + Wait + AllocGlobal>(
    rt: &R,
    options: &OfficeOptions<'_>,
) -> Result<FilledJournal, Stopped>
    ensures { IfOk result (IsFirstFilledFor (R.bytes_at rt.now) options.now) }
{
    let journal = begin_journal(rt, options)?;
    Ok(FilledJournal::new(rt.alloc(), journal))
}

/// Brings the command lines of an input to a journal to their end.
fn fill_lines<I: Read + Drop>(
    alloc: Global,
    input: I,
    journal: &mut FilledJournal,
) -> Result<u8, Stop>
    ensures { IfOk result (AreAnswered FindsFills (lines_over max_line_bytes (streams (I.remaining input) None None) journal.old journal.new)) }
{
    let mut reader = StdDevice::new(input);
    let mut nowhere = StdDevice::new(io::sink());
    status_of_run(fill_journal(alloc, &mut reader, &mut nowhere, journal))
}
