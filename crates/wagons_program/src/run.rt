//! The word `run`.
ghost use Rattle.std.specs.Prelude.{◌≡◌, false, IfErr, IfOk, None, OnOk};
ghost use Rattle.line_engine.specs.Lines.{max_line_bytes};
ghost use Rattle.office.specs.CommandReplies.{ToCommands};
ghost use Rattle.office.specs.NotedRuns.{WritesBoth};
ghost use Rattle.wagons_program.specs.Brought.{AreAnswered, AreStopped, IsInputBrought, IsNotBrought, lines_over};
ghost use Rattle.wagons_program.specs.NotedRun.{AreNotesUndone, AreNotesWritten, IsFirstNotedFor, IsNotesFailed, IsRunUndone};
ghost use Rattle.wagons_program.specs.Streams.{streams};

use crate::bringing::{Brought, bring};
use crate::opening::{leave_book, new_book};
use crate::status::status_of_run;
use command_line::{OfficeOptions, RunOptions};
use line_engine::{LineLimit, Sink, StdDevice};
use office::{NotedBook, run_noted};
use office_files::{
    FileSystem, OfficeFiles, Stop, Stopped, notes_not_written, open_notes, read_files,
    told_of_lines,
};
use std::alloc::Global;
use std::io::{Read, Write};
use std::sync::Wait;
use std::thread::Threads;

/// Opens an office and brings the command lines of an input to it, and writes their notes to a file where that is asked for: status 0,
/// or 1 where a line was refused. The file is opened once the roster and the networks are read.
pub(crate) fn run<R: FileSystem + Threads + Wait + AllocGlobal, I: Read + Drop, O: Write>(
    rt: &R,
    options: &RunOptions<'_>,
    input: I,
    output: &mut StdDevice<O>,
) -> Result<u8, Stopped>
    requires { output.old.has_failed ≡ false }
    ensures ok { IfOk result (IsInputBrought (R.bytes_at rt.now) options.now.office (streams (I.remaining input) (O.contents output.old.device) (O.contents output.new.device))) }
    ensures err { IfErr result (λ stopped. IsRunUndone (R.bytes_at rt.now) options.now (streams (I.remaining input) (O.contents output.old.device) (O.contents output.new.device)) stopped.stop) }
{
    match options.notes {
        None => run_alone(rt, &options.office, input, output),
        Some(path) => run_with_notes(rt, &options.office, path, input, output),
    }
}

/// A run without notes.
fn run_alone<R: FileSystem + Threads + Wait + AllocGlobal, I: Read + Drop, O: Write>(
    rt: &R,
    options: &OfficeOptions<'_>,
    input: I,
    output: &mut StdDevice<O>,
) -> Result<u8, Stopped>
    requires { output.old.has_failed ≡ false }
    ensures ok { IfOk result (IsInputBrought (R.bytes_at rt.now) options.now (streams (I.remaining input) (O.contents output.old.device) (O.contents output.new.device))) }
    ensures err { IfErr result (λ stopped. IsNotBrought (R.bytes_at rt.now) options.now (streams (I.remaining input) (O.contents output.old.device) (O.contents output.new.device)) stopped.stop) }
{
    let Brought {
        book,
        networks: _,
        status,
    } = bring(rt, options, input, output)?;
    leave_book(book);
    Ok(status)
}

/// A run that writes notes to a file. `NotesFailed` (94) where they couldn't be written; the lines are brought and replied to all the
/// same then.
fn run_with_notes<R: FileSystem + Threads + Wait + AllocGlobal, I: Read + Drop, O: Write>(
    rt: &R,
    options: &OfficeOptions<'_>,
    path: &str,
    input: I,
    output: &mut StdDevice<O>,
) -> Result<u8, Stopped>
    requires { output.old.has_failed ≡ false }
    ensures ok { IfOk result (IsInputBrought (R.bytes_at rt.now) options.now (streams (I.remaining input) (O.contents output.old.device) (O.contents output.new.device))) }
    ensures notes { IfOk result (AreNotesWritten (R.bytes_at rt.now) ⟦<StdDevice<R::File> as Sink>⟧ options.now (streams (I.remaining input) (O.contents output.old.device) (O.contents output.new.device))) }
    ensures err { IfErr result (λ stopped. AreNotesUndone (R.bytes_at rt.now) options.now (streams (I.remaining input) (O.contents output.old.device) (O.contents output.new.device)) stopped.stop) }
{
    let mut noted = begin_noted(rt, options, path)?;
    match note_told_lines(rt.alloc(), input, output, &mut noted) {
        Ok(status) => end_noted(rt.alloc(), path, noted, status),
        Err(stopped) => {
            leave_noted(noted);
            Err(stopped)
        }
    }
}

/// The status of a run that came to its end, unless its notes couldn't be written. The book is left.
fn end_noted<N: Sink + Drop>(
    alloc: Global,
    path: &str,
    noted: NotedBook<N>,
    status: u8,
) -> Result<u8, Stopped>
    ensures ok { IfOk result (λ same. same ≡ status) }
    ensures written { OnOk result (noted.notes.first_failure ≡ None) }
    ensures err { IfErr result (λ stopped. IsNotesFailed stopped.stop) }
{
    let failure = noted.first_failure();
    leave_noted(noted);
    match failure {
        None => Ok(status),
        Some(line) => Err(notes_not_written(alloc, path, Some(line))),
    }
}

/// Leaves a book, and ends the file of its notes.
fn leave_noted<N: Sink + Drop>(noted: NotedBook<N>) {
    let (book, _file) = noted.into_parts();
    leave_book(book);
}

/// Opens an office whose notes go to a file, before its first line.
fn begin_noted<R: FileSystem + Threads + Wait + AllocGlobal>(
    rt: &R,
    options: &OfficeOptions<'_>,
    path: &str,
) -> Result<NotedBook<StdDevice<R::File>>, Stopped>
    ensures { IfOk result (IsFirstNotedFor (R.bytes_at rt.now) options.now) }
{
    let OfficeFiles { first, networks } = read_files(rt, options)?;
    let file = StdDevice::new(open_notes(rt, path)?);
    let book = new_book(rt, options, first, &networks)?;
    Ok(NotedBook::new(rt.alloc(), book, networks, file))
}

/// The same as `note_lines`; where the run stops, with what people are told.
fn note_told_lines<I: Read + Drop, O: Write, N: Sink>(
    alloc: Global,
    input: I,
    output: &mut StdDevice<O>,
    noted: &mut NotedBook<N>,
) -> Result<u8, Stopped>
    requires { output.old.has_failed ≡ false }
    ensures ok { IfOk result (AreAnswered (WritesBoth N.Sink) (lines_over max_line_bytes (streams (I.remaining input) (O.contents output.old.device) (O.contents output.new.device)) noted.old noted.new)) }
    ensures replies { IfOk result (AreAnswered ToCommands (lines_over max_line_bytes (streams (I.remaining input) (O.contents output.old.device) (O.contents output.new.device)) noted.old.kept.book noted.new.kept.book)) }
    ensures err { IfErr result (λ stopped. AreStopped ToCommands (lines_over max_line_bytes (streams (I.remaining input) (O.contents output.old.device) (O.contents output.new.device)) noted.old.kept.book noted.new.kept.book) stopped.stop) }
{
    let outcome = note_lines(alloc, input, output, noted);
    told_of_lines(alloc, LineLimit::standard(), outcome)
}

/// Brings the command lines of an input to a book, and writes their replies and their notes: status 0, or 1 where a line was refused.
fn note_lines<I: Read + Drop, O: Write, N: Sink>(
    alloc: Global,
    input: I,
    output: &mut StdDevice<O>,
    noted: &mut NotedBook<N>,
) -> Result<u8, Stop>
    requires { output.old.has_failed ≡ false }
    ensures ok { IfOk result (AreAnswered (WritesBoth N.Sink) (lines_over max_line_bytes (streams (I.remaining input) (O.contents output.old.device) (O.contents output.new.device)) noted.old noted.new)) }
    ensures replies { IfOk result (AreAnswered ToCommands (lines_over max_line_bytes (streams (I.remaining input) (O.contents output.old.device) (O.contents output.new.device)) noted.old.kept.book noted.new.kept.book)) }
    ensures err { IfErr result (AreStopped ToCommands (lines_over max_line_bytes (streams (I.remaining input) (O.contents output.old.device) (O.contents output.new.device)) noted.old.kept.book noted.new.kept.book)) }
{
    let mut reader = StdDevice::new(input);
    status_of_run(run_noted(alloc, &mut reader, output, noted))
}
