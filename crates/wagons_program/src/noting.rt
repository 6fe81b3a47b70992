//! The word `review` with its notes as lines of JSON.
ghost use Rattle.std.specs.Prelude.{◌≡◌, false, IfErr, IfOk};
ghost use Rattle.journal_notes.specs.NotedJournal.{WritesNotes};
ghost use Rattle.line_engine.specs.Lines.{max_line_bytes};
ghost use Rattle.wagons_program.specs.Brought.{AreAnswered, AreStopped, lines_over};
ghost use Rattle.wagons_program.specs.Noted.{IsFirstJournalFor, IsInputNotNoted, IsInputNoted, IsReviewDone, IsReviewUndone};
ghost use Rattle.wagons_program.specs.Streams.{streams};

use crate::opening::{leave_book, new_book};
use crate::review::review;
use crate::status::status_of_run;
use command_line::{OfficeOptions, ReviewOptions};
use journal_notes::{NotedJournal, note_journal};
use line_engine::{LineLimit, StdDevice};
use office_files::{FileSystem, OfficeFiles, Stop, Stopped, read_files, told_of_lines};
use std::alloc::Global;
use std::io::{Read, Write};
use std::sync::Wait;
use std::thread::Threads;

/// Reviews the command lines of an input, with notes as text or as lines of JSON: status 0, or 1 where there is a note.
pub(crate) fn review_in_form<
    R: FileSystem + Threads + Wait + AllocGlobal,
    I: Read + Drop,
    O: Write,
>(rt: &R, options: &ReviewOptions<'_>, input: I, output: &mut StdDevice<O>) -> Result<u8, Stopped>
    requires { output.old.has_failed ≡ false }
    ensures ok { IfOk result (IsReviewDone (R.bytes_at rt.now) options.now (streams (I.remaining input) (O.contents output.old.device) (O.contents output.new.device))) }
    ensures err { IfErr result (λ stopped. IsReviewUndone (R.bytes_at rt.now) options.now (streams (I.remaining input) (O.contents output.old.device) (O.contents output.new.device)) stopped.stop) }
{
    if options.json {
        note(rt, &options.office, input, output)
    } else {
        review(rt, options, input, output)
    }
}

/// Opens an office, brings the command lines of an input to it as `run` does, and prints their notes as lines of JSON in place of
/// replies: status 0, or 1 where there is a note.
fn note<R: FileSystem + Threads + Wait + AllocGlobal, I: Read + Drop, O: Write>(
    rt: &R,
    options: &OfficeOptions<'_>,
    input: I,
    output: &mut StdDevice<O>,
) -> Result<u8, Stopped>
    requires { output.old.has_failed ≡ false }
    ensures ok { IfOk result (IsInputNoted (R.bytes_at rt.now) options.now (streams (I.remaining input) (O.contents output.old.device) (O.contents output.new.device))) }
    ensures err { IfErr result (λ stopped. IsInputNotNoted (R.bytes_at rt.now) options.now (streams (I.remaining input) (O.contents output.old.device) (O.contents output.new.device)) stopped.stop) }
{
    let mut journal = begin_journal(rt, options)?;
    let outcome = note_lines(rt.alloc(), input, output, &mut journal);
    leave_book(journal.into_book());
    told_of_lines(rt.alloc(), LineLimit::standard(), outcome)
}

/// Opens an office, and begins the notes of a journal that is brought to it.
pub(crate) fn begin_journal<R: FileSystem + Threads + Wait + AllocGlobal>(
    rt: &R,
    options: &OfficeOptions<'_>,
) -> Result<NotedJournal, Stopped>
    ensures { IfOk result (IsFirstJournalFor (R.bytes_at rt.now) options.now) }
{
    let OfficeFiles { first, networks } = read_files(rt, options)?;
    let book = new_book(rt, options, first, &networks)?;
    Ok(NotedJournal::new(rt.alloc(), book, networks))
}

/// Brings the command lines of an input to a journal's book, and writes their notes: status 0, or 1 where there is one.
fn note_lines<I: Read + Drop, O: Write>(
    alloc: Global,
    input: I,
    output: &mut StdDevice<O>,
    journal: &mut NotedJournal,
) -> Result<u8, Stop>
    requires { output.old.has_failed ≡ false }
    ensures ok { IfOk result (AreAnswered WritesNotes (lines_over max_line_bytes (streams (I.remaining input) (O.contents output.old.device) (O.contents output.new.device)) journal.old journal.new)) }
    ensures err { IfErr result (AreStopped WritesNotes (lines_over max_line_bytes (streams (I.remaining input) (O.contents output.old.device) (O.contents output.new.device)) journal.old journal.new)) }
{
    let mut reader = StdDevice::new(input);
    status_of_run(note_journal(alloc, &mut reader, output, journal))
}
