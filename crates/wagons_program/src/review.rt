//! The word `review`.
ghost use Rattle.std.specs.Prelude.{◌≡◌, ◌⊎◌, false, IfErr, IfOk, OnOk};
ghost use Rattle.std.specs.Io.KnownBytes.{Appends, Keeps};
ghost use Rattle.office.specs.JournalEnd.{end_note};
ghost use Rattle.line_engine.specs.Lines.{max_line_bytes};
ghost use Rattle.office_files.specs.declared.stop.Stop.TheVariants as stop;
ghost use Rattle.wagons_program.specs.Brought.{lines_over};
ghost use Rattle.wagons_program.specs.Reviewed.{AreReviewed, IsFirstReviewFor, IsInputNotReviewed, IsInputReviewed, IsReviewStopped, status_of_notes};
ghost use Rattle.wagons_program.specs.Streams.{streams};

use crate::opening::{leave_book, new_book};
use crate::printing::write_whole;
use crate::status::{REFUSED, status_of_run};
use command_line::{OfficeOptions, ReviewOptions};
use line_engine::{LineLimit, StdDevice};
use office::{Review, RunCount, end_note, review_journal};
use office_files::{
    FileSystem, OfficeFiles, Stop, Stopped, read_files, read_places, told_of_lines,
};
use place_names::Places;
use std::alloc::Global;
use std::io::{Read, Write};
use std::sync::Wait;
use std::thread::Threads;

/// Opens an office, brings the command lines of an input to it as `run` does, and prints their notes in place of replies:
/// status 0, or 1 where there is a note. The names of places are read first.
pub(crate) fn review<R: FileSystem + Threads + Wait + AllocGlobal, I: Read + Drop, O: Write>(
    rt: &R,
    options: &ReviewOptions<'_>,
    input: I,
    output: &mut StdDevice<O>,
) -> Result<u8, Stopped>
    requires { output.old.has_failed ≡ false }
    ensures ok { IfOk result (IsInputReviewed (R.bytes_at rt.now) options.now (streams (I.remaining input) (O.contents output.old.device) (O.contents output.new.device))) }
    ensures err { IfErr result (λ stopped. IsInputNotReviewed (R.bytes_at rt.now) options.now (streams (I.remaining input) (O.contents output.old.device) (O.contents output.new.device)) stopped.stop) }
{
    let places = read_places(rt, options.places)?;
    let mut review = begin_review(rt, &options.office, places)?;
    let outcome = review_lines(rt.alloc(), input, output, &mut review);
    leave_book(review.into_book());
    told_of_lines(rt.alloc(), LineLimit::standard(), outcome)
}

/// Opens an office, and begins a review of its lines with these names of places.
fn begin_review<R: FileSystem + Threads + Wait + AllocGlobal>(
    rt: &R,
    options: &OfficeOptions<'_>,
    named: Places,
) -> Result<Review, Stopped>
    ensures { IfOk result (IsFirstReviewFor (R.bytes_at rt.now) options.now named) }
{
    let OfficeFiles { first, networks } = read_files(rt, options)?;
    let book = new_book(rt, options, first, &networks)?;
    Ok(Review::new(book, networks, options.limits, named))
}

/// Brings the command lines of an input to a review's book, and writes their notes: status 0, or 1 where there is one.
fn review_lines<I: Read + Drop, O: Write>(
    alloc: Global,
    input: I,
    output: &mut StdDevice<O>,
    review: &mut Review,
) -> Result<u8, Stop>
    requires { output.old.has_failed ≡ false }
    ensures ok { IfOk result (AreReviewed (lines_over max_line_bytes (streams (I.remaining input) (O.contents output.old.device) (O.contents output.new.device)) review.old review.new)) }
    ensures err { IfErr result (IsReviewStopped (lines_over max_line_bytes (streams (I.remaining input) (O.contents output.old.device) (O.contents output.new.device)) review.old review.new)) }
{
    let mut reader = StdDevice::new(input);
    match review_journal(alloc, &mut reader, output, review) {
        Ok(count) => end_review(alloc, count, &mut output.device),
        Err(fault) => Err(Stop::Run(fault)),
    }
}

/// Writes the note at the end of a journal, where there is one. The status is 0, or 1 where there is a note, of a line or at
/// the end.
fn end_review<O: Write>(alloc: Global, count: RunCount, output: &mut O) -> Result<u8, Stop>
    ensures written { OnOk result (Appends (O.contents output.old) (O.contents output.new) (end_note count)) }
    ensures status { IfOk result (λ status. status ≡ status_of_notes count) }
    ensures err { IfErr result (λ why. ((why ≡ stop.OutOfMemory) × Keeps (O.contents output.old) (O.contents output.new)) ⊎ (why ≡ stop.WriteFailed)) }
{
    let note = end_note(alloc, count)?;
    write_whole(output, note.as_bytes())?;
    if note.is_empty() {
        status_of_run(Ok(count))
    } else {
        Ok(REFUSED)
    }
}
