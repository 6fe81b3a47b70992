//! The word `feed`.
ghost use Rattle.std.specs.Prelude.{◌≡◌, nat_lt, is_some, All, IfErr, IfOk, List, None, OnOk, false, ℕ};
ghost use Rattle.std.specs.List.{AllZip, list_any};
ghost use Rattle.office_files.specs.InFile.{HasBytes};
ghost use Rattle.sessions.specs.FeedReports.{MayBeFed};
ghost use Rattle.sessions.specs.ReportText.{IsReportText};
ghost use Rattle.wagons_program.specs.Fed.{AreNotesWritten, IsFedPrinted, IsFedUndone, IsReported, IsReportedWithNotes};
ghost use Rattle.wagons_program.specs.Status.{status_of_files};
ghost use Rattle.wagons_program.specs.Streams.{IsUnprinted, Prints, streams};

use crate::crossing::tell_crossing;
use crate::opening::{leave_book, leave_office, new_book};
use crate::printing::print_whole;
use crate::status::{DONE, REFUSED, STOPPED};
use command_line::FeedOptions;
use commit_book::Book;
use line_engine::{MAX_FILES, Source, StdDevice};
use line_network::Network;
use office_files::{
    FileSystem, OfficeFiles, Stop, Stopped, notes_not_written, open_notes, open_plain, read_files,
};
use sessions::{FeedReport, report_text};
use std::alloc::Global;
use std::io::Write;
use std::sync::Wait;
use std::thread::Threads;

/// Opens an office, brings the command lines of all files to it at once, and prints what became of each file and the sheet:
/// status 0, 1 where a line was refused, 2 where a file failed. Their notes are written to a file where that is asked for. What is
/// wrong is found in this order: the roster or the checkpoint, the networks, the files as each is opened, the distances, the file of
/// notes.
pub(crate) fn feed<R: FileSystem + Eprint + Threads + Wait + AllocGlobal + Sync, O: Write>(
    rt: &R,
    options: &FeedOptions<'_>,
    output: &mut O,
) -> Result<u8, Stopped>
    ensures ok { IfOk result (IsFedPrinted (R.bytes_at rt.now) ⟦<StdDevice<R::File> as Source>⟧.remaining ⟦<StdDevice<R::File> as Source>⟧.has_failed options.now (streams None (O.contents output.old) (O.contents output.new))) }
    ensures err { IfErr result (λ stopped. IsFedUndone (streams None (O.contents output.old) (O.contents output.new)) stopped.stop) }
{
    let OfficeFiles { first, networks } = read_files(rt, &options.office)?;
    let readers = match open_files(rt, &options.files) {
        Ok(readers) => readers,
        Err(stopped) => {
            leave_office(first);
            return Err(stopped);
        }
    };
    let book = new_book(rt, &options.office, first, &networks)?;
    // The command line lets 1 to 16 files through.
    if readers.is_empty() || readers.len() > MAX_FILES {
        leave_book(book);
        return Err(Stopped::from(Stop::OpenFailed));
    }
    match options.notes {
        None => feed_alone(rt, readers, book, output),
        Some(path) => feed_with_notes(rt, path, readers, book, networks, output),
    }
}

/// Brings the lines of readers to a book, and prints the report.
fn feed_alone<R: FileSystem + Eprint + Threads + Wait + AllocGlobal + Sync, O: Write>(
    rt: &R,
    readers: Vec<StdDevice<R::File>>,
    book: Book,
    output: &mut O,
) -> Result<u8, Stopped>
    requires { MayBeFed ⟦<StdDevice<R::File> as Source>⟧.has_failed readers book }
    ensures ok { IfOk result (IsReported book.setting ⟦<StdDevice<R::File> as Source>⟧.remaining ⟦<StdDevice<R::File> as Source>⟧.has_failed readers.items (streams None (O.contents output.old) (O.contents output.new))) }
    ensures err { IfErr result (λ stopped. IsUnprinted (streams None (O.contents output.old) (O.contents output.new)) stopped.stop) }
{
    match sessions::feed(rt, rt.alloc(), readers, book) {
        Ok(report) => {
            let status = tell_report(rt, &report, output);
            leave_report(report);
            Ok(status?)
        }
        Err(fault) => Err(Stopped::from(Stop::Feed(fault))),
    }
}

/// The same, and writes the notes of the lines to a file behind the report. `NotesFailed` (94) where they couldn't be written, or where
/// memory was refused for a line or its notes.
fn feed_with_notes<R: FileSystem + Eprint + Threads + Wait + AllocGlobal + Sync, O: Write>(
    rt: &R,
    path: &str,
    readers: Vec<StdDevice<R::File>>,
    book: Book,
    networks: Vec<Network>,
    output: &mut O,
) -> Result<u8, Stopped>
    requires given { MayBeFed ⟦<StdDevice<R::File> as Source>⟧.has_failed readers book }
    requires networks { networks.items ≡ book.setting.networks }
    ensures ok { IfOk result (IsReportedWithNotes book.setting ⟦<StdDevice<R::File> as Source>⟧.remaining ⟦<StdDevice<R::File> as Source>⟧.has_failed ⟦<R::File as Write>⟧.contents readers.items (streams None (O.contents output.old) (O.contents output.new))) }
    ensures err { IfErr result (λ stopped. IsFedUndone (streams None (O.contents output.old) (O.contents output.new)) stopped.stop) }
{
    let mut file = match open_notes(rt, path) {
        Ok(file) => file,
        Err(stopped) => {
            leave_book(book);
            return Err(stopped);
        }
    };
    match sessions::feed_noted(rt, rt.alloc(), readers, book, networks) {
        Ok(report) => {
            let status = tell_report(rt, &report, output);
            let written = write_notes(&mut file, &report);
            leave_report(report);
            let status = status?;
            match written {
                Ok(()) => Ok(status),
                Err(_) => Err(notes_not_written(rt.alloc(), path, None)),
            }
        }
        Err(fault) => Err(Stopped::from(Stop::Feed(fault))),
    }
}

/// Writes the notes of a report to a file. `WriteFailed` where they couldn't be written, or where some are missing: those that are
/// there are written then.
fn write_notes<F, N: Write>(file: &mut N, report: &FeedReport<F>) -> Result<(), Stop>
    ensures { OnOk result (AreNotesWritten (N.contents file.old) (N.contents file.new) report.now) }
{
    let Some(notes) = &report.notes else {
        return Err(Stop::WriteFailed);
    };
    print_whole(file, &notes.text)?;
    if notes.is_lost {
        return Err(Stop::WriteFailed);
    }
    Ok(())
}

/// Says what people should know of a report, and prints it: its status.
fn tell_report<R: Eprint + AllocGlobal, F, O: Write>(
    rt: &R,
    report: &FeedReport<F>,
    output: &mut O,
) -> Result<u8, Stop>
    ensures status { IfOk result (λ status. status ≡ status_of_files report.now.files.items) }
    ensures printed { OnOk result ((text : List ℕ) × IsReportText report.now.files.items report.now.book text × Prints (streams None (O.contents output.old) (O.contents output.new)) text) }
    ensures err { IfErr result (IsUnprinted (streams None (O.contents output.old) (O.contents output.new))) }
{
    tell_crossing(rt, report.crossing);
    print_report(rt.alloc(), report, output)
}

/// Leaves the book of a report.
fn leave_report<F: Drop>(report: FeedReport<F>) {
    let FeedReport {
        files: _,
        book,
        crossing: _,
        crossings_lost: _,
        notes: _,
    } = report;
    leave_book(book);
}

/// Readers of the files, opened in their order.
fn open_files<R: FileSystem + AllocGlobal>(
    rt: &R,
    paths: &[&str],
) -> Result<Vec<StdDevice<R::File>>, Stopped>
    ensures fresh { IfOk result (λ readers. All (λ reader. ⟦<StdDevice<R::File> as Source>⟧.has_failed reader ≡ false) readers.items) }
    ensures each { IfOk result (λ readers. AllZip (λ path reader. HasBytes (R.bytes_at rt.now path.now) (⟦<StdDevice<R::File> as Source>⟧.remaining reader)) paths.now readers.items) }
{
    let mut readers = Vec::with_capacity(rt.alloc(), paths.len())?;
    for path in paths {
        readers.push(StdDevice::new(open_plain(rt, path)?))?;
    }
    Ok(readers)
}

/// Prints what became of each file, and the sheet.
fn print_report<F, O: Write>(
    alloc: Global,
    report: &FeedReport<F>,
    output: &mut O,
) -> Result<u8, Stop>
    ensures status { IfOk result (λ status. status ≡ status_of_files report.now.files.items) }
    ensures printed { OnOk result ((text : List ℕ) × IsReportText report.now.files.items report.now.book text × Prints (streams None (O.contents output.old) (O.contents output.new)) text) }
    ensures err { IfErr result (IsUnprinted (streams None (O.contents output.old) (O.contents output.new))) }
{
    print_whole(output, &report_text(alloc, report)?)?;
    Ok(status_of_files(report))
}

/// 2 where a file failed, else 1 where a line was refused, else 0.
fn status_of_files<F>(report: &FeedReport<F>) -> u8
    ensures { result ≡ status_of_files report.now.files.items }
{
    if has_failed_file(report) {
        STOPPED
    } else if has_refused_line(report) {
        REFUSED
    } else {
        DONE
    }
}

/// Whether a file failed.
fn has_failed_file<F>(report: &FeedReport<F>) -> bool
    ensures { result ≡ list_any (λ file. is_some file.failed) report.now.files.items }
{
    report.files.iter().any(|file| file.failed.is_some())
}

/// Whether a line of a file was refused.
fn has_refused_line<F>(report: &FeedReport<F>) -> bool
    ensures { result ≡ list_any (λ file. nat_lt 0 file.refused) report.now.files.items }
{
    report.files.iter().any(|file| file.refused > 0)
}
