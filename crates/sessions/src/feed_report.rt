//! What is told of files that were fed to a book.
ghost use Rattle.std.specs.Prelude.{◌≡◌, ◌+◌, ◌++◌, IfOk, OnOk, string_bytes};
ghost use Rattle.sessions.specs.ReportText.{IsReportText, file_line};

use crate::Crossing;
use commit_book::Book;
use dispatch_sheet::sheet_text;
use std::alloc::{AllocError, Global};
use std::fmt::Write;

/// What became of one file's lines: how many were accepted, repeated and refused, the number of what stopped the file
/// before its end, if anything did, and the file's reader.
#[derive(Drop)]
pub struct FileCount<R> {
    pub accepted: u64,
    pub repeated: u64,
    pub refused: u64,
    /// 91, 92 or 93, or 1 where memory was refused before the file's first line.
    pub failed: Option<u32>,
    pub reader: R,
}

/// The notes of the lines of all files: an object of JSON on a line of its own for each, with the numbers of its file and its line, in
/// the order in which the book answered.
#[derive(Drop)]
pub struct FeedNotes {
    pub text: String,
    /// Whether memory was refused for a line or its notes. None is there from then on.
    pub is_lost: bool,
}

/// What became of each file, in their order, and the book.
#[derive(Drop)]
pub struct FeedReport<R> {
    pub files: Vec<FileCount<R>>,
    pub book: Book,
    /// The first wagon that two files move, by the refusing file's number and then by the wagon's.
    pub crossing: Option<Crossing>,
    /// Whether memory was refused for the wagon of a refused message, so that a crossing may be missing.
    pub crossings_lost: bool,
    /// The notes, where they were asked for.
    pub notes: Option<FeedNotes>,
}

/// The text of a report: a line for each file, numbered from 1, `file K accepted A repeated R refused F` or, where it was
/// stopped, `file K failed CODE`; then the sheet of the book's present version.
pub fn report_text<R>(alloc: Global, report: &FeedReport<R>) -> Result<String, AllocError>
    ensures { IfOk result (λ text. IsReportText report.now.files.items report.now.book (string_bytes text)) }
{
    let mut text = String::new(alloc);
    for (k, file) in report.files.iter().enumerate() {
        push_file_line(&mut text, k as u64 + 1, file)?;
    }
    let sheet = sheet_text(alloc, report.book.len(), report.book.state())?;
    text.push_str(&sheet)?;
    Ok(text)
}

/// Adds the line of file K.
fn push_file_line<R>(text: &mut String, k: u64, file: &FileCount<R>) -> Result<(), AllocError>
    ensures { OnOk result (string_bytes text.new ≡ string_bytes text.old ++ file_line k file.now) }
{
    if let Some(code) = file.failed {
        return writeln!(text, "file {k} failed {code}");
    }
    let (accepted, repeated, refused) = (file.accepted, file.repeated, file.refused);
    writeln!(
        text,
        "file {k} accepted {accepted} repeated {repeated} refused {refused}"
    )
}
