//! The orders that the lines of a journal fill, and how late.
ghost use Rattle.std.specs.Prelude.{◌≡◌, ℕ, List, None, OnOk, false};
ghost use Rattle.std.specs.BTreeMap.{get};
ghost use Rattle.fleet_rows.specs.Kept.{compare_numbers};
ghost use Rattle.line_engine.specs.Lines.{max_line_bytes};
ghost use Rattle.line_engine.specs.Runs.{RunsOver};
ghost use Rattle.last_texts.specs.Fills.{FillsLine, FindsFills, IsWithFills, fill_of};
ghost use Rattle.journal_notes.specs.NotedJournal.{NotesLine};
ghost use Rattle.std.specs.Option.{option_or};

use journal_notes::{FilledOrder, Note, NotedJournal};
use line_engine::{
    LineLimit, Outcome, ReplyText, Responder, RunCount, RunFault, Sink, Source, run_replies,
};
use rail_codes::OrderId;
use std::alloc::{AllocError, Global};
use std::collections::BTreeMap;

/// By how many minutes each order was filled late, by its name; 0 in time.
pub type LateFills = BTreeMap<OrderId, u64>;

/// A journal, and the orders that its lines filled. Where memory was refused for a line, it is partial: it follows no further line.
#[derive(Drop)]
pub struct FilledJournal {
    pub journal: NotedJournal,
    /// Each order that a line filled.
    pub late_fills: LateFills,
    pub is_partial: bool,
}

/// Finds what each line of a journal fills, and writes nothing.
#[derive(Clone, Copy)]
pub struct FillsOfLines;

impl FilledJournal {
    /// A journal before its first line.
    pub fn new(alloc: Global, journal: NotedJournal) -> FilledJournal
        ensures journal { result.journal ≡ journal }
        ensures empty { (order : List ℕ) → get compare_numbers result.late_fills order ≡ None }
        ensures whole { result.is_partial ≡ false }
    {
        FilledJournal {
            journal,
            late_fills: BTreeMap::new(alloc),
            is_partial: false,
        }
    }

    /// Follows a line.
    fn take_line(&mut self, alloc: Global, line: u64, bytes: &[u8])
        ensures { FillsLine line self.old bytes.now self.new }
    {
        if self.is_partial {
            return;
        }
        let taken = take_line(alloc, &mut self.journal, &mut self.late_fills, line, bytes);
        self.is_partial = taken.is_err();
    }
}

/// Brings a line to a journal, and notes the orders that it fills.
fn take_line(
    alloc: Global,
    journal: &mut NotedJournal,
    late_fills: &mut LateFills,
    line: u64,
    bytes: &[u8],
) -> Result<(), AllocError>
    ensures filled { OnOk result ((notes : List Note) × NotesLine line journal.old bytes.now notes journal.new × IsWithFills notes (get compare_numbers late_fills.old) (get compare_numbers late_fills.new)) }
    ensures setting { journal.new.book.setting ≡ journal.old.book.setting }
{
    let notes = journal.take_line(alloc, line, bytes)?;
    put_fills(late_fills, &notes)
}

/// Notes each order that these notes say was filled.
fn put_fills(late_fills: &mut LateFills, notes: &[Note]) -> Result<(), AllocError>
    ensures { OnOk result (IsWithFills notes.now (get compare_numbers late_fills.old) (get compare_numbers late_fills.new)) }
{
    for note in notes {
        put_fill(late_fills, note)?;
    }
    Ok(())
}

/// Notes the order that a note says was filled, if it does.
fn put_fill(late_fills: &mut LateFills, note: &Note) -> Result<(), AllocError>
    ensures { OnOk result ((order : List ℕ) → get compare_numbers late_fills.new order ≡ option_or (fill_of note.now order) (get compare_numbers late_fills.old order)) }
{
    match note {
        Note::Filled(filled) => put_order(late_fills, filled),
        _ => Ok(()),
    }
}

/// Notes an order that was filled.
fn put_order(late_fills: &mut LateFills, filled: &FilledOrder) -> Result<(), AllocError>
    ensures { OnOk result ((order : List ℕ) → get compare_numbers late_fills.new order ≡ option_or (fill_of (Note.Filled filled.now) order) (get compare_numbers late_fills.old order)) }
{
    late_fills.insert(filled.order, filled.late)?;
    Ok(())
}

impl Responder for FillsOfLines {
    type State = FilledJournal;

    ghost replies = { FindsFills };

    fn respond(
        &self,
        alloc: Global,
        journal: &mut FilledJournal,
        number: u64,
        line: &[u8],
        _more: bool,
        reply: &mut ReplyText,
    ) -> Outcome {
        reply.clear();
        journal.take_line(alloc, number, line);
        Outcome::Answered
    }
}

/// Brings the lines of a journal to its book, one after the other, as a run does, and notes the orders that they fill. Nothing is
/// written.
///
/// Where memory is refused for a line, the journal is partial from then on, and the run goes on. A line has at most 65,536 bytes. It
/// stops as `run_replies` says: 1, and 91 to 94 with the line's number.
pub fn fill_journal<R: Source, W: Sink>(
    alloc: Global,
    reader: &mut R,
    writer: &mut W,
    journal: &mut FilledJournal,
) -> Result<RunCount, RunFault>
    requires reader { R.has_failed reader.old ≡ false }
    requires writer { W.has_failed writer.old ≡ false }
    ensures { RunsOver FindsFills max_line_bytes R.Source W.Sink (reader.old, writer.old, journal.old) (reader.new, writer.new, journal.new) result }
{
    let limit = LineLimit::standard();
    run_replies(alloc, limit, reader, writer, &FillsOfLines, journal)
}
