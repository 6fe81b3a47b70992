//! Following a journal.
ghost use Rattle.std.specs.Prelude.{◌≡◌, false, IfOk, Option, OnOk};
ghost use Rattle.line_engine.specs.Lines.{max_line_bytes};
ghost use Rattle.line_engine.specs.Runs.{RunsOver};
ghost use Rattle.traces.specs.Asked.{row_in};
ghost use Rattle.traces.specs.Steps.{TracesLine, office_of, with_step};
ghost use Rattle.traces.specs.Traces.{Follows, FollowsLine, first_trace};
ghost use Rattle.traces.specs.inner.Rows.{row_after};
ghost use Rattle.traces.specs.declared.step.Step.{Step};

use crate::asked::Asked;
use crate::asked_row::AskedRow;
use crate::line_steps::bring_line;
use crate::step::Step;
use commit_book::Book;
use line_engine::{
    LineLimit, Outcome, ReplyText, Responder, RunCount, RunFault, Sink, Source, run_replies,
};
use std::alloc::{AllocError, Global};
use std::marker::Model;

/// Follows the lines of a journal, and replies nothing.
#[derive(Clone, Copy)]
pub struct FollowedLines;

/// What has happened so far to the wagon or the order that is asked for: the steps of the lines, and the book as they left it.
/// Where memory was refused for a line, the trace is partial: it follows no further line.
#[derive(Drop)]
pub struct Trace {
    book: Book,
    asked: Asked,
    steps: Vec<Step>,
    // What the book's office knows now, so that a line that changes nothing copies no row.
    row: AskedRow,
    is_partial: bool,
}

impl Model for Trace {
    ghost use Rattle.std.specs.Prelude.{◌≡◌, false};
    ghost use Rattle.traces.specs.Asked.{row_in};
    ghost use Rattle.traces.specs.Steps.{office_of};
    ghost use Rattle.traces.specs.Traces.{TraceValue};

    ghost Value = { TraceValue };

    ghost view = { λ trace. record { book = trace.book; asked = trace.asked; steps = trace.steps.items; partial = trace.is_partial } };

    ghost invariant = { λ trace. trace.is_partial ≡ false → trace.row ≡ row_in trace.asked (office_of trace.book) };
}

impl Trace {
    /// A trace without a step, of a journal that is brought to this book. `Err` only when out of memory.
    pub fn new(alloc: Global, book: Book, asked: Asked) -> Result<Trace, AllocError>
        ensures { IfOk result (λ trace. trace ≡ first_trace book asked) }
    {
        let row = AskedRow::of(alloc, &asked, book.state())?;
        Ok(Trace {
            book,
            asked,
            steps: Vec::new(alloc),
            row,
            is_partial: false,
        })
    }

    /// What is asked for.
    pub fn asked(&self) -> &Asked
        ensures { result.now ≡ self.now.asked }
    {
        &self.asked
    }

    /// The steps, in the order of their lines.
    pub fn steps(&self) -> &[Step]
        ensures { result.now ≡ self.now.steps }
    {
        &self.steps
    }

    /// Whether memory was refused for a line, so that the trace doesn't follow that line and those behind it.
    pub fn is_partial(&self) -> bool
        ensures { result ≡ self.now.partial }
    {
        self.is_partial
    }

    /// The book; of a trace that isn't partial, as the lines left it.
    pub fn into_book(self) -> Book
        ensures { result ≡ self.book }
    {
        self.book
    }

    /// Follows a line.
    fn take_line(&mut self, alloc: Global, line: u64, bytes: &[u8])
        ensures { FollowsLine line self.old bytes.now self.new }
    {
        if self.is_partial {
            return;
        }
        let brought = follow(
            alloc,
            &mut self.book,
            &self.asked,
            &mut self.row,
            &mut self.steps,
            line,
            bytes,
        );
        self.is_partial = brought.is_err();
    }
}

/// Brings a line to a book, adds its step, and makes the row what the book's office knows then.
fn follow(
    alloc: Global,
    book: &mut Book,
    asked: &Asked,
    row: &mut AskedRow,
    steps: &mut Vec<Step>,
    line: u64,
    bytes: &[u8],
) -> Result<(), AllocError>
    requires { row.old ≡ row_in asked.now (office_of book.old) }
    ensures traced { OnOk result ((step : Option Step) × TracesLine line asked.now book.old bytes.now step book.new × (steps.new.items ≡ with_step steps.old.items step)) }
    ensures row { OnOk result (row.new ≡ row_in asked.now (office_of book.new)) }
    ensures setting { book.new.setting ≡ book.old.setting }
{
    let shown = bring_line(alloc, book, asked, row, line, bytes)?;
    add_step(alloc, row, steps, shown)
}

/// Adds a step, if there is one, and makes the row what it is after it.
fn add_step(
    alloc: Global,
    row: &mut AskedRow,
    steps: &mut Vec<Step>,
    shown: Option<Step>,
) -> Result<(), AllocError>
    ensures row { OnOk result (row.new ≡ row_after row.old shown) }
    ensures steps { OnOk result (steps.new.items ≡ with_step steps.old.items shown) }
{
    match shown {
        None => Ok(()),
        Some(step) => {
            let after = step.after.copy(alloc)?;
            steps.push(step)?;
            *row = after;
            Ok(())
        }
    }
}

impl Responder for FollowedLines {
    type State = Trace;

    ghost replies = { Follows };

    fn respond(
        &self,
        alloc: Global,
        trace: &mut Trace,
        number: u64,
        line: &[u8],
        _more: bool,
        reply: &mut ReplyText,
    ) -> Outcome {
        reply.clear();
        trace.take_line(alloc, number, line);
        Outcome::Answered
    }
}

/// Brings the lines of a journal to the book of a trace, one after the other, as a run does, and adds their steps. Nothing is
/// written.
///
/// An accepted event that names what is asked for, or changes its row, has a step, and so has a refused event that names it.
/// Where memory is refused for a line, the trace is partial from then on, and the run goes on. A line has at most 65,536 bytes.
/// It stops as `run_replies` says: 1, and 91 to 94 with the line's number.
pub fn trace_journal<R: Source, W: Sink>(
    alloc: Global,
    reader: &mut R,
    writer: &mut W,
    trace: &mut Trace,
) -> Result<RunCount, RunFault>
    requires reader { R.has_failed reader.old ≡ false }
    requires writer { W.has_failed writer.old ≡ false }
    ensures { RunsOver Follows max_line_bytes R.Source W.Sink (reader.old, writer.old, trace.old) (reader.new, writer.new, trace.new) result }
{
    let limit = LineLimit::standard();
    run_replies(alloc, limit, reader, writer, &FollowedLines, trace)
}
