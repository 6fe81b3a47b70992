//! The lines of a journal, brought to a book.
ghost use Rattle.std.specs.Prelude.{◌≡◌, [], IfOk, false};
ghost use Rattle.line_engine.specs.Lines.{max_line_bytes};
ghost use Rattle.line_engine.specs.Runs.{RunsOver};
ghost use Rattle.line_plans.specs.PlanLines.{BeginsPlans, TakesLine, first_lines};
ghost use Rattle.line_plans.specs.Plans.{IsPlanFor};

use crate::line_steps::bring_line;
use crate::problem_key::ProblemKey;
use crate::snapshot_book::SnapshotBook;
use commit_book::{BegunProblem, Book, Limits};
use line_engine::{
    LineLimit, Outcome, ReplyText, Responder, RunCount, RunFault, Sink, Source, run_replies,
};
use std::alloc::{AllocError, Global};
use std::marker::Model;

/// Brings the lines of a journal to a book, and replies nothing.
#[derive(Clone, Copy)]
pub struct BroughtLines;

/// What the lines of a journal have led to: the book, with the snapshots of the problems that it keeps; the number of the last line
/// that isn't blank; and the problem that this line is about, which the book keeps. Where memory was refused for a line, this is
/// partial: no further line is brought to the book.
#[derive(Drop)]
pub struct PlanLines {
    book: SnapshotBook,
    line: u64,
    problem: Option<ProblemKey>,
    is_partial: bool,
}

impl Model for PlanLines {
    ghost use Rattle.std.specs.Prelude.{◌≡◌};
    ghost use Rattle.line_plans.specs.PlanLines.{LinesValue};
    ghost use Rattle.line_plans.specs.inner.Remembered.{IsKeptProblem};

    ghost Value = { LinesValue };

    ghost view = { λ lines. record { book = lines.book; line = lines.line; problem = lines.problem; partial = lines.is_partial } };

    ghost invariant = { λ lines. IsKeptProblem lines.book lines.problem };
}

impl PlanLines {
    /// Before the first line, where the lines are brought to a book of these limits that keeps no problem yet.
    pub fn new(alloc: Global, book: Book, limits: Limits) -> PlanLines
        requires limits { limits.kept ≡ book.setting.kept }
        requires empty { book.state.kept ≡ [] }
        ensures { result ≡ first_lines book }
    {
        PlanLines {
            book: SnapshotBook::new(alloc, book, limits),
            line: 0,
            problem: None,
            is_partial: false,
        }
    }

    /// The book, as the lines left it.
    pub fn into_book(self) -> Book
        ensures { result ≡ self.book }
    {
        self.book.into_book()
    }

    /// The number of the last line that isn't blank, counted from 1; 0 where there is none. Where this is partial, that of the
    /// line for which memory was refused.
    pub fn last_line(&self) -> u64
        ensures { result ≡ self.now.line }
    {
        self.line
    }

    /// Whether memory was refused for a line, so that this line and those behind it weren't brought to the book.
    pub fn is_partial(&self) -> bool
        ensures { result ≡ self.now.partial }
    {
        self.is_partial
    }

    /// The problem that the last line is about, with its table over the network in force in its version. `None` where that line
    /// is no plan line, no begin and no commit that was accepted, and where this is partial. `Err` only when out of memory.
    /// Nothing changes.
    pub fn last_plan(&mut self, alloc: Global) -> Result<Option<BegunProblem>, AllocError>
        ensures plan { IfOk result (IsPlanFor self.old.book self.old.problem) }
        ensures lines { self.new ≡ self.old }
    {
        match self.problem {
            Some(key) => Ok(Some(self.book.plan(alloc, key)?)),
            None => Ok(None),
        }
    }

    /// Brings a line to the book.
    fn take_line(&mut self, alloc: Global, line: u64, bytes: &[u8])
        ensures { TakesLine line self.old bytes.now self.new }
    {
        if self.is_partial {
            return;
        }
        let brought = bring_line(alloc, &mut self.book, bytes);
        self.line = line;
        self.is_partial = brought.is_err();
        self.problem = brought.unwrap_or(None);
    }
}

impl Responder for BroughtLines {
    type State = PlanLines;

    ghost replies = { BeginsPlans };

    fn respond(
        &self,
        alloc: Global,
        lines: &mut PlanLines,
        number: u64,
        line: &[u8],
        _more: bool,
        reply: &mut ReplyText,
    ) -> Outcome {
        reply.clear();
        lines.take_line(alloc, number, line);
        Outcome::Answered
    }
}

/// Brings the lines of a journal to a book, one after the other, as a run does. Nothing is written.
///
/// A plan line begins its problem as a begin does. Where memory is refused for a line, the lines are partial from then on, and the
/// run goes on. A line has at most 65,536 bytes. It stops as `run_replies` says: 1, and 91 to 94 with the line's number.
pub fn plan_lines<R: Source, W: Sink>(
    alloc: Global,
    reader: &mut R,
    writer: &mut W,
    lines: &mut PlanLines,
) -> Result<RunCount, RunFault>
    requires reader { R.has_failed reader.old ≡ false }
    requires writer { W.has_failed writer.old ≡ false }
    ensures { RunsOver BeginsPlans max_line_bytes R.Source W.Sink (reader.old, writer.old, lines.old) (reader.new, writer.new, lines.new) result }
{
    let limit = LineLimit::standard();
    run_replies(alloc, limit, reader, writer, &BroughtLines, lines)
}
