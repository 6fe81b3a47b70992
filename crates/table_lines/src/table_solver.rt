//! The run that solves table lines.
ghost use Rattle.std.specs.Prelude.{◌≡◌, [], false, IfOk};
ghost use Rattle.line_engine.specs.Outcome.{is_refusal};
ghost use Rattle.line_engine.specs.Runs.{RunsOver};
ghost use Rattle.table_lines.specs.JsonReplies.{json_refused_text};
ghost use Rattle.table_lines.specs.StatedTable.{stated_line};
ghost use Rattle.table_lines.specs.declared.table_refusal.TableRefusal.TheVariants.{OutOfMemory};
ghost use Rattle.table_lines.specs.Solving.{PrintsSolved, Solves, SolvesLine, ToTables};

use crate::json_replies::{push_json_out_of_memory, push_json_refused};
use crate::line_solver::solve_line;
use crate::table_refusal::TableRefusal;
use line_engine::{
    LineLimit, Outcome, ReplyText, Responder, RunCount, RunFault, Sink, Source, run_replies,
};
use std::alloc::{AllocError, Global};

/// Solves table lines, each by itself. The state is the most bytes of a line.
#[derive(Clone, Copy)]
pub struct TableSolver;

impl Responder for TableSolver {
    type State = LineLimit;

    ghost replies = { SolvesLine };

    fn respond(
        &self,
        alloc: Global,
        limit: &mut LineLimit,
        number: u64,
        line: &[u8],
        _more: bool,
        reply: &mut ReplyText,
    ) -> Outcome {
        match push_solved(alloc, *limit, number, line, reply) {
            Ok(outcome) => outcome,
            Err(_) => {
                refuse_for_memory(reply, number);
                Outcome::Refused
            }
        }
    }
}

/// Puts the reply to a line in place of what stood there.
fn push_solved(
    alloc: Global,
    limit: LineLimit,
    number: u64,
    line: &[u8],
    reply: &mut ReplyText,
) -> Result<Outcome, AllocError>
    ensures { IfOk result (λ outcome. Solves number limit (stated_line line.now) reply.new (is_refusal outcome)) }
{
    reply.clear();
    match solve_line(alloc, line) {
        Ok(text) => push_solved_line(reply, limit, number, &text),
        Err(TableRefusal::OutOfMemory) => Err(AllocError),
        Err(refusal) => {
            push_json_refused(reply, number, &refusal)?;
            Ok(Outcome::Refused)
        }
    }
}

/// Makes an empty reply a solved table's line or, where that has too many bytes, the refusal for it.
fn push_solved_line(
    reply: &mut ReplyText,
    limit: LineLimit,
    number: u64,
    text: &str,
) -> Result<Outcome, AllocError>
    requires { reply.old ≡ [] }
    ensures { IfOk result (λ outcome. PrintsSolved number limit text.now reply.new (is_refusal outcome)) }
{
    if text.len() > limit.bytes() as usize {
        push_json_refused(reply, number, &TableRefusal::PlanTooLong)?;
        return Ok(Outcome::Refused);
    }
    reply.push_str(text)?;
    reply.push_bytes(b"\n")?;
    Ok(Outcome::Answered)
}

/// Makes the reply a refusal for memory, whatever stood there. Takes no memory.
fn refuse_for_memory(reply: &mut ReplyText, number: u64)
    ensures { reply.new ≡ json_refused_text number OutOfMemory }
{
    reply.clear();
    let _ = push_json_out_of_memory(reply, number);
}

/// Solves each table line of a reader, and writes one line of JSON for it at once.
///
/// It is the table with a plan at the lowest total cost, as `solve_line` says, or `{"line":N,"refused":"CODE details"}`
/// with the line's number N, counted from 1, and what `check_run` prints behind `refused`; blank lines get no reply. Where
/// the solved table has over `limit` bytes, the refusal is 92 and the run goes on. It stops as `run_lines` says: 1, and
/// 91 to 94 with the line's number, 92 at a line with over `limit` bytes.
pub fn solve_run<R: Source, W: Sink>(
    alloc: Global,
    limit: LineLimit,
    reader: &mut R,
    writer: &mut W,
) -> Result<RunCount, RunFault>
    requires reader { R.has_failed reader.old ≡ false }
    requires writer { W.has_failed writer.old ≡ false }
    ensures { RunsOver ToTables limit R.Source W.Sink (reader.old, writer.old, limit) (reader.new, writer.new, limit) result }
{
    let mut state = limit;
    run_replies(alloc, limit, reader, writer, &TableSolver, &mut state)
}
