//! The run that checks table lines.
ghost use Rattle.std.specs.Prelude.{◌≡◌, ◌++◌, false, OnOk};
ghost use Rattle.line_engine.specs.Runs.{RunsOver};
ghost use Rattle.table_lines.specs.Checking.{ChecksLine, ToPlans, reply_body};

use crate::table_answer::table_cost;
use crate::table_refusal::TableRefusal;
use line_engine::{
    Handler, LineLimit, Outcome, ReplyText, RunCount, RunFault, Sink, Source, run_lines,
};
use reply_texts::{push_counted, push_refused};
use std::alloc::{AllocError, Global};

/// Answers table lines, each by itself.
#[derive(Clone, Copy)]
pub struct TableChecker;

impl Handler for TableChecker {
    type State = ();

    ghost answers = { ChecksLine };

    ghost runs_out = { λ _ _ _. Unit {0} };

    fn answer(
        &self,
        alloc: Global,
        _state: &mut (),
        line: &[u8],
        _more: bool,
        reply: &mut ReplyText,
    ) -> Result<Outcome, AllocError> {
        let answer = table_cost(alloc, line);
        if let Err(TableRefusal::OutOfMemory) = answer {
            return Err(AllocError);
        }
        push_reply(reply, &answer)?;
        match answer {
            Ok(_) => Ok(Outcome::Answered),
            Err(_) => Ok(Outcome::Refused),
        }
    }
}

/// Adds `optimal COST`, in kilometres, or `refused CODE` and the refusal's details.
fn push_reply(reply: &mut ReplyText, answer: &Result<u128, TableRefusal>) -> Result<(), AllocError>
    ensures { OnOk result (reply.new ≡ reply.old ++ reply_body answer.now) }
{
    match answer {
        Ok(cost) => push_counted(reply, b"optimal", *cost),
        Err(refusal) => push_refused(reply, refusal.number(), refusal),
    }
}

/// Answers each table line of a reader by one reply line, written at once.
///
/// `N optimal COST` where the line's pairs and prices are a certificate of its table, else `N refused CODE` and its
/// details; blank lines get no reply. It stops as `run_lines` says: 1, and 91 to 94 with the line's number, 92 at a line
/// with over `limit` bytes.
pub fn check_run<R: Source, W: Sink>(
    alloc: Global,
    limit: LineLimit,
    reader: &mut R,
    writer: &mut W,
) -> Result<RunCount, RunFault>
    requires reader { R.has_failed reader.old ≡ false }
    requires writer { W.has_failed writer.old ≡ false }
    ensures { RunsOver ToPlans limit R.Source W.Sink (reader.old, writer.old, tt) (reader.new, writer.new, tt) result }
{
    run_lines(alloc, limit, reader, writer, &TableChecker, &mut ())
}
