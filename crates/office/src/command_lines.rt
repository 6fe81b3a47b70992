//! The run that brings command lines to a book.
ghost use Rattle.std.specs.Prelude.{◌≡◌, ◌≢◌, ◌≤◌, ◌++◌, false, true, List, ℕ, IfOk, IsOk, OnErr, OnOk, length};
ghost use Rattle.commit_book.specs.Books.{answer_of};
ghost use Rattle.commit_book.specs.Headline.{IsProved};
ghost use Rattle.commit_book.specs.declared.answer.Answer.TheVariants.{Refused};
ghost use Rattle.faults.specs.declared.faults.Refusal.TheVariants.{OutOfMemory};
ghost use Rattle.line_engine.specs.Lines.{max_line_bytes};
ghost use Rattle.line_fields.specs.declared.command.Command.TheVariants as command;
ghost use Rattle.line_engine.specs.Outcome.{is_refusal};
ghost use Rattle.line_engine.specs.Replies.{IsAnswered, max_head_bytes};
ghost use Rattle.line_engine.specs.Runs.{RunsOver};
ghost use Rattle.cost_table.specs.Plan.{IsOptimal};
ghost use Rattle.price_checker.specs.Certificate.{IsCertificate};
ghost use Rattle.dispatch_sheet.specs.PlanText.{FitsProblem};
ghost use Rattle.office.specs.CommandReplies.{IsLedTo, IsPlanned, LeavesOutOfMemory, LineRunsOutOfMemory, RepliesToCommand, RepliesToLine, ToCommands, answer_text, begun_reply, is_refused};
ghost use Rattle.office.specs.inner.OutOfMemory.{MayAnswerOutOfMemory};

use assignment::plan;
use commit_book::{BegunProblem, Book, Refusal, Reply, Snap};
use cost_table::{Cells, Plan};
use dispatch_sheet::{certificate_line, certified_plan_text, sheet_text};
use line_engine::{
    Handler, LineLimit, Outcome, ReplyText, RunCount, RunFault, Sink, Source, run_lines,
};
use line_fields::{Command, LineFault, read_line};
use price_checker::{Prices, certified_cost};
use rail_codes::Moment;
use reply_texts::{
    push_accepted, push_begun, push_book_refused, push_line_refused, push_planned, push_repeated,
};
use std::alloc::{AllocError, Global};

/// Brings command lines to a book.
#[derive(Clone, Copy)]
pub struct CommandLines;

impl Handler for CommandLines {
    type State = Book;

    ghost answers = { RepliesToLine };

    ghost runs_out = { LineRunsOutOfMemory };

    fn answer(
        &self,
        alloc: Global,
        book: &mut Book,
        line: &[u8],
        _more: bool,
        reply: &mut ReplyText,
    ) -> Result<Outcome, AllocError> {
        match read_line(alloc, line) {
            Ok(command) => answer_command(alloc, book, command, reply),
            Err(LineFault::OutOfMemory) => Err(AllocError),
            Err(fault) => {
                push_line_refused(reply, &fault)?;
                Ok(Outcome::Refused)
            }
        }
    }
}

/// Does what a command asks for, and adds the reply.
fn answer_command(
    alloc: Global,
    book: &mut Book,
    command: Command,
    reply: &mut ReplyText,
) -> Result<Outcome, AllocError>
    requires short { length reply.old ≤ max_head_bytes }
    ensures reply { IsAnswered RepliesToCommand LeavesOutOfMemory command (reply.old, book.old) (reply.new, book.new) result }
    ensures memory { OnErr result (MayAnswerOutOfMemory book.old command) }
{
    match command {
        Command::Event(event) => push_answer(reply, book.submit(alloc, event)),
        Command::Begin(at) => answer_begin(alloc, book, at, reply),
        Command::Plan(at) => answer_plan(alloc, book, at, reply),
        Command::Sheet => answer_sheet(alloc, book, reply),
    }
}

/// Begins a problem, and adds the reply.
pub(crate) fn answer_begin(
    alloc: Global,
    book: &mut Book,
    at: Moment,
    reply: &mut ReplyText,
) -> Result<Outcome, AllocError>
    requires short { length reply.old ≤ max_head_bytes }
    ensures { IsAnswered RepliesToCommand LeavesOutOfMemory (command.Begin at) (reply.old, book.old) (reply.new, book.new) result }
{
    let snap = book.begin(alloc, at)?;
    push_begun_reply(reply, &snap)?;
    Ok(Outcome::Answered)
}

/// Begins a problem and plans it, and adds the reply.
pub(crate) fn answer_plan(
    alloc: Global,
    book: &mut Book,
    at: Moment,
    reply: &mut ReplyText,
) -> Result<Outcome, AllocError>
    requires short { length reply.old ≤ max_head_bytes }
    ensures { IsAnswered RepliesToCommand LeavesOutOfMemory (command.Plan at) (reply.old, book.old) (reply.new, book.new) result }
{
    let begun = book.begin_with_table(alloc, at)?;
    push_plan(alloc, reply, &begun)?;
    Ok(Outcome::Answered)
}

/// Adds the sheet of the present version.
pub(crate) fn answer_sheet(
    alloc: Global,
    book: &Book,
    reply: &mut ReplyText,
) -> Result<Outcome, AllocError>
    requires short { length reply.old ≤ max_head_bytes }
    ensures { IsAnswered RepliesToCommand LeavesOutOfMemory command.Sheet (reply.old, book.now) (reply.new, book.now) result }
{
    reply.push_str(&sheet_text(alloc, book.len(), book.state())?)?;
    Ok(Outcome::Answered)
}

/// Adds the answer to an event. `Err` only where it is refused and memory is out.
pub(crate) fn push_answer(
    reply: &mut ReplyText,
    answer: Result<Reply, Refusal>,
) -> Result<Outcome, AllocError>
    requires short { length reply.old ≤ max_head_bytes }
    ensures text { OnOk result (reply.new ≡ reply.old ++ answer_text (answer_of answer)) }
    ensures mark { IfOk result (λ outcome. is_refusal outcome ≡ is_refused (answer_of answer)) }
    ensures memory { OnOk result (answer_of answer ≢ Refused OutOfMemory) }
    ensures refused { OnErr result (is_refused (answer_of answer) ≡ true) }
{
    match answer {
        Ok(Reply::Accepted(entry)) => {
            push_accepted(reply, entry)?;
            Ok(Outcome::Answered)
        }
        Ok(Reply::Repeated(entry)) => {
            push_repeated(reply, entry)?;
            Ok(Outcome::Answered)
        }
        Err(Refusal::OutOfMemory) => Err(AllocError),
        Err(refusal) => {
            push_book_refused(reply, &refusal)?;
            Ok(Outcome::Refused)
        }
    }
}

/// Adds the reply to a begin.
fn push_begun_reply(reply: &mut ReplyText, snap: &Snap) -> Result<(), AllocError>
    ensures text { OnOk result (reply.new ≡ reply.old ++ begun_reply snap.now) }
    ensures room { length reply.old ≤ max_head_bytes → IsOk result }
{
    let problem = snap.problem();
    push_begun(
        reply,
        snap.version(),
        problem.wagons().len(),
        problem.orders().len(),
    )
}

/// Plans a begun problem, and adds the plan and its certificate.
fn push_plan(alloc: Global, reply: &mut ReplyText, begun: &BegunProblem) -> Result<(), AllocError>
    ensures { OnOk result ((body : List ℕ) × (reply.new ≡ reply.old ++ body) × IsPlanned begun.now.snap begun.now.table body) }
{
    let cells = begun.cells();
    let (plan, prices) = plan(alloc, cells)?;
    push_planned_reply(alloc, reply, begun.snap(), cells, &plan, &prices)
}

/// Adds the reply to a plan line: its head, the plan and its certificate.
fn push_planned_reply(
    alloc: Global,
    reply: &mut ReplyText,
    snap: &Snap,
    cells: &Cells,
    plan: &Plan,
    prices: &Prices,
) -> Result<(), AllocError>
    requires fits { FitsProblem snap.now.problem cells.now }
    requires optimal { IsOptimal cells.now plan.now }
    requires certificate { IsCertificate cells.now plan.now prices.now.u.items prices.now.v.items }
    ensures { OnOk result ((body : List ℕ) × (reply.new ≡ reply.old ++ body) × IsPlanned snap.now cells.now body) }
{
    let problem = snap.problem();
    let wagons = problem.wagons().len();
    let orders = problem.orders().len();
    push_planned(
        reply,
        snap.version(),
        wagons,
        orders,
        certified_cost(cells, plan.pairs(), prices),
    )?;
    reply.push_str(&certified_plan_text(alloc, snap, cells, plan, prices)?)?;
    reply.push_str(&certificate_line(alloc, snap, plan, prices)?)?;
    reply.push_bytes(b"\n")
}

/// Brings the command lines of a reader to a book, one after the other, each answered by one reply, written at once.
///
/// Replies are those of the manual: `N accepted ENTRY`, `N repeated ENTRY`, `N begun ..`, `N plan ..` with the plan and
/// its certificate, `N sheet ..`, and `N refused CODE` with its details; blank lines get none. A plan line is a begin,
/// and planning over the table that the book keeps of it. A line has at most 65,536 bytes. It stops as `run_lines` says:
/// 1, and 91 to 94 with the line's number; the book is then as after the lines before, for 94 as after that line.
pub fn run<R: Source, W: Sink>(
    alloc: Global,
    reader: &mut R,
    writer: &mut W,
    book: &mut Book,
) -> Result<RunCount, RunFault>
    requires reader { R.has_failed reader.old ≡ false }
    requires writer { W.has_failed writer.old ≡ false }
    ensures replies { RunsOver ToCommands max_line_bytes R.Source W.Sink (reader.old, writer.old, book.old) (reader.new, writer.new, book.new) result }
    ensures calls { IsLedTo book.old book.new }
    ensures proved { IsProved book.new.setting book.new.state.history }
{
    let limit = LineLimit::standard();
    let count = run_lines(alloc, limit, reader, writer, &CommandLines, book);
    book.for_the_prover();
    count
}
