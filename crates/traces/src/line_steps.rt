//! The step that a line of a journal adds, and what the line does to a book.
ghost use Rattle.std.specs.Prelude.{◌≡◌, ◌≢◌, None, IfOk, OnOk};
ghost use Rattle.commit_book.specs.Books.{answer_of};
ghost use Rattle.commit_book.specs.declared.answer.Answer.TheVariants.{Refused};
ghost use Rattle.faults.specs.declared.faults.Refusal.TheVariants.{OutOfMemory};
ghost use Rattle.traces.specs.Asked.{row_in};
ghost use Rattle.traces.specs.Steps.{IsAcceptedStep, IsBegun, IsStepOf, TracesCommand, TracesEvent, TracesLine, office_of, refused_step, step_at};

use crate::asked::Asked;
use crate::asked_row::AskedRow;
use crate::event_brief::EventBrief;
use crate::step::{Step, StepAnswer};
use commit_book::{Book, Refusal, Reply};
use line_fields::{Command, LineFault, read_line};
use move_messages::Event;
use operating_db::OfficeState;
use rail_codes::Moment;
use std::alloc::{AllocError, Global};

/// What is known of an event before it is submitted: the number of its line, what a step keeps of it, and whether it names what
/// is asked for.
#[derive(Clone, Copy)]
struct SeenEvent {
    line: u64,
    brief: EventBrief,
    is_named: bool,
}

/// Brings a line to a book: the step that it adds, where it adds one. The row is what the book's office knows before the line.
/// `Err` only when out of memory; the line may have been brought then.
pub(crate) fn bring_line(
    alloc: Global,
    book: &mut Book,
    asked: &Asked,
    row: &AskedRow,
    line: u64,
    bytes: &[u8],
) -> Result<Option<Step>, AllocError>
    requires { row.now ≡ row_in asked.now (office_of book.old) }
    ensures traced { IfOk result (λ step. TracesLine line asked.now book.old bytes.now step book.new) }
    ensures setting { book.new.setting ≡ book.old.setting }
{
    match read_line(alloc, bytes) {
        Ok(command) => bring_command(alloc, book, asked, row, line, command),
        Err(LineFault::OutOfMemory) => Err(AllocError),
        Err(_) => Ok(None),
    }
}

/// The same of what the line says.
fn bring_command(
    alloc: Global,
    book: &mut Book,
    asked: &Asked,
    row: &AskedRow,
    line: u64,
    command: Command,
) -> Result<Option<Step>, AllocError>
    requires { row.now ≡ row_in asked.now (office_of book.old) }
    ensures traced { IfOk result (λ step. TracesCommand line asked.now book.old command step book.new) }
    ensures setting { book.new.setting ≡ book.old.setting }
{
    match command {
        Command::Event(event) => bring_event(alloc, book, asked, row, line, event),
        Command::Begin(at) => begin(alloc, book, at),
        Command::Plan(at) => begin(alloc, book, at),
        Command::Sheet => Ok(None),
    }
}

/// Begins a problem, which adds no step.
fn begin(alloc: Global, book: &mut Book, at: Moment) -> Result<Option<Step>, AllocError>
    ensures begun { IfOk result (λ step. (step ≡ None) × IsBegun book.old at book.new) }
    ensures setting { book.new.setting ≡ book.old.setting }
{
    let _snap = book.begin(alloc, at)?;
    Ok(None)
}

/// Submits an event.
fn bring_event(
    alloc: Global,
    book: &mut Book,
    asked: &Asked,
    row: &AskedRow,
    line: u64,
    event: Event,
) -> Result<Option<Step>, AllocError>
    requires { row.now ≡ row_in asked.now (office_of book.old) }
    ensures traced { IfOk result (λ step. TracesEvent line asked.now book.old event step book.new) }
    ensures setting { book.new.setting ≡ book.old.setting }
{
    let seen = SeenEvent {
        line,
        brief: EventBrief::of(&event),
        is_named: asked.is_named_by(&event),
    };
    let answer = book.submit(alloc, event);
    answered_step(alloc, book.state(), asked, row, &seen, answer)
}

/// The step of an event, by its answer and by the office after it.
fn answered_step(
    alloc: Global,
    state: &OfficeState,
    asked: &Asked,
    row: &AskedRow,
    seen: &SeenEvent,
    answer: Result<Reply, Refusal>,
) -> Result<Option<Step>, AllocError>
    ensures step { IfOk result (λ step. IsStepOf seen.now.line seen.now.brief seen.now.is_named row.now (answer_of answer) (row_in asked.now state.now.office) step) }
    ensures memory { OnOk result (answer_of answer ≢ Refused OutOfMemory) }
{
    match answer {
        Ok(Reply::Accepted(entry)) => {
            accepted_step(alloc, state, asked, row, seen, StepAnswer::Accepted(entry))
        }
        Ok(Reply::Repeated(_)) => Ok(None),
        Err(Refusal::OutOfMemory) => Err(AllocError),
        Err(refusal) => refused_step(alloc, row, seen, StepAnswer::Refused(refusal.number())),
    }
}

/// The step of an accepted event, where it names what is asked for or has changed its row.
fn accepted_step(
    alloc: Global,
    state: &OfficeState,
    asked: &Asked,
    row: &AskedRow,
    seen: &SeenEvent,
    answer: StepAnswer,
) -> Result<Option<Step>, AllocError>
    ensures { IfOk result (λ step. IsAcceptedStep seen.now.is_named (step_at seen.now.line seen.now.brief answer row.now (row_in asked.now state.now.office)) step) }
{
    if !seen.is_named && row.is_in(asked, state) {
        return Ok(None);
    }
    let after = AskedRow::of(alloc, asked, state)?;
    let before = row.copy(alloc)?;
    Ok(Some(Step {
        line: seen.line,
        event: seen.brief,
        answer,
        before,
        after,
    }))
}

/// The step of a refused event, where it names what is asked for.
fn refused_step(
    alloc: Global,
    row: &AskedRow,
    seen: &SeenEvent,
    answer: StepAnswer,
) -> Result<Option<Step>, AllocError>
    ensures { IfOk result (λ step. step ≡ refused_step seen.now.is_named (step_at seen.now.line seen.now.brief answer row.now row.now)) }
{
    if !seen.is_named {
        return Ok(None);
    }
    let before = row.copy(alloc)?;
    let after = row.copy(alloc)?;
    Ok(Some(Step {
        line: seen.line,
        event: seen.brief,
        answer,
        before,
        after,
    }))
}
