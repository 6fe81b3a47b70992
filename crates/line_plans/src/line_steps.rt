//! What a line of a journal does to a book, and which problem it is about.
ghost use Rattle.std.specs.Prelude.{◌≡◌, ◌≢◌, IfOk, OnErr, OnOk};
ghost use Rattle.commit_book.specs.Books.{answer_of};
ghost use Rattle.commit_book.specs.declared.answer.Answer.TheVariants.{Refused};
ghost use Rattle.faults.specs.declared.faults.Refusal.TheVariants.{OutOfMemory};
ghost use Rattle.line_plans.specs.PlanLines.{BringsBegin, BringsCommand, BringsEvent, BringsLine, accepted_of, named_by};
ghost use Rattle.line_plans.specs.inner.Remembered.{IsKeptProblem};

use crate::problem_key::ProblemKey;
use crate::snapshot_book::SnapshotBook;
use commit_book::{Refusal, Reply};
use line_fields::{Command, LineFault, read_line};
use move_messages::Event;
use rail_codes::Moment;
use std::alloc::{AllocError, Global};

/// Brings a line to a book: the problem that it is about, where it is about one. That problem is kept. `Err` only when out of
/// memory; nothing has changed then.
pub(crate) fn bring_line(
    alloc: Global,
    book: &mut SnapshotBook,
    bytes: &[u8],
) -> Result<Option<ProblemKey>, AllocError>
    ensures brought { IfOk result (λ problem. BringsLine book.old bytes.now problem book.new) }
    ensures kept { IfOk result (IsKeptProblem book.new) }
    ensures unchanged { OnErr result (book.new ≡ book.old) }
{
    match read_line(alloc, bytes) {
        Ok(command) => bring_command(alloc, book, command),
        Err(LineFault::OutOfMemory) => Err(AllocError),
        Err(_) => Ok(None),
    }
}

/// The same of what the line says.
fn bring_command(
    alloc: Global,
    book: &mut SnapshotBook,
    command: Command,
) -> Result<Option<ProblemKey>, AllocError>
    ensures brought { IfOk result (λ problem. BringsCommand book.old command problem book.new) }
    ensures kept { IfOk result (IsKeptProblem book.new) }
    ensures unchanged { OnErr result (book.new ≡ book.old) }
{
    match command {
        Command::Event(event) => bring_event(alloc, book, event),
        Command::Begin(at) => begin(alloc, book, at),
        Command::Plan(at) => begin(alloc, book, at),
        Command::Sheet => Ok(None),
    }
}

/// Begins a problem.
fn begin(
    alloc: Global,
    book: &mut SnapshotBook,
    at: Moment,
) -> Result<Option<ProblemKey>, AllocError>
    ensures brought { IfOk result (λ problem. BringsBegin book.old at problem book.new) }
    ensures kept { IfOk result (IsKeptProblem book.new) }
    ensures unchanged { OnErr result (book.new ≡ book.old) }
{
    let key = book.begin(alloc, at)?;
    Ok(Some(key))
}

/// Submits an event.
fn bring_event(
    alloc: Global,
    book: &mut SnapshotBook,
    event: Event,
) -> Result<Option<ProblemKey>, AllocError>
    ensures brought { IfOk result (λ problem. BringsEvent book.old event problem book.new) }
    ensures kept { IfOk result (IsKeptProblem book.new) }
    ensures unchanged { OnErr result (book.new ≡ book.old) }
{
    let named = named_by(&event);
    let answer = book.submit(alloc, event);
    accepted_of(named, answer)
}

/// The problem that an event names.
fn named_by(event: &Event) -> Option<ProblemKey>
    ensures { result ≡ named_by event.now }
{
    match event {
        Event::Commit(commit) => Some(ProblemKey {
            version: commit.version,
            at: commit.at,
        }),
        Event::Message(_) | Event::Place(_) | Event::Withdraw(_) | Event::Revise(_) => None,
    }
}

/// The problem that an event is about, by its answer. `Err` where memory was refused.
fn accepted_of(
    named: Option<ProblemKey>,
    answer: Result<Reply, Refusal>,
) -> Result<Option<ProblemKey>, AllocError>
    ensures problem { IfOk result (λ problem. problem ≡ accepted_of named (answer_of answer)) }
    ensures memory { OnOk result (answer_of answer ≢ Refused OutOfMemory) }
    ensures refused { OnErr result (answer_of answer ≡ Refused OutOfMemory) }
{
    match answer {
        Ok(Reply::Accepted(_)) => Ok(named),
        Ok(Reply::Repeated(_)) => Ok(None),
        Err(Refusal::OutOfMemory) => Err(AllocError),
        Err(_) => Ok(None),
    }
}
