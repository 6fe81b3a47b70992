//! Cells that the traces of wagons and of orders share.
ghost use Rattle.std.specs.Prelude.{◌≡◌, ◌++◌, ◌∷◌, [], IfOk, OnOk, decimal, replicate, string_bytes};
ghost use Rattle.traces.specs.Cells.{IsMomentCell, answer_cells, code_cell, event_cells, front_cells, number_cell};

use crate::step::{Step, StepAnswer};
use rail_codes::{Code, Moment, Shape};
use std::alloc::{AllocError, Global};
use text_tables::{Clock, Row, shown};

/// Adds so many empty cells.
pub(crate) fn push_nothing(row: &mut Row, count: usize) -> Result<(), AllocError>
    ensures { OnOk result (row.new ≡ row.old ++ replicate count []) }
{
    for _cell in 0..count {
        row.push("")?;
    }
    Ok(())
}

/// A moment as a clock shows it; nothing where there is none.
pub(crate) fn moment_cell(
    alloc: Global,
    clock: &Clock<'_>,
    moment: Option<Moment>,
) -> Result<String, AllocError>
    ensures { IfOk result (λ cell. IsMomentCell clock.now moment (string_bytes cell)) }
{
    match moment {
        Some(moment) => shown(alloc, clock, moment),
        None => Ok(String::new(alloc)),
    }
}

/// Adds a code; an empty cell where there is none.
pub(crate) fn push_code_cell<S: Shape<ROOM>, const ROOM: usize>(
    row: &mut Row,
    code: Option<Code<S, ROOM>>,
) -> Result<(), AllocError>
    ensures { OnOk result (row.new ≡ row.old ++ code_cell code ∷ []) }
{
    match code {
        Some(code) => row.push_code(code.as_bytes()),
        None => row.push(""),
    }
}

/// Adds a number; an empty cell where there is none.
fn push_number_cell(row: &mut Row, number: Option<u64>) -> Result<(), AllocError>
    ensures { OnOk result (row.new ≡ row.old ++ number_cell number ∷ []) }
{
    match number {
        Some(number) => row.push_number(number),
        None => row.push(""),
    }
}

/// Adds the number of the entry and that of the refusal, of which there is one.
fn push_answer(row: &mut Row, answer: StepAnswer) -> Result<(), AllocError>
    ensures { OnOk result (row.new ≡ row.old ++ answer_cells answer) }
{
    match answer {
        StepAnswer::Accepted(entry) => push_accepted(row, entry),
        StepAnswer::Refused(number) => push_refused(row, number),
    }
}

fn push_accepted(row: &mut Row, entry: u64) -> Result<(), AllocError>
    ensures { OnOk result (row.new ≡ row.old ++ decimal entry ∷ [] ∷ []) }
{
    row.push_number(entry)?;
    row.push("")
}

fn push_refused(row: &mut Row, number: u32) -> Result<(), AllocError>
    ensures { OnOk result (row.new ≡ row.old ++ [] ∷ decimal number ∷ []) }
{
    row.push("")?;
    row.push_number(u64::from(number))
}

/// Adds the line, the answer and the word of the event.
pub(crate) fn push_front(row: &mut Row, step: &Step) -> Result<(), AllocError>
    ensures { OnOk result (row.new ≡ row.old ++ front_cells step.now) }
{
    row.push_number(step.line)?;
    push_answer(row, step.answer)?;
    row.push(step.event.word())
}

/// Adds the company, the moment and the version that the event names.
pub(crate) fn push_event(row: &mut Row, step: &Step, moment: String) -> Result<(), AllocError>
    ensures { OnOk result (row.new ≡ row.old ++ event_cells step.now (string_bytes moment)) }
{
    let company = step.event.company();
    let version = step.event.version();
    push_code_cell(row, company)?;
    row.push_cell(moment)?;
    push_number_cell(row, version)
}
