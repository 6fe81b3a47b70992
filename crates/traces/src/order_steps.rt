//! The steps of an order as rows.
ghost use Rattle.std.specs.Prelude.{◌≡◌, ◌++◌, ◌∷◌, [], decimal, IfOk, OnOk, string_bytes};
ghost use Rattle.dispatch_sheet.specs.Sheet.{state_word};
ghost use Rattle.fleet_tables.specs.OrderRows.{words_cell};
ghost use Rattle.text_tables.specs.RowsBelow.{AreBelow};
ghost use Rattle.traces.specs.OrderSteps.{IsRowOfOrderStep, field_cells, now_cells, order_step_cells, sides_in, table_cells, titles_in, wagon_cells, was_cells};
ghost use Rattle.traces.specs.TraceText.{IsOrderText};
ghost use Rattle.wagons_and_orders.specs.Lack.{lack_of};
ghost use Rattle.wagons_and_orders.specs.States.{state_of};

use crate::cells::{moment_cell, push_code_cell, push_event, push_front, push_nothing};
use crate::step::Step;
use dispatch_sheet::state_word;
use std::alloc::{AllocError, Global};
use text_tables::{Clock, Form, Row, Side, rows_text, titles_row};
use wagons_and_orders::OrderRow;

/// The titles for people.
const TITLES: [&str; 12] = [
    "line", "entry", "refused", "event", "wagon", "company", "moment", "version", "state",
    "missing", "promised", "filled",
];

/// The titles for a program.
const FIELDS: [&str; 15] = [
    "line",
    "entry",
    "refused",
    "event",
    "company",
    "moment",
    "version",
    "wagon",
    "was_state",
    "was_promised",
    "was_filled",
    "state",
    "missing",
    "promised",
    "filled",
];

/// At which side the cells stand for people: numbers at the right.
const TITLE_SIDES: [Side; 12] = [
    Side::Right,
    Side::Right,
    Side::Right,
    Side::Left,
    Side::Left,
    Side::Left,
    Side::Left,
    Side::Right,
    Side::Left,
    Side::Right,
    Side::Left,
    Side::Left,
];

/// At which side the cells stand for a program.
const FIELD_SIDES: [Side; 15] = [
    Side::Right,
    Side::Right,
    Side::Right,
    Side::Left,
    Side::Left,
    Side::Left,
    Side::Right,
    Side::Left,
    Side::Left,
    Side::Left,
    Side::Left,
    Side::Left,
    Side::Right,
    Side::Left,
    Side::Left,
];

/// The steps of an order in a form.
pub(crate) fn order_text(
    alloc: Global,
    clock: &Clock<'_>,
    form: Form,
    steps: &[Step],
) -> Result<Vec<u8>, AllocError>
    ensures { IfOk result (λ text. IsOrderText clock.now form steps.now text.items) }
{
    let rows = all_rows(alloc, clock, form, steps)?;
    // All rows have as many cells as the titles, so CSV is refused for want of memory alone.
    rows_text(alloc, form, sides(form), &rows)
}

/// The titles, and the row of each step.
fn all_rows(
    alloc: Global,
    clock: &Clock<'_>,
    form: Form,
    steps: &[Step],
) -> Result<Vec<Row>, AllocError>
    ensures { IfOk result (λ rows. AreBelow (IsRowOfOrderStep form clock.now) (titles_in form) steps.now rows.items) }
{
    let mut rows = Vec::new(alloc);
    rows.push(titles(alloc, form)?)?;
    for step in steps {
        rows.push(step_row(alloc, clock, form, step)?)?;
    }
    Ok(rows)
}

/// The titles in a form.
fn titles(alloc: Global, form: Form) -> Result<Row, AllocError>
    ensures { IfOk result (λ row. row ≡ titles_in form) }
{
    match form {
        Form::Table => titles_row(alloc, &TITLES),
        Form::Csv | Form::Json => titles_row(alloc, &FIELDS),
    }
}

/// At which side the cells of a form stand.
fn sides(form: Form) -> &'static [Side]
    ensures { result.now ≡ sides_in form }
{
    match form {
        Form::Table => &TITLE_SIDES,
        Form::Csv | Form::Json => &FIELD_SIDES,
    }
}

/// The row of a step.
fn step_row(alloc: Global, clock: &Clock<'_>, form: Form, step: &Step) -> Result<Row, AllocError>
    ensures { IfOk result (IsRowOfOrderStep form clock.now step.now) }
{
    let moment = moment_cell(alloc, clock, step.event.moment())?;
    let mut row = Row::new(alloc);
    push_step(&mut row, form, step, moment)?;
    Ok(row)
}

/// Adds the cells of a step.
fn push_step(row: &mut Row, form: Form, step: &Step, moment: String) -> Result<(), AllocError>
    ensures { OnOk result (row.new ≡ row.old ++ order_step_cells form step.now (string_bytes moment)) }
{
    match form {
        Form::Table => push_for_people(row, step, moment),
        Form::Csv | Form::Json => push_for_program(row, step, moment),
    }
}

/// Adds the cells of a step for people.
fn push_for_people(row: &mut Row, step: &Step, moment: String) -> Result<(), AllocError>
    ensures { OnOk result (row.new ≡ row.old ++ table_cells step.now (string_bytes moment)) }
{
    push_front(row, step)?;
    push_wagon(row, step)?;
    push_event(row, step, moment)?;
    push_now(row, &step.after.order)
}

/// Adds the cells of a step for a program.
fn push_for_program(row: &mut Row, step: &Step, moment: String) -> Result<(), AllocError>
    ensures { OnOk result (row.new ≡ row.old ++ field_cells step.now (string_bytes moment)) }
{
    push_front(row, step)?;
    push_event(row, step, moment)?;
    push_wagon(row, step)?;
    push_was(row, &step.before.order)?;
    push_now(row, &step.after.order)
}

/// Adds the wagon of a step's message.
fn push_wagon(row: &mut Row, step: &Step) -> Result<(), AllocError>
    ensures { OnOk result (row.new ≡ row.old ++ wagon_cells step.now) }
{
    let wagon = step.event.wagon();
    push_code_cell(row, wagon)
}

/// Adds the order before a step.
fn push_was(row: &mut Row, order: &Option<OrderRow>) -> Result<(), AllocError>
    ensures { OnOk result (row.new ≡ row.old ++ was_cells order.now) }
{
    match order {
        Some(order) => push_was_of(row, order),
        None => push_nothing(row, 3),
    }
}

/// Adds the order after a step.
fn push_now(row: &mut Row, order: &Option<OrderRow>) -> Result<(), AllocError>
    ensures { OnOk result (row.new ≡ row.old ++ now_cells order.now) }
{
    match order {
        Some(order) => push_now_of(row, order),
        None => push_nothing(row, 4),
    }
}

/// Adds a row as it was: its state and its wagons.
fn push_was_of(row: &mut Row, order: &OrderRow) -> Result<(), AllocError>
    ensures { OnOk result (row.new ≡ row.old ++ state_word (state_of order.now) ∷ words_cell order.now.promised ∷ words_cell order.now.filled ∷ []) }
{
    row.push(state_word(order.state()))?;
    push_wagons(row, order)
}

/// Adds a row as it is: its state, how many wagons it misses, and its wagons.
fn push_now_of(row: &mut Row, order: &OrderRow) -> Result<(), AllocError>
    ensures { OnOk result (row.new ≡ row.old ++ state_word (state_of order.now) ∷ decimal (lack_of order.now) ∷ words_cell order.now.promised ∷ words_cell order.now.filled ∷ []) }
{
    row.push(state_word(order.state()))?;
    row.push_number(u64::from(order.lack()))?;
    push_wagons(row, order)
}

/// Adds the wagons promised to an order, and those that filled it.
fn push_wagons(row: &mut Row, order: &OrderRow) -> Result<(), AllocError>
    ensures { OnOk result (row.new ≡ row.old ++ words_cell order.now.promised ∷ words_cell order.now.filled ∷ []) }
{
    let promised = order.promised();
    let filled = order.filled();
    row.push_words(promised)?;
    row.push_words(filled)
}
