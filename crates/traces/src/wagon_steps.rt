//! The steps of a wagon as rows.
ghost use Rattle.std.specs.Prelude.{◌≡◌, ◌++◌, ◌∷◌, IfOk, OnOk, string_bytes};
ghost use Rattle.fleet_tables.specs.WagonRows.{held_cell};
ghost use Rattle.text_tables.specs.PlaceCells.{place_in};
ghost use Rattle.text_tables.specs.RowsBelow.{AreBelow};
ghost use Rattle.traces.specs.TraceText.{IsWagonText};
ghost use Rattle.traces.specs.WagonSteps.{IsRowOfWagonStep, now_cells, now_of, now_width, promise_cells, ready_cells, ready_of, sides_in, titles_in, was_back, was_cells, was_of, was_width};
ghost use Rattle.wagons_and_orders.specs.StatusTable.{place_of};
ghost use Rattle.wagons_and_orders.specs.StatusWords.{status_word};

use crate::cells::{moment_cell, push_code_cell, push_event, push_front, push_nothing};
use crate::step::Step;
use place_names::Places;
use rail_codes::Moment;
use std::alloc::{AllocError, Global};
use text_tables::{Clock, Form, Row, Side, push_place_in, rows_text, titles_row};
use wagons_and_orders::{Status, WagonRow};

/// The titles for people.
const TITLES: [&str; 13] = [
    "line", "entry", "refused", "event", "company", "moment", "version", "was", "from", "status",
    "place", "held", "order",
];

/// The titles for a program.
const FIELDS: [&str; 18] = [
    "line",
    "entry",
    "refused",
    "event",
    "company",
    "moment",
    "version",
    "was_status",
    "was_place",
    "was_place_name",
    "was_held",
    "was_order",
    "status",
    "place",
    "place_name",
    "ready",
    "held",
    "order",
];

/// At which side the cells stand for people: numbers at the right.
const TITLE_SIDES: [Side; 13] = [
    Side::Right,
    Side::Right,
    Side::Right,
    Side::Left,
    Side::Left,
    Side::Left,
    Side::Right,
    Side::Left,
    Side::Left,
    Side::Left,
    Side::Left,
    Side::Left,
    Side::Left,
];

/// At which side the cells stand for a program.
const FIELD_SIDES: [Side; 18] = [
    Side::Right,
    Side::Right,
    Side::Right,
    Side::Left,
    Side::Left,
    Side::Left,
    Side::Right,
    Side::Left,
    Side::Left,
    Side::Left,
    Side::Left,
    Side::Left,
    Side::Left,
    Side::Left,
    Side::Left,
    Side::Left,
    Side::Left,
    Side::Left,
];

/// The steps of a wagon in a form.
pub(crate) fn wagon_text(
    alloc: Global,
    places: &Places,
    clock: &Clock<'_>,
    form: Form,
    steps: &[Step],
) -> Result<Vec<u8>, AllocError>
    ensures { IfOk result (λ text. IsWagonText places.now clock.now form steps.now text.items) }
{
    let rows = all_rows(alloc, places, clock, form, steps)?;
    // All rows have as many cells as the titles, so CSV is refused for want of memory alone.
    rows_text(alloc, form, sides(form), &rows)
}

/// The titles, and the row of each step.
fn all_rows(
    alloc: Global,
    places: &Places,
    clock: &Clock<'_>,
    form: Form,
    steps: &[Step],
) -> Result<Vec<Row>, AllocError>
    ensures { IfOk result (λ rows. AreBelow (IsRowOfWagonStep form places.now clock.now) (titles_in form) steps.now rows.items) }
{
    let mut rows = Vec::new(alloc);
    rows.push(titles(alloc, form)?)?;
    for step in steps {
        rows.push(step_row(alloc, places, clock, form, step)?)?;
    }
    Ok(rows)
}

/// The titles in a form.
fn titles(alloc: Global, form: Form) -> Result<Row, AllocError>
    ensures { IfOk result (λ row. row ≡ titles_in form) }
{
    match form {
        Form::Table => titles_row(alloc, &TITLES),
        Form::Csv | Form::Json => titles_row(alloc, &FIELDS),
    }
}

/// At which side the cells of a form stand.
fn sides(form: Form) -> &'static [Side]
    ensures { result.now ≡ sides_in form }
{
    match form {
        Form::Table => &TITLE_SIDES,
        Form::Csv | Form::Json => &FIELD_SIDES,
    }
}

/// The row of a step.
fn step_row(
    alloc: Global,
    places: &Places,
    clock: &Clock<'_>,
    form: Form,
    step: &Step,
) -> Result<Row, AllocError>
    ensures { IfOk result (IsRowOfWagonStep form places.now clock.now step.now) }
{
    let moment = moment_cell(alloc, clock, step.event.moment())?;
    let ready = moment_cell(alloc, clock, ready_of(&step.after.wagon))?;
    let mut row = Row::new(alloc);
    push_front(&mut row, step)?;
    push_event(&mut row, step, moment)?;
    push_was(alloc, &mut row, form, places, &step.before.wagon)?;
    push_now(alloc, &mut row, form, places, &step.after.wagon, ready)?;
    Ok(row)
}

/// Since when a wagon is ready, where there is one and it is empty.
fn ready_of(wagon: &Option<WagonRow>) -> Option<Moment>
    ensures { result ≡ ready_of wagon.now }
{
    match wagon {
        Some(wagon) => wagon.status.ready(),
        None => None,
    }
}

/// Adds the wagon before a step.
fn push_was(
    alloc: Global,
    row: &mut Row,
    form: Form,
    places: &Places,
    wagon: &Option<WagonRow>,
) -> Result<(), AllocError>
    ensures { OnOk result (row.new ≡ row.old ++ was_cells form places.now wagon.now) }
{
    match wagon {
        Some(wagon) => push_was_of(alloc, row, form, places, wagon),
        None => push_nothing(row, was_width(form)),
    }
}

/// Adds the wagon after a step.
fn push_now(
    alloc: Global,
    row: &mut Row,
    form: Form,
    places: &Places,
    wagon: &Option<WagonRow>,
    ready: String,
) -> Result<(), AllocError>
    ensures { OnOk result (row.new ≡ row.old ++ now_cells form places.now wagon.now (string_bytes ready)) }
{
    match wagon {
        Some(wagon) => push_now_of(alloc, row, form, places, wagon, ready),
        None => push_nothing(row, now_width(form)),
    }
}

/// How many cells there are of a wagon before a step.
fn was_width(form: Form) -> usize
    ensures { result ≡ was_width form }
{
    match form {
        Form::Table => 2,
        Form::Csv | Form::Json => 5,
    }
}

/// How many cells there are of a wagon after a step.
fn now_width(form: Form) -> usize
    ensures { result ≡ now_width form }
{
    match form {
        Form::Table => 4,
        Form::Csv | Form::Json => 6,
    }
}

/// Adds a row as it was: for people its status and its place, for a program its hold and its promise too.
fn push_was_of(
    alloc: Global,
    row: &mut Row,
    form: Form,
    places: &Places,
    wagon: &WagonRow,
) -> Result<(), AllocError>
    ensures { OnOk result (row.new ≡ row.old ++ was_of form places.now wagon.now) }
{
    push_status(alloc, row, form, places, wagon.status)?;
    push_was_back(row, form, wagon)
}

/// Adds a row as it is: its status, its place, for a program since when it is ready, its hold and its promise.
fn push_now_of(
    alloc: Global,
    row: &mut Row,
    form: Form,
    places: &Places,
    wagon: &WagonRow,
    ready: String,
) -> Result<(), AllocError>
    ensures { OnOk result (row.new ≡ row.old ++ now_of form places.now wagon.now (string_bytes ready)) }
{
    push_status(alloc, row, form, places, wagon.status)?;
    push_ready(row, form, ready)?;
    push_promise(row, wagon)
}

/// Adds a status and its place.
fn push_status(
    alloc: Global,
    row: &mut Row,
    form: Form,
    places: &Places,
    status: Status,
) -> Result<(), AllocError>
    ensures { OnOk result (row.new ≡ row.old ++ (status_word status ∷ place_in form places.now (place_of status))) }
{
    row.push(status.word())?;
    push_place_in(alloc, row, form, places, status.place())
}

/// Adds what stands behind the place of a row as it was.
fn push_was_back(row: &mut Row, form: Form, wagon: &WagonRow) -> Result<(), AllocError>
    ensures { OnOk result (row.new ≡ row.old ++ was_back form wagon.now) }
{
    match form {
        Form::Table => Ok(()),
        Form::Csv | Form::Json => push_promise(row, wagon),
    }
}

/// Adds since when a wagon is ready, for a program.
fn push_ready(row: &mut Row, form: Form, ready: String) -> Result<(), AllocError>
    ensures { OnOk result (row.new ≡ row.old ++ ready_cells form (string_bytes ready)) }
{
    match form {
        Form::Table => Ok(()),
        Form::Csv | Form::Json => row.push_cell(ready),
    }
}

/// Adds whether a wagon is held, and the order that it is promised to.
fn push_promise(row: &mut Row, wagon: &WagonRow) -> Result<(), AllocError>
    ensures { OnOk result (row.new ≡ row.old ++ promise_cells wagon.now) }
{
    let promise = wagon.promise;
    row.push(held_cell(wagon.held))?;
    push_code_cell(row, promise)
}

/// Whether a wagon is held, in a word.
fn held_cell(held: bool) -> &'static str
    ensures { result.now ≡ held_cell held }
{
    if held { "held" } else { "" }
}
