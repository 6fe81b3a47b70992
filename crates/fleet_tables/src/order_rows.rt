//! The orders of an office as rows.
ghost use Rattle.std.specs.Prelude.{◌≡◌, ◌++◌, ◌∷◌, [], decimal, IfOk, OnOk};
ghost use Rattle.dispatch_sheet.specs.Sheet.{state_word};
ghost use Rattle.fleet_tables.specs.OrderRows.{IsOrdersText, IsRowOfOrder, sides_in, titles_in, words_cell};
ghost use Rattle.text_tables.specs.RowsBelow.{AreBelow};
ghost use Rattle.wagons_and_orders.specs.Lack.{lack_of};
ghost use Rattle.wagons_and_orders.specs.States.{state_of};

use dispatch_sheet::state_word;
use move_messages::OrderText;
use operating_db::OfficeState;
use place_names::Places;
use std::alloc::{AllocError, Global};
use text_tables::{Clock, Form, Row, Side, push_place_in, rows_text, shown, titles_row};
use wagons_and_orders::OrderRow;

/// The titles for people.
const TITLES: [&str; 11] = [
    "order", "place", "classes", "load", "latest", "penalty", "state", "wanted", "missing",
    "promised", "filled",
];

/// The titles for a program.
const FIELDS: [&str; 12] = [
    "order",
    "place",
    "place_name",
    "classes",
    "load",
    "latest",
    "penalty",
    "state",
    "wanted",
    "missing",
    "promised",
    "filled",
];

/// At which side the cells stand for people: numbers at the right.
const TITLE_SIDES: [Side; 11] = [
    Side::Left,
    Side::Left,
    Side::Left,
    Side::Right,
    Side::Left,
    Side::Right,
    Side::Left,
    Side::Right,
    Side::Right,
    Side::Left,
    Side::Left,
];

/// At which side the cells stand for a program.
const FIELD_SIDES: [Side; 12] = [
    Side::Left,
    Side::Left,
    Side::Left,
    Side::Left,
    Side::Right,
    Side::Left,
    Side::Right,
    Side::Left,
    Side::Right,
    Side::Right,
    Side::Left,
    Side::Left,
];

/// The orders of an office in a form: a row for each order, as placed. For people the titles are `order`, `place`, `classes`,
/// `load`, `latest`, `penalty`, `state`, `wanted`, `missing`, `promised` and `filled`, and a place has its name behind it. For
/// a program they are `order,place,place_name,classes,load,latest,penalty,state,wanted,missing,promised,filled`. The load is
/// that of each wagon, in kg, and the penalty that of each missing wagon, in km. The state is `waiting`, `promised`, `filled`
/// or `withdrawn`. `promised` has the wagons promised to the order, ascending by number, and `filled` those that filled it, as
/// delivered; spaces part them, and classes too. In JSON `load`, `penalty`, `wanted` and `missing` are numbers, and each other
/// member is a string or `null`.
pub fn orders_text(
    alloc: Global,
    places: &Places,
    clock: &Clock<'_>,
    form: Form,
    state: &OfficeState,
) -> Result<Vec<u8>, AllocError>
    ensures { IfOk result (λ text. IsOrdersText places.now clock.now form state.now.office.orders text.items) }
{
    let rows = all_rows(alloc, places, clock, form, state.order_rows())?;
    // All rows have as many cells as the titles, so CSV is refused for want of memory alone.
    rows_text(alloc, form, sides(form), &rows)
}

/// The titles, and the row of each order.
fn all_rows(
    alloc: Global,
    places: &Places,
    clock: &Clock<'_>,
    form: Form,
    orders: &[OrderRow],
) -> Result<Vec<Row>, AllocError>
    ensures { IfOk result (λ rows. AreBelow (IsRowOfOrder form places.now clock.now) (titles_in form) orders.now rows.items) }
{
    let mut rows = Vec::new(alloc);
    rows.push(titles(alloc, form)?)?;
    for order in orders {
        rows.push(order_row(alloc, places, clock, form, order)?)?;
    }
    Ok(rows)
}

/// The titles in a form.
fn titles(alloc: Global, form: Form) -> Result<Row, AllocError>
    ensures { IfOk result (λ row. row ≡ titles_in form) }
{
    match form {
        Form::Table => titles_row(alloc, &TITLES),
        Form::Csv | Form::Json => titles_row(alloc, &FIELDS),
    }
}

/// At which side the cells of a form stand.
fn sides(form: Form) -> &'static [Side]
    ensures { result.now ≡ sides_in form }
{
    match form {
        Form::Table => &TITLE_SIDES,
        Form::Csv | Form::Json => &FIELD_SIDES,
    }
}

/// The row of an order.
fn order_row(
    alloc: Global,
    places: &Places,
    clock: &Clock<'_>,
    form: Form,
    order: &OrderRow,
) -> Result<Row, AllocError>
    ensures { IfOk result (IsRowOfOrder form places.now clock.now order.now) }
{
    let text = order.text();
    let latest = shown(alloc, clock, text.latest())?;
    let mut row = Row::new(alloc);
    row.push_code(text.id().as_bytes())?;
    push_place_in(alloc, &mut row, form, places, text.place())?;
    push_front(&mut row, text)?;
    row.push_cell(latest)?;
    push_back(&mut row, order)?;
    Ok(row)
}

/// Adds the classes that an order accepts, and its load.
fn push_front(row: &mut Row, text: &OrderText) -> Result<(), AllocError>
    ensures { OnOk result (row.new ≡ row.old ++ words_cell text.now.classes ∷ decimal text.now.load ∷ []) }
{
    row.push_words(text.classes().as_slice())?;
    row.push_number(u64::from(text.load()))
}

/// Adds an order's penalty, its state, how many wagons it wants and misses, and its wagons.
fn push_back(row: &mut Row, order: &OrderRow) -> Result<(), AllocError>
    ensures { OnOk result (row.new ≡ row.old ++ decimal order.now.text.penalty ∷ state_word (state_of order.now) ∷ decimal order.now.text.wagons ∷ decimal (lack_of order.now) ∷ words_cell order.now.promised ∷ words_cell order.now.filled ∷ []) }
{
    push_penalty(row, order)?;
    push_counts(row, order)?;
    push_wagons(row, order)
}

/// Adds an order's penalty and its state.
fn push_penalty(row: &mut Row, order: &OrderRow) -> Result<(), AllocError>
    ensures { OnOk result (row.new ≡ row.old ++ decimal order.now.text.penalty ∷ state_word (state_of order.now) ∷ []) }
{
    row.push_number(order.text().penalty())?;
    row.push(state_word(order.state()))
}

/// Adds how many wagons an order wants, and how many it misses.
fn push_counts(row: &mut Row, order: &OrderRow) -> Result<(), AllocError>
    ensures { OnOk result (row.new ≡ row.old ++ decimal order.now.text.wagons ∷ decimal (lack_of order.now) ∷ []) }
{
    row.push_number(u64::from(order.text().wagons()))?;
    row.push_number(u64::from(order.lack()))
}

/// Adds the wagons promised to an order, and those that filled it.
fn push_wagons(row: &mut Row, order: &OrderRow) -> Result<(), AllocError>
    ensures { OnOk result (row.new ≡ row.old ++ words_cell order.now.promised ∷ words_cell order.now.filled ∷ []) }
{
    let promised = order.promised();
    let filled = order.filled();
    row.push_words(promised)?;
    row.push_words(filled)
}
