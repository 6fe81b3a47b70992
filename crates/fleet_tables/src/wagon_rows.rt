//! The wagons of an office as rows.
ghost use Rattle.std.specs.Prelude.{◌≡◌, ◌++◌, ◌∷◌, [], decimal, IfOk, OnOk, string_bytes};
ghost use Rattle.fleet_tables.specs.WagonRows.{IsFleetText, IsReadyCell, IsRowOfWagon, held_cell, promise_cell, sides_in, titles_in};
ghost use Rattle.text_tables.specs.RowsBelow.{AreBelow};
ghost use Rattle.wagons_and_orders.specs.StatusWords.{ready_moment, status_word};

use operating_db::OfficeState;
use place_names::Places;
use rail_codes::OrderId;
use std::alloc::{AllocError, Global};
use text_tables::{Clock, Form, Row, Side, push_place_in, rows_text, shown, titles_row};
use wagons_and_orders::{Status, WagonRow};

/// The titles for people.
const TITLES: [&str; 9] = [
    "wagon", "class", "limit", "status", "place", "last", "ready", "held", "order",
];

/// The titles for a program.
const FIELDS: [&str; 10] = [
    "wagon",
    "class",
    "load_limit",
    "status",
    "place",
    "place_name",
    "last",
    "ready",
    "held",
    "order",
];

/// At which side the cells stand for people.
const TITLE_SIDES: [Side; 9] = [
    Side::Left,
    Side::Left,
    Side::Right,
    Side::Left,
    Side::Left,
    Side::Left,
    Side::Left,
    Side::Left,
    Side::Left,
];

/// At which side the cells stand for a program: numbers at the right.
const FIELD_SIDES: [Side; 10] = [
    Side::Left,
    Side::Left,
    Side::Right,
    Side::Left,
    Side::Left,
    Side::Left,
    Side::Left,
    Side::Left,
    Side::Left,
    Side::Left,
];

/// The wagons of an office in a form: a row for each wagon, ascending by number. For people the titles are `wagon`, `class`,
/// `limit`, `status`, `place`, `last`, `ready`, `held` and `order`, and a place has its name behind it. For a program they are
/// `wagon,class,load_limit,status,place,place_name,last,ready,held,order`. The load limit is in kg. `last` is the moment of the
/// wagon's last message; `ready` is since when an empty wagon is ready; `held` has the word `held` or nothing; `order` is the
/// order that the wagon is promised to. In JSON the load limit is a number, and each other member is a string or `null`.
pub fn fleet_text(
    alloc: Global,
    places: &Places,
    clock: &Clock<'_>,
    form: Form,
    state: &OfficeState,
) -> Result<Vec<u8>, AllocError>
    ensures { IfOk result (λ text. IsFleetText places.now clock.now form state.now.office.wagons text.items) }
{
    let rows = all_rows(alloc, places, clock, form, state.wagon_rows())?;
    // All rows have as many cells as the titles, so CSV is refused for want of memory alone.
    rows_text(alloc, form, sides(form), &rows)
}

/// The titles, and the row of each wagon.
fn all_rows(
    alloc: Global,
    places: &Places,
    clock: &Clock<'_>,
    form: Form,
    wagons: &[WagonRow],
) -> Result<Vec<Row>, AllocError>
    ensures { IfOk result (λ rows. AreBelow (IsRowOfWagon form places.now clock.now) (titles_in form) wagons.now rows.items) }
{
    let mut rows = Vec::new(alloc);
    rows.push(titles(alloc, form)?)?;
    for wagon in wagons {
        rows.push(wagon_row(alloc, places, clock, form, wagon)?)?;
    }
    Ok(rows)
}

/// The titles in a form.
fn titles(alloc: Global, form: Form) -> Result<Row, AllocError>
    ensures { IfOk result (λ row. row ≡ titles_in form) }
{
    match form {
        Form::Table => titles_row(alloc, &TITLES),
        Form::Csv | Form::Json => titles_row(alloc, &FIELDS),
    }
}

/// At which side the cells of a form stand.
fn sides(form: Form) -> &'static [Side]
    ensures { result.now ≡ sides_in form }
{
    match form {
        Form::Table => &TITLE_SIDES,
        Form::Csv | Form::Json => &FIELD_SIDES,
    }
}

/// The row of a wagon.
fn wagon_row(
    alloc: Global,
    places: &Places,
    clock: &Clock<'_>,
    form: Form,
    wagon: &WagonRow,
) -> Result<Row, AllocError>
    ensures { IfOk result (IsRowOfWagon form places.now clock.now wagon.now) }
{
    let last = shown(alloc, clock, wagon.last)?;
    let ready = ready_cell(alloc, clock, wagon.status)?;
    let mut row = Row::new(alloc);
    push_front(&mut row, wagon)?;
    push_place_in(alloc, &mut row, form, places, wagon.status.place())?;
    row.push_cell(last)?;
    row.push_cell(ready)?;
    push_back(&mut row, wagon.held, wagon.promise)?;
    Ok(row)
}

/// Since when a wagon is ready; nothing where it isn't empty.
fn ready_cell(alloc: Global, clock: &Clock<'_>, status: Status) -> Result<String, AllocError>
    ensures { IfOk result (λ cell. IsReadyCell clock.now (ready_moment status) (string_bytes cell)) }
{
    match status.ready() {
        Some(ready) => shown(alloc, clock, ready),
        None => Ok(String::new(alloc)),
    }
}

/// Adds a wagon's number, class, load limit and status.
fn push_front(row: &mut Row, wagon: &WagonRow) -> Result<(), AllocError>
    ensures { OnOk result (row.new ≡ row.old ++ wagon.now.number ∷ wagon.now.class ∷ decimal wagon.now.load_limit ∷ status_word wagon.now.status ∷ []) }
{
    row.push_code(wagon.number.digits())?;
    row.push_code(wagon.class.as_bytes())?;
    row.push_number(u64::from(wagon.load_limit))?;
    row.push(wagon.status.word())
}

/// Adds whether a wagon is held, and the order that it is promised to.
fn push_back(row: &mut Row, held: bool, promise: Option<OrderId>) -> Result<(), AllocError>
    ensures { OnOk result (row.new ≡ row.old ++ held_cell held ∷ promise_cell promise ∷ []) }
{
    row.push(held_cell(held))?;
    push_promise(row, promise)
}

/// Whether a wagon is held, in a word.
fn held_cell(held: bool) -> &'static str
    ensures { result.now ≡ held_cell held }
{
    if held { "held" } else { "" }
}

/// Adds the order that a wagon is promised to, or nothing.
fn push_promise(row: &mut Row, promise: Option<OrderId>) -> Result<(), AllocError>
    ensures { OnOk result (row.new ≡ row.old ++ promise_cell promise ∷ []) }
{
    match promise {
        Some(order) => row.push_code(order.as_bytes()),
        None => row.push(""),
    }
}
