//! Movements as a text for people.
ghost use Rattle.std.specs.Prelude.{◌≡◌, ◌++◌, IfOk, OnOk, decimal, string_bytes};
ghost use Rattle.movements.specs.Rows.{IsMovementRow, IsOrderRow, IsSilentRow, movement_titles, order_titles, silent_titles};
ghost use Rattle.movements.specs.TableText.{IsTableText, head_line, moment_words, movements_text, orders_text, silent_text, version_words};
ghost use Rattle.movements.specs.inner.Made.{IsTextOf};
ghost use Rattle.text_tables.specs.RowsBelow.{AreBelow};
ghost use Rattle.movements.specs.inner.Head.{AddsHead};

use crate::movement::Movement;
use crate::movement_list::MovementList;
use crate::need::OrderNeed;
use crate::rows::{
    MOVEMENT_TITLES, ORDER_TITLES, SILENT_TITLES, movement_row, order_row, silent_row,
};
use crate::silence::SilentWagon;
use itoa::Buffer;
use place_names::Places;
use std::alloc::{AllocError, Global};
use text_tables::{Clock, Row, Side, push_aligned, shown, titles_row};

/// At which side the cells of movements stand.
const MOVEMENT_SIDES: [Side; 12] = [
    Side::Left,
    Side::Left,
    Side::Left,
    Side::Left,
    Side::Left,
    Side::Left,
    Side::Left,
    Side::Right,
    Side::Right,
    Side::Left,
    Side::Left,
    Side::Left,
];

/// At which side the cells of orders stand.
const ORDER_SIDES: [Side; 9] = [
    Side::Left,
    Side::Left,
    Side::Left,
    Side::Right,
    Side::Right,
    Side::Right,
    Side::Right,
    Side::Right,
    Side::Left,
];

/// At which side the cells of wagons that haven't been heard from stand.
const SILENT_SIDES: [Side; 5] = [Side::Left, Side::Left, Side::Left, Side::Left, Side::Left];

/// Movements for people. The first line is `movements of version VERSION at MOMENT`. Below an empty line stands a table with a
/// line for each movement. Its titles are `wagon`, `class`, `status`, `place`, `since`, `order`, `to`, `km`, `minutes`,
/// `arrival`, `latest` and `state`. The state is `N min to spare`, rounded down, `late by N min`, rounded up, or
/// `no way`. An arrival past 2099 is empty.
///
/// If there are orders, a table of them stands behind another empty line. Its titles are `order`, `place`, `latest`, `wanted`,
/// `filled`, `promised`, `missing`, `penalty` and `state`. The penalty is that of each missing wagon, in km. The state is
/// `short` where wagons are missing, `past` where the order is open past its latest moment, or `short and past`; else it is
/// `filled`, `filled late by N min`, or `promised`.
///
/// If wagons haven't been heard from, a third table has them, under `silent`, `class`, `status`, `place` and `since`. A name of
/// `places` stands behind its place.
pub fn table_text(
    alloc: Global,
    places: &Places,
    clock: &Clock<'_>,
    list: &MovementList,
) -> Result<String, AllocError>
    ensures { IfOk result (λ text. IsTableText places.now clock.now list.now (string_bytes text)) }
{
    let mut text = String::new(alloc);
    push_head(alloc, &mut text, clock, list)?;
    push_movements(alloc, &mut text, places, clock, &list.movements)?;
    push_orders(alloc, &mut text, places, clock, &list.orders)?;
    push_silent(alloc, &mut text, places, clock, &list.silent)?;
    Ok(text)
}

/// Adds the version and the moment.
fn push_head(
    alloc: Global,
    text: &mut String,
    clock: &Clock<'_>,
    list: &MovementList,
) -> Result<(), AllocError>
    ensures { OnOk result (AddsHead clock.now list.now (string_bytes text.old) (string_bytes text.new)) }
{
    let at = shown(alloc, clock, list.at)?;
    push_head_line(text, list.version, at.as_str())
}

/// Adds the first line, and an empty one.
fn push_head_line(text: &mut String, version: u64, at: &str) -> Result<(), AllocError>
    ensures { OnOk result (string_bytes text.new ≡ string_bytes text.old ++ head_line version at.now) }
{
    push_version(text, version)?;
    push_moment(text, at)
}

/// Adds the version.
fn push_version(text: &mut String, version: u64) -> Result<(), AllocError>
    ensures { OnOk result (string_bytes text.new ≡ string_bytes text.old ++ version_words version) }
{
    text.push_str("movements of version ")?;
    push_number(text, version)
}

/// Adds a number.
fn push_number(text: &mut String, number: u64) -> Result<(), AllocError>
    ensures { OnOk result (string_bytes text.new ≡ string_bytes text.old ++ decimal number) }
{
    let mut digits = Buffer::new();
    text.push_str(digits.format(number))
}

/// Adds the moment, the end of the line, and an empty line.
fn push_moment(text: &mut String, at: &str) -> Result<(), AllocError>
    ensures { OnOk result (string_bytes text.new ≡ string_bytes text.old ++ moment_words at.now) }
{
    text.push_str(" at ")?;
    text.push_str(at)?;
    text.push_str("\n\n")
}

/// Adds the table of movements.
fn push_movements(
    alloc: Global,
    text: &mut String,
    places: &Places,
    clock: &Clock<'_>,
    movements: &[Movement],
) -> Result<(), AllocError>
    ensures { OnOk result (IsTextOf (IsMovementRow places.now clock.now) movements_text movements.now (string_bytes text.old) (string_bytes text.new)) }
{
    let rows = movement_rows(alloc, places, clock, movements)?;
    push_aligned(alloc, text, &MOVEMENT_SIDES, &rows)
}

/// The titles, and a row of each movement.
fn movement_rows(
    alloc: Global,
    places: &Places,
    clock: &Clock<'_>,
    movements: &[Movement],
) -> Result<Vec<Row>, AllocError>
    ensures { IfOk result (λ rows. AreBelow (IsMovementRow places.now clock.now) movement_titles movements.now rows.items) }
{
    let mut rows = Vec::new(alloc);
    rows.push(titles_row(alloc, &MOVEMENT_TITLES)?)?;
    for movement in movements {
        rows.push(movement_row(alloc, places, clock, movement)?)?;
    }
    Ok(rows)
}

/// Adds the table of orders, if there are any.
fn push_orders(
    alloc: Global,
    text: &mut String,
    places: &Places,
    clock: &Clock<'_>,
    orders: &[OrderNeed],
) -> Result<(), AllocError>
    ensures { OnOk result (IsTextOf (IsOrderRow places.now clock.now) orders_text orders.now (string_bytes text.old) (string_bytes text.new)) }
{
    if orders.is_empty() {
        return Ok(());
    }
    let rows = order_rows(alloc, places, clock, orders)?;
    text.push_str("\n")?;
    push_aligned(alloc, text, &ORDER_SIDES, &rows)
}

/// The titles, and a row of each order.
fn order_rows(
    alloc: Global,
    places: &Places,
    clock: &Clock<'_>,
    orders: &[OrderNeed],
) -> Result<Vec<Row>, AllocError>
    ensures { IfOk result (λ rows. AreBelow (IsOrderRow places.now clock.now) order_titles orders.now rows.items) }
{
    let mut rows = Vec::new(alloc);
    rows.push(titles_row(alloc, &ORDER_TITLES)?)?;
    for need in orders {
        rows.push(order_row(alloc, places, clock, need)?)?;
    }
    Ok(rows)
}

/// Adds the table of wagons that haven't been heard from, if there are any.
fn push_silent(
    alloc: Global,
    text: &mut String,
    places: &Places,
    clock: &Clock<'_>,
    silent: &[SilentWagon],
) -> Result<(), AllocError>
    ensures { OnOk result (IsTextOf (IsSilentRow places.now clock.now) silent_text silent.now (string_bytes text.old) (string_bytes text.new)) }
{
    if silent.is_empty() {
        return Ok(());
    }
    let rows = silent_rows(alloc, places, clock, silent)?;
    text.push_str("\n")?;
    push_aligned(alloc, text, &SILENT_SIDES, &rows)
}

/// The titles, and a row of each wagon that hasn't been heard from.
fn silent_rows(
    alloc: Global,
    places: &Places,
    clock: &Clock<'_>,
    silent: &[SilentWagon],
) -> Result<Vec<Row>, AllocError>
    ensures { IfOk result (λ rows. AreBelow (IsSilentRow places.now clock.now) silent_titles silent.now rows.items) }
{
    let mut rows = Vec::new(alloc);
    rows.push(titles_row(alloc, &SILENT_TITLES)?)?;
    for wagon in silent {
        rows.push(silent_row(alloc, places, clock, wagon)?)?;
    }
    Ok(rows)
}
