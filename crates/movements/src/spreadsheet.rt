//! Movements as CSV.
ghost use Rattle.std.specs.Prelude.{IfOk, OnOk};
ghost use Rattle.movements.specs.CsvText.{AreCsvRows, IsCsvText};
ghost use Rattle.movements.specs.Fields.{AreMovementFields, AreOrderFields, AreSilentFields};
ghost use Rattle.movements.specs.inner.Made.{AreRowsOf};

use crate::fields::{CSV_TITLES, movement_fields, order_fields, silent_fields};
use crate::movement::Movement;
use crate::movement_list::MovementList;
use crate::need::OrderNeed;
use crate::silence::SilentWagon;
use place_names::Places;
use std::alloc::{AllocError, Global};
use text_tables::{Clock, Row, csv_rows_text, titles_row};

/// Movements, orders and silent wagons as CSV for a spreadsheet, by the `csv` crate's writer. The header, in one line, is
/// `kind,wagon,class,status,place,place_name,since,order,to,to_name,km,minutes,arrival,latest,spare,late,wanted,filled,`
/// `promised,missing,penalty,state`. The kind is `movement`, `order` or `silent`; fields that a kind lacks are empty.
///
/// `spare` and `late` are minutes. A movement has one of the two, and none where no way leads to the order's place; an order that was
/// filled late has `late`. A movement's state is `in time`, `late` or `no way`; that of an order is as `table_text` has it, without the
/// minutes, that of a silent wagon `silent`. An order's place
/// stands in `to` and `to_name`, and the penalty of each missing wagon, in km, in `penalty`. An arrival past 2099 is empty.
pub fn csv_text(
    alloc: Global,
    places: &Places,
    clock: &Clock<'_>,
    list: &MovementList,
) -> Result<Vec<u8>, AllocError>
    ensures { IfOk result (λ text. IsCsvText places.now clock.now list.now text.items) }
{
    let rows = csv_rows(alloc, places, clock, list)?;
    match csv_rows_text(alloc, &rows) {
        Ok(text) => Ok(text),
        // All rows have as many fields as the header, so a row is refused for want of memory alone.
        Err(_) => Err(AllocError),
    }
}

/// The rows of the CSV: the titles, and the fields of each movement, each order and each silent wagon.
pub fn csv_rows(
    alloc: Global,
    places: &Places,
    clock: &Clock<'_>,
    list: &MovementList,
) -> Result<Vec<Row>, AllocError>
    ensures { IfOk result (λ rows. AreCsvRows places.now clock.now list.now rows.items) }
{
    let mut rows = Vec::new(alloc);
    rows.push(titles_row(alloc, &CSV_TITLES)?)?;
    push_movements(alloc, &mut rows, places, clock, &list.movements)?;
    push_orders(alloc, &mut rows, places, clock, &list.orders)?;
    push_silent(alloc, &mut rows, places, clock, &list.silent)?;
    Ok(rows)
}

/// Adds the fields of each movement.
fn push_movements(
    alloc: Global,
    rows: &mut Vec<Row>,
    places: &Places,
    clock: &Clock<'_>,
    movements: &[Movement],
) -> Result<(), AllocError>
    ensures { OnOk result (AreRowsOf (AreMovementFields places.now clock.now) movements.now rows.old.items rows.new.items) }
{
    for movement in movements {
        rows.push(movement_fields(alloc, places, clock, movement)?)?;
    }
    Ok(())
}

/// Adds the fields of each order.
fn push_orders(
    alloc: Global,
    rows: &mut Vec<Row>,
    places: &Places,
    clock: &Clock<'_>,
    orders: &[OrderNeed],
) -> Result<(), AllocError>
    ensures { OnOk result (AreRowsOf (AreOrderFields places.now clock.now) orders.now rows.old.items rows.new.items) }
{
    for need in orders {
        rows.push(order_fields(alloc, places, clock, need)?)?;
    }
    Ok(())
}

/// Adds the fields of each wagon that hasn't been heard from.
fn push_silent(
    alloc: Global,
    rows: &mut Vec<Row>,
    places: &Places,
    clock: &Clock<'_>,
    silent: &[SilentWagon],
) -> Result<(), AllocError>
    ensures { OnOk result (AreRowsOf (AreSilentFields places.now clock.now) silent.now rows.old.items rows.new.items) }
{
    for wagon in silent {
        rows.push(silent_fields(alloc, places, clock, wagon)?)?;
    }
    Ok(())
}
