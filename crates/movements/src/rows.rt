//! The rows of the tables for people.
ghost use Rattle.std.specs.Prelude.{◌≡◌, ◌++◌, IfOk, OnOk};
ghost use Rattle.movements.specs.Rows.{IsMovementRow, IsOrderRow, IsSilentRow, wagon_cells};

use crate::cells::{arrival_cell, push_need, push_way};
use crate::movement::Movement;
use crate::need::OrderNeed;
use crate::outlook::outlook_by;
use crate::silence::SilentWagon;
use crate::words::{order_words, outlook_words};
use place_names::Places;
use rail_codes::{ClassCode, WagonNumber};
use std::alloc::{AllocError, Global};
use text_tables::{Clock, Row, place_cell, shown};
use wagons_and_orders::Status;

/// The titles of movements.
pub(crate) const MOVEMENT_TITLES: [&str; 12] = [
    "wagon", "class", "status", "place", "since", "order", "to", "km", "minutes", "arrival",
    "latest", "state",
];

/// The titles of orders.
pub(crate) const ORDER_TITLES: [&str; 9] = [
    "order", "place", "latest", "wanted", "filled", "promised", "missing", "penalty", "state",
];

/// The titles of wagons that haven't been heard from.
pub(crate) const SILENT_TITLES: [&str; 5] = ["silent", "class", "status", "place", "since"];

/// The row of a movement.
pub(crate) fn movement_row(
    alloc: Global,
    places: &Places,
    clock: &Clock<'_>,
    movement: &Movement,
) -> Result<Row, AllocError>
    ensures { IfOk result (IsMovementRow places.now clock.now movement.now) }
{
    let since = shown(alloc, clock, movement.since)?;
    let arrival = arrival_cell(alloc, clock, movement.way)?;
    let latest = shown(alloc, clock, movement.latest)?;
    let state = outlook_words(alloc, outlook_by(movement.latest, movement.way))?;
    let mut row = Row::new(alloc);
    push_wagon(
        alloc,
        &mut row,
        places,
        movement.wagon,
        movement.class,
        &movement.status,
    )?;
    row.push_cell(since)?;
    row.push_code(movement.order.as_bytes())?;
    row.push_cell(place_cell(alloc, places, movement.to)?)?;
    push_way(&mut row, movement.way)?;
    row.push_cell(arrival)?;
    row.push_cell(latest)?;
    row.push_cell(state)?;
    Ok(row)
}

/// Adds a wagon, its class, what it is doing, and where.
fn push_wagon(
    alloc: Global,
    row: &mut Row,
    places: &Places,
    wagon: WagonNumber,
    class: ClassCode,
    status: &Status,
) -> Result<(), AllocError>
    ensures { OnOk result (row.new ≡ row.old ++ wagon_cells places.now wagon class status.now) }
{
    let place = place_cell(alloc, places, status.place())?;
    row.push_code(wagon.digits())?;
    row.push_code(class.as_bytes())?;
    row.push(status.word())?;
    row.push_cell(place)
}

/// The row of an order.
pub(crate) fn order_row(
    alloc: Global,
    places: &Places,
    clock: &Clock<'_>,
    need: &OrderNeed,
) -> Result<Row, AllocError>
    ensures { IfOk result (IsOrderRow places.now clock.now need.now) }
{
    let place = place_cell(alloc, places, need.place)?;
    let latest = shown(alloc, clock, need.latest)?;
    let state = order_words(alloc, need)?;
    let mut row = Row::new(alloc);
    row.push_code(need.order.as_bytes())?;
    row.push_cell(place)?;
    row.push_cell(latest)?;
    push_need(&mut row, need, state.as_str())?;
    Ok(row)
}

/// The row of a wagon that hasn't been heard from.
pub(crate) fn silent_row(
    alloc: Global,
    places: &Places,
    clock: &Clock<'_>,
    silent: &SilentWagon,
) -> Result<Row, AllocError>
    ensures { IfOk result (IsSilentRow places.now clock.now silent.now) }
{
    let since = shown(alloc, clock, silent.since)?;
    let mut row = Row::new(alloc);
    push_wagon(
        alloc,
        &mut row,
        places,
        silent.wagon,
        silent.class,
        &silent.status,
    )?;
    row.push_cell(since)?;
    Ok(row)
}
