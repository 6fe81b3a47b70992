//! The records of a file of CSV.
ghost use Rattle.std.specs.Prelude.{◌≡◌, ◌++◌, ◌∷◌, [], IfOk, OnOk};
ghost use Rattle.movements.specs.Fields.{AreMovementFields, AreOrderFields, AreSilentFields, late_field, margin_fields, wagon_fields};

use crate::cells::{arrival_cell, push_need, push_nothing, push_way};
use crate::movement::Movement;
use crate::need::OrderNeed;
use crate::outlook::{Outlook, outlook_by};
use crate::silence::SilentWagon;
use crate::words::{order_state, outlook_word};
use place_names::Places;
use rail_codes::{ClassCode, WagonNumber};
use std::alloc::{AllocError, Global};
use text_tables::{Clock, Row, push_place, shown};
use wagons_and_orders::Status;

/// The titles of all kinds of records.
pub(crate) const CSV_TITLES: [&str; 22] = [
    "kind",
    "wagon",
    "class",
    "status",
    "place",
    "place_name",
    "since",
    "order",
    "to",
    "to_name",
    "km",
    "minutes",
    "arrival",
    "latest",
    "spare",
    "late",
    "wanted",
    "filled",
    "promised",
    "missing",
    "penalty",
    "state",
];

/// The fields of a movement.
pub(crate) fn movement_fields(
    alloc: Global,
    places: &Places,
    clock: &Clock<'_>,
    movement: &Movement,
) -> Result<Row, AllocError>
    ensures { IfOk result (AreMovementFields places.now clock.now movement.now) }
{
    let since = shown(alloc, clock, movement.since)?;
    let arrival = arrival_cell(alloc, clock, movement.way)?;
    let latest = shown(alloc, clock, movement.latest)?;
    let outlook = outlook_by(movement.latest, movement.way);
    let mut row = Row::new(alloc);
    row.push("movement")?;
    push_wagon(
        &mut row,
        places,
        movement.wagon,
        movement.class,
        &movement.status,
    )?;
    row.push_cell(since)?;
    row.push_code(movement.order.as_bytes())?;
    push_place(&mut row, places, movement.to)?;
    push_way(&mut row, movement.way)?;
    row.push_cell(arrival)?;
    row.push_cell(latest)?;
    push_margin(&mut row, outlook)?;
    push_nothing(&mut row, 5)?;
    row.push(outlook_word(outlook))?;
    Ok(row)
}

/// Adds a wagon, its class, what it is doing, and where.
fn push_wagon(
    row: &mut Row,
    places: &Places,
    wagon: WagonNumber,
    class: ClassCode,
    status: &Status,
) -> Result<(), AllocError>
    ensures { OnOk result (row.new ≡ row.old ++ wagon_fields places.now wagon class status.now) }
{
    row.push_code(wagon.digits())?;
    row.push_code(class.as_bytes())?;
    row.push(status.word())?;
    push_place(row, places, status.place())
}

/// Adds the minutes to spare, and the minutes late.
fn push_margin(row: &mut Row, outlook: Outlook) -> Result<(), AllocError>
    ensures { OnOk result (row.new ≡ row.old ++ margin_fields outlook) }
{
    match outlook {
        Outlook::NoWay => push_nothing(row, 2),
        Outlook::Late(minutes) => {
            row.push("")?;
            row.push_number(minutes)
        }
        Outlook::InTime(minutes) => {
            row.push_number(minutes)?;
            row.push("")
        }
    }
}

/// The fields of an order.
pub(crate) fn order_fields(
    alloc: Global,
    places: &Places,
    clock: &Clock<'_>,
    need: &OrderNeed,
) -> Result<Row, AllocError>
    ensures { IfOk result (AreOrderFields places.now clock.now need.now) }
{
    let latest = shown(alloc, clock, need.latest)?;
    let mut row = Row::new(alloc);
    row.push("order")?;
    push_nothing(&mut row, 6)?;
    row.push_code(need.order.as_bytes())?;
    push_place(&mut row, places, need.place)?;
    push_nothing(&mut row, 3)?;
    row.push_cell(latest)?;
    push_nothing(&mut row, 1)?;
    push_late(&mut row, need.late)?;
    push_need(&mut row, need, order_state(need))?;
    Ok(row)
}

/// Adds by how many minutes an order was filled late, if it was.
fn push_late(row: &mut Row, minutes: u64) -> Result<(), AllocError>
    ensures { OnOk result (row.new ≡ row.old ++ late_field minutes ∷ []) }
{
    if minutes == 0 {
        row.push("")
    } else {
        row.push_number(minutes)
    }
}

/// The fields of a wagon that hasn't been heard from.
pub(crate) fn silent_fields(
    alloc: Global,
    places: &Places,
    clock: &Clock<'_>,
    silent: &SilentWagon,
) -> Result<Row, AllocError>
    ensures { IfOk result (AreSilentFields places.now clock.now silent.now) }
{
    let since = shown(alloc, clock, silent.since)?;
    let mut row = Row::new(alloc);
    row.push("silent")?;
    push_wagon(&mut row, places, silent.wagon, silent.class, &silent.status)?;
    row.push_cell(since)?;
    push_nothing(&mut row, 14)?;
    row.push("silent")?;
    Ok(row)
}
