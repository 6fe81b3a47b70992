//! The rows of a plan's table.
ghost use Rattle.std.specs.Prelude.{◌≡◌, ◌++◌, ◌∷◌, [], decimal, IfOk, OnOk, replicate};
ghost use Rattle.plan_table.specs.Cells.{AreJourneyFields, IsJourneyRow, csv_titles, journey_titles, shortfall_fields, shortfall_row, shortfall_titles};

use crate::phrases::phrase;
use crate::plan_list::Shortfall;
use place_names::Places;
use plan_reasons::Journey;
use std::alloc::{AllocError, Global};
use text_tables::{Clock, Row, place_cell, push_place, shown};

/// The titles of the wagons that go.
pub(crate) const JOURNEY_TITLES: [&str; 8] = [
    "wagon", "class", "from", "to", "km", "minutes", "arrival", "order",
];

/// The titles of the orders that miss wagons.
pub(crate) const SHORTFALL_TITLES: [&str; 4] = ["order", "missing", "penalty", "why"];

/// The titles of a plan for a spreadsheet.
pub(crate) const CSV_TITLES: [&str; 13] = [
    "wagon",
    "class",
    "from",
    "from_name",
    "to",
    "to_name",
    "km",
    "minutes",
    "arrival",
    "order",
    "missing",
    "penalty",
    "why",
];

/// The row of a wagon that goes.
pub(crate) fn journey_row(
    alloc: Global,
    places: &Places,
    clock: &Clock<'_>,
    journey: &Journey,
) -> Result<Row, AllocError>
    ensures { IfOk result (IsJourneyRow places.now clock.now journey.now) }
{
    let arrival = shown(alloc, clock, journey.arrival)?;
    let mut row = Row::new(alloc);
    push_wagon(&mut row, journey)?;
    row.push_cell(place_cell(alloc, places, journey.from)?)?;
    row.push_cell(place_cell(alloc, places, journey.to)?)?;
    push_way(&mut row, journey)?;
    row.push_cell(arrival)?;
    row.push_code(journey.order.as_bytes())?;
    Ok(row)
}

/// Adds a wagon and its class.
fn push_wagon(row: &mut Row, journey: &Journey) -> Result<(), AllocError>
    ensures { OnOk result (row.new ≡ row.old ++ journey.now.wagon ∷ journey.now.class ∷ []) }
{
    row.push_code(journey.wagon.digits())?;
    row.push_code(journey.class.as_bytes())
}

/// Adds the kilometres and minutes.
fn push_way(row: &mut Row, journey: &Journey) -> Result<(), AllocError>
    ensures { OnOk result (row.new ≡ row.old ++ decimal journey.now.km ∷ decimal journey.now.minutes ∷ []) }
{
    row.push_number(u64::from(journey.km))?;
    row.push_number(u64::from(journey.minutes))
}

/// The row of an order that misses wagons.
pub(crate) fn shortfall_row(alloc: Global, shortfall: &Shortfall) -> Result<Row, AllocError>
    ensures { IfOk result (λ row. row ≡ shortfall_row shortfall.now) }
{
    let mut row = Row::new(alloc);
    push_shortfall(alloc, &mut row, shortfall)?;
    Ok(row)
}

/// Adds an order, how many wagons it misses, the penalty of each, and why.
fn push_shortfall(alloc: Global, row: &mut Row, shortfall: &Shortfall) -> Result<(), AllocError>
    ensures { OnOk result (row.new ≡ row.old ++ shortfall_row shortfall.now) }
{
    let why = phrase(alloc, shortfall.gets, shortfall.reason)?;
    row.push_code(shortfall.order.as_bytes())?;
    row.push_number(shortfall.missing)?;
    row.push_number(shortfall.penalty)?;
    row.push_cell(why)
}

/// The fields of a wagon that goes, for a spreadsheet.
pub(crate) fn journey_fields(
    alloc: Global,
    places: &Places,
    clock: &Clock<'_>,
    journey: &Journey,
) -> Result<Row, AllocError>
    ensures { IfOk result (AreJourneyFields places.now clock.now journey.now) }
{
    let arrival = shown(alloc, clock, journey.arrival)?;
    let mut row = Row::new(alloc);
    push_wagon(&mut row, journey)?;
    push_place(&mut row, places, journey.from)?;
    push_place(&mut row, places, journey.to)?;
    push_way(&mut row, journey)?;
    row.push_cell(arrival)?;
    row.push_code(journey.order.as_bytes())?;
    push_nothing(&mut row, 3)?;
    Ok(row)
}

/// Adds so many empty cells.
fn push_nothing(row: &mut Row, count: usize) -> Result<(), AllocError>
    ensures { OnOk result (row.new ≡ row.old ++ replicate count []) }
{
    for _cell in 0..count {
        row.push("")?;
    }
    Ok(())
}

/// The fields of an order that misses wagons, for a spreadsheet.
pub(crate) fn shortfall_fields(
    alloc: Global,
    places: &Places,
    shortfall: &Shortfall,
) -> Result<Row, AllocError>
    ensures { IfOk result (λ row. row ≡ shortfall_fields places.now shortfall.now) }
{
    let mut row = Row::new(alloc);
    push_nothing(&mut row, 4)?;
    push_place(&mut row, places, shortfall.place)?;
    push_nothing(&mut row, 3)?;
    push_shortfall(alloc, &mut row, shortfall)?;
    Ok(row)
}
