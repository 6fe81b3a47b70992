//! A plan as CSV.
ghost use Rattle.std.specs.Prelude.{◌≡◌, ◌++◌, IfOk, OnOk, map};
ghost use Rattle.plan_table.specs.Cells.{shortfall_fields};
ghost use Rattle.plan_table.specs.CsvText.{IsCsvText};
ghost use Rattle.plan_table.specs.inner.Rows.{AreCsvRows, AreJourneysFields};

use crate::plan_list::{PlanList, Shortfall};
use crate::rows::{CSV_TITLES, journey_fields, shortfall_fields};
use place_names::Places;
use plan_reasons::Journey;
use std::alloc::{AllocError, Global};
use text_tables::{Clock, Row, csv_rows_text, titles_row};

/// A plan as CSV for a spreadsheet, by the `csv` crate's writer. The header is
/// `wagon,class,from,from_name,to,to_name,km,minutes,arrival,order,missing,penalty,why`. A wagon that goes has the first ten
/// fields, an order that misses wagons `to`, `to_name` and the last four. The penalty is that of each missing wagon, in km.
pub fn csv_text(
    alloc: Global,
    places: &Places,
    clock: &Clock<'_>,
    plan: &PlanList,
) -> Result<Vec<u8>, AllocError>
    ensures { IfOk result (λ text. IsCsvText places.now clock.now plan.now text.items) }
{
    let rows = all_rows(alloc, places, clock, plan)?;
    match csv_rows_text(alloc, &rows) {
        Ok(text) => Ok(text),
        // All rows have as many fields as the header, so a row is refused for want of memory alone.
        Err(_) => Err(AllocError),
    }
}

/// The titles, and the fields of each wagon that goes and of each order that misses wagons.
fn all_rows(
    alloc: Global,
    places: &Places,
    clock: &Clock<'_>,
    plan: &PlanList,
) -> Result<Vec<Row>, AllocError>
    ensures { IfOk result (λ rows. AreCsvRows places.now clock.now plan.now rows.items) }
{
    let mut rows = Vec::new(alloc);
    rows.push(titles_row(alloc, &CSV_TITLES)?)?;
    push_journeys(alloc, &mut rows, places, clock, &plan.journeys)?;
    push_shortfalls(alloc, &mut rows, places, &plan.shortfalls)?;
    Ok(rows)
}

/// Adds the fields of each wagon that goes.
fn push_journeys(
    alloc: Global,
    rows: &mut Vec<Row>,
    places: &Places,
    clock: &Clock<'_>,
    journeys: &[Journey],
) -> Result<(), AllocError>
    ensures { OnOk result (AreJourneysFields places.now clock.now journeys.now rows.old.items rows.new.items) }
{
    for journey in journeys {
        rows.push(journey_fields(alloc, places, clock, journey)?)?;
    }
    Ok(())
}

/// Adds the fields of each order that misses wagons.
fn push_shortfalls(
    alloc: Global,
    rows: &mut Vec<Row>,
    places: &Places,
    shortfalls: &[Shortfall],
) -> Result<(), AllocError>
    ensures { OnOk result (rows.new.items ≡ rows.old.items ++ map (shortfall_fields places.now) shortfalls.now) }
{
    for shortfall in shortfalls {
        rows.push(shortfall_fields(alloc, places, shortfall)?)?;
    }
    Ok(())
}
