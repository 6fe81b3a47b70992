//! Cells that tables and CSV share.
ghost use Rattle.std.specs.Prelude.{◌≡◌, ◌++◌, ◌∷◌, [], IfOk, OnOk, decimal, replicate, string_bytes};
ghost use Rattle.movements.specs.Cells.{IsArrival, IsSecondsCell, km_cell, minutes_cell, need_cells};

use crate::movement::Way;
use crate::need::OrderNeed;
use rail_codes::Moment;
use std::alloc::{AllocError, Global};
use text_tables::{Clock, Row, shown};

/// Adds so many empty cells.
pub(crate) fn push_nothing(row: &mut Row, count: usize) -> Result<(), AllocError>
    ensures { OnOk result (row.new ≡ row.old ++ replicate count []) }
{
    for _cell in 0..count {
        row.push("")?;
    }
    Ok(())
}

/// Adds the kilometres and the minutes of a way.
pub(crate) fn push_way(row: &mut Row, way: Option<Way>) -> Result<(), AllocError>
    ensures { OnOk result (row.new ≡ row.old ++ km_cell way ∷ minutes_cell way ∷ []) }
{
    match way {
        None => push_nothing(row, 2),
        Some(way) => push_numbers(row, way.km, way.minutes),
    }
}

/// Adds two numbers.
fn push_numbers(row: &mut Row, km: u32, minutes: u32) -> Result<(), AllocError>
    ensures { OnOk result (row.new ≡ row.old ++ decimal km ∷ decimal minutes ∷ []) }
{
    row.push_number(u64::from(km))?;
    row.push_number(u64::from(minutes))
}

/// The arrival of a way.
pub(crate) fn arrival_cell(
    alloc: Global,
    clock: &Clock<'_>,
    way: Option<Way>,
) -> Result<String, AllocError>
    ensures { IfOk result (λ cell. IsArrival clock.now way (string_bytes cell)) }
{
    match way {
        None => Ok(String::new(alloc)),
        Some(way) => seconds_cell(alloc, clock, way.arrival),
    }
}

/// A number of seconds since 1970 as a moment; nothing past 2099.
fn seconds_cell(alloc: Global, clock: &Clock<'_>, seconds: u64) -> Result<String, AllocError>
    ensures { IfOk result (λ cell. IsSecondsCell clock.now seconds (string_bytes cell)) }
{
    match Moment::from_seconds(seconds) {
        Ok(moment) => shown(alloc, clock, moment),
        Err(_) => Ok(String::new(alloc)),
    }
}

/// Adds how many wagons an order wants, how many it has and how many are missing, the penalty of each, and its state.
pub(crate) fn push_need(row: &mut Row, need: &OrderNeed, state: &str) -> Result<(), AllocError>
    ensures { OnOk result (row.new ≡ row.old ++ need_cells need.now state.now) }
{
    row.push_number(need.wanted)?;
    row.push_number(need.filled)?;
    row.push_number(need.promised)?;
    row.push_number(need.missing)?;
    row.push_number(need.penalty)?;
    row.push(state)
}
