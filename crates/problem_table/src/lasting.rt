//! Tables, and up to which moments they last.
ghost use Rattle.std.specs.Prelude.{◌≡◌, ◌<◌, ◌≤◌, ◌^◌, ℕ, All, IfOk, length};
ghost use Rattle.cost_table.specs.Problem.{penalties_of, lacks_of};
ghost use Rattle.cost_table.specs.TableLimits.{IsRow, max_cost};
ghost use Rattle.cost_table.specs.SharedRows.{HasPlaces, rows_in};
ghost use Rattle.problem_table.specs.Allowed.{IsTableOf};
ghost use Rattle.problem_table.specs.Lasting.{IsLastingTable, IsTableUntil};
ghost use Rattle.problem_table.specs.inner.AllowedRows.{AreLastingRows, table_of_rows};
ghost use Rattle.wagons_and_orders.specs.WantedLimits.{IsLack};

use cost_table::{Cells, Problem, TableRows};
use line_network::Tables;
use std::alloc::{AllocError, Global};
use wagons_and_orders::Wanted;

/// The table of a problem, and up to which moment it is the table of the same wagons and orders. Moments are in seconds
/// since 1970-01-01T00:00:00Z.
#[derive(Drop)]
pub struct TimedCells {
    pub cells: Cells,
    /// For each wagon the moment up to which its cells stay as they are.
    pub lasts: Vec<u64>,
    /// Up to when the whole table does.
    pub until: u64,
}

/// The table of a problem whose rows are found, each with its last moment.
fn timed(
    alloc: Global,
    problem: &Problem,
    rows: TableRows,
    lasts: Vec<u64>,
) -> Result<TimedCells, AllocError>
    requires placed { HasPlaces rows }
    requires count { length (rows_in rows) ≡ length problem.now.wagons }
    requires ascend { All (IsRow (length problem.now.orders) 0) (rows_in rows) }
    requires within { All (λ last. problem.now.at ≤ last) lasts.items }
    ensures cells { IfOk result (λ made. made.cells ≡ table_of_rows (rows_in rows) problem.now.orders) }
    ensures lasts { IfOk result (λ made. made.lasts.items ≡ lasts.items) }
    ensures within { IfOk result (λ made. problem.now.at ≤ made.until) }
    ensures least { IfOk result (λ made. All (λ last. made.until ≤ last) lasts.items) }
{
    let orders = problem.orders();
    let penalties = penalties(alloc, orders)?;
    let lacks = lacks(alloc, orders)?;
    let cells = Cells::of_rows(rows, penalties, lacks);
    // A moment is below the greatest number.
    problem.at().for_the_prover();
    let until = earliest(&lasts);
    Ok(TimedCells {
        cells,
        lasts,
        until,
    })
}

/// The table of a problem over the network of these tables, whose rows are found, each with the moment up to which it is its
/// wagon's. The tables are for the prover alone.
pub(crate) fn timed_table(
    alloc: Global,
    problem: &Problem,
    tables: &Tables,
    rows: TableRows,
    lasts: Vec<u64>,
) -> Result<TimedCells, AllocError>
    requires placed { HasPlaces rows }
    requires rows { AreLastingRows tables.now problem.now.at problem.now.wagons problem.now.orders (rows_in rows) lasts.items }
    ensures table { IfOk result (λ made. IsTableOf tables.now problem.now made.cells) }
    ensures within { IfOk result (λ made. problem.now.at ≤ made.until) }
    ensures lasts { IfOk result (λ made. IsTableUntil tables.now problem.now made.until made.cells) }
    ensures by_wagon { IfOk result (λ made. IsLastingTable tables.now problem.now made.cells made.lasts.items) }
{
    timed(alloc, problem, rows, lasts)
}

/// The penalty of each order.
fn penalties(alloc: Global, orders: &[Wanted]) -> Result<Vec<u64>, AllocError>
    ensures value { IfOk result (λ penalties. penalties.items ≡ penalties_of orders.now) }
    ensures limit { IfOk result (λ penalties. All (λ penalty. penalty ≤ max_cost) penalties.items) }
{
    let mut penalties = Vec::with_capacity(alloc, orders.len())?;
    for wanted in orders {
        penalties.push(wanted.order().penalty())?;
    }
    Ok(penalties)
}

/// How many wagons each order lacks.
fn lacks(alloc: Global, orders: &[Wanted]) -> Result<Vec<u32>, AllocError>
    ensures value { IfOk result (λ lacks. lacks.items ≡ lacks_of orders.now) }
    ensures limit { IfOk result (λ lacks. All IsLack lacks.items) }
{
    let mut lacks = Vec::with_capacity(alloc, orders.len())?;
    for wanted in orders {
        lacks.push(wanted.lack())?;
    }
    Ok(lacks)
}

/// The earliest of these moments; of none the greatest number.
fn earliest(lasts: &[u64]) -> u64
    ensures least { All (λ last. result ≤ last) lasts.now }
    ensures held { (at : ℕ) → at < 2 ^ 64 → All (λ last. at ≤ last) lasts.now → at ≤ result }
{
    let mut least = u64::MAX;
    for last in lasts {
        least = least.min(*last);
    }
    least
}
