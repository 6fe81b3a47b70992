//! The table of a problem, as a table line.
ghost use Rattle.std.specs.Prelude.{◌≡◌, ◌≤◌, All, IfOk, length, map, string_bytes};
ghost use Rattle.std.specs.List.{range_with_len};
ghost use Rattle.cost_table.specs.Problem.{names_of_problem, order_names, wagon_names};
ghost use Rattle.cost_table.specs.Table.{cost_at, order_count, wagon_count};
ghost use Rattle.cost_table.specs.TableLimits.{IsNumber, max_cost};
ghost use Rattle.wagons_and_orders.specs.WantedLimits.{IsLack};
ghost use Rattle.table_lines.specs.TableLine.{IsWithinLimits, table_text};
ghost use Rattle.table_lines.specs.UnplannedText.{unplanned_text};
ghost use Rattle.table_lines.specs.ProblemText.{StatesTable, text_of_table};

use crate::table_line::TableLine;
use crate::unplanned_tokens::unplanned_line;
use cost_table::{Cells, Problem};
use rail_codes::{OrderId, WagonNumber};
use std::alloc::{AllocError, Global};
use wagons_and_orders::{FreeWagon, Wanted};

/// The table of a problem with these costs, as a line of JSON without a plan and without its line feed: the members
/// `cells`, `lacks`, `orders`, `penalties` and `wagons`, in this order, and no space. Costs are in kilometres, null
/// where a wagon may not serve an order. `solve_line` reads it as this very table, and what it prints has the cost of each
/// plan of it that costs the least. `Err` only when out of memory.
pub fn problem_line(alloc: Global, problem: &Problem, cells: &Cells) -> Result<String, AllocError>
    requires wagons { wagon_count cells.now ≡ length problem.now.wagons }
    requires orders { order_count cells.now ≡ length problem.now.orders }
    ensures text { IfOk result (λ line. string_bytes line ≡ unplanned_text (text_of_table (names_of_problem problem.now) cells.now)) }
    ensures reads { IfOk result (λ line. StatesTable (names_of_problem problem.now) cells.now (string_bytes line)) }
{
    let table = table_of(alloc, problem, cells)?;
    // No name stands twice, and a table's numbers are within its limits.
    problem.for_the_prover();
    cells.for_the_prover();
    unplanned_line(alloc, &table)
}

/// The table of a problem with these costs, without a plan.
fn table_of(alloc: Global, problem: &Problem, cells: &Cells) -> Result<TableLine, AllocError>
    ensures table { IfOk result (λ table. table_text table ≡ text_of_table (names_of_problem problem.now) cells.now) }
    ensures limits { IfOk result IsWithinLimits }
{
    let wagons = numbers_of(alloc, problem.wagons())?;
    let orders = ids_of(alloc, problem.orders())?;
    let rows = rows_of(alloc, cells)?;
    let penalties = penalties_of(alloc, cells)?;
    let lacks = lacks_of(alloc, cells)?;
    Ok(TableLine {
        wagons,
        orders,
        cells: rows,
        penalties,
        lacks: Some(lacks),
        pairs: Vec::new(alloc),
        u: Vec::new(alloc),
        v: Vec::new(alloc),
    })
}

/// The numbers of these wagons.
fn numbers_of(alloc: Global, wagons: &[FreeWagon]) -> Result<Vec<WagonNumber>, AllocError>
    ensures { IfOk result (λ numbers. numbers.items ≡ wagon_names wagons.now) }
{
    let mut numbers = Vec::with_capacity(alloc, wagons.len())?;
    for wagon in wagons {
        numbers.push(wagon.number)?;
    }
    Ok(numbers)
}

/// The names of these orders.
fn ids_of(alloc: Global, orders: &[Wanted]) -> Result<Vec<OrderId>, AllocError>
    ensures { IfOk result (λ ids. ids.items ≡ order_names orders.now) }
{
    let mut ids = Vec::with_capacity(alloc, orders.len())?;
    for wanted in orders {
        ids.push(wanted.order().id())?;
    }
    Ok(ids)
}

/// The costs of each wagon of a table.
fn rows_of(alloc: Global, cells: &Cells) -> Result<Vec<Vec<Option<u64>>>, AllocError>
    ensures costs { IfOk result (λ rows. map (λ row. row.items) rows.items ≡ cells.now.costs) }
    ensures limits { IfOk result (λ rows. All (λ row. All IsNumber row.items) rows.items) }
{
    let wagons = cells.wagons();
    let mut rows = Vec::with_capacity(alloc, wagons)?;
    for i in 0..wagons {
        rows.push(row_of(alloc, cells, i)?)?;
    }
    Ok(rows)
}

/// What one wagon of a table costs for each order.
fn row_of(alloc: Global, cells: &Cells, i: usize) -> Result<Vec<Option<u64>>, AllocError>
    ensures { IfOk result (λ row. row.items ≡ map (cost_at cells.now i) (range_with_len 0 (order_count cells.now))) }
{
    let orders = cells.orders();
    let mut row = Vec::with_capacity(alloc, orders)?;
    for j in 0..orders {
        row.push(cells.cell(i, j))?;
    }
    Ok(row)
}

/// The penalty of each order of a table.
fn penalties_of(alloc: Global, cells: &Cells) -> Result<Vec<u64>, AllocError>
    ensures value { IfOk result (λ penalties. penalties.items ≡ cells.now.penalties) }
    ensures limits { IfOk result (λ penalties. All (λ penalty. penalty ≤ max_cost) penalties.items) }
{
    let orders = cells.orders();
    let mut penalties = Vec::with_capacity(alloc, orders)?;
    for j in 0..orders {
        penalties.push(cells.penalty(j))?;
    }
    Ok(penalties)
}

/// What each order of a table lacks.
fn lacks_of(alloc: Global, cells: &Cells) -> Result<Vec<u32>, AllocError>
    ensures value { IfOk result (λ lacks. lacks.items ≡ cells.now.lacks) }
    ensures limits { IfOk result (λ lacks. All IsLack lacks.items) }
{
    let orders = cells.orders();
    let mut lacks = Vec::with_capacity(alloc, orders)?;
    for j in 0..orders {
        lacks.push(cells.lack(j))?;
    }
    Ok(lacks)
}
