//! Tables that differ from another in one wagon's row, in one order's lack, or in its penalty.
ghost use Rattle.std.specs.Prelude.{◌≡◌, ◌+◌, ◌<◌, ◌≤◌, [], IfOk, OnOk, length, slice_index_or, slice_set, sum};
ghost use Rattle.wagons_and_orders.specs.WantedLimits.{IsLack};
ghost use Rattle.cost_table.specs.SharedRows.{HasPlaces, HasRowMore, rows_in};
ghost use Rattle.cost_table.specs.Table.{lack_at, order_count, wagon_count};
ghost use Rattle.cost_table.specs.TableLimits.{IsRow, max_table_lack};
ghost use Rattle.cost_table.specs.TableRows.{all_rows, costs_of};
ghost use Rattle.plan_bounds.specs.Changes.{with_lack};
ghost use Rattle.exact_costs.specs.inner.Changed.{one_less, with_costs, with_wanted, without_penalty};

use cost_table::{Cells, MAX_COST, TableRows};
use std::alloc::{AllocError, Global};

/// The same table with another row for wagon `i`.
pub(crate) fn with_row(
    alloc: Global,
    cells: &Cells,
    i: usize,
    row: &[(u32, u32)],
) -> Result<Cells, AllocError>
    requires wagon { i < wagon_count cells.now }
    requires row { IsRow (order_count cells.now) 0 row.now }
    ensures { IfOk result (λ changed. changed ≡ with_costs cells.now i (costs_of (order_count cells.now) row.now)) }
{
    let rows = rows_with(alloc, cells.rows(), i, row)?;
    let penalties = penalties(alloc, cells)?;
    let lacks = lacks(alloc, cells)?;
    Ok(Cells::of_rows(rows, penalties, lacks))
}

/// The same table where order `j` lacks so many wagons.
pub(crate) fn with_lack(
    alloc: Global,
    cells: &Cells,
    j: usize,
    lack: u32,
) -> Result<Cells, AllocError>
    requires order { j < order_count cells.now }
    requires lack { IsLack lack }
    requires in_all { sum cells.now.lacks + lack ≤ max_table_lack + lack_at cells.now j }
    ensures { IfOk result (λ changed. changed ≡ with_lack cells.now j lack) }
{
    let rows = same_rows(alloc, cells.rows())?;
    let penalties = penalties(alloc, cells)?;
    let mut lacks = lacks(alloc, cells)?;
    lacks[j] = lack;
    Ok(Cells::of_rows(rows, penalties, lacks))
}

/// The same table where order `j` lacks so many wagons, and each that it misses costs the most that a table may have.
pub(crate) fn with_wanted(
    alloc: Global,
    cells: &Cells,
    j: usize,
    lack: u32,
) -> Result<Cells, AllocError>
    requires order { j < order_count cells.now }
    requires lack { IsLack lack }
    requires in_all { sum cells.now.lacks + lack ≤ max_table_lack + lack_at cells.now j }
    ensures { IfOk result (λ changed. changed ≡ with_wanted cells.now j lack) }
{
    let rows = same_rows(alloc, cells.rows())?;
    let mut penalties = penalties(alloc, cells)?;
    penalties[j] = MAX_COST;
    let mut lacks = lacks(alloc, cells)?;
    lacks[j] = lack;
    Ok(Cells::of_rows(rows, penalties, lacks))
}

/// The same table where the wagons that order `j` misses cost nothing.
pub(crate) fn without_penalty(alloc: Global, cells: &Cells, j: usize) -> Result<Cells, AllocError>
    requires { j < order_count cells.now }
    ensures { IfOk result (λ changed. changed ≡ without_penalty cells.now j) }
{
    let rows = same_rows(alloc, cells.rows())?;
    let mut penalties = penalties(alloc, cells)?;
    penalties[j] = 0;
    let lacks = lacks(alloc, cells)?;
    Ok(Cells::of_rows(rows, penalties, lacks))
}

/// The table where order `j` lacks one wagon less. Where it lacks one, the table is the same, and the wagon that it may miss costs
/// nothing.
pub(crate) fn one_less(alloc: Global, cells: &Cells, j: usize) -> Result<Cells, AllocError>
    requires { j < order_count cells.now }
    ensures { IfOk result (λ changed. changed ≡ one_less cells.now j) }
{
    // An order of a table lacks one wagon at least.
    cells.for_the_prover();
    let lack = cells.lack(j);
    if lack == 1 {
        without_penalty(alloc, cells, j)
    } else {
        with_lack(alloc, cells, j, lack - 1)
    }
}

/// The same rows, which share the block of the others.
fn same_rows(alloc: Global, rows: &TableRows) -> Result<TableRows, AllocError>
    requires { HasPlaces rows.now }
    ensures rows { IfOk result (λ same. rows_in same ≡ rows_in rows.now) }
    ensures placed { IfOk result HasPlaces }
{
    let mut same = TableRows::sharing(alloc, rows, rows.len())?;
    for k in 0..rows.len() {
        same.take_over(rows, k)?;
    }
    Ok(same)
}

/// The same rows with another one for wagon `i`.
fn rows_with(
    alloc: Global,
    rows: &TableRows,
    i: usize,
    row: &[(u32, u32)],
) -> Result<TableRows, AllocError>
    requires { HasPlaces rows.now }
    ensures rows { IfOk result (λ changed. rows_in changed ≡ slice_set (rows_in rows.now) i row.now) }
    ensures placed { IfOk result HasPlaces }
{
    let mut changed = TableRows::sharing(alloc, rows, rows.len())?;
    for k in 0..rows.len() {
        push_row(&mut changed, rows, k, i, row)?;
    }
    Ok(changed)
}

/// Appends row `k` of other rows, or another one in place of row `i`.
fn push_row(
    changed: &mut TableRows,
    rows: &TableRows,
    k: usize,
    i: usize,
    row: &[(u32, u32)],
) -> Result<(), AllocError>
    requires placed { HasPlaces changed.old }
    requires shared { changed.old.shared.value ≡ rows.now.shared.value }
    requires others { HasPlaces rows.now }
    requires wagon { k < length (rows_in rows.now) }
    ensures { OnOk result (HasRowMore changed.old changed.new (slice_index_or (slice_set (rows_in rows.now) i row.now) k [])) }
{
    if k == i {
        changed.push(row)
    } else {
        changed.take_over(rows, k)
    }
}

/// The penalty of each order.
fn penalties(alloc: Global, cells: &Cells) -> Result<Vec<u64>, AllocError>
    ensures { IfOk result (λ penalties. penalties.items ≡ cells.now.penalties) }
{
    let mut penalties = Vec::with_capacity(alloc, cells.orders())?;
    for j in 0..cells.orders() {
        penalties.push(cells.penalty(j))?;
    }
    Ok(penalties)
}

/// How many wagons each order lacks.
fn lacks(alloc: Global, cells: &Cells) -> Result<Vec<u32>, AllocError>
    ensures { IfOk result (λ lacks. lacks.items ≡ cells.now.lacks) }
{
    let mut lacks = Vec::with_capacity(alloc, cells.orders())?;
    for j in 0..cells.orders() {
        lacks.push(cells.lack(j))?;
    }
    Ok(lacks)
}
