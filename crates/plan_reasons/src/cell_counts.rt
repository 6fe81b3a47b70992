//! For each order how many cells of a table, or pairs of a plan, are its own.
ghost use Rattle.std.specs.Prelude.{◌≡◌, ◌<◌, ◌≤◌, All, IfOk, length};
ghost use Rattle.cost_table.specs.Plan.{serves};
ghost use Rattle.cost_table.specs.RowParts.{cells_in};
ghost use Rattle.cost_table.specs.Table.{order_count};
ghost use Rattle.cost_table.specs.TableLimits.{IsRow};
ghost use Rattle.cost_table.specs.TableRows.{all_rows};
ghost use Rattle.plan_reasons.specs.Laws.{cells_of_order};
ghost use Rattle.plan_reasons.specs.inner.Tallied.{AreMore, AreNumbers, below_in_row, cells_below, cheaper_cells};

use cost_table::{Cells, Row};
use std::alloc::{AllocError, Global};

/// For each order, how many wagons may serve it.
pub(crate) fn allowed(alloc: Global, cells: &Cells) -> Result<Vec<u64>, AllocError>
    ensures { IfOk result (λ counts. AreNumbers (order_count cells.now) (cells_of_order cells.now) counts.items) }
{
    let limits = vec![in alloc; u64::MAX; cells.orders()]?;
    cells_below(alloc, cells, &limits)
}

/// For each order, how many of them cost less than its penalty.
pub(crate) fn cheaper(alloc: Global, cells: &Cells) -> Result<Vec<u64>, AllocError>
    ensures { IfOk result (λ counts. AreNumbers (order_count cells.now) (cheaper_cells cells.now) counts.items) }
{
    let mut penalties = Vec::with_capacity(alloc, cells.orders())?;
    for j in 0..cells.orders() {
        penalties.push(cells.penalty(j))?;
    }
    cells_below(alloc, cells, &penalties)
}

/// For each order, how many cells of a table cost less than its limit.
fn cells_below(alloc: Global, cells: &Cells, limits: &[u64]) -> Result<Vec<u64>, AllocError>
    requires { length limits.now ≡ order_count cells.now }
    ensures { IfOk result (λ counts. AreNumbers (order_count cells.now) (cells_below (all_rows cells.now) limits.now) counts.items) }
{
    let mut counts = vec![in alloc; 0; cells.orders()]?;
    for i in 0..cells.wagons() {
        count_row(&mut counts, cells.row(i), limits);
    }
    Ok(counts)
}

/// Counts the cells of one row.
fn count_row(counts: &mut [u64], row: Row<'_>, limits: &[u64])
    requires row { IsRow (length limits.now) 0 (cells_in row) }
    requires counts { length counts.old ≡ length limits.now }
    requires limit { All (λ count. count ≤ 1_000) counts.old }
    ensures { AreMore (below_in_row (cells_in row.entry) limits.now) counts.old counts.new }
{
    count_cells(counts, row.first, limits);
    count_cells(counts, row.rest, limits);
}

/// Counts cells that stand in one place.
fn count_cells(counts: &mut [u64], row: &[(u32, u32)], limits: &[u64])
    requires row { IsRow (length limits.now) 0 row.now }
    requires counts { length counts.old ≡ length limits.now }
    requires limit { All (λ count. count ≤ 1_001) counts.old }
    ensures { AreMore (below_in_row row.now limits.now) counts.old counts.new }
{
    for cell in row {
        let j = cell.0 as usize;
        counts[j] += u64::from(u64::from(cell.1) < limits[j]);
    }
}

/// For each order, how many pairs are of it.
pub(crate) fn served(
    alloc: Global,
    orders: usize,
    pairs: &[(usize, usize)],
) -> Result<Vec<u64>, AllocError>
    requires { All (λ pair. pair.1 < orders) pairs.now }
    ensures { IfOk result (λ counts. AreNumbers orders (λ j. serves j pairs.now) counts.items) }
{
    let mut counts = vec![in alloc; 0; orders]?;
    for pair in pairs {
        counts[pair.1] += 1;
    }
    Ok(counts)
}
