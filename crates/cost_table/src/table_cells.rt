//! The table of a distribution.
ghost use Rattle.std.specs.Prelude.{◌≡◌, ◌<◌, ◌≤◌, ℕ, All, IfOk, OnOk, IfSome, OnSome, IfErr, IsTrue, unwrap_or};
ghost use Rattle.std.specs.Result.{result_err};
ghost use Rattle.cost_table.specs.TableLimits.{max_cost, IsNumber, IsTable, IsRow};
ghost use Rattle.cost_table.specs.Rows.{table_of, number_at, rows_fault};
ghost use Rattle.faults.specs.declared.faults.TableFault.TheVariants.{OutOfMemory};
ghost use Rattle.cost_table.specs.Table.{cost_at, penalty_at, lack_at, wagon_count, order_count};
ghost use Rattle.cost_table.specs.TableRows.{all_rows, cost_in, row_at, table_with};
ghost use Rattle.wagons_and_orders.specs.WantedLimits.{IsLack};
ghost use Rattle.cost_table.specs.inner.Searched.{IsAscendingRow};
ghost use Rattle.cost_table.specs.StoredTable.{AreStored};
ghost use Rattle.cost_table.specs.RowParts.{cells_in};
ghost use Rattle.cost_table.specs.SharedRows.{HasPlaces, rows_in};

use crate::row::Row;
use crate::rows::{are_even, are_too_large, flatten};
use crate::table_rows::TableRows;
use faults::TableFault;
use std::alloc::{AllocError, Global};
use std::marker::Model;

/// The table of a distribution: for each wagon and each order a cost, or none where the wagon may not serve it; for each
/// order the penalty of a missed wagon, and how many wagons it lacks. It keeps the allowed pairs alone. Costs and penalties are in kilometres, each at most 1,000,000,000;
/// each lack is 1 to 20; at most 1,000 wagons, 500 orders, and 500 lacking wagons in all.
pub struct Cells {
    rows: TableRows,
    penalties: Vec<u64>,
    lacks: Vec<u32>,
}

// Written out, it is proved here once; a derived one, in each crate that drops a value.
impl Drop for Cells {
    fn drop(self) {
        let Cells {
            rows: _,
            penalties: _,
            lacks: _,
        } = self;
    }
}

impl Model for Cells {
    ghost use Rattle.cost_table.specs.Table.{Table};
    ghost use Rattle.cost_table.specs.TableRows.{table_with};
    ghost use Rattle.cost_table.specs.StoredTable.{AreStored};
    ghost use Rattle.cost_table.specs.SharedRows.{rows_in};

    ghost Value = { Table };

    ghost view = { λ c. table_with (rows_in c.rows) c.penalties.items c.lacks.items };

    ghost invariant = { λ c. AreStored c.rows c.penalties.items c.lacks.items };
}

impl Cells {
    /// The table of rows that are found.
    pub fn of_rows(rows: TableRows, penalties: Vec<u64>, lacks: Vec<u32>) -> Cells
        requires { AreStored rows penalties.items lacks.items }
        ensures { result ≡ table_with (rows_in rows) penalties.items lacks.items }
    {
        Cells {
            rows,
            penalties,
            lacks,
        }
    }

    /// The rows.
    pub fn rows(&self) -> &TableRows
        ensures rows { rows_in result.now ≡ all_rows self.now }
        ensures placed { HasPlaces result.now }
        ensures table { IsTable self.now }
    {
        &self.rows
    }

    /// The table of these rows: `rows[i][j]` is the cost of wagon `i` for order `j` in kilometres, `None` where it
    /// may not serve it.
    ///
    /// The first of these is answered: `TooLarge` (53) for over 1,000 rows, over 500 penalties or lacks over 500 in
    /// all; `UnevenRows` (54) where a row or the lacks are not as long as the penalties; `OutOfMemory` (1).
    pub fn from_rows(
        alloc: Global,
        rows: &[Vec<Option<u64>>],
        penalties: &[u64],
        lacks: &[u32],
    ) -> Result<Cells, TableFault>
        requires numbers { All (λ row. All IsNumber row.items) rows.now }
        requires penalties { All (λ penalty. penalty ≤ max_cost) penalties.now }
        requires lacks { All IsLack lacks.now }
        ensures ok { IfOk result (λ cells. cells ≡ table_of rows.now penalties.now lacks.now) }
        ensures numbers { IfOk result (λ cells. (i j : ℕ) → cost_at cells i j ≡ number_at rows.now i j) }
        ensures no_fault { OnOk result (rows_fault rows.now penalties.now lacks.now ≡ None) }
        ensures fault { IfErr result (λ fault. fault ≡ unwrap_or (rows_fault rows.now penalties.now lacks.now) OutOfMemory) }
    {
        test_lists(rows, penalties, lacks)?;
        let penalties = Vec::from_slice(alloc, penalties)?;
        let lacks = Vec::from_slice(alloc, lacks)?;
        Ok(of_lists(alloc, rows, penalties, lacks)?)
    }

    /// The same as `from_rows`; the table keeps the lists, which are dropped where it is refused.
    pub fn from_lists(
        alloc: Global,
        rows: &[Vec<Option<u64>>],
        penalties: Vec<u64>,
        lacks: Vec<u32>,
    ) -> Result<Cells, TableFault>
        requires numbers { All (λ row. All IsNumber row.items) rows.now }
        requires penalties { All (λ penalty. penalty ≤ max_cost) penalties.items }
        requires lacks { All IsLack lacks.items }
        ensures ok { IfOk result (λ cells. cells ≡ table_of rows.now penalties.items lacks.items) }
        ensures no_fault { OnOk result (rows_fault rows.now penalties.items lacks.items ≡ None) }
        ensures fault { IfErr result (λ fault. fault ≡ unwrap_or (rows_fault rows.now penalties.items lacks.items) OutOfMemory) }
    {
        test_lists(rows, &penalties, &lacks)?;
        Ok(of_lists(alloc, rows, penalties, lacks)?)
    }

    /// How many wagons the table has.
    pub fn wagons(&self) -> usize
        ensures count { result ≡ wagon_count self.now }
        ensures table { IsTable self.now }
    {
        self.rows.len()
    }

    /// How many orders the table has.
    pub fn orders(&self) -> usize
        ensures count { result ≡ order_count self.now }
        ensures table { IsTable self.now }
    {
        self.lacks.len()
    }

    /// Does nothing: for the prover alone, it says between which limits a table is.
    pub fn for_the_prover(&self)
        ensures { IsTable self.now }
    {
        let _ = &self.rows;
    }

    /// The penalty of each wagon that order `j` misses, in kilometres.
    pub fn penalty(&self, j: usize) -> u64
        requires { j < order_count self.now }
        ensures value { result ≡ penalty_at self.now j }
        ensures limit { result ≤ max_cost }
    {
        self.penalties[j]
    }

    /// How many wagons order `j` lacks, 1 to 20.
    pub fn lack(&self, j: usize) -> u32
        requires { j < order_count self.now }
        ensures value { result ≡ lack_at self.now j }
        ensures limit { IsLack result }
    {
        self.lacks[j]
    }

    /// The orders that wagon `i` may serve, ascending, each with its cost in kilometres.
    pub fn row(&self, i: usize) -> Row<'_>
        requires { i < wagon_count self.now }
        ensures row { cells_in result ≡ row_at self.now i }
        ensures cells { IsRow (order_count self.now) 0 (cells_in result) }
    {
        self.rows.row(i)
    }

    /// Whether the rows of two wagons stand in one place. Those of others may still have the same cells.
    pub fn share_row(&self, i: usize, k: usize) -> bool
        requires wagon { i < wagon_count self.now }
        requires other { k < wagon_count self.now }
        ensures { IsTrue result → row_at self.now i ≡ row_at self.now k }
    {
        self.rows.share_row(i, k)
    }

    /// The cost of wagon `i` for order `j` in kilometres, `None` where it may not serve it or one is out of range.
    pub fn cell(&self, i: usize, j: usize) -> Option<u64>
        ensures value { result ≡ cost_at self.now i j }
        ensures in_range { OnSome result ((i < wagon_count self.now) × (j < order_count self.now)) }
        ensures limit { IfSome result (λ cost. cost ≤ max_cost) }
    {
        if i >= self.wagons() {
            return None;
        }
        cost_in_row(self.row(i), j)
    }
}

/// Tests the limits of a table, and whether its lists fit together.
fn test_lists(rows: &[Vec<Option<u64>>], penalties: &[u64], lacks: &[u32]) -> Result<(), TableFault>
    requires { All IsLack lacks.now }
    ensures { result_err result ≡ rows_fault rows.now penalties.now lacks.now }
{
    if are_too_large(rows, penalties, lacks) {
        return Err(TableFault::TooLarge);
    }
    if !are_even(rows, penalties, lacks) {
        return Err(TableFault::UnevenRows);
    }
    Ok(())
}

/// The table of lists that fit together.
fn of_lists(
    alloc: Global,
    rows: &[Vec<Option<u64>>],
    penalties: Vec<u64>,
    lacks: Vec<u32>,
) -> Result<Cells, AllocError>
    requires fit { rows_fault rows.now penalties.items lacks.items ≡ None }
    requires numbers { All (λ row. All IsNumber row.items) rows.now }
    requires penalties { All (λ penalty. penalty ≤ max_cost) penalties.items }
    requires lacks { All IsLack lacks.items }
    ensures { IfOk result (λ cells. cells ≡ table_of rows.now penalties.items lacks.items) }
{
    let rows = TableRows::of_block(alloc, flatten(alloc, rows)?)?;
    Ok(Cells {
        rows,
        penalties,
        lacks,
    })
}

/// The cost that a row has for an order.
fn cost_in_row(row: Row<'_>, order: usize) -> Option<u64>
    requires first { IsAscendingRow row.first.now }
    requires rest { IsAscendingRow row.rest.now }
    ensures { result ≡ cost_in (cells_in row.entry) order }
{
    match find_cost(row.first, order) {
        Some(cost) => Some(cost),
        None => find_cost(row.rest, order),
    }
}

/// The cost that cells which stand in one place have for an order.
fn find_cost(row: &[(u32, u32)], order: usize) -> Option<u64>
    requires { IsAscendingRow row.now }
    ensures { result ≡ cost_in row.now order }
{
    match row.binary_search_by_key(&order, |cell| cell.0 as usize) {
        Ok(at) => Some(u64::from(row[at].1)),
        Err(_) => None,
    }
}
