//! Rows as they are handed in: their tests, and their cells one after another.
ghost use Rattle.std.specs.Prelude.{◌≡◌, ◌≤◌, ◌++◌, All, IfOk, OnOk, length, map, sum, ◌==◌};
ghost use Rattle.std.specs.List.{list_all};
ghost use Rattle.wagons_and_orders.specs.WantedLimits.{IsLack};
ghost use Rattle.cost_table.specs.TableLimits.{IsNumber, max_table_orders};
ghost use Rattle.cost_table.specs.TableRows.{cells_of};
ghost use Rattle.cost_table.specs.Rows.{is_too_large, is_even};

use crate::limits::{MAX_TABLE_LACK, MAX_TABLE_ORDERS, MAX_TABLE_WAGONS};
use crate::row_block::RowBlock;
use std::alloc::{AllocError, Global};

/// All numbers of a short list together.
fn total(lacks: &[u32]) -> u64
    requires { length lacks.now ≤ max_table_orders }
    ensures { result ≡ sum lacks.now }
{
    lacks.iter().map(|lack| u64::from(*lack)).sum()
}

/// Whether rows, penalties or lacks pass the limits of a table.
pub(crate) fn are_too_large(rows: &[Vec<Option<u64>>], penalties: &[u64], lacks: &[u32]) -> bool
    requires { All IsLack lacks.now }
    ensures { result ≡ is_too_large rows.now penalties.now lacks.now }
{
    // Each lacks one or more, so that many orders lack too much.
    if lacks.len() > MAX_TABLE_ORDERS {
        return true;
    }
    rows.len() > MAX_TABLE_WAGONS
        || penalties.len() > MAX_TABLE_ORDERS
        || total(lacks) > MAX_TABLE_LACK
}

/// Whether each row has this length.
fn have_length(rows: &[Vec<Option<u64>>], orders: usize) -> bool
    ensures { result ≡ list_all (λ row. length row.items == orders) rows.now }
{
    rows.iter().all(|row| row.len() == orders)
}

/// Whether rows, penalties and lacks have one length.
pub(crate) fn are_even(rows: &[Vec<Option<u64>>], penalties: &[u64], lacks: &[u32]) -> bool
    ensures { result ≡ is_even rows.now penalties.now lacks.now }
{
    have_length(rows, penalties.len()) && lacks.len() == penalties.len()
}

/// Appends the cells of one row.
fn push_row(entries: &mut Vec<(u32, u32)>, numbers: &[Option<u64>]) -> Result<(), AllocError>
    requires few { length numbers.now ≤ max_table_orders }
    requires numbers { All IsNumber numbers.now }
    ensures { OnOk result (entries.new.items ≡ entries.old.items ++ cells_of 0 numbers.now) }
{
    entries.reserve(numbers.len())?;
    for (order, number) in numbers.iter().enumerate() {
        if let Some(cost) = number {
            entries.push_reserved((order as u32, *cost as u32));
        }
    }
    Ok(())
}

/// The cells of all rows one after another.
pub(crate) fn flatten(alloc: Global, rows: &[Vec<Option<u64>>]) -> Result<RowBlock, AllocError>
    requires few { All (λ row. length row.items ≤ max_table_orders) rows.now }
    requires numbers { All (λ row. All IsNumber row.items) rows.now }
    ensures { IfOk result (λ block. block ≡ map (λ row. cells_of 0 row.items) rows.now) }
{
    let orders = rows.first().map_or(0, Vec::len);
    let mut entries = Vec::with_capacity(alloc, rows.len().saturating_mul(orders))?;
    let mut ends = Vec::with_capacity(alloc, rows.len())?;
    for row in rows {
        push_row(&mut entries, row)?;
        ends.push(entries.len())?;
    }
    Ok(RowBlock::of(entries, ends))
}
