//! The orders of an earlier problem in a later one, and rows whose cells go along with them.
ghost use Rattle.std.specs.Prelude.{◌≡◌, ◌+◌, ◌<◌, ◌≤◌, ◌++◌, [], All, IfOk, IsTrue, OnOk, Some, drop, length, slice_get, take};
ghost use Rattle.wagons_and_orders.specs.Wanted.{WantedOrder};
ghost use Rattle.cost_table.specs.RowParts.{cells_in};
ghost use Rattle.cost_table.specs.TableLimits.{IsRow, max_table_orders};
ghost use Rattle.problem_table.specs.inner.Moved.{AreMoved, AreSteady, HaveSameTexts, moved_cells};

use cost_table::Row;
use move_messages::is_same_order;
use std::alloc::{AllocError, Global};
use wagons_and_orders::Wanted;

/// Stands for the position of an order that is gone.
const GONE: u32 = u32::MAX;

/// Where the orders of an earlier problem stand in a later one, whose first orders they are.
#[derive(Drop)]
pub(crate) struct Moved {
    /// The position of each, or one behind those of all orders.
    pub(crate) positions: Vec<u32>,
    /// How many of the later orders are among the earlier ones: the first of them.
    pub(crate) kept: usize,
    /// How many of the first orders stand where they stood.
    pub(crate) steady: usize,
}

impl Moved {
    /// Looks for the later orders among the earlier ones, one after the other. Orders that came stand behind those that stay,
    /// since they were placed last; one that waits again, and what follows it, counts as come.
    pub(crate) fn between(
        alloc: Global,
        earlier: &[Wanted],
        orders: &[Wanted],
    ) -> Result<Moved, AllocError>
        requires few { length orders.now ≤ max_table_orders }
        ensures moved { IfOk result (λ moved. AreMoved earlier.now orders.now moved.positions.items moved.kept) }
        ensures steady { IfOk result (λ moved. AreSteady moved.positions.items moved.kept moved.steady) }
    {
        let mut positions = Vec::with_capacity(alloc, earlier.len())?;
        let mut kept = 0;
        for one in earlier {
            if is_order_at(orders, kept, one) {
                positions.push_reserved(kept as u32);
                kept += 1;
            } else {
                positions.push_reserved(GONE);
            }
        }
        let steady = steady_count(&positions, kept);
        Ok(Moved {
            positions,
            kept,
            steady,
        })
    }

    /// Whether most of so many later orders stand where they stood: three quarters. Then it pays to share their cells.
    pub(crate) fn are_mostly_steady(&self, orders: usize) -> bool {
        self.steady > orders / 4 * 3
    }
}

/// How many of the first positions are those of the same numbers, among those that are kept.
fn steady_count(positions: &[u32], kept: usize) -> usize
    ensures { AreSteady positions.now kept result }
{
    let most = kept.min(positions.len());
    for k in 0..most {
        if positions[k] as usize != k {
            return k;
        }
    }
    most
}

/// Whether an order stands at a position, whatever it lacks.
fn is_order_at(orders: &[Wanted], k: usize, one: &Wanted) -> bool
    ensures within { IsTrue result → k < length orders.now }
    ensures same { IsTrue result → (there : WantedOrder) → slice_get orders.now k ≡ Some there → there.order ≡ one.now.order }
{
    match orders.get(k) {
        Some(there) => is_same_order(there.order(), one.order()),
        None => false,
    }
}

/// Whether two lists have the same orders, whatever they lack.
pub(crate) fn have_same_texts(one: &[Wanted], other: &[Wanted]) -> bool
    ensures { IsTrue result → HaveSameTexts one.now other.now }
{
    if one.len() != other.len() {
        return false;
    }
    for (k, wanted) in one.iter().enumerate() {
        if !is_order_at(other, k, wanted) {
            return false;
        }
    }
    true
}

/// How many of the first cells of a row are those of the first orders, which stand where they stood: they stay as they are.
pub(crate) fn steady_cells(row: Row<'_>, moved: &Moved) -> usize
    requires { IsRow (length moved.now.positions.items) 0 (cells_in row) }
    ensures within { result ≤ length (cells_in row.entry) }
    ensures before { All (λ cell. cell.0 < moved.now.steady) (take result (cells_in row.entry)) }
    ensures behind { All (λ cell. moved.now.steady ≤ cell.0) (drop result (cells_in row.entry)) }
{
    match steady_part(row.rest, moved) {
        0 => steady_part(row.first, moved),
        count => row.first.len() + count,
    }
}

/// The same of cells that stand in one place.
fn steady_part(row: &[(u32, u32)], moved: &Moved) -> usize
    requires { IsRow (length moved.now.positions.items) 0 row.now }
    ensures within { result ≤ length row.now }
    ensures before { All (λ cell. cell.0 < moved.now.steady) (take result row.now) }
    ensures behind { All (λ cell. moved.now.steady ≤ cell.0) (drop result row.now) }
{
    // Cells of later orders are mostly few, so they are passed from the end.
    for later in 0..row.len() {
        let count = row.len() - later;
        if (row[count - 1].0 as usize) < moved.steady {
            return count;
        }
    }
    0
}

/// Adds the cells of a row whose orders stay, at their new positions. Where each order that stays stands where it stood,
/// behind the first orders there are none.
pub(crate) fn move_later_cells(
    entries: &mut Vec<(u32, u32)>,
    later: Row<'_>,
    moved: &Moved,
) -> Result<(), AllocError>
    requires within { All (λ cell. cell.0 < length moved.now.positions.items) (cells_in later) }
    requires none { moved.now.kept ≤ moved.now.steady → moved_cells moved.now.positions.items moved.now.kept (cells_in later) ≡ [] }
    ensures { OnOk result (entries.new.items ≡ entries.old.items ++ moved_cells moved.now.positions.items moved.now.kept (cells_in later.entry)) }
{
    if moved.kept <= moved.steady {
        return Ok(());
    }
    move_cells(entries, later.first, moved)?;
    move_cells(entries, later.rest, moved)
}

/// The same of cells that stand in one place, one by one.
fn move_cells(
    entries: &mut Vec<(u32, u32)>,
    row: &[(u32, u32)],
    moved: &Moved,
) -> Result<(), AllocError>
    requires { All (λ cell. cell.0 < length moved.now.positions.items) row.now }
    ensures { OnOk result (entries.new.items ≡ entries.old.items ++ moved_cells moved.now.positions.items moved.now.kept row.now) }
{
    entries.reserve(row.len())?;
    for cell in row {
        let position = moved.positions[cell.0 as usize];
        if (position as usize) < moved.kept {
            entries.push_reserved((position, cell.1));
        }
    }
    Ok(())
}
