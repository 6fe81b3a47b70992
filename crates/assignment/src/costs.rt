//! The costs of a table by order, one of each group, in one flat array, and what is found while they are placed.
ghost use Rattle.std.specs.Prelude.{◌≡◌, ◌<◌, ◌+◌, ◌*◌, ℕ, true, false, min, IfOk, IfSome, length, slice_index, slice_set};
ghost use Rattle.cost_table.specs.TableLimits.{IsTable, IsRow};
ghost use Rattle.cost_table.specs.Table.{penalty_at, order_count};
ghost use Rattle.cost_table.specs.TableRows.{row_at};
ghost use Rattle.assignment.specs.inner.Costs.{AreColumns, AreColumnsOf, AreFullRows, cost_before};
ghost use Rattle.assignment.specs.inner.Groups.{AreGroups, AreFirst, group_table};

use crate::groups::Groups;
use cost_table::{Cells, room_for};
use std::alloc::{AllocError, Global};

/// Stands for a cell that isn't there. With a group's price and a distance, each at most 1,000,000,000, it stays below
/// 2^32, and no path pays it, since an order refuses a unit at 1,000,000,000 at most.
pub(crate) const NO_CELL: u32 = 2_000_000_000;

/// For each order one cost of each group, its first price, and a hint at the group that has that cost, 0 where the first
/// price is the penalty. Costs and prices are in kilometres.
#[derive(Drop)]
pub(crate) struct Columns {
    pub(crate) costs: Vec<u32>,
    pub(crate) v: Vec<u32>,
    pub(crate) nearest: Vec<usize>,
}

impl Columns {
    /// The columns of a table. An order's first price is its penalty, or its cheapest group's cost.
    pub(crate) fn new(alloc: Global, cells: &Cells, groups: &Groups) -> Result<Columns, AllocError>
        requires { AreGroups cells.now groups.now }
        ensures { IfOk result (AreColumns (group_table cells.now groups.now.first.items)) }
    {
        let first = &groups.first;
        let (orders, count) = (cells.orders(), first.len());
        let mut costs = Vec::with_capacity(alloc, room_for(orders * count))?;
        costs.resize(orders * count, NO_CELL)?;
        let mut v = penalties(alloc, cells)?;
        let mut nearest = Vec::from_elem(alloc, 0, orders)?;
        let mut g = 0;
        'groups: while g < count {
            if place_full_rows(&mut costs, &mut v, &mut nearest, cells, first, g) {
                g += 2;
            } else {
                place_row(&mut costs, &mut v, &mut nearest, cells, first, g);
                g += 1;
            }
        }
        Ok(Columns { costs, v, nearest })
    }
}

/// The penalty of each order, in kilometres.
fn penalties(alloc: Global, cells: &Cells) -> Result<Vec<u32>, AllocError>
    ensures count { IfOk result (λ penalties. length penalties.items ≡ order_count cells.now) }
    ensures each { IfOk result (λ penalties. (j : ℕ) → j < order_count cells.now → slice_index penalties.items j ≡ penalty_at cells.now j) }
{
    let mut penalties = Vec::from_elem(alloc, 0, cells.orders())?;
    'orders: for j in 0..penalties.len() {
        penalties[j] = cells.penalty(j) as u32;
    }
    Ok(penalties)
}

/// The cells of a group whose wagons each have one for every order, all of them in one place.
fn full_row<'a>(cells: &'a Cells, first: &[u32], g: usize) -> Option<&'a [(u32, u32)]>
    requires first { AreFirst cells.now first.now }
    requires group { g < length first.now }
    ensures row { IfSome result (λ row. row.now ≡ row_at (group_table cells.now first.now) g) }
    ensures cells { IfSome result (λ row. IsRow (order_count cells.now) 0 row.now) }
    ensures full { IfSome result (λ row. length row.now ≡ order_count cells.now) }
{
    let row = cells.row(first[g] as usize);
    let orders = cells.orders();
    if row.first.len() == orders {
        Some(row.first)
    } else if row.rest.len() == orders {
        Some(row.rest)
    } else {
        None
    }
}

/// The cells of two groups more, where both are full rows.
fn two_full_rows<'a>(
    cells: &'a Cells,
    first: &[u32],
    g: usize,
) -> Option<(&'a [(u32, u32)], &'a [(u32, u32)])>
    requires first { AreFirst cells.now first.now }
    requires group { g < length first.now }
    ensures within { IfSome result (λ rows. g + 1 < length first.now) }
    ensures row { IfSome result (λ rows. rows.0.now ≡ row_at (group_table cells.now first.now) g) }
    ensures next_row { IfSome result (λ rows. rows.1.now ≡ row_at (group_table cells.now first.now) (g + 1)) }
    ensures cells { IfSome result (λ rows. IsRow (order_count cells.now) 0 rows.0.now) }
    ensures next_cells { IfSome result (λ rows. IsRow (order_count cells.now) 0 rows.1.now) }
    ensures full { IfSome result (λ rows. AreFullRows (group_table cells.now first.now) g) }
{
    if g + 1 >= first.len() {
        return None;
    }
    let row = full_row(cells, first, g)?;
    let next_row = full_row(cells, first, g + 1)?;
    Some((row, next_row))
}

/// Places the costs of two groups more, if the wagons of both have one for every order, and tells whether it did. Both
/// go to an order at once, since each visit to an order's costs takes longer than what is written there.
fn place_full_rows(
    costs: &mut [u32],
    v: &mut [u32],
    nearest: &mut [usize],
    cells: &Cells,
    first: &[u32],
    g: usize,
) -> bool
    requires table { IsTable cells.now }
    requires first { AreFirst cells.now first.now }
    requires group { g < length first.now }
    requires columns { AreColumnsOf (group_table cells.now first.now) (cost_before (group_table cells.now first.now) g) costs.old v.old nearest.old }
    ensures within { result ≡ true → g + 1 < length first.now }
    ensures placed { result ≡ true → AreColumnsOf (group_table cells.now first.now) (cost_before (group_table cells.now first.now) (g + 2)) costs.new v.new nearest.new }
    ensures kept { result ≡ false → AreColumnsOf (group_table cells.now first.now) (cost_before (group_table cells.now first.now) g) costs.new v.new nearest.new }
{
    let groups = first.len();
    let (row, next_row) = match two_full_rows(cells, first, g) {
        Some(rows) => rows,
        None => return false,
    };
    'orders: for j in 0..row.len() {
        let (cost, next_cost) = (row[j].1, next_row[j].1);
        let index = j * groups + g;
        costs[index] = cost;
        costs[index + 1] = next_cost;
        let nearer = if next_cost < cost { g + 1 } else { g };
        lower(v, nearest, j, cost.min(next_cost), nearer);
    }
    true
}

/// Places the costs of one group more.
fn place_row(
    costs: &mut [u32],
    v: &mut [u32],
    nearest: &mut [usize],
    cells: &Cells,
    first: &[u32],
    g: usize,
)
    requires table { IsTable cells.now }
    requires first { AreFirst cells.now first.now }
    requires group { g < length first.now }
    requires columns { AreColumnsOf (group_table cells.now first.now) (cost_before (group_table cells.now first.now) g) costs.old v.old nearest.old }
    ensures { AreColumnsOf (group_table cells.now first.now) (cost_before (group_table cells.now first.now) (g + 1)) costs.new v.new nearest.new }
{
    let groups = first.len();
    let row = cells.row(first[g] as usize);
    for cell in row.first {
        place_cell(costs, v, nearest, cell.0 as usize, cell.1, groups, g);
    }
    for next_cell in row.rest {
        place_cell(
            costs,
            v,
            nearest,
            next_cell.0 as usize,
            next_cell.1,
            groups,
            g,
        );
    }
}

/// Places the cost that one group more, `g` of so many, has for order `j`.
fn place_cell(
    costs: &mut [u32],
    v: &mut [u32],
    nearest: &mut [usize],
    j: usize,
    cost: u32,
    groups: usize,
    g: usize,
)
    requires place { j * groups + g < length costs.old }
    requires order { j < length v.old }
    requires hints { length nearest.old ≡ length v.old }
    ensures costs { costs.new ≡ slice_set costs.old (j * groups + g) cost }
    ensures prices { v.new ≡ slice_set v.old j (min (slice_index v.old j) cost) }
{
    costs[j * groups + g] = cost;
    lower(v, nearest, j, cost, g);
}

/// Lowers the price of order `j` to a cost in kilometres of a group, where that is less.
fn lower(v: &mut [u32], nearest: &mut [usize], j: usize, cost: u32, g: usize)
    requires order { j < length v.old }
    requires hints { length nearest.old ≡ length v.old }
    ensures { v.new ≡ slice_set v.old j (min (slice_index v.old j) cost) }
{
    if cost < v[j] {
        v[j] = cost;
        nearest[j] = g;
    }
}
