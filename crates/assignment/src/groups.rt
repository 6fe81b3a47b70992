//! Groups of wagons that have the same row.
ghost use Rattle.std.specs.Prelude.{◌≡◌, ◌<◌, ◌≤◌, ◌+◌, ℕ, IfOk, length, true, slice_index, slice_index_or};
ghost use Rattle.cost_table.specs.Table.{wagon_count};
ghost use Rattle.cost_table.specs.RowParts.{cells_in};
ghost use Rattle.cost_table.specs.TableLimits.{IsTable};
ghost use Rattle.cost_table.specs.TableRows.{row_at};
ghost use Rattle.assignment.specs.inner.Groups.{AreGroups, AreGrouped, HasRoomFor};

use cost_table::{Cells, Row};
use std::alloc::{AllocError, Global};

/// Stands for a wagon where there is none.
pub(crate) const NO_WAGON: u32 = u32::MAX;

/// Wagons of one group have the same row. Wagons with the same row are mostly of one group; nothing rests on that.
#[derive(Drop)]
pub(crate) struct Groups {
    /// The group of each wagon.
    pub(crate) of: Vec<usize>,
    /// The first wagon of each group.
    pub(crate) first: Vec<u32>,
    /// The last wagon of each group.
    pub(crate) last: Vec<usize>,
    /// After each wagon the next one of its group, `NO_WAGON` after the last.
    pub(crate) next: Vec<u32>,
}

impl Groups {
    /// The groups of a table's wagons. Each wagon joins the group seen last with its sample, if that has its row: one
    /// comparison of rows a wagon at most.
    pub(crate) fn new(alloc: Global, cells: &Cells) -> Result<Groups, AllocError>
        ensures { IfOk result (λ groups. AreGroups cells.now groups) }
    {
        let wagons = cells.wagons();
        let mut groups = Groups {
            of: Vec::with_capacity(alloc, wagons)?,
            first: Vec::with_capacity(alloc, wagons)?,
            last: Vec::with_capacity(alloc, wagons)?,
            next: Vec::from_elem(alloc, NO_WAGON, wagons)?,
        };
        let mut seen = Vec::from_elem(alloc, usize::MAX, 2 * wagons + 1)?;
        'wagons: for i in 0..wagons {
            let slot = sample(cells.row(i)) % seen.len();
            let group = seen[slot];
            if groups.has_row(cells, group, i) {
                groups.join(cells, i, group);
            } else {
                seen[slot] = groups.first.len();
                groups.begin(cells, i);
            }
        }
        Ok(groups)
    }

    /// Whether there is such a group, and its wagons have the row of wagon `i`.
    fn has_row(&self, cells: &Cells, group: usize, i: usize) -> bool
        requires groups { AreGrouped cells.now i self.now }
        requires wagon { i < wagon_count cells.now }
        ensures within { result ≡ true → group < length self.now.first.items }
        ensures same { result ≡ true → row_at cells.now i ≡ row_at cells.now (slice_index self.now.first.items group) }
    {
        group < self.first.len() && have_same_row(cells, i, self.first[group] as usize)
    }

    /// Wagon `i` joins a group.
    fn join(&mut self, cells: &Cells, i: usize, group: usize)
        requires table { IsTable cells.now }
        requires groups { AreGrouped cells.now i self.old }
        requires room { HasRoomFor (wagon_count cells.now) self.old }
        requires wagon { i < wagon_count cells.now }
        requires within { group < length self.old.first.items }
        requires same { row_at cells.now i ≡ row_at cells.now (slice_index self.old.first.items group) }
        ensures groups { AreGrouped cells.now (i + 1) self.new }
        ensures room { HasRoomFor (wagon_count cells.now) self.new }
    {
        let last = self.last[group];
        self.next[last] = i as u32;
        self.last[group] = i;
        self.of.push_reserved(group);
    }

    /// Wagon `i` begins a group.
    fn begin(&mut self, cells: &Cells, i: usize)
        requires table { IsTable cells.now }
        requires groups { AreGrouped cells.now i self.old }
        requires room { HasRoomFor (wagon_count cells.now) self.old }
        requires wagon { i < wagon_count cells.now }
        ensures groups { AreGrouped cells.now (i + 1) self.new }
        ensures room { HasRoomFor (wagon_count cells.now) self.new }
    {
        self.of.push_reserved(self.first.len());
        self.first.push_reserved(i as u32);
        self.last.push_reserved(i);
    }
}

/// Whether two wagons have the same row. One that both share isn't read.
fn have_same_row(cells: &Cells, i: usize, k: usize) -> bool
    requires wagon { i < wagon_count cells.now }
    requires other { k < wagon_count cells.now }
    ensures { result ≡ true → row_at cells.now i ≡ row_at cells.now k }
{
    cells.share_row(i, k) || is_same(cells.row(i), cells.row(k))
}

/// The same number for rows that are the same, wherever each is split. It reads three cells, as rows that differ do so
/// nearly everywhere.
fn sample(row: Row<'_>) -> usize {
    if row.rest.is_empty() {
        return sample_of_cells(row.first);
    }
    let last = row.len() - 1;
    let (first, middle, end) = (cell_at(row, 0), cell_at(row, last / 2), cell_at(row, last));
    mixed(row.len(), first, middle, end)
}

/// The same of cells that stand in one place.
fn sample_of_cells(row: &[(u32, u32)]) -> usize {
    if row.is_empty() {
        return 0;
    }
    let last = row.len() - 1;
    mixed(row.len(), row[0], row[last / 2], row[last])
}

/// The cell of a row at an index.
fn cell_at(row: Row<'_>, x: usize) -> (u32, u32) {
    row.get(x).unwrap_or((0, 0))
}

/// A number of the length and three cells of a row.
fn mixed(len: usize, first: (u32, u32), middle: (u32, u32), end: (u32, u32)) -> usize {
    mix(mix(mix(len as u64, first), middle), end) as usize
}

/// A number mixed with a cell.
fn mix(number: u64, cell: (u32, u32)) -> u64 {
    let joined = number ^ u64::from(cell.0) ^ (u64::from(cell.1) << 20);
    joined.wrapping_mul(0x9E37_79B9_7F4A_7C15).rotate_left(29)
}

/// How many cells are compared together.
const PART: usize = 16;

/// Whether two rows are the same, wherever each is split. Mostly they are split at one place.
fn is_same(row: Row<'_>, other: Row<'_>) -> bool
    ensures { result ≡ true → cells_in row.entry ≡ cells_in other.entry }
{
    if row.len() != other.len() {
        return false;
    }
    if row.first.len() == other.first.len() {
        are_same_cells(row.first, other.first) && are_same_cells(row.rest, other.rest)
    } else if row.first.len() < other.first.len() {
        is_same_as_later(row, other)
    } else {
        is_same_as_later(other, row)
    }
}

/// Whether a row is the same as another that is split later. Three pieces are compared: what is before both splits,
/// what is between them, and what is behind both.
fn is_same_as_later(row: Row<'_>, later: Row<'_>) -> bool
    requires { length row.first.now ≤ length later.first.now }
    ensures { result ≡ true → cells_in row.entry ≡ cells_in later.entry }
{
    let (front, between) = later.first.split_at(row.first.len());
    if row.rest.len() < between.len() {
        return false;
    }
    let (middle, end) = row.rest.split_at(between.len());
    are_same_cells(row.first, front)
        && are_same_cells(middle, between)
        && are_same_cells(end, later.rest)
}

/// Whether two lists of cells are the same.
fn are_same_cells(row: &[(u32, u32)], other: &[(u32, u32)]) -> bool
    ensures { result ≡ true → row.now ≡ other.now }
{
    let len = row.len();
    if len != other.len() {
        return false;
    }
    let mut x = 0;
    'parts: while len - x >= PART {
        if !is_same_part(&row[x..x + PART], &other[x..x + PART]) {
            return false;
        }
        x += PART;
    }
    is_same_part(&row[x..len], &other[x..len])
}

/// Whether the cells of two rows are the same. It has no branch in its loop, and is inlined where it is known how many
/// cells there are, so that the compiler makes vector code of it.
#[inline(always)]
fn is_same_part(row: &[(u32, u32)], other: &[(u32, u32)]) -> bool
    requires lengths { length other.now ≡ length row.now }
    ensures { result ≡ true → (x : ℕ) → x < length row.now → slice_index_or row.now x (0, 0) ≡ slice_index_or other.now x (0, 0) }
{
    let mut is_same = true;
    for x in 0..row.len() {
        is_same &= (row[x].0 == other[x].0) & (row[x].1 == other[x].1);
    }
    is_same
}
