//! Rows of cells that lie one after another in one list.
ghost use Rattle.std.specs.Prelude.{◌≡◌, ◌<◌, ◌≤◌, ◌^◌, [], ◌∷◌, ◌++◌, IfOk, OnErr, OnOk, length, slice_index, slice_index_or};
ghost use Rattle.cost_table.specs.RowBlocks.{rows_of, AreEnds, HoldRows};
ghost use Rattle.cost_table.specs.RowParts.{cells_in};
ghost use Rattle.cost_table.specs.SharedRows.{cell_count};

use crate::row::Row;
use std::alloc::{AllocError, Global};
use std::marker::Model;

/// Rows that lie one after another in one list, and where each ends. A contract sees the list of rows.
pub struct RowBlock {
    entries: Vec<(u32, u32)>,
    ends: Vec<usize>,
}

// Written out, it is proved here once; a derived one, in each crate that drops a value.
impl Drop for RowBlock {
    fn drop(self) {
        let RowBlock {
            entries: _,
            ends: _,
        } = self;
    }
}

impl Model for RowBlock {
    ghost use Rattle.std.specs.Prelude.{ℕ, List};
    ghost use Rattle.cost_table.specs.RowBlocks.{rows_of, HoldRows};

    ghost Value = { List (List (ℕ × ℕ)) };

    ghost view = { λ block. rows_of block.entries.items 0 block.ends.items };

    ghost invariant = { λ block. HoldRows block.entries.items block.ends.items (rows_of block.entries.items 0 block.ends.items) };
}

impl RowBlock {
    /// No row.
    pub fn new(alloc: Global) -> RowBlock
        ensures { result ≡ [] }
    {
        RowBlock {
            entries: Vec::new(alloc),
            ends: Vec::new(alloc),
        }
    }

    /// No row yet, with room for so many, and for so many cells in all.
    pub(crate) fn with_room(
        alloc: Global,
        rows: usize,
        cells: usize,
    ) -> Result<RowBlock, AllocError>
        ensures { IfOk result (λ block. block ≡ []) }
    {
        Ok(RowBlock {
            entries: Vec::with_capacity(alloc, cells)?,
            ends: Vec::with_capacity(alloc, rows)?,
        })
    }

    /// The rows of these entries, each of which ends where the list says.
    pub fn of(entries: Vec<(u32, u32)>, ends: Vec<usize>) -> RowBlock
        requires { HoldRows entries.items ends.items (rows_of entries.items 0 ends.items) }
        ensures { result ≡ rows_of entries.items 0 ends.items }
    {
        RowBlock { entries, ends }
    }

    /// Appends one row, which begins with a row's cells and goes on with others. `Err` only when out of memory; then there are
    /// the same rows.
    pub(crate) fn push(&mut self, first: Row<'_>, rest: &[(u32, u32)]) -> Result<(), AllocError>
        ensures pushed { OnOk result (self.new ≡ self.old ++ (cells_in first.entry ++ rest.now) ∷ []) }
        ensures kept { OnErr result (self.new ≡ self.old) }
    {
        self.ends.reserve(1)?;
        self.entries
            .reserve(first.len().saturating_add(rest.len()))?;
        self.entries.extend_from_slice(first.first)?;
        self.entries.extend_from_slice(first.rest)?;
        self.entries.extend_from_slice(rest)?;
        self.ends.push_reserved(self.entries.len());
        Ok(())
    }

    /// How many rows there are.
    pub fn len(&self) -> usize
        ensures value { result ≡ length self.now }
        ensures limit { result < 2 ^ 63 }
    {
        self.ends.len()
    }

    /// How many cells the rows have in all.
    pub(crate) fn cells(&self) -> usize
        ensures { result ≡ cell_count self.now }
    {
        self.entries.len()
    }

    /// Row `i`.
    pub fn row(&self, i: usize) -> &[(u32, u32)]
        requires { i < length self.now }
        ensures { result.now ≡ slice_index_or self.now i [] }
    {
        row_of(&self.entries, &self.ends, i)
    }
}

/// How many elements one room has.
const ROOM: usize = 8_192;

/// Whole rooms for so many elements. So lists of nearly one length take as much memory, and what one of them leaves is
/// found for the next.
pub fn room_for(count: usize) -> usize
    ensures { count ≤ result }
{
    (count / ROOM).saturating_add(1).saturating_mul(ROOM)
}

/// Where row `i` begins.
fn start_of(ends: &[usize], i: usize) -> usize
    requires { i ≤ length ends.now }
    ensures { result ≡ slice_index (0 ∷ ends.now) i }
{
    if i == 0 { 0 } else { ends[i - 1] }
}

/// Where row `i` begins and where it ends, within `limit` entries.
fn bounds_of(ends: &[usize], limit: usize, i: usize) -> (usize, usize)
    requires ends { AreEnds limit 0 ends.now }
    requires wagon { i < length ends.now }
    ensures start { result.0 ≡ slice_index (0 ∷ ends.now) i }
    ensures end { result.1 ≡ slice_index ends.now i }
    ensures ordered { result.0 ≤ result.1 }
    ensures within { result.1 ≤ limit }
{
    let start = start_of(ends, i);
    (start, ends[i])
}

/// Row `i` of the rows that lie one after another in `entries`.
#[tactic(auto, using(crate::proofs::RowLemmas::row_lookups))]
fn row_of<'a>(entries: &'a [(u32, u32)], ends: &[usize], i: usize) -> &'a [(u32, u32)]
    requires ends { AreEnds (length entries.now) 0 ends.now }
    requires wagon { i < length ends.now }
    ensures { result.now ≡ slice_index_or (rows_of entries.now 0 ends.now) i [] }
{
    let (start, end) = bounds_of(ends, entries.len(), i);
    &entries[start..end]
}
