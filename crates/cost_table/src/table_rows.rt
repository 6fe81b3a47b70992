//! The rows of a table, whose first cells it may share with other tables.
ghost use Rattle.std.specs.Prelude.{◌≡◌, ◌<◌, ◌≤◌, ◌++◌, [], ◌∷◌, IfOk, IsTrue, OnErr, OnOk, length, replicate, slice_index_or, take};
ghost use Rattle.cost_table.specs.RowParts.{cells_in};
ghost use Rattle.cost_table.specs.SharedRows.{ArePlaces, HasPlaces, HasRowMore, HasSameRows, are_scattered, own_cells, row_among, rows_among, rows_in, shared_cells};

use crate::row::Row;
use crate::row_block::{RowBlock, room_for};
use std::alloc::{AllocError, Global};
use std::sync::Arc;

/// Where a row stands: its first cells are so many of a row of the shared block; those behind them are an own row, counted
/// from 1, or none where that number is 0.
#[derive(Clone, Copy, PartialEq, Eq)]
pub struct RowPlace {
    pub shared: usize,
    pub count: usize,
    pub own: usize,
}

/// The rows of a table. The first cells of each stand in a block that tables share, the others in the table's own.
#[derive(Drop)]
pub struct TableRows {
    pub shared: Arc<RowBlock>,
    pub own: RowBlock,
    /// For each wagon where its row stands.
    pub places: Vec<RowPlace>,
}

impl TableRows {
    /// The rows of a block, which other tables may share.
    pub fn of_block(alloc: Global, block: RowBlock) -> Result<TableRows, AllocError>
        ensures rows { IfOk result (λ rows. rows_in rows ≡ block) }
        ensures placed { IfOk result HasPlaces }
    {
        let places = all_places(alloc, &block)?;
        Ok(TableRows {
            shared: Arc::new(alloc, block)?,
            own: RowBlock::new(alloc),
            places,
        })
    }

    /// So many rows without a cell.
    pub fn all_empty(alloc: Global, count: usize) -> Result<TableRows, AllocError>
        ensures rows { IfOk result (λ rows. rows_in rows ≡ replicate count []) }
        ensures placed { IfOk result HasPlaces }
    {
        let nowhere = RowPlace {
            shared: 0,
            count: 0,
            own: 0,
        };
        Ok(TableRows {
            shared: Arc::new(alloc, RowBlock::new(alloc))?,
            own: RowBlock::new(alloc),
            places: Vec::from_elem(alloc, nowhere, count)?,
        })
    }

    /// No row yet, with room for the places of so many, and none to share.
    pub fn empty(alloc: Global, count: usize) -> Result<TableRows, AllocError>
        ensures shared { IfOk result (λ rows. rows.shared.value ≡ []) }
        ensures rows { IfOk result (λ rows. rows_in rows ≡ []) }
        ensures placed { IfOk result HasPlaces }
    {
        Ok(TableRows {
            shared: Arc::new(alloc, RowBlock::new(alloc))?,
            own: RowBlock::new(alloc),
            places: Vec::with_capacity(alloc, count)?,
        })
    }

    /// The same, with room for as many cells as another table has, and an eighth more: a block that is too short is copied
    /// while it grows.
    pub fn empty_like(
        alloc: Global,
        other: &TableRows,
        count: usize,
    ) -> Result<TableRows, AllocError>
        ensures shared { IfOk result (λ rows. rows.shared.value ≡ []) }
        ensures rows { IfOk result (λ rows. rows_in rows ≡ []) }
        ensures placed { IfOk result HasPlaces }
    {
        let cells = other.shared.cells().saturating_add(other.own.cells());
        Ok(TableRows {
            shared: Arc::new(alloc, RowBlock::new(alloc))?,
            own: RowBlock::with_room(alloc, count, room_for(cells.saturating_add(cells / 8)))?,
            places: Vec::with_capacity(alloc, count)?,
        })
    }

    /// No row yet, with room for the places of so many; it shares the block of another table's rows, and has room for as many
    /// cells of its own, and an eighth more.
    pub fn sharing(alloc: Global, other: &TableRows, count: usize) -> Result<TableRows, AllocError>
        ensures shared { IfOk result (λ rows. rows.shared.value ≡ other.now.shared.value) }
        ensures rows { IfOk result (λ rows. rows_in rows ≡ []) }
        ensures placed { IfOk result HasPlaces }
    {
        let cells = other.own.cells();
        let room = cells.saturating_add(cells / 8);
        Ok(TableRows {
            shared: Arc::try_clone(&other.shared)?,
            own: RowBlock::with_room(alloc, other.own.len(), room)?,
            places: Vec::with_capacity(alloc, count)?,
        })
    }

    /// How many rows there are.
    pub fn len(&self) -> usize
        ensures { result ≡ length (rows_in self.now) }
    {
        self.places.len()
    }

    /// The row of wagon `i`.
    pub fn row(&self, i: usize) -> Row<'_>
        requires placed { HasPlaces self.now }
        requires wagon { i < length (rows_in self.now) }
        ensures { cells_in result ≡ slice_index_or (rows_in self.now) i [] }
    {
        self.row_at(self.places[i])
    }

    /// The row of a place.
    fn row_at(&self, place: RowPlace) -> Row<'_>
        requires { place.own ≤ length self.now.own }
        ensures first { result.first.now ≡ shared_cells self.now.shared.value place }
        ensures rest { result.rest.now ≡ own_cells self.now.own place }
    {
        Row {
            first: first_cells(&self.shared, place.shared, place.count),
            rest: own_row(&self.own, place.own),
        }
    }

    /// Whether the rows of two wagons stand in one place. Those of others may still have the same cells.
    pub fn share_row(&self, i: usize, k: usize) -> bool
        requires wagon { i < length (rows_in self.now) }
        requires other { k < length (rows_in self.now) }
        ensures { IsTrue result → slice_index_or (rows_in self.now) i [] ≡ slice_index_or (rows_in self.now) k [] }
    {
        self.places[i] == self.places[k]
    }

    /// Appends a row. `Err` only when out of memory; then there are the same rows.
    pub fn push(&mut self, row: &[(u32, u32)]) -> Result<(), AllocError>
        requires { HasPlaces self.old }
        ensures pushed { OnOk result (HasRowMore self.old self.new row.now) }
        ensures kept { OnErr result (HasSameRows self.old self.new) }
    {
        let none = Row {
            first: &[],
            rest: &[],
        };
        self.push_behind(0, 0, none, row)
    }

    /// Appends one row, which begins with a row's cells and goes on with others: all are copied. `Err` only when out of
    /// memory; then there are the same rows.
    pub fn push_parts(&mut self, first: Row<'_>, rest: &[(u32, u32)]) -> Result<(), AllocError>
        requires { HasPlaces self.old }
        ensures pushed { OnOk result (HasRowMore self.old self.new (cells_in first.entry ++ rest.now)) }
        ensures kept { OnErr result (HasSameRows self.old self.new) }
    {
        self.push_behind(0, 0, first, rest)
    }

    /// Appends one row, which begins with so many cells of row `i` of another table, whose shared block is this one's too,
    /// and goes on with others: cells of that block aren't copied. `Err` only when out of memory; then there are the same
    /// rows.
    pub fn push_along(
        &mut self,
        other: &TableRows,
        i: usize,
        count: usize,
        rest: &[(u32, u32)],
    ) -> Result<(), AllocError>
        requires placed { HasPlaces self.old }
        requires shared { self.old.shared.value ≡ other.now.shared.value }
        requires others { HasPlaces other.now }
        requires wagon { i < length (rows_in other.now) }
        requires count { count ≤ length (slice_index_or (rows_in other.now) i []) }
        ensures pushed { OnOk result (HasRowMore self.old self.new (take count (slice_index_or (rows_in other.now) i []) ++ rest.now)) }
        ensures kept { OnErr result (HasSameRows self.old self.new) }
    {
        let place = other.places[i];
        let (front, _) = other.row_at(place).split_at(count);
        let own = Row {
            first: front.rest,
            rest: &[],
        };
        self.push_behind(place.shared, front.first.len(), own, rest)
    }

    /// Appends row `i` of another table, whose shared block is this one's too: cells of that block aren't copied. `Err` only
    /// when out of memory; then there are the same rows.
    pub fn take_over(&mut self, other: &TableRows, i: usize) -> Result<(), AllocError>
        requires placed { HasPlaces self.old }
        requires shared { self.old.shared.value ≡ other.now.shared.value }
        requires others { HasPlaces other.now }
        requires wagon { i < length (rows_in other.now) }
        ensures pushed { OnOk result (HasRowMore self.old self.new (slice_index_or (rows_in other.now) i [])) }
        ensures kept { OnErr result (HasSameRows self.old self.new) }
    {
        let place = other.places[i];
        if place.own == 0 {
            self.places.push(place)?;
            return Ok(());
        }
        let own = Row {
            first: own_row(&other.own, place.own),
            rest: &[],
        };
        self.push_behind(place.shared, place.count, own, &[])
    }

    /// Appends a row whose first cells are so many of a row of the shared block, and whose other cells are copied.
    fn push_behind(
        &mut self,
        shared: usize,
        count: usize,
        first: Row<'_>,
        rest: &[(u32, u32)],
    ) -> Result<(), AllocError>
        requires { HasPlaces self.old }
        ensures pushed { OnOk result (HasRowMore self.old self.new (take count (slice_index_or self.old.shared.value shared []) ++ (cells_in first.entry ++ rest.now))) }
        ensures kept { OnErr result (HasSameRows self.old self.new) }
    {
        self.places.reserve(1)?;
        if first.len() == 0 && rest.is_empty() {
            let own = 0;
            self.places.push_reserved(RowPlace { shared, count, own });
            return Ok(());
        }
        self.own.push(first, rest)?;
        let own = self.own.len();
        self.places.push_reserved(RowPlace { shared, count, own });
        Ok(())
    }

    /// Appends row `i` of this table once more, which isn't copied. `Err` only when out of memory; then there are the same
    /// rows.
    pub fn repeat(&mut self, i: usize) -> Result<(), AllocError>
        requires placed { HasPlaces self.old }
        requires wagon { i < length (rows_in self.old) }
        ensures pushed { OnOk result (HasRowMore self.old self.new (slice_index_or (rows_in self.old) i [])) }
        ensures kept { OnErr result (HasSameRows self.old self.new) }
    {
        let place = self.places[i];
        self.places.push(place)?;
        Ok(())
    }

    /// The same rows, where none of their cells is shared: other tables may share them now.
    pub fn to_share(self, alloc: Global) -> Result<TableRows, AllocError>
        requires placed { HasPlaces self }
        requires own { self.shared.value ≡ [] }
        ensures rows { IfOk result (λ rows. rows_in rows ≡ rows_in self) }
        ensures none_own { IfOk result (λ rows. rows.own ≡ []) }
        ensures placed { IfOk result HasPlaces }
    {
        let TableRows { own, places, .. } = self;
        let places = shared_places(alloc, &own, &places)?;
        Ok(TableRows {
            shared: Arc::new(alloc, own)?,
            own: RowBlock::new(alloc),
            places,
        })
    }

    /// Whether so many cells are the table's own that a table made again would serve better as one to share: over a quarter
    /// of those of the shared block.
    pub fn are_scattered(&self) -> bool
        ensures { result ≡ are_scattered self.now }
    {
        self.own.cells() > self.shared.cells() / 4
    }
}

/// So many of the first cells of row `k` of a block; none where it isn't there.
fn first_cells(block: &RowBlock, k: usize, count: usize) -> &[(u32, u32)]
    ensures { result.now ≡ take count (slice_index_or block.now k []) }
{
    if k >= block.len() {
        return &[];
    }
    let row = block.row(k);
    &row[..count.min(row.len())]
}

/// The cells of an own row, counted from 1; none for number 0.
fn own_row(own: &RowBlock, number: usize) -> &[(u32, u32)]
    requires { number ≤ length own.now }
    ensures { result.now ≡ slice_index_or ([] ∷ own.now) number [] }
{
    match number.checked_sub(1) {
        Some(k) => own.row(k),
        None => &[],
    }
}

/// Where an own row, counted from 1, stands once its block is one to share; nowhere for number 0.
fn shared_place(block: &RowBlock, number: usize) -> RowPlace
    requires { number ≤ length block.now }
    ensures row { row_among block.now [] result ≡ slice_index_or ([] ∷ block.now) number [] }
    ensures own { result.own ≡ 0 }
{
    let cells = own_row(block, number);
    RowPlace {
        shared: number.saturating_sub(1),
        count: cells.len(),
        own: 0,
    }
}

/// Where own rows stand once their block is one to share.
fn shared_places(
    alloc: Global,
    block: &RowBlock,
    places: &[RowPlace],
) -> Result<Vec<RowPlace>, AllocError>
    requires { ArePlaces block.now places.now }
    ensures rows { IfOk result (λ shared. rows_among block.now [] shared.items ≡ rows_among [] block.now places.now) }
    ensures placed { IfOk result (λ shared. ArePlaces [] shared.items) }
{
    let mut shared = Vec::with_capacity(alloc, places.len())?;
    for place in places {
        shared.push(shared_place(block, place.own))?;
    }
    Ok(shared)
}

/// The places of all rows of a block that is one to share.
fn all_places(alloc: Global, block: &RowBlock) -> Result<Vec<RowPlace>, AllocError>
    ensures rows { IfOk result (λ places. rows_among block.now [] places.items ≡ block.now) }
    ensures placed { IfOk result (λ places. ArePlaces [] places.items) }
{
    let mut places = Vec::with_capacity(alloc, block.len())?;
    for k in 0..block.len() {
        places.push(shared_place(block, k + 1))?;
    }
    Ok(places)
}
