//! The rows of the wagons.
ghost use Rattle.std.specs.Prelude.{◌≡◌, ◌≤◌, ◌<◌, ◌↔◌, IfNone, IfOk, IfSome, IsSomeAnd, IsTrue, None, Some, count_by, length, map, option_copied, option_map, slice_get, slice_set, vec_capacity};
ghost use Rattle.std.specs.List.{filter_map};
ghost use Rattle.std.specs.List.Sorted.{IsStrictlySortedBy};
ghost use Rattle.fleet_rows.specs.FreeWagons.{is_free, is_free_at};
ghost use Rattle.fleet_rows.specs.Rows.{at_wagon, wagon_in, with_promise};
ghost use Rattle.fleet_rows.specs.Kept.{by_number, max_roster_wagons};
ghost use Rattle.fleet_rows.specs.inner.EmptyList.{is_unpromised};
ghost use Rattle.fleet_rows.specs.EmptyWagons.{empty_at, empty_in, empty_wagons};
ghost use Rattle.move_messages.specs.MaxLoad.{max_load};
ghost use Rattle.wagons_and_orders.specs.PossibleRows.{IsPossibleRow};
ghost use Rattle.wagons_and_orders.specs.declared.wagon_row.WagonRow.{WagonRow};

use crate::empty_wagons::{Stand, empty_list, replace, standing_so};
use rail_codes::{ClassCode, OrderId, Place, WagonNumber};
use std::alloc::{AllocError, Global};
use std::marker::Model;
use wagons_and_orders::{WagonHints, WagonRow, free};

/// What an office knows of its wagons: at most 1,000 rows, ascending by number. No wagon comes or
/// goes. A contract sees the rows.
pub struct WagonRows {
    rows: Vec<WagonRow>,
    // Whether each of them is free. Most aren't, so one that looks for the free ones reads few rows.
    are_free: Vec<bool>,
    // Where the rows of the empty wagons are that nobody holds, by place, class and number: the map of them, in one list.
    // It has room for all wagons, so that none of them ever wants memory.
    empty: Vec<u16>,
    // Where each stands: a search among rows of a thousand wagons takes ten steps, which no processor foresees.
    hints: WagonHints,
}

// Written out, it is proved here once; a derived one, in each crate that drops a value.
impl Drop for WagonRows {
    fn drop(self) {
        let WagonRows {
            rows: _,
            are_free: _,
            empty: _,
            hints: _,
        } = self;
    }
}

impl Model for WagonRows {
    ghost use Rattle.std.specs.Prelude.{List, vec_capacity};
    ghost use Rattle.fleet_rows.specs.inner.Stored.{AreStored};
    ghost use Rattle.wagons_and_orders.specs.declared.wagon_row.WagonRow.{WagonRow};

    ghost Value = { List WagonRow };

    ghost view = { λ wagons. wagons.rows.items };

    ghost invariant = { λ wagons. AreStored wagons.rows.items wagons.are_free.items wagons.empty.items (vec_capacity wagons.empty) };
}

impl WagonRows {
    ghost use Rattle.fleet_rows.specs.Kept.{IsWagonRows};

    /// A copy of these rows: at most 1,000, ascending by number, none of which carries over 200,000 kg, and each of which an
    /// office can have.
    pub fn from_rows(alloc: Global, rows: &[WagonRow]) -> Result<WagonRows, AllocError>
        requires { IsWagonRows rows.now }
        ensures { IfOk result (λ wagons. wagons ≡ rows.now) }
    {
        let rows = Vec::from_slice(alloc, rows)?;
        let are_free = are_free(alloc, &rows)?;
        let empty = empty_list(alloc, &rows)?;
        let hints = hints(alloc, &rows)?;
        Ok(WagonRows {
            rows,
            are_free,
            empty,
            hints,
        })
    }

    /// The rows, ascending by number.
    pub fn as_slice(&self) -> &[WagonRow]
        ensures rows { result.now ≡ self.now }
        ensures valid { IsWagonRows self.now }
    {
        &self.rows
    }

    /// Does nothing: for the prover alone, it says what the rows keep.
    pub fn for_the_prover(&self)
        ensures { IsWagonRows self.now }
    {
        let _ = &self.rows;
    }

    /// The row of a wagon, where the office has it.
    pub fn get(&self, number: WagonNumber) -> Option<&WagonRow>
        ensures { option_copied result ≡ wagon_in self.now number }
    {
        match self.find(number) {
            Some((_, row)) => Some(row),
            None => None,
        }
    }

    /// The row of a wagon and its index, where the office has it.
    pub fn find(&self, number: WagonNumber) -> Option<(usize, &WagonRow)>
        ensures row { option_map (λ found. found.1.now) result ≡ wagon_in self.now number }
        ensures index { IfSome result (λ found. slice_get self.now found.0 ≡ Some found.1.now) }
    {
        self.find_near(number, None)
    }

    /// The same. Where an index is given, the row is looked for there first.
    pub fn find_near(&self, number: WagonNumber, near: Option<usize>) -> Option<(usize, &WagonRow)>
        ensures row { option_map (λ found. found.1.now) result ≡ wagon_in self.now number }
        ensures index { IfSome result (λ found. slice_get self.now found.0 ≡ Some found.1.now) }
    {
        let near = match near {
            Some(index) => index,
            None => self.hint(number),
        };
        let index = index_near(&self.rows, number, near)?;
        let row = self.rows.get(index)?;
        Some((index, row))
    }

    /// Where the row of a wagon may stand.
    fn hint(&self, number: WagonNumber) -> usize {
        self.hints.at(mixed(number))
    }

    /// Whether each wagon is free, in the order of the rows.
    pub fn are_free(&self) -> &[bool]
        ensures { result.now ≡ map is_free self.now }
    {
        &self.are_free
    }

    /// Where the rows of the wagons of a class are that stand empty at a place, and that nobody holds: ascending, so by
    /// number. Promised ones are among them. Takes no memory.
    pub fn empty_at(&self, class: ClassCode, place: Place) -> &[u16]
        ensures rows { result.now ≡ empty_at self.now class place }
        ensures wagons { filter_map (λ index. empty_in (slice_get self.now index)) result.now ≡ empty_wagons self.now class place }
    {
        let stand = Stand { place, class };
        standing_so(&self.empty, &self.rows, &stand)
    }

    /// How many free wagons of a class stand at a place. Only those that stand there empty are looked at.
    pub fn free_count(&self, class: ClassCode, place: Place) -> usize
        ensures { result ≡ count_by (is_free_at class place) self.now }
    {
        let rows = self.as_slice();
        self.empty_at(class, place)
            .iter()
            .filter(|index| is_unpromised(rows, **index))
            .count()
    }

    /// Puts a row in place of the one that its wagon has, which stands at this index.
    pub fn put(&mut self, index: usize, row: &WagonRow)
        requires its_index { (old : WagonRow) × (slice_get self.old index ≡ Some old) × (old.number ≡ row.now.number) }
        requires few_kg { row.now.load_limit ≤ max_load }
        requires possible { IsPossibleRow row.now }
        ensures { self.new ≡ at_wagon row.now.number (λ _. row.now) self.old }
    {
        self.for_the_prover();
        self.set(index, row);
    }

    /// Promises a free wagon to an order.
    pub fn promise(&mut self, number: WagonNumber, id: OrderId)
        requires { IsSomeAnd (wagon_in self.old number) (λ row. IsTrue (is_free row)) }
        ensures { self.new ≡ at_wagon number (with_promise (Some id)) self.old }
    {
        self.for_the_prover();
        self.set_promise(number, Some(id));
    }

    /// Ends the promise of a wagon, where the office has it.
    pub fn end_promise(&mut self, number: WagonNumber)
        ensures { self.new ≡ at_wagon number (with_promise None) self.old }
    {
        self.for_the_prover();
        self.set_promise(number, None);
    }

    /// Sets the promise of a wagon, where the office has it, and its row is still one that an office can have.
    fn set_promise(&mut self, number: WagonNumber, promise: Option<OrderId>)
        requires { IfSome (wagon_in self.old number) (λ row. IsPossibleRow (with_promise promise row)) }
        ensures { self.new ≡ at_wagon number (with_promise promise) self.old }
    {
        if let Some(index) = index_near(&self.rows, number, self.hint(number)) {
            let row = WagonRow {
                promise,
                ..self.rows[index]
            };
            self.set(index, &row);
        }
    }

    /// Sets the row at an index, with which the rows are still some that an office may have.
    fn set(&mut self, index: usize, row: &WagonRow)
        requires within { index < length self.old }
        requires valid { IsWagonRows (slice_set self.old index row.now) }
        ensures { self.new ≡ slice_set self.old index row.now }
    {
        let (was_free, now_free) = (is_free(&self.rows[index]), is_free(row));
        replace(&mut self.rows, &mut self.empty, index, row);
        // Not even read where it stays: its neighbours are those of other wagons, which other processors may have changed.
        if was_free != now_free {
            self.are_free[index] = now_free;
        }
    }
}

/// Slots for hints: of 1,000 wagons some 60 find another's there.
const HINT_SLOTS: usize = 8_192;

/// Where the row of each wagon stands.
fn hints(alloc: Global, rows: &[WagonRow]) -> Result<WagonHints, AllocError> {
    let mut hints = WagonHints::none(alloc, HINT_SLOTS)?;
    for (index, row) in rows.iter().enumerate() {
        hints.note(mixed(row.number), index);
    }
    Ok(hints)
}

/// A number whose last bits few other wagons' have.
fn mixed(number: WagonNumber) -> usize {
    let digits = number.digits();
    // The first four tell the railway and the kind of wagon, which many share.
    let (_, last) = digits.split_at(4);
    let number = <[u8; 8]>::try_from(last).map_or(0, u64::from_le_bytes);
    (number.wrapping_mul(0x9E37_79B9_7F4A_7C15) >> 48) as usize
}

/// Whether the wagon of each row is free.
fn are_free(alloc: Global, rows: &[WagonRow]) -> Result<Vec<bool>, AllocError>
    ensures { IfOk result (λ are_free. are_free.items ≡ map is_free rows.now) }
{
    rows.iter().map(is_free).collect(alloc)
}

/// Whether the wagon of a row is free.
fn is_free(row: &WagonRow) -> bool
    ensures { result ≡ is_free row.now }
{
    free(row).is_some()
}

/// Whether there is a row at an index, and its wagon isn't promised.
fn is_unpromised(rows: &[WagonRow], index: u16) -> bool
    ensures { result ≡ is_unpromised (slice_get rows.now index) }
{
    match rows.get(usize::from(index)) {
        Some(row) => row.promise.is_none(),
        None => false,
    }
}

/// Where the row of a wagon stands among ascending rows. It is looked for at an index first.
fn index_near(rows: &[WagonRow], number: WagonNumber, near: usize) -> Option<usize>
    requires { IsStrictlySortedBy by_number rows.now }
    ensures found { IfSome result (λ index. (row : WagonRow) × (slice_get rows.now index ≡ Some row) × (row.number ≡ number)) }
    ensures absent { IfNone result (wagon_in rows.now number ≡ None) }
{
    if has_number(rows, near, number) {
        Some(near)
    } else {
        index_of(rows, number)
    }
}

/// Whether the row at an index is that of a wagon.
fn has_number(rows: &[WagonRow], index: usize, number: WagonNumber) -> bool
    ensures { IsTrue result → (row : WagonRow) × (slice_get rows.now index ≡ Some row) × (row.number ≡ number) }
{
    match rows.get(index) {
        Some(row) => is_same_wagon(row.number, number),
        None => false,
    }
}

fn is_same_wagon(one: WagonNumber, other: WagonNumber) -> bool
    ensures { IsTrue result ↔ (one ≡ other) }
{
    one == other
}

/// Where the row of a wagon stands among ascending rows.
fn index_of(rows: &[WagonRow], number: WagonNumber) -> Option<usize>
    requires { IsStrictlySortedBy by_number rows.now }
    ensures found { IfSome result (λ index. (row : WagonRow) × (slice_get rows.now index ≡ Some row) × (row.number ≡ number)) }
    ensures absent { IfNone result (wagon_in rows.now number ≡ None) }
{
    rows.binary_search_by_key(&number, |row| row.number).ok()
}
