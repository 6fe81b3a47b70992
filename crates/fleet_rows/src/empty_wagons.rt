//! The empty wagons that nobody holds: the map of them from class to place to number, held as one list of where their
//! rows are. Contracts see what is listed of a class at a place (`WagonRows::empty_at`).
ghost use Rattle.std.specs.Prelude.{◌≡◌, ◌+◌, ◌<◌, ◌≤◌, ◌||◌, ◌&&◌, ℕ, IfOk, IsTrue, cond, false, length, nat_eq, slice_get, slice_set, true, vec_capacity};
ghost use Rattle.std.specs.List.Sorted.{IsPartitionPoint, IsStrictlySortedBy};
ghost use Rattle.fleet_rows.specs.Kept.{max_roster_wagons};
ghost use Rattle.fleet_rows.specs.inner.EmptyList.{AreListed, compare_indexes, empty_stand, is_before, is_empty_row, is_on, stand_of, standing_so};
ghost use Rattle.fleet_rows.specs.inner.Indexed.{without_index};

use rail_codes::{ClassCode, Place};
use std::alloc::{AllocError, Global};
use wagons_and_orders::{Status, WagonRow};

/// Where a wagon is, and its class. Places are compared first, since two of them differ far more often than two classes.
#[derive(Clone, Copy, PartialEq, Eq, PartialOrd, Ord)]
pub(crate) struct Stand {
    /// The place.
    pub place: Place,
    /// The class.
    pub class: ClassCode,
}

/// Sets the row at an index. Its wagon is then on the list exactly where it is empty and nobody holds it. Most changes
/// leave the list alone.
pub(crate) fn replace(rows: &mut Vec<WagonRow>, empty: &mut Vec<u16>, index: usize, row: &WagonRow)
    requires within { index < length rows.old.items }
    requires few { length rows.old.items ≤ max_roster_wagons }
    requires listed { AreListed rows.old.items empty.old.items (vec_capacity empty.old) }
    ensures rows { rows.new.items ≡ slice_set rows.old.items index row.now }
    ensures listed { AreListed rows.new.items empty.new.items (vec_capacity empty.new) }
{
    if stands_the_same(&rows[index], row) {
        rows[index] = *row;
        return;
    }
    take_off(empty, rows, index);
    rows[index] = *row;
    put_on(empty, rows, index);
}

/// Where the rows of the empty wagons are that nobody holds, with room for all wagons.
pub(crate) fn empty_list(alloc: Global, rows: &[WagonRow]) -> Result<Vec<u16>, AllocError>
    requires { length rows.now ≤ max_roster_wagons }
    ensures { IfOk result (λ empty. AreListed rows.now empty.items (vec_capacity empty)) }
{
    let mut empty = Vec::with_capacity(alloc, rows.len())?;
    for index in 0..rows.len() {
        put_on(&mut empty, rows, index);
    }
    Ok(empty)
}

/// Of the wagons on the list, those that stand so.
pub(crate) fn standing_so<'a>(indexes: &'a [u16], rows: &[WagonRow], stand: &Stand) -> &'a [u16]
    requires { IsStrictlySortedBy (compare_indexes rows.now) indexes.now }
    ensures { result.now ≡ standing_so rows.now stand.now indexes.now }
{
    let first = count_before(indexes, rows, stand, 0);
    let (_, rest) = indexes.split_at(first);
    let end = count_before(rest, rows, stand, rows.len());
    let (there, _) = rest.split_at(end);
    there
}

/// Where a row's wagon is, and its class.
fn stand_of(row: &WagonRow) -> Stand
    ensures { result ≡ stand_of row.now }
{
    Stand {
        place: row.status.place(),
        class: row.class,
    }
}

/// The same of an empty wagon that nobody holds.
fn empty_stand(row: &WagonRow) -> Option<Stand>
    ensures { result ≡ empty_stand row.now }
{
    match row.status {
        Status::Empty(place, _) if !row.held => Some(Stand {
            place,
            class: row.class,
        }),
        _ => None,
    }
}

/// Whether a row in the place of another leaves its wagon's entry as it is.
fn stands_the_same(row: &WagonRow, other: &WagonRow) -> bool
    ensures { IsTrue result → empty_stand row.now ≡ empty_stand other.now }
{
    match (empty_stand(row), empty_stand(other)) {
        (None, None) => true,
        (Some(stand), Some(other)) => is_same_stand(stand, other),
        _ => false,
    }
}

fn is_same_stand(one: Stand, other: Stand) -> bool
    ensures { IsTrue result → one ≡ other }
{
    one == other
}

/// Whether another wagon comes before one at this index that stands so.
fn is_before(rows: &[WagonRow], stand: &Stand, index: usize, other: u16) -> bool
    ensures { result ≡ is_before rows.now stand.now index other }
{
    let other = usize::from(other);
    match rows.get(other) {
        Some(row) => stand_of(row).cmp(stand).then(other.cmp(&index)).is_lt(),
        None => true,
    }
}

/// How many wagons come before one at this index that stands so.
fn count_before(indexes: &[u16], rows: &[WagonRow], stand: &Stand, index: usize) -> usize
    requires { IsStrictlySortedBy (compare_indexes rows.now) indexes.now }
    ensures bound { result ≤ length indexes.now }
    ensures parts { IsPartitionPoint (λ other. is_before rows.now stand.now index other ≡ true) (λ other. is_before rows.now stand.now index other ≡ false) indexes.now result }
{
    indexes.partition_point(|other| is_before(rows, stand, index, *other))
}

/// Takes a wagon off the list, where it is empty and nobody holds it.
fn take_off(indexes: &mut Vec<u16>, rows: &[WagonRow], index: usize)
    requires within { index < length rows.now }
    requires ascending { IsStrictlySortedBy (compare_indexes rows.now) indexes.old.items }
    requires exactly { is_on indexes.old.items index ≡ is_empty_row (slice_get rows.now index) }
    ensures items { indexes.new.items ≡ without_index index indexes.old.items }
    ensures fewer { length indexes.new.items + cond (is_empty_row (slice_get rows.now index)) 1 0 ≡ length indexes.old.items }
    ensures room { vec_capacity indexes.new ≡ vec_capacity indexes.old }
{
    if let Some(stand) = empty_stand(&rows[index]) {
        let before = count_before(indexes, rows, &stand, index);
        indexes.remove(before);
    }
}

/// Puts a wagon on the list, where it is empty and nobody holds it. There is room.
fn put_on(indexes: &mut Vec<u16>, rows: &[WagonRow], index: usize)
    requires within { index < length rows.now }
    requires few { length rows.now ≤ max_roster_wagons }
    requires ascending { IsStrictlySortedBy (compare_indexes rows.now) indexes.old.items }
    requires absent { is_on indexes.old.items index ≡ false }
    requires room { length indexes.old.items + cond (is_empty_row (slice_get rows.now index)) 1 0 ≤ vec_capacity indexes.old }
    ensures ascending { IsStrictlySortedBy (compare_indexes rows.now) indexes.new.items }
    ensures with_it { (other : ℕ) → is_on indexes.new.items other ≡ ((nat_eq other index && is_empty_row (slice_get rows.now index)) || is_on indexes.old.items other) }
    ensures more { length indexes.new.items ≡ length indexes.old.items + cond (is_empty_row (slice_get rows.now index)) 1 0 }
    ensures room { vec_capacity indexes.old ≤ vec_capacity indexes.new }
{
    if let Some(stand) = empty_stand(&rows[index]) {
        let before = count_before(indexes, rows, &stand, index);
        indexes.insert(before, index as u16).unwrap();
    }
}
