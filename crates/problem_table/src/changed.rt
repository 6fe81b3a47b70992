//! The table of a problem, changed from that of an earlier one.
ghost use Rattle.std.specs.Prelude.{◌≡◌, ◌+◌, ◌<◌, ◌≤◌, ◌++◌, ◌↔◌, [], ℕ, IfOk, IfSome, IsTrue, OnOk, Some, false, length, slice_get, slice_index_or, take, true};
ghost use Rattle.problem_table.specs.Allowed.{IsTableOf};
ghost use Rattle.problem_table.specs.Lasting.{IsLastingTable, IsTableUntil};
ghost use Rattle.problem_table.specs.inner.AllowedRows.{AreLastingRows, IsLastingRow};
ghost use Rattle.problem_table.specs.inner.Making.{AddsRowUntil, AddsWagon, AreMade};
ghost use Rattle.problem_table.specs.inner.Alike.{AreAlike};
ghost use Rattle.problem_table.specs.inner.Moved.{AreCome, AreMoved, AreSteady, GoesAlong, HaveBlock, HaveSameTexts};
ghost use Rattle.problem_table.specs.inner.RowsSoFar.{RowSoFar};
ghost use Rattle.cost_table.specs.RowParts.{cells_in};
ghost use Rattle.cost_table.specs.SharedRows.{HasPlaces, HasRowMore, rows_in};
ghost use Rattle.wagons_and_orders.specs.declared.free_wagon.FreeWagon.{FreeWagon};

use crate::alike::{HINT_SLOTS, are_alike, is_alike_before};
use crate::allowed::push_goals;
use crate::goals::{ClassGoals, Goal, class_position};
use crate::lasting::{TimedCells, timed_table};
use crate::making::{Making, make, repeat};
use crate::moved::{Moved, have_same_texts, move_later_cells, steady_cells};
use crate::unwanted::unwanted_rows;
use cost_table::{Problem, Row, RowPlace, TableRows};
use line_network::Tables;
use rail_codes::{Moment, WagonNumber};
use std::alloc::{AllocError, Global};
use wagons_and_orders::{FreeWagon, WagonHints};

/// What `timed_cells` answers, made out of the table of an earlier problem: the cells of a wagon that has the ways that it had
/// then, and whose last moment isn't past, are taken over for the orders that stay, and those of the others are found.
pub fn changed_cells(
    alloc: Global,
    problem: &Problem,
    tables: &Tables,
    earlier: &Problem,
    made: &TimedCells,
) -> Result<TimedCells, AllocError>
    requires earlier { earlier.now.at ≤ problem.now.at }
    requires made { IsLastingTable tables.now earlier.now made.now.cells made.now.lasts.items }
    ensures table { IfOk result (λ made. IsTableOf tables.now problem.now made.cells) }
    ensures within { IfOk result (λ made. problem.now.at ≤ made.until) }
    ensures lasts { IfOk result (λ made. IsTableUntil tables.now problem.now made.until made.cells) }
    ensures by_wagon { IfOk result (λ made. IsLastingTable tables.now problem.now made.cells made.lasts.items) }
{
    let (rows, lasts) = rows_after(alloc, problem, tables, earlier, made)?;
    timed_table(alloc, problem, tables, rows, lasts)
}

/// The rows of all wagons, and up to which moment each is that row.
fn rows_after(
    alloc: Global,
    problem: &Problem,
    tables: &Tables,
    earlier: &Problem,
    made: &TimedCells,
) -> Result<(TableRows, Vec<u64>), AllocError>
    requires earlier { earlier.now.at ≤ problem.now.at }
    requires made { IsLastingTable tables.now earlier.now made.now.cells made.now.lasts.items }
    ensures placed { IfOk result (λ r. HasPlaces r.0) }
    ensures rows { IfOk result (λ r. AreLastingRows tables.now problem.now.at problem.now.wagons problem.now.orders (rows_in r.0) r.1.items) }
{
    if problem.orders().is_empty() {
        return unwanted_rows(alloc, problem, tables);
    }
    let rows = made.cells.rows();
    if may_share(rows, earlier, problem) {
        return shared_rows(alloc, problem, tables, earlier, rows, &made.lasts);
    }
    moved_rows(alloc, problem, tables, earlier, rows, &made.lasts)
}

/// Whether the rows serve as some to share: the orders are the same, and few rows stand outside of their block.
fn may_share(rows: &TableRows, earlier: &Problem, problem: &Problem) -> bool
    ensures { IsTrue result → HaveSameTexts earlier.now.orders problem.now.orders }
{
    !rows.are_scattered() && have_same_texts(earlier.orders(), problem.orders())
}

/// The same beside the block of the earlier rows, where the orders are the same.
fn shared_rows(
    alloc: Global,
    problem: &Problem,
    tables: &Tables,
    earlier: &Problem,
    rows: &TableRows,
    lasts: &[u64],
) -> Result<(TableRows, Vec<u64>), AllocError>
    requires earlier { earlier.now.at ≤ problem.now.at }
    requires placed { HasPlaces rows.now }
    requires rows { AreLastingRows tables.now earlier.now.at earlier.now.wagons problem.now.orders (rows_in rows.now) lasts.now }
    ensures placed { IfOk result (λ r. HasPlaces r.0) }
    ensures rows { IfOk result (λ r. AreLastingRows tables.now problem.now.at problem.now.wagons problem.now.orders (rows_in r.0) r.1.items) }
{
    let wagons = problem.wagons();
    let sharing = TableRows::sharing(alloc, rows, wagons.len())?;
    let mut making = Making::beginning(alloc, sharing, wagons.len())?;
    let mut at = 0;
    for (k, wagon) in wagons.iter().enumerate() {
        at = index_from(earlier.wagons(), at, wagon.number);
        match lasting_row(earlier.wagons(), lasts, at, wagon, problem.at()) {
            Some(last) => take_over(&mut making, EarlierRow { rows, at, last })?,
            None => make(alloc, &mut making, problem, tables, k, wagon)?,
        }
    }
    Ok((making.rows, making.lasts))
}

/// The same where orders have come or gone, or most cells are to be in one block again.
fn moved_rows(
    alloc: Global,
    problem: &Problem,
    tables: &Tables,
    earlier: &Problem,
    rows: &TableRows,
    lasts: &[u64],
) -> Result<(TableRows, Vec<u64>), AllocError>
    requires earlier { earlier.now.at ≤ problem.now.at }
    requires placed { HasPlaces rows.now }
    requires rows { AreLastingRows tables.now earlier.now.at earlier.now.wagons earlier.now.orders (rows_in rows.now) lasts.now }
    ensures placed { IfOk result (λ r. HasPlaces r.0) }
    ensures rows { IfOk result (λ r. AreLastingRows tables.now problem.now.at problem.now.wagons problem.now.orders (rows_in r.0) r.1.items) }
{
    let wagons = problem.wagons();
    let mut moving = Moving::beginning(alloc, earlier, problem, rows)?;
    let begun = begin_rows(alloc, rows, moving.shares, wagons.len())?;
    let mut making = Making::beginning(alloc, begun, wagons.len())?;
    let mut at = 0;
    for (k, wagon) in wagons.iter().enumerate() {
        at = index_from(earlier.wagons(), at, wagon.number);
        match lasting_row(earlier.wagons(), lasts, at, wagon, problem.at()) {
            Some(last) => take_along(
                alloc,
                &mut making,
                &mut moving,
                problem,
                tables,
                EarlierRow { rows, at, last },
                k,
                wagon,
            )?,
            None => make(alloc, &mut making, problem, tables, k, wagon)?,
        }
    }
    let rows = end_rows(alloc, making.rows, moving.shares)?;
    Ok((rows, making.lasts))
}

/// No row yet: beside the block of earlier rows, or to be in a block of their own.
fn begin_rows(
    alloc: Global,
    rows: &TableRows,
    shares: bool,
    count: usize,
) -> Result<TableRows, AllocError>
    ensures block { IfOk result (λ begun. HaveBlock shares rows.now begun) }
    ensures rows { IfOk result (λ begun. rows_in begun ≡ []) }
    ensures placed { IfOk result HasPlaces }
{
    if shares {
        TableRows::sharing(alloc, rows, count)
    } else {
        TableRows::empty_like(alloc, rows, count)
    }
}

/// The same rows; where none of their cells is shared, other tables may share them now.
fn end_rows(alloc: Global, rows: TableRows, shares: bool) -> Result<TableRows, AllocError>
    requires placed { HasPlaces rows }
    requires own { shares ≡ false → rows.shared.value ≡ [] }
    ensures rows { IfOk result (λ ended. rows_in ended ≡ rows_in rows) }
    ensures placed { IfOk result HasPlaces }
{
    if shares {
        Ok(rows)
    } else {
        rows.to_share(alloc)
    }
}

/// From an index on, the first index of a wagon whose number isn't below this one. Where wagons ascend by number, that is
/// where the wagon stands, if it is there.
fn index_from(wagons: &[FreeWagon], from: usize, number: WagonNumber) -> usize {
    for k in from..wagons.len() {
        if number <= wagons[k].number {
            return k;
        }
    }
    wagons.len()
}

/// Up to which moment the row at an index is the row of this wagon, where it still is at a moment. The wagon there need not
/// be the same one, nor ready when it was: both have the same ways from that moment on.
fn lasting_row(
    wagons: &[FreeWagon],
    lasts: &[u64],
    k: usize,
    wagon: &FreeWagon,
    at: Moment,
) -> Option<u64>
    ensures there { IfSome result (λ last. k < length wagons.now) }
    ensures alike { IfSome result (λ last. (there : FreeWagon) → slice_get wagons.now k ≡ Some there → AreAlike at there wagon.now) }
    ensures last { IfSome result (λ last. slice_get lasts.now k ≡ Some last) }
    ensures within { IfSome result (λ last. at ≤ last) }
{
    let there = wagons.get(k)?;
    let last = last_at(lasts, k)?;
    if are_alike(there, wagon, at) && at.seconds() <= last {
        Some(last)
    } else {
        None
    }
}

/// The last moment at an index, `None` past the end.
fn last_at(lasts: &[u64], k: usize) -> Option<u64>
    ensures { result ≡ slice_get lasts.now k }
{
    lasts.get(k).copied()
}

/// A row of the earlier table, and up to which moment it is a wagon's, in seconds since 1970.
#[derive(Clone, Copy)]
struct EarlierRow<'a> {
    rows: &'a TableRows,
    at: usize,
    last: u64,
}

/// Takes over an earlier row.
fn take_over(making: &mut Making, row: EarlierRow<'_>) -> Result<(), AllocError>
    requires placed { HasPlaces making.old.rows }
    requires shared { making.old.rows.shared.value ≡ row.rows.now.shared.value }
    requires rows { HasPlaces row.rows.now }
    requires wagon { row.at < length (rows_in row.rows.now) }
    ensures row { OnOk result (AddsRowUntil making.old making.new (slice_index_or (rows_in row.entry.rows.now) row.entry.at []) row.entry.last) }
    ensures classes { making.new.classes ≡ making.old.classes }
{
    making.rows.take_over(row.rows, row.at)?;
    making.lasts.push(row.last)?;
    Ok(())
}

/// What is kept while rows go along with their orders.
#[derive(Drop)]
pub(crate) struct Moving {
    pub(crate) moved: Moved,
    /// The goals of orders that came, by the class of wagons whose rows went along.
    pub(crate) came: Vec<ClassGoals>,
    /// The wagons whose rows went along, by where the earlier rows stand.
    seen: WagonHints,
    /// Whether the rows share the block of the earlier ones, where their first cells then stay. It serves where most orders
    /// stand where they stood.
    pub(crate) shares: bool,
}

impl Moving {
    /// No row has gone along from an earlier problem to a later one.
    fn beginning(
        alloc: Global,
        earlier: &Problem,
        problem: &Problem,
        rows: &TableRows,
    ) -> Result<Moving, AllocError>
        ensures moved { IfOk result (λ moving. AreMoved earlier.now.orders problem.now.orders moving.moved.positions.items moving.moved.kept) }
        ensures steady { IfOk result (λ moving. AreSteady moving.moved.positions.items moving.moved.kept moving.moved.steady) }
        ensures came { IfOk result (λ moving. moving.came.items ≡ []) }
    {
        let moved = Moved::between(alloc, earlier.orders(), problem.orders())?;
        let shares = !rows.are_scattered() && moved.are_mostly_steady(problem.orders().len());
        Ok(Moving {
            moved,
            came: Vec::new(alloc),
            seen: WagonHints::none(alloc, HINT_SLOTS)?,
            shares,
        })
    }
}

/// Makes the row of wagon `k` out of its earlier row: the row of an alike wagon before it whose row went along, else its
/// earlier row goes along.
fn take_along(
    alloc: Global,
    making: &mut Making,
    moving: &mut Moving,
    problem: &Problem,
    tables: &Tables,
    row: EarlierRow<'_>,
    k: usize,
    wagon: &FreeWagon,
) -> Result<(), AllocError>
    requires wagon { slice_get problem.now.wagons k ≡ Some wagon.now }
    requires made { AreMade tables.now problem.now k making.old }
    requires block { HaveBlock moving.old.shares row.rows.now making.old.rows }
    requires rows { HasPlaces row.rows.now }
    requires row { row.at < length (rows_in row.rows.now) }
    requires along { GoesAlong problem.now tables.now wagon.now moving.old.moved (slice_index_or (rows_in row.rows.now) row.at []) row.last }
    requires within { problem.now.at ≤ row.last }
    requires came { AreCome tables.now problem.now.orders moving.old }
    ensures made { OnOk result (AreMade tables.now problem.now (k + 1) making.new) }
    ensures shared { OnOk result (making.new.rows.shared.value ≡ making.old.rows.shared.value) }
    ensures moved { moving.new.moved ≡ moving.old.moved }
    ensures shares { moving.new.shares ≡ moving.old.shares }
    ensures came { OnOk result (AreCome tables.now problem.now.orders moving.new) }
{
    let number = number_of(row.rows.places[row.at]);
    let i = moving.seen.at(number);
    if is_alike_before(problem.wagons(), i, k, wagon, problem.at()) {
        return repeat(making, i);
    }
    moving.seen.note(number, k);
    move_row(alloc, making, moving, problem, tables, row, wagon)
}

/// A number that few other places have.
fn number_of(place: RowPlace) -> usize {
    place.shared.wrapping_mul(683).wrapping_add(place.own)
}

/// Has an earlier row of a wagon go along with its orders, and goes on with it.
fn move_row(
    alloc: Global,
    making: &mut Making,
    moving: &mut Moving,
    problem: &Problem,
    tables: &Tables,
    row: EarlierRow<'_>,
    wagon: &FreeWagon,
) -> Result<(), AllocError>
    requires placed { HasPlaces making.old.rows }
    requires block { HaveBlock moving.old.shares row.rows.now making.old.rows }
    requires rows { HasPlaces row.rows.now }
    requires row { row.at < length (rows_in row.rows.now) }
    requires along { GoesAlong problem.now tables.now wagon.now moving.old.moved (slice_index_or (rows_in row.rows.now) row.at []) row.last }
    requires within { problem.now.at ≤ row.last }
    requires came { AreCome tables.now problem.now.orders moving.old }
    ensures row { OnOk result (AddsWagon tables.now problem.now wagon.now making.old making.new) }
    ensures classes { making.new.classes ≡ making.old.classes }
    ensures moved { moving.new.moved ≡ moving.old.moved }
    ensures shares { moving.new.shares ≡ moving.old.shares }
    ensures came { OnOk result (AreCome tables.now problem.now.orders moving.new) }
{
    let kept = moving.moved.kept;
    let class = class_position(
        alloc,
        &mut moving.came,
        wagon.class,
        tables.network(),
        kept,
        &problem.orders()[kept..],
    )?;
    let cells = row.rows.row(row.at);
    let steady = steady_cells(cells, &moving.moved);
    let (first, later) = cells.split_at(steady);
    making.found.clear();
    move_later_cells(&mut making.found, later, &moving.moved)?;
    let goals = &moving.came[class].goals;
    let last = go_on(
        first,
        &mut making.found,
        problem,
        wagon,
        goals,
        tables,
        row.last,
    )?;
    let shares = moving.shares;
    push_moved(&mut making.rows, row, steady, &making.found, shares)?;
    making.lasts.push(last)?;
    Ok(())
}

/// Appends one row, which begins with so many cells of an earlier row and goes on with others.
fn push_moved(
    new: &mut TableRows,
    row: EarlierRow<'_>,
    count: usize,
    found: &[(u32, u32)],
    shares: bool,
) -> Result<(), AllocError>
    requires placed { HasPlaces new.old }
    requires shared { shares ≡ true → new.old.shared.value ≡ row.rows.now.shared.value }
    requires rows { HasPlaces row.rows.now }
    requires row { row.at < length (rows_in row.rows.now) }
    requires count { count ≤ length (slice_index_or (rows_in row.rows.now) row.at []) }
    ensures { OnOk result (HasRowMore new.old new.new (take count (slice_index_or (rows_in row.entry.rows.now) row.entry.at []) ++ found.now)) }
{
    if shares {
        return new.push_along(row.rows, row.at, count, found);
    }
    let (front, _) = row.rows.row(row.at).split_at(count);
    new.push_parts(front, found)
}

/// Goes on with the row of a wagon, which is known up to a last moment, by the goals of later orders, and says up to which
/// moment it is that row. The row begins with cells that stand elsewhere; they are for the prover alone.
fn go_on(
    first: Row<'_>,
    entries: &mut Vec<(u32, u32)>,
    problem: &Problem,
    wagon: &FreeWagon,
    goals: &[Goal],
    tables: &Tables,
    last: u64,
) -> Result<u64, AllocError>
    requires within { problem.now.at ≤ last }
    requires so_far { (m : ℕ) → problem.now.at ≤ m → m ≤ last → RowSoFar tables.now m wagon.now problem.now.orders goals.now [] (cells_in first ++ entries.old.items) }
    ensures row { IfOk result (λ last. IsLastingRow tables.now problem.now.at wagon.now problem.now.orders (cells_in first.entry ++ entries.new.items) last) }
    ensures within { IfOk result (λ last. problem.now.at ≤ last) }
{
    if goals.is_empty() {
        return Ok(last);
    }
    let from = tables.network().index_of(wagon.place);
    push_goals(first, entries, problem, wagon, from, goals, tables, last)
}
