//! The rows of a problem's table while they are made, wagon by wagon.
ghost use Rattle.std.specs.Prelude.{◌≡◌, ◌+◌, ◌<◌, [], All, IfOk, OnOk, length, slice_get, slice_index, slice_index_or, Some};
ghost use Rattle.cost_table.specs.SharedRows.{HasPlaces, rows_in};
ghost use Rattle.line_network.specs.Network.{place_index};
ghost use Rattle.problem_table.specs.declared.goals.ClassGoals.{ClassGoals};
ghost use Rattle.problem_table.specs.inner.Goals.{AreGoalsOf, goals_of};
ghost use Rattle.problem_table.specs.inner.Making.{AddsRowUntil, AddsWagon, AreMade};

use crate::alike::{HINT_SLOTS, is_alike_before};
use crate::allowed::push_row;
use crate::goals::{ClassGoals, class_position};
use cost_table::{Problem, TableRows};
use line_network::Tables;
use std::alloc::{AllocError, Global};
use wagons_and_orders::{FreeWagon, WagonHints};

/// The rows so far, and what is kept to make more of them.
#[derive(Drop)]
pub(crate) struct Making {
    pub(crate) rows: TableRows,
    /// Up to which moment each is its wagon's row.
    pub(crate) lasts: Vec<u64>,
    /// The goals of the classes of the wagons whose rows were found.
    pub(crate) classes: Vec<ClassGoals>,
    /// The cells that were found last.
    pub(crate) found: Vec<(u32, u32)>,
    /// The wagons whose rows were found, by class and place.
    seen: WagonHints,
}

impl Making {
    /// No row yet beside these, with room for the moments of so many.
    pub(crate) fn beginning(
        alloc: Global,
        rows: TableRows,
        count: usize,
    ) -> Result<Making, AllocError>
        ensures rows { IfOk result (λ making. making.rows ≡ rows) }
        ensures lasts { IfOk result (λ making. making.lasts.items ≡ []) }
        ensures classes { IfOk result (λ making. making.classes.items ≡ []) }
    {
        Ok(Making {
            rows,
            lasts: Vec::with_capacity(alloc, count)?,
            classes: Vec::new(alloc),
            found: Vec::new(alloc),
            seen: WagonHints::none(alloc, HINT_SLOTS)?,
        })
    }
}

/// Makes the row of wagon `k`.
pub(crate) fn make(
    alloc: Global,
    making: &mut Making,
    problem: &Problem,
    tables: &Tables,
    k: usize,
    wagon: &FreeWagon,
) -> Result<(), AllocError>
    requires wagon { slice_get problem.now.wagons k ≡ Some wagon.now }
    requires made { AreMade tables.now problem.now k making.old }
    ensures made { OnOk result (AreMade tables.now problem.now (k + 1) making.new) }
    ensures shared { OnOk result (making.new.rows.shared.value ≡ making.old.rows.shared.value) }
{
    let class = class_position(
        alloc,
        &mut making.classes,
        wagon.class,
        tables.network(),
        0,
        problem.orders(),
    )?;
    make_of_class(making, problem, tables, k, wagon, class)
}

/// The same for a wagon of a class whose goals were found: the row of an alike wagon before it that was seen, else one that
/// is found.
fn make_of_class(
    making: &mut Making,
    problem: &Problem,
    tables: &Tables,
    k: usize,
    wagon: &FreeWagon,
    class: usize,
) -> Result<(), AllocError>
    requires wagon { slice_get problem.now.wagons k ≡ Some wagon.now }
    requires made { AreMade tables.now problem.now k making.old }
    requires within { class < length making.old.classes.items }
    requires class { (d : ClassGoals) → (slice_index_or making.old.classes.items class d).class ≡ wagon.now.class }
    ensures made { OnOk result (AreMade tables.now problem.now (k + 1) making.new) }
    ensures shared { OnOk result (making.new.rows.shared.value ≡ making.old.rows.shared.value) }
{
    if making.classes[class].goals.is_empty() {
        return add_unwanted(making, problem, tables, wagon);
    }
    let from = tables.network().index_of(wagon.place);
    let number = number_of(class, from);
    let i = making.seen.at(number);
    if is_alike_before(problem.wagons(), i, k, wagon, problem.at()) {
        return repeat(making, i);
    }
    making.seen.note(number, k);
    find(making, problem, tables, wagon, from, class)
}

/// Adds the row of a wagon whose class no order wants: it is empty, and stays so. The tables are for the prover alone.
fn add_unwanted(
    making: &mut Making,
    problem: &Problem,
    _tables: &Tables,
    wagon: &FreeWagon,
) -> Result<(), AllocError>
    requires placed { HasPlaces making.old.rows }
    requires unwanted { goals_of _tables.now wagon.now.class problem.now.orders ≡ [] }
    ensures row { OnOk result (AddsWagon _tables.now problem.now wagon.now making.old making.new) }
    ensures classes { making.new.classes ≡ making.old.classes }
{
    // A moment is below the greatest number.
    problem.at().for_the_prover();
    making.rows.push(&[])?;
    making.lasts.push(u64::MAX)?;
    Ok(())
}

/// A number that few other classes and places have.
fn number_of(class: usize, place: Option<usize>) -> usize {
    class.wrapping_mul(683).wrapping_add(place.unwrap_or(0))
}

/// Takes the row of wagon `i` once more.
pub(crate) fn repeat(making: &mut Making, i: usize) -> Result<(), AllocError>
    requires placed { HasPlaces making.old.rows }
    requires row { i < length (rows_in making.old.rows) }
    requires moment { i < length making.old.lasts.items }
    ensures row { OnOk result (AddsRowUntil making.old making.new (slice_index_or (rows_in making.old.rows) i []) (slice_index making.old.lasts.items i)) }
    ensures classes { making.new.classes ≡ making.old.classes }
{
    let last = making.lasts[i];
    making.rows.repeat(i)?;
    making.lasts.push(last)?;
    Ok(())
}

/// Finds the row of a wagon, the number of whose place is handed in.
fn find(
    making: &mut Making,
    problem: &Problem,
    tables: &Tables,
    wagon: &FreeWagon,
    from: Option<usize>,
    class: usize,
) -> Result<(), AllocError>
    requires placed { HasPlaces making.old.rows }
    requires classes { All (AreGoalsOf tables.now 0 problem.now.orders) making.old.classes.items }
    requires within { class < length making.old.classes.items }
    requires class { (d : ClassGoals) → (slice_index_or making.old.classes.items class d).class ≡ wagon.now.class }
    requires from { from ≡ place_index tables.now.places wagon.now.place }
    ensures row { OnOk result (AddsWagon tables.now problem.now wagon.now making.old making.new) }
    ensures classes { making.new.classes ≡ making.old.classes }
{
    making.found.clear();
    let goals = &making.classes[class].goals;
    let last = push_row(&mut making.found, problem, wagon, from, goals, tables)?;
    making.rows.push(&making.found)?;
    making.lasts.push(last)?;
    Ok(())
}
