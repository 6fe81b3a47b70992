//! What is to be distributed: the free wagons and the waiting orders among the rows.
ghost use Rattle.std.specs.Prelude.{◌≡◌, IfOk, map};
ghost use Rattle.std.specs.List.{filter_map};
ghost use Rattle.fleet_rows.specs.FreeWagons.{is_free};
ghost use Rattle.operating_db.specs.Problem.{free_wagons, waiting_orders, wanted_in};
ghost use Rattle.wagons_and_orders.specs.Free.{free_of};
ghost use Rattle.operating_db.specs.inner.Walks.{wanted_at};

use fleet_rows::OrderRows;
use std::alloc::{AllocError, Global};
use wagons_and_orders::{FreeWagon, OrderRow, WagonRow, Wanted, free};

/// The free wagons, in order. Only their rows are read.
pub(crate) fn free_wagons(
    alloc: Global,
    rows: &[WagonRow],
    are_free: &[bool],
) -> Result<Vec<FreeWagon>, AllocError>
    requires { are_free.now ≡ map is_free rows.now }
    ensures { IfOk result (λ wagons. wagons.items ≡ free_wagons rows.now) }
{
    let mut wagons = Vec::with_capacity(alloc, rows.len())?;
    for (index, row) in rows.iter().enumerate() {
        if let Some(wagon) = free_if(row, are_free[index]) {
            wagons.push_reserved(wagon);
        }
    }
    Ok(wagons)
}

/// The row's wagon as a free one, where it is one, as is handed in.
fn free_if(row: &WagonRow, is_one: bool) -> Option<FreeWagon>
    requires { is_one ≡ is_free row.now }
    ensures { result ≡ free_of row.now }
{
    if is_one { free(row) } else { None }
}

/// The orders that lack a wagon, as placed, each with how many it lacks. Only those that wait are looked at.
pub(crate) fn waiting_orders(alloc: Global, orders: &OrderRows) -> Result<Vec<Wanted>, AllocError>
    ensures { IfOk result (λ wanted. wanted.items ≡ waiting_orders orders.now) }
{
    wanted_among(alloc, orders.as_slice(), orders.waiting())
}

/// The orders at these indices that lack a wagon.
fn wanted_among(
    alloc: Global,
    rows: &[OrderRow],
    indices: &[usize],
) -> Result<Vec<Wanted>, AllocError>
    ensures { IfOk result (λ wanted. wanted.items ≡ filter_map (wanted_at rows.now) indices.now) }
{
    let mut wanted = Vec::with_capacity(alloc, indices.len())?;
    for index in indices {
        if let Some(one) = wanted_at(rows, *index) {
            wanted.push_reserved(one);
        }
    }
    Ok(wanted)
}

/// The order at an index, with how many wagons it lacks, where one stands there and lacks one.
fn wanted_at(rows: &[OrderRow], index: usize) -> Option<Wanted>
    ensures { result ≡ wanted_at rows.now index }
{
    wanted(rows.get(index)?)
}

/// An order that lacks a wagon, with how many it lacks.
fn wanted(row: &OrderRow) -> Option<Wanted>
    ensures { result ≡ wanted_in row.now }
{
    let text = *row.text();
    text.for_the_prover();
    Wanted::new(text, row.lack())
}
