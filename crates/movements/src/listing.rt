//! The list of an office's movements.
ghost use Rattle.std.specs.Prelude.{◌≡◌, ◌++◌, ◌∷◌, [], IfOk, OnOk, Some, filter};
ghost use Rattle.std.specs.BTreeMap.{get};
ghost use Rattle.fleet_rows.specs.Kept.{compare_numbers};
ghost use Rattle.fleet_rows.specs.Rows.{wagon_in};
ghost use Rattle.movements.specs.Choices.{keeps_movement, keeps_silent};
ghost use Rattle.movements.specs.ListOf.{IsListOf, listed_orders, listed_silent};
ghost use Rattle.movements.specs.Movements.{IsMovement};
ghost use Rattle.movements.specs.Needs.{stands};
ghost use Rattle.movements.specs.Silence.{silent_wagons};
ghost use Rattle.movements.specs.inner.Listed.{AddsMovement, AreKept, AreMovements};

use crate::arrivals::way_of;
use crate::choice::Choice;
use crate::movement::Movement;
use crate::movement_list::MovementList;
use crate::need::{OrderNeed, need_of};
use crate::silence::{SilentWagon, is_silent, silent_of};
use line_network::Tables;
use operating_db::OfficeState;
use rail_codes::{Moment, OrderId};
use std::alloc::{AllocError, Global};
use std::collections::BTreeMap;
use wagons_and_orders::{OrderRow, OrderState, WagonRow};

/// The promised movements of an office at a moment, over the network of these tables. There is one for each promised wagon,
/// ascending by number: its way to the order's place, and the earliest moment at which it can be there. The orders that aren't
/// withdrawn stand beside them, as placed, and the wagons that haven't been heard from, if they are asked for. What the choice
/// leaves out isn't listed.
///
/// An empty wagon leaves when it is ready, and one on its way left at its last message. Any other stands where that message
/// says. None that stands leaves before the moment, and none on its way is there before it. One that has arrived at its order's
/// place has been there since its last message. The way is the walk of fewest kilometres; a longer one may be quicker.
///
/// `late_fills` says by how many minutes orders were filled late; an order that it doesn't name is listed as one in time.
pub fn list_of_movements(
    alloc: Global,
    version: u64,
    state: &OfficeState,
    tables: &Tables,
    at: Moment,
    late_fills: &BTreeMap<OrderId, u64>,
    choice: &Choice<'_>,
) -> Result<MovementList, AllocError>
    ensures { IfOk result (IsListOf version state.now.office tables.now at (get compare_numbers late_fills.now) choice.now) }
{
    let movements = kept_movements(alloc, state, tables, at, choice)?;
    let orders = kept_orders(alloc, state.order_rows(), at, late_fills, choice)?;
    let silent = kept_silent(alloc, state.wagon_rows(), at, choice)?;
    Ok(MovementList {
        version,
        at,
        movements,
        orders,
        silent,
    })
}

/// The movements that are listed.
fn kept_movements(
    alloc: Global,
    state: &OfficeState,
    tables: &Tables,
    at: Moment,
    choice: &Choice<'_>,
) -> Result<Vec<Movement>, AllocError>
    ensures { IfOk result (λ kept. AreKept tables.now at state.now.office choice.now kept.items) }
{
    let movements = all_movements(alloc, state, tables, at)?;
    movements_of_choice(alloc, &movements, choice)
}

/// Those of these movements that are listed.
fn movements_of_choice(
    alloc: Global,
    movements: &[Movement],
    choice: &Choice<'_>,
) -> Result<Vec<Movement>, AllocError>
    ensures { IfOk result (λ kept. kept.items ≡ filter (keeps_movement choice.now) movements.now) }
{
    movements
        .iter()
        .filter(|movement| choice.keeps_movement(movement))
        .copied()
        .collect(alloc)
}

/// The movements of all promised wagons.
fn all_movements(
    alloc: Global,
    state: &OfficeState,
    tables: &Tables,
    at: Moment,
) -> Result<Vec<Movement>, AllocError>
    ensures { IfOk result (λ movements. AreMovements tables.now at state.now.office.orders state.now.office.wagons movements.items) }
{
    let mut movements = Vec::new(alloc);
    for row in state.wagon_rows() {
        push_movement(&mut movements, state, tables, at, row)?;
    }
    Ok(movements)
}

/// Adds the movement of a wagon of the office, if it is promised.
fn push_movement(
    movements: &mut Vec<Movement>,
    state: &OfficeState,
    tables: &Tables,
    at: Moment,
    row: &WagonRow,
) -> Result<(), AllocError>
    requires { wagon_in state.now.office.wagons row.now.number ≡ Some row.now }
    ensures { OnOk result (AddsMovement tables.now at state.now.office.orders row.now movements.old.items movements.new.items) }
{
    match row.promise {
        None => Ok(()),
        Some(id) => push_made(movements, movement_of(state, tables, at, row, id)),
    }
}

/// Adds a movement.
fn push_made(movements: &mut Vec<Movement>, movement: Movement) -> Result<(), AllocError>
    ensures { OnOk result (movements.new.items ≡ movements.old.items ++ movement ∷ []) }
{
    let _status = movement.status;
    movements.push(movement)?;
    Ok(())
}

/// The movement of a wagon of the office that is promised to this order.
fn movement_of(
    state: &OfficeState,
    tables: &Tables,
    at: Moment,
    row: &WagonRow,
    id: OrderId,
) -> Movement
    requires known { wagon_in state.now.office.wagons row.now.number ≡ Some row.now }
    requires promised { row.now.promise ≡ Some id }
    ensures { IsMovement tables.now at state.now.office.orders row.now result }
{
    // The office has each order that a wagon is promised to.
    state.for_the_prover();
    let order = state.order(id).unwrap().text();
    Movement {
        wagon: row.number,
        class: row.class,
        status: row.status,
        since: row.last,
        order: id,
        to: order.place(),
        latest: order.latest(),
        way: way_of(tables, at, row, order.place()),
    }
}

/// The orders that are listed.
fn kept_orders(
    alloc: Global,
    rows: &[OrderRow],
    at: Moment,
    late_fills: &BTreeMap<OrderId, u64>,
    choice: &Choice<'_>,
) -> Result<Vec<OrderNeed>, AllocError>
    ensures { IfOk result (λ kept. kept.items ≡ listed_orders at (get compare_numbers late_fills.now) choice.now rows.now) }
{
    rows.iter()
        .filter(|row| stands(row))
        .map(|row| need_of(at, late_fills, row))
        .filter(|need| choice.keeps_order(need))
        .collect(alloc)
}

/// Whether an order isn't withdrawn.
fn stands(row: &OrderRow) -> bool
    ensures { result ≡ stands row.now }
{
    !matches!(row.state(), OrderState::Withdrawn)
}

/// The wagons that haven't been heard from and are listed.
fn kept_silent(
    alloc: Global,
    rows: &[WagonRow],
    at: Moment,
    choice: &Choice<'_>,
) -> Result<Vec<SilentWagon>, AllocError>
    ensures { IfOk result (λ kept. kept.items ≡ listed_silent at choice.now rows.now) }
{
    match choice.silent {
        None => Ok(Vec::new(alloc)),
        Some(hours) => silent_for(alloc, rows, at, hours, choice),
    }
}

/// The wagons that haven't been heard from for so many hours and are listed.
fn silent_for(
    alloc: Global,
    rows: &[WagonRow],
    at: Moment,
    hours: u64,
    choice: &Choice<'_>,
) -> Result<Vec<SilentWagon>, AllocError>
    ensures { IfOk result (λ kept. kept.items ≡ filter (keeps_silent choice.now) (silent_wagons at (Some hours) rows.now)) }
{
    rows.iter()
        .filter(|row| is_silent(at, hours, row))
        .map(|row| silent_of(row))
        .filter(|silent| choice.keeps_silent(silent))
        .collect(alloc)
}
