//! The notes of a commit and of a withdrawal. `Err` only when out of memory; some notes may be there then.
ghost use Rattle.std.specs.Prelude.{◌≡◌, ◌++◌, ◌∷◌, [], IfOk, OnOk, map};
ghost use Rattle.std.specs.List.{flat_map};
ghost use Rattle.fleet_rows.specs.Rows.{order_in};
ghost use Rattle.operating_db.specs.Promises.{promised_of};
ghost use Rattle.journal_notes.specs.OfficeNotes.{complete_notes, promised_note, waiting_names, withdrawal_notes, withdrawn_note};

use crate::note::{EndCause, EndedPromise, NamedOrder, Note, WagonForOrder};
use crate::note_lists::push_if;
use operating_db::OfficeState;
use rail_codes::{Moment, OrderId, WagonNumber};
use std::alloc::{AllocError, Global};
use wagons_and_orders::Wanted;

/// The names of the orders that lack a wagon, as placed. The moment is any.
pub(crate) fn waiting_names(
    alloc: Global,
    state: &OfficeState,
    at: Moment,
) -> Result<Vec<OrderId>, AllocError>
    ensures { IfOk result (λ names. names.items ≡ waiting_names state.now.office) }
{
    let problem = state.problem(alloc, at)?;
    wanted_names(alloc, problem.orders())
}

/// The names of orders.
fn wanted_names(alloc: Global, orders: &[Wanted]) -> Result<Vec<OrderId>, AllocError>
    ensures { IfOk result (λ names. names.items ≡ map (λ wanted. wanted.order.id) orders.now) }
{
    let mut names = Vec::with_capacity(alloc, orders.len())?;
    for wanted in orders {
        names.push_reserved(wanted.order().id());
    }
    Ok(names)
}

/// Adds the notes of the pairs of a commit.
pub(crate) fn push_promised_notes(
    notes: &mut Vec<Note>,
    pairs: &[(WagonNumber, OrderId)],
) -> Result<(), AllocError>
    ensures { OnOk result (notes.new.items ≡ notes.old.items ++ map promised_note pairs.now) }
{
    for (wagon, order) in pairs {
        push_promised_note(notes, *wagon, *order)?;
    }
    Ok(())
}

/// Adds the note of a pair.
fn push_promised_note(
    notes: &mut Vec<Note>,
    wagon: WagonNumber,
    order: OrderId,
) -> Result<(), AllocError>
    ensures { OnOk result (notes.new.items ≡ notes.old.items ++ promised_note (wagon, order) ∷ []) }
{
    notes.push(Note::Promised(WagonForOrder { wagon, order }))?;
    Ok(())
}

/// Adds a note for each of these orders that lacks no wagon in an office.
pub(crate) fn push_complete_notes(
    notes: &mut Vec<Note>,
    state: &OfficeState,
    names: &[OrderId],
) -> Result<(), AllocError>
    ensures { OnOk result (notes.new.items ≡ notes.old.items ++ flat_map (complete_notes state.now.office) names.now) }
{
    for name in names {
        push_complete_note(notes, state, *name)?;
    }
    Ok(())
}

/// Adds the note of an order where it lacks no wagon in an office.
fn push_complete_note(
    notes: &mut Vec<Note>,
    state: &OfficeState,
    order: OrderId,
) -> Result<(), AllocError>
    ensures { OnOk result (notes.new.items ≡ notes.old.items ++ complete_notes state.now.office order) }
{
    let is_complete = state.lack(order) == 0;
    push_if(notes, is_complete, Note::Complete(NamedOrder { order }))
}

/// The notes of the wagons that are promised to an order, where it is withdrawn next.
pub(crate) fn withdrawal_notes(
    alloc: Global,
    state: &OfficeState,
    order: OrderId,
) -> Result<Vec<Note>, AllocError>
    ensures { IfOk result (λ notes. notes.items ≡ withdrawal_notes state.now.office order) }
{
    withdrawn_notes(alloc, promised_of(state, order), order)
}

/// The wagons that are promised to an order.
fn promised_of(state: &OfficeState, order: OrderId) -> &[WagonNumber]
    ensures { result.now ≡ promised_of (order_in state.now.office.orders order) }
{
    match state.order(order) {
        None => &[],
        Some(row) => row.promised(),
    }
}

/// The notes of these wagons of a withdrawn order.
fn withdrawn_notes(
    alloc: Global,
    wagons: &[WagonNumber],
    order: OrderId,
) -> Result<Vec<Note>, AllocError>
    ensures { IfOk result (λ notes. notes.items ≡ map (withdrawn_note order) wagons.now) }
{
    let mut notes = Vec::new(alloc);
    for wagon in wagons {
        push_withdrawn_note(&mut notes, *wagon, order)?;
    }
    Ok(notes)
}

/// Adds the note of a wagon of a withdrawn order.
fn push_withdrawn_note(
    notes: &mut Vec<Note>,
    wagon: WagonNumber,
    order: OrderId,
) -> Result<(), AllocError>
    ensures { OnOk result (notes.new.items ≡ notes.old.items ++ withdrawn_note order wagon ∷ []) }
{
    let cause = EndCause::Withdrawn;
    notes.push(Note::Ended(EndedPromise {
        wagon,
        order,
        cause,
    }))?;
    Ok(())
}
