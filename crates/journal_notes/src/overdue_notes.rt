//! The notes of orders that become overdue. `Err` only when out of memory; some notes may be there then.
ghost use Rattle.std.specs.Prelude.{◌≡◌, ◌++◌, IfOk, IsOk, OnOk};
ghost use Rattle.std.specs.List.{flat_map};
ghost use Rattle.journal_notes.specs.OverdueNotes.{overdue_note};
ghost use Rattle.journal_notes.specs.declared.note.Note.TheVariants as note;
ghost use Rattle.journal_notes.specs.inner.Passed.{IsWithPassed, is_passed, passed_notes_of};

use crate::note::{Note, OverdueOrder};
use crate::note_lists::push_if;
use std::alloc::AllocError;
use wagons_and_orders::OrderRow;

/// The notes of an event, and behind them those of the orders that are passed as the newest moment moves on. It looks at the orders
/// beyond the bound alone.
pub(crate) fn with_overdue_notes(
    rows: &[OrderRow],
    from: u64,
    bound: u64,
    until: u64,
    said: Result<Vec<Note>, AllocError>,
) -> Result<Vec<Note>, AllocError>
    ensures notes { IfOk result (λ notes. IfOk said (λ some. IsWithPassed from bound until rows.now some.items notes.items)) }
    ensures said { OnOk result (IsOk said) }
{
    let mut notes = said?;
    push_overdue_notes(&mut notes, rows, from, bound, until)?;
    Ok(notes)
}

/// Adds the notes of the orders that are passed.
fn push_overdue_notes(
    notes: &mut Vec<Note>,
    rows: &[OrderRow],
    from: u64,
    bound: u64,
    until: u64,
) -> Result<(), AllocError>
    ensures { OnOk result (IsWithPassed from bound until rows.now notes.old.items notes.new.items) }
{
    if until <= bound {
        return Ok(());
    }
    push_passed_notes(notes, rows, from, until)
}

/// Adds a note for each of these orders that is passed.
fn push_passed_notes(
    notes: &mut Vec<Note>,
    rows: &[OrderRow],
    from: u64,
    until: u64,
) -> Result<(), AllocError>
    ensures { OnOk result (notes.new.items ≡ notes.old.items ++ flat_map (passed_notes_of from until) rows.now) }
{
    for row in rows {
        push_passed_note(notes, row, from, until)?;
    }
    Ok(())
}

/// Adds the note of an order that is passed.
fn push_passed_note(
    notes: &mut Vec<Note>,
    row: &OrderRow,
    from: u64,
    until: u64,
) -> Result<(), AllocError>
    ensures { OnOk result (notes.new.items ≡ notes.old.items ++ passed_notes_of from until row.now) }
{
    push_if(
        notes,
        is_passed(row, from, until),
        Note::Overdue(overdue_order(row)),
    )
}

/// Whether an order is open, and its latest moment lies from one moment on and before another.
fn is_passed(row: &OrderRow, from: u64, until: u64) -> bool
    ensures { result ≡ is_passed from until row.now }
{
    let latest = row.text().latest().seconds();
    row.is_open() && latest < until && !(latest < from)
}

/// An order that is overdue, by its row.
fn overdue_order(row: &OrderRow) -> OverdueOrder
    ensures { note.Overdue result ≡ overdue_note row.now }
{
    OverdueOrder {
        order: row.text().id(),
        latest: row.text().latest(),
        missing: row.lack(),
        promised: row.promised().len(),
    }
}
