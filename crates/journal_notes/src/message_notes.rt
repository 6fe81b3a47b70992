//! The notes of a message. `Err` only when out of memory; some notes may be there then.
ghost use Rattle.std.specs.Prelude.{◌≡◌, ◌++◌, ◌∷◌, [], Some, OnOk, is_some};
ghost use Rattle.fleet_rows.specs.Rows.{order_in, wagon_in};
ghost use Rattle.operating_db.specs.Commits.{lack_in};
ghost use Rattle.operating_db.specs.Promises.{promise_of};
ghost use Rattle.journal_notes.specs.MessageNotes.{accepted_notes, cause_of, end_notes, filled_notes, is_filled, minutes_late, promise_notes, refused_notes};
ghost use Rattle.journal_notes.specs.declared.note.Note.TheVariants as note;
ghost use Rattle.journal_notes.specs.Streaks.{IsWithStreak, one_more, streak_of};

use crate::known_wagon::{KnownWagon, filled_count};
use crate::note::{
    EndCause, EndedPromise, FilledOrder, MissingWagons, Note, RefusedMessage, WagonForOrder,
};
use crate::note_lists::push_if;
use crate::streaks::{Streak, Streaks};
use move_messages::{Message, MessageKind};
use operating_db::OfficeState;
use rail_codes::{Moment, OrderId, WagonNumber};
use std::alloc::AllocError;
use wagons_and_orders::OrderRow;

/// Adds the notes of an accepted message, by what the office knew of its wagon before, and by the office after it.
pub(crate) fn push_accepted_notes(
    notes: &mut Vec<Note>,
    state: &OfficeState,
    message: &Message,
    known: &Option<KnownWagon>,
) -> Result<(), AllocError>
    ensures { OnOk result (notes.new.items ≡ notes.old.items ++ accepted_notes message.now known.now state.now.office) }
{
    match known {
        None => Ok(()),
        Some(known) => push_promise_notes(notes, state, message, known),
    }
}

/// Adds the notes of the promise that the wagon of a message had.
fn push_promise_notes(
    notes: &mut Vec<Note>,
    state: &OfficeState,
    message: &Message,
    known: &KnownWagon,
) -> Result<(), AllocError>
    ensures { OnOk result (notes.new.items ≡ notes.old.items ++ promise_notes message.now known.now.promise known.now.filled state.now.office) }
{
    match known.promise {
        None => Ok(()),
        Some(order) => {
            if is_promised(state, message.wagon) {
                return Ok(());
            }
            push_end_notes(notes, state, message, order, known.filled)
        }
    }
}

/// Whether a wagon is promised to an order.
fn is_promised(state: &OfficeState, number: WagonNumber) -> bool
    ensures { result ≡ is_some (promise_of (wagon_in state.now.office.wagons number)) }
{
    match state.wagon(number) {
        None => false,
        Some(row) => row.promise.is_some(),
    }
}

/// Adds the notes of a promise that is no longer one.
fn push_end_notes(
    notes: &mut Vec<Note>,
    state: &OfficeState,
    message: &Message,
    order: OrderId,
    filled: usize,
) -> Result<(), AllocError>
    ensures { OnOk result (notes.new.items ≡ notes.old.items ++ end_notes message.now order filled (order_in state.now.office.orders order)) }
{
    if filled < filled_count(state, order) {
        push_delivered_notes(notes, state, message, order)
    } else {
        push_ended_notes(notes, state, message, order)
    }
}

/// Adds the notes of a wagon that was delivered to its order.
fn push_delivered_notes(
    notes: &mut Vec<Note>,
    state: &OfficeState,
    message: &Message,
    order: OrderId,
) -> Result<(), AllocError>
    ensures { OnOk result (notes.new.items ≡ notes.old.items ++ note.Delivered (record { wagon = message.now.wagon; order = order }) ∷ filled_notes message.now.moment (order_in state.now.office.orders order)) }
{
    let delivered = WagonForOrder {
        wagon: message.wagon,
        order,
    };
    notes.push(Note::Delivered(delivered))?;
    push_filled_notes(notes, state, message.moment, order)
}

/// Adds the note of an order that is filled.
fn push_filled_notes(
    notes: &mut Vec<Note>,
    state: &OfficeState,
    moment: Moment,
    order: OrderId,
) -> Result<(), AllocError>
    ensures { OnOk result (notes.new.items ≡ notes.old.items ++ filled_notes moment (order_in state.now.office.orders order)) }
{
    match state.order(order) {
        None => Ok(()),
        Some(row) => push_if_filled(notes, row, moment),
    }
}

/// Adds the note of an order where it is filled.
fn push_if_filled(notes: &mut Vec<Note>, row: &OrderRow, moment: Moment) -> Result<(), AllocError>
    ensures { OnOk result (notes.new.items ≡ notes.old.items ++ filled_notes moment (Some row.now)) }
{
    let filled = FilledOrder {
        order: row.text().id(),
        late: minutes_late(row.text().latest(), moment),
    };
    push_if(notes, is_filled(row), Note::Filled(filled))
}

/// Whether as many wagons have filled an order as it wants.
fn is_filled(row: &OrderRow) -> bool
    ensures { result ≡ is_filled row.now }
{
    row.filled().len() == row.text().wagons() as usize
}

/// The minutes from the latest moment to a later one, rounded up.
fn minutes_late(latest: Moment, moment: Moment) -> u64
    ensures { result ≡ minutes_late latest moment }
{
    moment
        .seconds()
        .saturating_sub(latest.seconds())
        .div_ceil(60)
}

/// Adds the notes of a promise that ended.
fn push_ended_notes(
    notes: &mut Vec<Note>,
    state: &OfficeState,
    message: &Message,
    order: OrderId,
) -> Result<(), AllocError>
    ensures { OnOk result (notes.new.items ≡ notes.old.items ++ note.Ended (record { wagon = message.now.wagon; order = order; cause = cause_of message.now.kind }) ∷ note.Short (record { order = order; missing = lack_in (order_in state.now.office.orders order) }) ∷ []) }
{
    let ended = EndedPromise {
        wagon: message.wagon,
        order,
        cause: cause_of(message.kind),
    };
    notes.push(Note::Ended(ended))?;
    let short = MissingWagons {
        order,
        missing: state.lack(order),
    };
    notes.push(Note::Short(short))?;
    Ok(())
}

/// Why a promise ends by a message of a kind.
fn cause_of(kind: MessageKind) -> EndCause
    ensures { result ≡ cause_of kind }
{
    match kind {
        MessageKind::Exception(_) => EndCause::Held,
        MessageKind::Release
        | MessageKind::Departure
        | MessageKind::YardArrival
        | MessageKind::YardDeparture
        | MessageKind::Arrival
        | MessageKind::Delivery => EndCause::Elsewhere,
    }
}

/// Adds the note of a message that the status table refused, and counts it.
pub(crate) fn push_refused_notes(
    notes: &mut Vec<Note>,
    streaks: &mut Streaks,
    message: &Message,
    number: u32,
    known: &Option<KnownWagon>,
) -> Result<(), AllocError>
    ensures notes { OnOk result (notes.new.items ≡ notes.old.items ++ refused_notes message.now number known.now (one_more (streak_of streaks.old message.now.wagon) message.now.moment)) }
    ensures streaks { OnOk result (IsWithStreak message.now.wagon (Some (one_more (streak_of streaks.old message.now.wagon) message.now.moment)) streaks.old streaks.new) }
{
    let streak = streaks.lengthen(message.wagon, message.moment)?;
    push_refused_note(notes, message, number, known, &streak)
}

/// Adds the note of a message that the status table refused, with its streak.
fn push_refused_note(
    notes: &mut Vec<Note>,
    message: &Message,
    number: u32,
    known: &Option<KnownWagon>,
    streak: &Streak,
) -> Result<(), AllocError>
    ensures { OnOk result (notes.new.items ≡ notes.old.items ++ refused_notes message.now number known.now streak.now) }
{
    match known {
        None => Ok(()),
        Some(known) => {
            let refused = RefusedMessage {
                number,
                wagon: message.wagon,
                status: known.status,
                place: known.place,
                last: known.last,
                times: streak.times,
                since: streak.since,
            };
            notes.push(Note::Refused(refused))?;
            Ok(())
        }
    }
}
