//! The notes of an event that was answered, and events that are brought to a book. `Err` only when out of memory.
ghost use Rattle.std.specs.Prelude.{◌≡◌, ◌≢◌, [], IfOk, IsOk, MatchBool, OnOk};
ghost use Rattle.commit_book.specs.BookStep.{IsCall};
ghost use Rattle.commit_book.specs.Books.{answer_of};
ghost use Rattle.commit_book.specs.declared.answer.Answer.TheVariants.{Refused};
ghost use Rattle.commit_book.specs.declared.call.Call.TheVariants as call;
ghost use Rattle.faults.specs.declared.faults.Refusal.TheVariants.{OutOfMemory};
ghost use Rattle.journal_notes.specs.EventNotes.{CallsTo, IsNotedEvent, StreaksAfter, StreaksOfMessage, is_accepted, message_notes, office_of};
ghost use Rattle.journal_notes.specs.NotesOf.{AreNotesOf, KeepsWatch};
ghost use Rattle.journal_notes.specs.Streaks.{streak_of};
ghost use Rattle.journal_notes.specs.Watches.{IsWatchOf};
ghost use Rattle.journal_notes.specs.inner.Accepted.{commit_notes_for};
ghost use Rattle.journal_notes.specs.inner.Said.{AreSaid};

use crate::event_before::EventBefore;
use crate::known_wagon::KnownWagon;
use crate::message_notes::{push_accepted_notes, push_refused_notes};
use crate::note::Note;
use crate::office_notes::{push_complete_notes, push_promised_notes};
use crate::overdue_notes::with_overdue_notes;
use crate::streaks::Streaks;
use crate::watch::Watch;
use commit_book::{Book, Refusal, Reply};
use line_network::Network;
use move_messages::{Event, Message};
use operating_db::OfficeState;
use rail_codes::{OrderId, WagonNumber};
use std::alloc::{AllocError, Global};

/// The notes of an event, by what they need of the office before it, by its answer and by the office after it. The watch goes on with
/// the office. `Err` only when out of memory: for the event, or for what stands before it, or for its notes; a refused message may be
/// counted then or not.
pub fn notes_of(
    alloc: Global,
    before: EventBefore,
    event: &Event,
    answer: &Result<Reply, Refusal>,
    state: &OfficeState,
    watch: &mut Watch,
) -> Result<Vec<Note>, AllocError>
    ensures notes { IfOk result (λ notes. AreNotesOf before event.now (answer_of answer.now) state.now.office watch.old notes.items) }
    ensures streaks { OnOk result (StreaksAfter event.now (answer_of answer.now) watch.old.streaks watch.new.streaks) }
    ensures memory { OnOk result (answer_of answer.now ≢ Refused OutOfMemory) }
    ensures watch { KeepsWatch event.now (answer_of answer.now) state.now.office watch.old watch.new }
{
    state.for_the_prover();
    let from = watch.newest();
    let bound = watch.calm_until();
    let said = said_of(alloc, before, event, answer, state, &mut watch.streaks);
    watch.advance(event, answer, state);
    with_overdue_notes(state.order_rows(), from, bound, watch.newest(), said)
}

/// The notes of an event without those of orders that become overdue, by what they need of the office before.
fn said_of(
    alloc: Global,
    before: EventBefore,
    event: &Event,
    answer: &Result<Reply, Refusal>,
    state: &OfficeState,
    streaks: &mut Streaks,
) -> Result<Vec<Note>, AllocError>
    ensures notes { IfOk result (λ notes. AreSaid before event.now (answer_of answer.now) state.now.office streaks.old notes.items) }
    ensures streaks { OnOk result (StreaksAfter event.now (answer_of answer.now) streaks.old streaks.new) }
    ensures memory { OnOk result (answer_of answer.now ≢ Refused OutOfMemory) }
{
    match event {
        Event::Message(message) => {
            answered_notes(alloc, state, streaks, message, &before.known, answer)
        }
        Event::Place(_) => said_where(alloc, is_accepted(answer)?, before.said),
        Event::Withdraw(_) => said_where(alloc, is_accepted(answer)?, before.said),
        Event::Commit(commit) => {
            let accepted = is_accepted(answer)?;
            commit_notes_where(
                alloc,
                accepted,
                state,
                commit.pairs.as_slice(),
                before.waiting,
            )
        }
        Event::Revise(_) => {
            let _ = is_accepted(answer)?;
            Ok(Vec::new(alloc))
        }
    }
}

/// The notes of a message, by its answer.
fn answered_notes(
    alloc: Global,
    state: &OfficeState,
    streaks: &mut Streaks,
    message: &Message,
    known: &Option<KnownWagon>,
    answer: &Result<Reply, Refusal>,
) -> Result<Vec<Note>, AllocError>
    ensures notes { IfOk result (λ notes. notes.items ≡ message_notes message.now (answer_of answer.now) known.now state.now.office (streak_of streaks.old message.now.wagon)) }
    ensures streaks { OnOk result (StreaksOfMessage message.now (answer_of answer.now) streaks.old streaks.new) }
    ensures memory { OnOk result (answer_of answer.now ≢ Refused OutOfMemory) }
{
    let mut notes = Vec::new(alloc);
    match answer {
        Ok(Reply::Accepted(_)) => {
            push_accepted_notes(&mut notes, state, message, known)?;
            streaks.end(message.wagon);
            Ok(notes)
        }
        Ok(Reply::Repeated(_)) => Ok(notes),
        Err(Refusal::OutOfMemory) => Err(AllocError),
        Err(Refusal::Step(fault)) => {
            push_refused_notes(&mut notes, streaks, message, fault.number(), known)?;
            Ok(notes)
        }
        Err(_) => Ok(notes),
    }
}

/// Whether an event is an entry by its answer. `Err` where memory was refused.
fn is_accepted(answer: &Result<Reply, Refusal>) -> Result<bool, AllocError>
    ensures value { IfOk result (λ accepted. accepted ≡ is_accepted (answer_of answer.now)) }
    ensures memory { OnOk result (answer_of answer.now ≢ Refused OutOfMemory) }
{
    match answer {
        Ok(Reply::Accepted(_)) => Ok(true),
        Ok(Reply::Repeated(_)) => Ok(false),
        Err(Refusal::OutOfMemory) => Err(AllocError),
        Err(_) => Ok(false),
    }
}

/// The notes of an event that was accepted; none of another.
fn said_where(
    alloc: Global,
    accepted: bool,
    said: Result<Vec<Note>, AllocError>,
) -> Result<Vec<Note>, AllocError>
    ensures { IfOk result (λ notes. MatchBool accepted (IsOk said × IfOk said (λ some. notes.items ≡ some.items)) (notes.items ≡ [])) }
{
    if accepted { said } else { Ok(Vec::new(alloc)) }
}

/// The notes of a commit that was accepted; none of another.
fn commit_notes_where(
    alloc: Global,
    accepted: bool,
    state: &OfficeState,
    pairs: &[(WagonNumber, OrderId)],
    waiting: Result<Vec<OrderId>, AllocError>,
) -> Result<Vec<Note>, AllocError>
    ensures { IfOk result (λ notes. MatchBool accepted (IsOk waiting × IfOk waiting (λ names. notes.items ≡ commit_notes_for names.items state.now.office pairs.now)) (notes.items ≡ [])) }
{
    if !accepted {
        return Ok(Vec::new(alloc));
    }
    commit_notes(alloc, state, pairs, waiting)
}

/// The notes of a commit that was accepted, by the orders that waited before it and by the office after it.
fn commit_notes(
    alloc: Global,
    state: &OfficeState,
    pairs: &[(WagonNumber, OrderId)],
    waiting: Result<Vec<OrderId>, AllocError>,
) -> Result<Vec<Note>, AllocError>
    ensures notes { IfOk result (λ notes. IfOk waiting (λ names. notes.items ≡ commit_notes_for names.items state.now.office pairs.now)) }
    ensures waiting { OnOk result (IsOk waiting) }
{
    let waiting = waiting?;
    let mut notes = Vec::new(alloc);
    push_promised_notes(&mut notes, pairs)?;
    push_complete_notes(&mut notes, state, &waiting)?;
    Ok(notes)
}

/// Brings an event to a book, over whose networks it runs: its notes. The event may have been brought where memory is out.
pub(crate) fn bring_event(
    alloc: Global,
    book: &mut Book,
    networks: &[Network],
    watch: &mut Watch,
    event: &Event,
) -> Result<Vec<Note>, AllocError>
    requires networks { networks.now ≡ book.old.setting.networks }
    requires watch { IsWatchOf (office_of book.old) watch.old }
    ensures notes { IfOk result (λ notes. IsNotedEvent book.old watch.old.streaks event.now notes.items book.new watch.new.streaks) }
    ensures book { CallsTo book.old (call.Event event.now) book.new }
    ensures watch { IsWatchOf (office_of book.new) watch.new }
{
    let before = EventBefore::of(alloc, networks, book.state(), event);
    let answer = enter(alloc, book, event);
    notes_of(alloc, before, event, &answer, book.state(), watch)
}

/// Brings an event to a book, as the call of its kind does.
pub fn enter(alloc: Global, book: &mut Book, event: &Event) -> Result<Reply, Refusal>
    ensures call { IsCall book.old.setting book.old.state (call.Event event.now) (answer_of result) book.new.state }
    ensures setting { book.new.setting ≡ book.old.setting }
{
    match event {
        Event::Message(message) => book.message_near(message, None),
        Event::Place(order) => book.place(alloc, order),
        Event::Withdraw(order) => book.withdraw(alloc, *order),
        Event::Commit(commit) => book.commit(alloc, commit),
        Event::Revise(network) => book.revise(alloc, *network),
    }
}
