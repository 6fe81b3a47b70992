//! The status table: what each message makes of the row of its wagon.
ghost use Rattle.std.specs.Prelude.{◌≡◌, ◌≤◌, ◌↔◌, IsSome, IfOk};
ghost use Rattle.wagons_and_orders.specs.Laws.{IsSameWagon, IsEmpty, IsEmptiedBy, IsPromiseAfter};
ghost use Rattle.wagons_and_orders.specs.StatusTable.{transition_of, own_place, any_place, is_at, step_of, held_after, promise_after, effect_on};

use crate::Load::{Loaded, Unladen};
use crate::Status::{Arrived, Empty, Journey, Loading, Ready, Unloading, Yard};
use crate::{Change, Effect, Status, StepFault, WagonRow};
use move_messages::MessageKind::{
    Arrival, Delivery, Departure, Exception, Release, YardArrival, YardDeparture,
};
use move_messages::{Message, MessageKind};
use rail_codes::{OrderId, Place};

/// What a line of the status table says.
#[derive(Clone, Copy)]
struct Transition {
    /// The status that follows.
    next: Status,
    /// What becomes of a promise.
    effect: Effect,
    /// Whether the message must name the place where the wagon is.
    own_place: bool,
}

/// What a message makes of the row of its wagon. `order_place` is the place of the order that the
/// wagon is promised to.
///
/// Refused with `Earlier` (31) where the message is older than the row's last one, else with
/// `WrongStatus` (32) where no line of the status table has this message and the row's status, else
/// with `WrongPlace` (33) where the line is for the wagon's own place and the message names another.
#[tactic(auto, unfolding(crate::specs::StatusTable::step_of))]
pub fn step(
    row: &WagonRow,
    message: &Message,
    order_place: Option<Place>,
) -> Result<Change, StepFault>
    requires same_wagon { message.now.wagon ≡ row.now.number }
    requires promised { IsSome order_place ↔ IsSome row.now.promise }
    ensures table { result ≡ step_of row.now message.now order_place }
    ensures same_wagon { IfOk result (λ change. IsSameWagon row.now change.row) }
    ensures last_moment { IfOk result (λ change. row.now.last ≤ change.row.last) }
    ensures emptied { IfOk result (λ change. IsEmpty change.row.status → ¬ IsEmpty row.now.status → IsEmptiedBy message.now row.now.status) }
    ensures promise { IfOk result (λ change. IsPromiseAfter change.effect row.now.promise change.row.promise) }
    ensures no_new_promise { IfOk result (λ change. IsSome change.row.promise → change.row.promise ≡ row.now.promise) }
{
    if message.moment < row.last {
        return Err(StepFault::Earlier);
    }
    let at_order = is_at(order_place, message.place);
    let Some(transition) = transition_of(message, row.status, at_order) else {
        return Err(StepFault::WrongStatus);
    };
    if transition.own_place && message.place != row.status.place() {
        return Err(StepFault::WrongPlace);
    }
    Ok(Change {
        row: WagonRow {
            status: transition.next,
            held: held_after(message.kind, row.held),
            last: message.moment,
            promise: promise_after(transition.effect, row.promise),
            ..*row
        },
        effect: effect_on(row.promise, transition.effect),
    })
}

/// The transition that fits a message and the status that it finds. `at_order` says that the wagon is
/// promised and the message names the place of its order.
fn transition_of(message: &Message, status: Status, at_order: bool) -> Option<Transition>
    ensures { result ≡ transition_of message.now.kind status at_order message.now.place message.now.moment }
{
    let Message { place, moment, .. } = *message;
    Some(match (message.kind, status) {
        (Release, Loading(_)) => own_place(Ready(place)),
        (Release, Unloading(_)) => own_place(Empty(place, moment)),
        (Departure, Ready(_)) => own_place(Journey(Loaded, place)),
        (Departure, Empty(_, _)) => own_place(Journey(Unladen, place)),
        (YardArrival, Journey(load, _)) => any_place(Yard(load, place), Effect::None),
        (YardDeparture, Yard(load, _)) => own_place(Journey(load, place)),
        (Arrival, Journey(load, _)) => any_place(Arrived(load, place), Effect::None),
        (Delivery, Arrived(Loaded, _)) => any_place(Unloading(place), Effect::None),
        (Delivery, Arrived(Unladen, _)) if at_order => any_place(Loading(place), Effect::Fills),
        (Delivery, Arrived(Unladen, _)) => any_place(Empty(place, moment), Effect::Ends),
        (Exception(true), status) => any_place(status, Effect::Ends),
        (Exception(false), Empty(at, _)) => any_place(Empty(at, moment), Effect::None),
        (Exception(false), status) => any_place(status, Effect::None),
        _ => return None,
    })
}

/// A transition for messages that name the wagon's own place. It keeps a promise.
fn own_place(next: Status) -> Transition
    ensures { result ≡ own_place next }
{
    Transition {
        next,
        effect: Effect::None,
        own_place: true,
    }
}

/// A transition for messages that may name any place.
fn any_place(next: Status, effect: Effect) -> Transition
    ensures { result ≡ any_place next effect }
{
    Transition {
        next,
        effect,
        own_place: false,
    }
}

/// Whether there is an order and it is at this place.
fn is_at(order_place: Option<Place>, place: Place) -> bool
    ensures { result ≡ is_at order_place place }
{
    order_place.is_some_and(|at| at == place)
}

/// Only an exception sets or lifts a hold.
fn held_after(kind: MessageKind, held: bool) -> bool
    ensures { result ≡ held_after kind held }
{
    match kind {
        Exception(hold) => hold,
        _ => held,
    }
}

/// The promise, where it stays.
fn promise_after(effect: Effect, promise: Option<OrderId>) -> Option<OrderId>
    ensures { result ≡ promise_after effect promise }
{
    match effect {
        Effect::None => promise,
        Effect::Fills | Effect::Ends => None,
    }
}

/// What becomes of a promise; nothing where there is none.
fn effect_on(promise: Option<OrderId>, effect: Effect) -> Effect
    ensures { result ≡ effect_on promise effect }
{
    match promise {
        None => Effect::None,
        Some(_) => effect,
    }
}
