//! The status of a wagon.
ghost use Rattle.std.specs.Prelude.{◌≡◌};
ghost use Rattle.wagons_and_orders.specs.StatusWords.{is_word};

use crate::Load;
use rail_codes::{Moment, Place};

/// What a wagon is doing, and where.
#[derive(Clone, Copy, PartialEq, Eq)]
pub enum Status {
    /// It is under fleet control, ready for pull at the place from the moment on.
    Empty(Place, Moment),
    /// It stands at a siding to be loaded.
    Loading(Place),
    /// It is loaded and ready for pull.
    Ready(Place),
    /// It has been pulled from the place.
    Journey(Load, Place),
    /// It is in a yard.
    Yard(Load, Place),
    /// It is in the yard of the last railway.
    Arrived(Load, Place),
    /// It stands at the consignee's siding to be unloaded.
    Unloading(Place),
}

impl Status {
    ghost use Rattle.wagons_and_orders.specs.StatusTable.{place_of};
    ghost use Rattle.wagons_and_orders.specs.StatusWords.{IsWordOf, ready_moment, status_of_word, status_word};

    /// The status that a word says of a wagon at this place. An empty one has been ready since the moment.
    pub fn of_word(word: &[u8], place: Place, moment: Moment) -> Option<Status>
        ensures { result ≡ status_of_word word.now place moment }
    {
        let status = if is_word("empty", word) {
            Status::Empty(place, moment)
        } else if is_word("loading", word) {
            Status::Loading(place)
        } else if is_word("ready", word) {
            Status::Ready(place)
        } else if is_word("journey_loaded", word) {
            Status::Journey(Load::Loaded, place)
        } else if is_word("journey_empty", word) {
            Status::Journey(Load::Unladen, place)
        } else if is_word("yard_loaded", word) {
            Status::Yard(Load::Loaded, place)
        } else if is_word("yard_empty", word) {
            Status::Yard(Load::Unladen, place)
        } else if is_word("arrived_loaded", word) {
            Status::Arrived(Load::Loaded, place)
        } else if is_word("arrived_empty", word) {
            Status::Arrived(Load::Unladen, place)
        } else if is_word("unloading", word) {
            Status::Unloading(place)
        } else {
            return None;
        };
        Some(status)
    }

    /// The word of the status, which is read as it.
    pub fn word(&self) -> &'static str
        ensures word { result.now ≡ status_word self.now }
        ensures reads { IsWordOf result.now self.now }
    {
        match *self {
            Status::Empty(_, _) => "empty",
            Status::Loading(_) => "loading",
            Status::Ready(_) => "ready",
            Status::Journey(load, _) => load.word("journey_loaded", "journey_empty"),
            Status::Yard(load, _) => load.word("yard_loaded", "yard_empty"),
            Status::Arrived(load, _) => load.word("arrived_loaded", "arrived_empty"),
            Status::Unloading(_) => "unloading",
        }
    }

    /// Since when an empty wagon has been ready.
    pub fn ready(&self) -> Option<Moment>
        ensures { result ≡ ready_moment self.now }
    {
        match *self {
            Status::Empty(_, ready) => Some(ready),
            _ => None,
        }
    }

    /// Where the wagon is, as far as is known. Takes no memory.
    pub fn place(&self) -> Place
        ensures { result ≡ place_of self.now }
    {
        match *self {
            Status::Empty(place, _)
            | Status::Loading(place)
            | Status::Ready(place)
            | Status::Journey(_, place)
            | Status::Yard(_, place)
            | Status::Arrived(_, place)
            | Status::Unloading(place) => place,
        }
    }
}

/// Whether a text is this word.
fn is_word(word: &str, text: &[u8]) -> bool
    ensures { result ≡ is_word word.now text.now }
{
    text == word.as_bytes()
}
