//! What a wagon is doing, without where.
ghost use Rattle.std.specs.Prelude.{◌≡◌};
ghost use Rattle.journal_notes.specs.StatusNames.{name_word, status_name};
ghost use Rattle.wagons_and_orders.specs.StatusWords.{status_word};

use wagons_and_orders::{Load, Status};

/// What a wagon is doing.
#[derive(Clone, Copy)]
pub enum StatusName {
    /// It is empty, ready for pull.
    Empty,
    /// It stands at a siding to be loaded.
    Loading,
    /// It is loaded and ready for pull.
    Ready,
    /// It has been pulled, loaded.
    JourneyLoaded,
    /// It has been pulled, empty.
    JourneyEmpty,
    /// It is in a yard, loaded.
    YardLoaded,
    /// It is in a yard, empty.
    YardEmpty,
    /// It is in the yard of the last railway, loaded.
    ArrivedLoaded,
    /// It is in the yard of the last railway, empty.
    ArrivedEmpty,
    /// It stands at the consignee's siding to be unloaded.
    Unloading,
}

impl StatusName {
    /// What a status says that a wagon is doing. Takes no memory.
    pub fn of(status: Status) -> StatusName
        ensures name { result ≡ status_name status }
        ensures word { name_word result ≡ status_word status }
    {
        match status {
            Status::Empty(_, _) => StatusName::Empty,
            Status::Loading(_) => StatusName::Loading,
            Status::Ready(_) => StatusName::Ready,
            Status::Journey(Load::Loaded, _) => StatusName::JourneyLoaded,
            Status::Journey(Load::Unladen, _) => StatusName::JourneyEmpty,
            Status::Yard(Load::Loaded, _) => StatusName::YardLoaded,
            Status::Yard(Load::Unladen, _) => StatusName::YardEmpty,
            Status::Arrived(Load::Loaded, _) => StatusName::ArrivedLoaded,
            Status::Arrived(Load::Unladen, _) => StatusName::ArrivedEmpty,
            Status::Unloading(_) => StatusName::Unloading,
        }
    }

    /// The word of a status.
    pub fn word(self) -> &'static str
        ensures { result.now ≡ name_word self }
    {
        match self {
            StatusName::Empty => "empty",
            StatusName::Loading => "loading",
            StatusName::Ready => "ready",
            StatusName::JourneyLoaded => "journey_loaded",
            StatusName::JourneyEmpty => "journey_empty",
            StatusName::YardLoaded => "yard_loaded",
            StatusName::YardEmpty => "yard_empty",
            StatusName::ArrivedLoaded => "arrived_loaded",
            StatusName::ArrivedEmpty => "arrived_empty",
            StatusName::Unloading => "unloading",
        }
    }
}
