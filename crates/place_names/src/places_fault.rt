//! Why a file of places is refused.
ghost use Rattle.std.specs.Prelude.{◌≡◌};
ghost use Rattle.place_names.specs.Faults.{places_fault_number, places_fault_of};
ghost use Rattle.place_names.specs.declared.places_fault.PlacesFault.TheVariants as places_fault;

use csv_records::RecordFault;
use std::alloc::{AllocError, AllocFailed};
use thiserror::Error;

/// Why no places were read. The message is the fault's name.
#[derive(Clone, Copy, Debug, Error)]
pub enum PlacesFault {
    /// Out of memory (1).
    #[error("OutOfMemory")]
    OutOfMemory,
    /// The record of this number is no header, or names no place (41). The header is record 1.
    #[error("BadRow")]
    BadRow(u32),
    /// The record of this number names a place that an earlier one named (41).
    #[error("DuplicatePlace")]
    DuplicatePlace(u32),
    /// There is a record past the 2,000th below the header (42).
    #[error("TooManyPlaces")]
    TooManyPlaces,
    /// The reader failed (93).
    #[error("ReadFailed")]
    ReadFailed,
}

impl PlacesFault {
    /// The number that stands for the fault: 1, 41, 42 or 93.
    pub fn number(self) -> u32
        ensures { result ≡ places_fault_number self }
    {
        match self {
            PlacesFault::OutOfMemory => 1,
            PlacesFault::BadRow(_) | PlacesFault::DuplicatePlace(_) => 41,
            PlacesFault::TooManyPlaces => 42,
            PlacesFault::ReadFailed => 93,
        }
    }
}

impl From<AllocError> for PlacesFault {
    ghost from_gives = { λ _ fault. fault ≡ places_fault.OutOfMemory };

    fn from(_error: AllocError) -> PlacesFault {
        PlacesFault::OutOfMemory
    }
}

impl<T: Drop> From<AllocFailed<T>> for PlacesFault {
    ghost from_gives = { λ _ fault. fault ≡ places_fault.OutOfMemory };

    fn from(_error: AllocFailed<T>) -> PlacesFault {
        PlacesFault::OutOfMemory
    }
}

impl From<RecordFault> for PlacesFault {
    ghost from_gives = { λ failure fault. fault ≡ places_fault_of failure };

    fn from(failure: RecordFault) -> PlacesFault {
        match failure {
            RecordFault::OutOfMemory => PlacesFault::OutOfMemory,
            RecordFault::ReadFailed => PlacesFault::ReadFailed,
        }
    }
}
