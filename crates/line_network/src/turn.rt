//! The order in which places that wait have their turns.
ghost use Rattle.std.specs.Prelude.{◌≡◌, ◌^◌, ◌<◌};
ghost use Rattle.line_network.specs.inner.Lengths.{distance_of};
ghost use Rattle.line_network.specs.inner.Turns.{entry, waiting_of, way_of};

use crate::length::Length;

/// More than the number of any place.
const PLACES: u64 = 2_048;

/// A place whose lines are still to be relaxed, and its label when it was put there, as one number: the label, then
/// the number of the place, as digits. So one comparison finds which of two is nearer.
#[derive(Clone, Copy, PartialEq, Eq, PartialOrd, Ord)]
pub(crate) struct Turn {
    number: u64,
}

impl Turn {
    /// The turn of a place.
    pub(crate) fn new(place: usize, label: Length) -> Turn
        requires place { place < 2 ^ 11 }
        requires km { (distance_of label).km < 2 ^ 25 }
        ensures { waiting_of result ≡ entry (distance_of label) place }
    {
        Turn {
            number: label.number * PLACES + place as u64,
        }
    }

    /// The place.
    pub(crate) fn place(self) -> usize
        ensures { result ≡ (waiting_of self).place }
    {
        (self.number % PLACES) as usize
    }

    /// Its label when it was put there.
    pub(crate) fn label(self) -> Length
        ensures { result ≡ way_of self }
    {
        Length {
            number: self.number / PLACES,
        }
    }
}
