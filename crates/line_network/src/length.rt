//! The lengths of walks, as numbers.
ghost use Rattle.std.specs.Prelude.{◌≡◌, ◌+◌, ◌^◌, ◌<◌, MatchBool, IfSome, None};
ghost use Rattle.line_network.specs.inner.Lengths.{distance_of, label_of, length_of, as_pair, plus_distance};
ghost use Rattle.line_network.specs.inner.Search.{LabelAbove, LabelAtMost};

/// More than the minutes of any walk that a search looks at: it is of 2,001 lines at most, each of which has 10,000
/// minutes at most.
const MINUTES: u64 = 33_554_432;

/// The kilometres and minutes of a walk as one number: its kilometres, then its minutes, as digits. So one sum leads
/// on by a line, and one comparison finds the shorter of two. As the label of a place it is the length of the
/// shortest way found, and the greatest number where none is found; the tables keep the labels that a search leaves.
#[derive(Clone, Copy, PartialEq, Eq)]
pub(crate) struct Length {
    pub(crate) number: u64,
}

impl Length {
    /// The length of so many kilometres and minutes.
    pub(crate) fn new(km: u32, minutes: u32) -> Length
        ensures { result ≡ length_of km minutes }
    {
        Length {
            number: u64::from(km) * MINUTES + u64::from(minutes),
        }
    }

    /// The label of a place to which no way is found.
    pub(crate) fn unreached() -> Length
        ensures { label_of result ≡ None }
    {
        Length { number: u64::MAX }
    }

    /// The kilometres and minutes, if a way is found.
    pub(crate) fn pair(self) -> Option<(u32, u32)>
        requires { IfSome (label_of self) (λ d. d.km < 2 ^ 25) }
        ensures { result ≡ as_pair (label_of self) }
    {
        if self.number == u64::MAX {
            return None;
        }
        let km = (self.number / MINUTES) as u32;
        let minutes = (self.number % MINUTES) as u32;
        Some((km, minutes))
    }

    /// The length of a walk that goes on by another.
    pub(crate) fn plus(self, other: Length) -> Length
        requires km { (distance_of self).km + (distance_of other).km < 2 ^ 25 }
        requires minutes { (distance_of self).minutes + (distance_of other).minutes < 2 ^ 25 }
        ensures { distance_of result ≡ plus_distance (distance_of self) (distance_of other) }
    {
        Length {
            number: self.number + other.number,
        }
    }

    /// Whether the label falls to the length of a way.
    pub(crate) fn falls_to(self, way: Length) -> bool
        requires { (distance_of way).km < 2 ^ 25 }
        ensures { MatchBool result (LabelAbove (label_of self) (distance_of way)) (LabelAtMost (label_of self) (distance_of way)) }
    {
        way.number < self.number
    }
}
