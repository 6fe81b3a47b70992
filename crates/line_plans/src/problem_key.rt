//! Problems of a book, by their versions and moments.
ghost use Rattle.std.specs.Prelude.{◌≡◌};
ghost use Rattle.commit_book.specs.BookStep.{is_this};
ghost use Rattle.line_plans.specs.Plans.{which_of};
ghost use Rattle.line_plans.specs.inner.Remembered.{which_of_snap};

use commit_book::Snap;
use rail_codes::Moment;

/// A problem of a book: that of a version at a moment.
#[derive(Clone, Copy)]
pub struct ProblemKey {
    pub version: u64,
    pub at: Moment,
}

impl ProblemKey {
    /// The problem of a snapshot.
    pub(crate) fn of(snap: &Snap) -> ProblemKey
        ensures { which_of result ≡ which_of_snap snap.now }
    {
        ProblemKey {
            version: snap.version(),
            at: snap.at(),
        }
    }

    /// Whether a snapshot is of this problem.
    pub(crate) fn is_of(self, snap: &Snap) -> bool
        ensures { result ≡ is_this (which_of self) (which_of_snap snap.now) }
    {
        snap.version() == self.version && snap.at() == self.at
    }
}
