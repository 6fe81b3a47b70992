//! A line between two places.
ghost use Rattle.std.specs.Prelude.{◌≡◌};

/// A line, which is run one way: from one place to another, or back to the same place.
#[derive(Clone, Copy)]
pub struct Line {
    /// The number of the place where it begins.
    pub from: usize,
    /// The number of the place where it ends.
    pub to: usize,
    /// Its length in kilometres, from 1 to 10,000.
    pub km: u32,
    /// Its time in minutes, from 1 to 10,000.
    pub minutes: u32,
}

impl Line {
    /// The line the other way.
    pub(crate) fn back(self) -> Line
        ensures { result ≡ record self { from = self.to; to = self.from } }
    {
        Line {
            from: self.to,
            to: self.from,
            ..self
        }
    }
}
