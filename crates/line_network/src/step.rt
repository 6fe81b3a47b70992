//! Lines without the place where they begin.
ghost use Rattle.std.specs.Prelude.{◌≡◌};
ghost use Rattle.line_network.specs.inner.Steps.{step_along};

use crate::Line;
use crate::length::Length;

/// A line without the place where it begins. The search reads these, since more of them fit a cache.
#[derive(Clone, Copy)]
pub(crate) struct Step {
    pub(crate) to: usize,
    pub(crate) length: Length,
}

impl Step {
    /// The step of a line.
    pub(crate) fn of_line(line: &Line) -> Step
        ensures { result ≡ step_along line.now }
    {
        Step {
            to: line.to,
            length: Length::new(line.km, line.minutes),
        }
    }
}
