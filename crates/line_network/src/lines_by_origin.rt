//! Lines in the order of the places where they begin.
ghost use Rattle.std.specs.Prelude.{◌≡◌, ◌+◌, ◌^◌, ◌<◌, IfOk, All, Contains, length, map, vec_len};
ghost use Rattle.std.specs.List.Sorted.{IsPermutation, IsNonDecreasingBy};
ghost use Rattle.line_network.specs.inner.Starts.{AreStarts};
ghost use Rattle.line_network.specs.inner.Steps.{step_along, IsStepFrom};
ghost use Rattle.line_network.specs.inner.Turned.{turned_lines};

use crate::Line;
use crate::step::Step;
use std::alloc::{AllocError, Global};

/// Lines in one list, those from each place side by side.
#[derive(Drop)]
pub(crate) struct LinesByOrigin {
    lines: Vec<Line>,
    // the same without their origins
    steps: Vec<Step>,
    // where the lines from each place begin, and behind the last place their end
    starts: Vec<usize>,
    ghost indexed: { AreStarts lines.items starts.items },
    ghost stepped: { steps.items ≡ map step_along lines.items },
}

impl LinesByOrigin {
    /// Puts the lines in the order of their origins.
    pub(crate) fn new(
        alloc: Global,
        mut lines: Vec<Line>,
        places: usize,
    ) -> Result<LinesByOrigin, AllocError>
        requires { places < 2 ^ 32 }
        ensures lines { IfOk result (λ by. IsPermutation lines.items by.lines.items) }
        ensures places { IfOk result (λ by. vec_len by.starts ≡ places + 1) }
    {
        lines.sort_by_key(|line| line.from)?;
        let starts = starts_of(alloc, &lines, places)?;
        let steps = steps_of(alloc, &lines)?;
        Ok(LinesByOrigin {
            lines,
            steps,
            starts,
        })
    }

    /// The lines from a place, without it.
    pub(crate) fn from_place(&self, place: usize) -> &[Step]
        requires { place + 1 < vec_len self.now.starts }
        ensures own { All (IsStepFrom self.now.lines.items place) result.now }
        ensures complete { (l : Line) → Contains self.now.lines.items l → l.from ≡ place → Contains result.now (step_along l) }
    {
        let start = self.starts[place];
        let end = self.starts[place + 1];
        &self.steps[start..end]
    }
}

/// The lines turned round.
pub(crate) fn turned_lines(alloc: Global, lines: &[Line]) -> Result<Vec<Line>, AllocError>
    ensures { IfOk result (λ turned. turned.items ≡ turned_lines lines.now) }
{
    let mut turned = Vec::with_capacity(alloc, lines.len())?;
    for line in lines {
        turned.push(line.back())?;
    }
    Ok(turned)
}

/// For each place and for the number behind the last, how many lines begin at an earlier place.
fn starts_of(alloc: Global, lines: &[Line], places: usize) -> Result<Vec<usize>, AllocError>
    requires few { places < 2 ^ 32 }
    requires sorted { IsNonDecreasingBy (λ l. l.from) lines.now }
    ensures starts { IfOk result (λ starts. AreStarts lines.now starts.items) }
    ensures places { IfOk result (λ starts. vec_len starts ≡ places + 1) }
{
    let mut starts = Vec::with_capacity(alloc, places + 1)?;
    for place in 0..places + 1 {
        starts.push(lines.partition_point(|line| line.from < place))?;
    }
    Ok(starts)
}

/// The lines without their origins.
fn steps_of(alloc: Global, lines: &[Line]) -> Result<Vec<Step>, AllocError>
    ensures { IfOk result (λ steps. steps.items ≡ map step_along lines.now) }
{
    let mut steps = Vec::with_capacity(alloc, lines.len())?;
    for line in lines {
        steps.push(Step::of_line(line))?;
    }
    Ok(steps)
}
