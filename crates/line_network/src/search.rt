//! The search for the distances from one place. Over lines that are turned round they are the distances to it.
//!
//! A place waits each time its label falls, and one whose turn comes has its lines relaxed if its label is
//! still the one that it waited with. No order of the turns is needed for the answer; the heap's order makes
//! it fast.
ghost use Rattle.std.specs.Prelude.{◌≡◌, ◌+◌, ◌^◌, ◌<◌, ◌≤◌, ◌↔◌, Some, None, [], All, replicate, IsTrue, IfOk, OnOk, length, vec_len};
ghost use Rattle.line_network.specs.inner.Entered.{place_of};
ghost use Rattle.line_network.specs.inner.Lengths.{distance_of, known};
ghost use Rattle.line_network.specs.inner.Rows.{IsRow};
ghost use Rattle.line_network.specs.inner.Search.{label_at, AreBounded, IsRelaxed, Improves, RelaxesFrom};
ghost use Rattle.line_network.specs.inner.Turns.{waiting_of, waits};
ghost use Rattle.line_network.specs.NetworkLimits.{IsLine, max_places};

use crate::gate::Entered;
use crate::length::Length;
use crate::lines_by_origin::LinesByOrigin;
use crate::queue::Queue;
use crate::step::Step;
use crate::turn::Turn;
use std::alloc::{AllocError, Global};

/// The labels of the distances from one place to each place. The place's gate was entered before.
pub(crate) fn row_of_origin(
    alloc: Global,
    lines: &LinesByOrigin,
    places: usize,
    entered: Entered,
) -> Result<Vec<Length>, AllocError>
    requires origin { place_of entered < places }
    requires few { places ≤ max_places }
    requires indexed { vec_len lines.now.starts ≡ places + 1 }
    requires lines { All (IsLine places) lines.now.lines.items }
    ensures { IfOk result (λ row. IsRow lines.now.lines.items places (place_of entered) (known row.items)) }
{
    let origin = entered.into_place();
    let mut labels = unreached(alloc, places)?;
    let mut waiting = Queue::with_capacity(alloc, places)?;
    search(&mut labels, &mut waiting, lines, origin)?;
    Ok(labels)
}

/// The labels before a search.
fn unreached(alloc: Global, places: usize) -> Result<Vec<Length>, AllocError>
    ensures places { IfOk result (λ labels. vec_len labels ≡ places) }
    ensures none { IfOk result (λ labels. known labels.items ≡ replicate places None) }
{
    vec![in alloc; Length::unreached(); places]
}

/// Labels each place that a walk from the origin leads to with its distance.
fn search(
    labels: &mut [Length],
    waiting: &mut Queue,
    lines: &LinesByOrigin,
    origin: usize,
) -> Result<(), AllocError>
    requires few { length labels.old ≤ max_places }
    requires origin { origin < length labels.old }
    requires indexed { vec_len lines.now.starts ≡ length labels.old + 1 }
    requires lines { All (IsLine (length labels.old)) lines.now.lines.items }
    requires unreached { known labels.old ≡ replicate (length labels.old) None }
    requires none_waits { waits waiting.old ≡ [] }

    ensures { OnOk result (IsRow lines.now.lines.items (length labels.old) origin (known labels.new)) }
{
    let start = Length::new(0, 0);
    waiting.push(Turn::new(origin, start))?;
    labels[origin] = start;
    while let Some(next) = waiting.pop() {
        if !is_label(labels, next) {
            continue;
        }
        relax_lines(labels, waiting, lines, next)?;
    }
    Ok(())
}

/// Whether a place has the label still that it waited with.
fn is_label(labels: &[Length], next: Turn) -> bool
    requires { (waiting_of next).place < length labels.now }
    ensures { IsTrue result ↔ (label_at (known labels.now) (waiting_of next).place ≡ Some (waiting_of next).distance) }
{
    labels[next.place()] == next.label()
}

/// Relaxes the lines from a place.
fn relax_lines(
    labels: &mut [Length],
    waiting: &mut Queue,
    lines: &LinesByOrigin,
    at: Turn,
) -> Result<(), AllocError>
    requires few { length labels.old ≤ max_places }
    requires indexed { vec_len lines.now.starts ≡ length labels.old + 1 }
    requires lines { All (IsLine (length labels.old)) lines.now.lines.items }
    requires bounded { AreBounded (known labels.old) }
    requires label { label_at (known labels.old) (waiting_of at).place ≡ Some (waiting_of at).distance }

    ensures improves { OnOk result (Improves lines.now.lines.items (known labels.old) (known labels.new) (waits waiting.old) (waits waiting.new)) }
    ensures bounded { OnOk result (AreBounded (known labels.new)) }
    ensures label { OnOk result (label_at (known labels.new) (waiting_of at).place ≡ Some (waiting_of at).distance) }
    ensures relaxed { OnOk result (IsRelaxed lines.now.lines.items (known labels.new) (waiting_of at).place (waiting_of at).distance) }
{
    for step in lines.from_place(at.place()) {
        relax(labels, waiting, at, step)?;
    }
    Ok(())
}

/// Lowers the label of the place where a line ends, if the way over the line is shorter; the place then waits.
fn relax(
    labels: &mut [Length],
    waiting: &mut Queue,
    at: Turn,
    step: &Step,
) -> Result<(), AllocError>
    requires few { length labels.old ≤ max_places }
    requires known { step.now.to < length labels.old }
    requires km { (waiting_of at).distance.km + (distance_of step.now.length).km < 2 ^ 25 }
    requires minutes { (waiting_of at).distance.minutes + (distance_of step.now.length).minutes < 2 ^ 25 }
    ensures { OnOk result (RelaxesFrom (waiting_of at) step.now (known labels.old) (known labels.new) (waits waiting.old) (waits waiting.new)) }
{
    let way = at.label().plus(step.length);
    if labels[step.to].falls_to(way) {
        waiting.push(Turn::new(step.to, way))?;
        labels[step.to] = way;
    }
    Ok(())
}
