//! The places that wait, the nearest first.
ghost use Rattle.std.specs.Prelude.{◌≡◌, ◌+◌, ◌∷◌, [], IfOk, IfNone, IfSome, OnOk, OnSome, length};
ghost use Rattle.std.specs.List.Sorted.{IsPermutation};
ghost use Rattle.line_network.specs.inner.Turns.{waiting_of, waits};

use crate::turn::Turn;
use std::alloc::{AllocError, Global};
use std::cmp::Reverse;
use std::collections::BinaryHeap;

/// The places that wait in a search.
#[derive(Drop)]
pub(crate) struct Queue {
    turns: BinaryHeap<Reverse<Turn>>,
}

impl Queue {
    /// A queue in which none waits, with room for so many.
    pub(crate) fn with_capacity(alloc: Global, capacity: usize) -> Result<Queue, AllocError>
        ensures { IfOk result (λ queue. waits queue ≡ []) }
    {
        let turns = BinaryHeap::with_capacity(alloc, capacity)?;
        Ok(Queue { turns })
    }

    /// Adds a place that waits.
    pub(crate) fn push(&mut self, next: Turn) -> Result<(), AllocError>
        ensures { OnOk result (IsPermutation (waiting_of next ∷ waits self.old) (waits self.new)) }
    {
        self.turns.push(Reverse(next))?;
        Ok(())
    }

    /// The place whose turn comes; it waits no longer.
    pub(crate) fn pop(&mut self) -> Option<Turn>
        ensures next { IfSome result (λ next. IsPermutation (waits self.old) (waiting_of next ∷ waits self.new)) }
        ensures len { OnSome result (length (waits self.new) + 1 ≡ length (waits self.old)) }
        ensures none { IfNone result (length (waits self.old) ≡ 0) }
    {
        let Reverse(next) = self.turns.pop()?;
        Some(next)
    }
}
