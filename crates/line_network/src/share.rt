//! What one of several workers does.
ghost use Rattle.std.specs.Prelude.{◌≡◌, IfOk};
ghost use Rattle.line_network.specs.inner.Shares.{IsShare, IsWork};

use crate::Gate;
use crate::gate::Entered;
use crate::length::Length;
use crate::lines_by_origin::LinesByOrigin;
use crate::search::row_of_origin;
use std::alloc::{AllocError, Global};
use std::thread::Promise;

/// The labels of the distances from one place over the lines of the work, with its number.
#[derive(Drop)]
pub(crate) struct OriginRow {
    pub(crate) origin: usize,
    pub(crate) row: Vec<Length>,
}

/// What all workers do together: the lines that they search, between so many places, and how many workers there are.
#[derive(Clone, Copy)]
pub(crate) struct Work<'a> {
    pub(crate) lines: &'a LinesByOrigin,
    pub(crate) places: usize,
    pub(crate) workers: usize,
}

/// The part of one worker: the origins whose number leaves the worker's when divided by how many there are.
#[derive(Clone, Copy)]
pub(crate) struct Share<'a> {
    pub(crate) work: Work<'a>,
    pub(crate) worker: usize,
}

/// The rows of a worker's origins, or that it was out of memory.
pub(crate) type Answer = Result<Vec<OriginRow>, AllocError>;

impl<'a> Promise<Answer> for Share<'a> {
    ghost use Rattle.std.specs.Prelude.{IfOk};
    ghost use Rattle.line_network.specs.inner.Shares.{IsShare};

    ghost kept_by = { λ share answer. IfOk answer (λ rows. IsShare share.work.lines.now.lines.items share.work.places share.work.workers share.worker rows.items) };
}

impl<'a> Share<'a> {
    /// The rows of the worker's origins.
    pub(crate) fn rows<G: Gate>(self, alloc: Global, gate: &G) -> Answer
        requires { IsWork self.work.lines.now.lines.items self.work.lines.now.starts.items self.work.places self.work.workers }
        ensures { IfOk result (λ rows. IsShare self.entry.work.lines.now.lines.items self.entry.work.places self.entry.work.workers self.entry.worker rows.items) }
    {
        let Work {
            lines,
            places,
            workers,
        } = self.work;
        let mut rows = Vec::with_capacity(alloc, places / workers + 1)?;
        for origin in 0..places {
            if origin % workers != self.worker {
                continue;
            }
            let row = row_of_origin(alloc, lines, places, Entered::through(gate, origin))?;
            rows.push(OriginRow { origin, row })?;
        }
        Ok(rows)
    }
}
