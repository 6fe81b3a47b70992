//! Problems with their tables, as they are kept.
ghost use Rattle.std.specs.Prelude.{◌≡◌, ◌≤◌, ◌↔◌, IfOk, IsTrue};
ghost use Rattle.problem_table.specs.Lasting.{IsLastingTable};
ghost use Rattle.commit_book.specs.Made.{IsMadeOf};
ghost use Rattle.commit_book.specs.inner.Kept.{IsChangeable, covers};

use cost_table::{Cells, Problem};
use line_network::Tables;
use problem_table::{TimedCells, changed_cells, timed_cells};
use rail_codes::Moment;
use std::alloc::{AllocError, Global};

/// A problem with its table over a network, and the moments up to which that is the table of the same wagons and orders. Kept
/// problems of one version share it, and a planner may hand it to the book with its commit.
#[derive(Drop)]
pub struct MadeProblem {
    pub(crate) problem: Problem,
    /// The network's number, counted from 1.
    pub(crate) network: u32,
    pub(crate) timed: TimedCells,
}

impl MadeProblem {
    /// A copy of a problem, with its table over the network of this number, whose distances are handed in.
    pub fn of(
        alloc: Global,
        problem: &Problem,
        network: u32,
        tables: &Tables,
    ) -> Result<MadeProblem, AllocError>
        ensures { IfOk result (IsMadeOf tables.now network problem.now) }
    {
        let timed = timed_cells(alloc, problem, tables)?;
        let problem = problem.copy()?;
        Ok(MadeProblem {
            problem,
            network,
            timed,
        })
    }

    /// The table. Takes no memory.
    pub fn cells(&self) -> &Cells
        ensures { result.now ≡ self.now.timed.cells }
    {
        &self.timed.cells
    }

    /// A copy of another problem, with its table over the network of this one; the table is changed.
    pub(crate) fn changed(
        &self,
        alloc: Global,
        problem: &Problem,
        tables: &Tables,
    ) -> Result<MadeProblem, AllocError>
        requires changeable { IsChangeable self.now problem.now }
        requires lasting { IsLastingTable tables.now self.now.problem self.now.timed.cells self.now.timed.lasts.items }
        ensures { IfOk result (IsMadeOf tables.now self.now.network problem.now) }
    {
        let timed = changed_cells(alloc, problem, tables, &self.problem, &self.timed)?;
        let problem = problem.copy()?;
        Ok(MadeProblem {
            problem,
            network: self.network,
            timed,
        })
    }

    /// Whether the table of a problem over the same network can be made by changing this one: it is of the same moment or a
    /// later one.
    pub(crate) fn is_changeable(&self, problem: &Problem) -> bool
        ensures { IsTrue result ↔ IsChangeable self.now problem.now }
    {
        self.problem.at() <= problem.at()
    }

    /// Whether the table is that of the same wagons and orders at this moment, too.
    pub(crate) fn covers(&self, at: Moment) -> bool
        ensures { result ≡ covers self.now at }
    {
        self.problem.at() <= at && at.seconds() <= self.timed.until
    }
}
