//! A begun problem with its table.
ghost use Rattle.std.specs.Prelude.{◌≡◌, Some};
ghost use Rattle.commit_book.specs.BegunProblem.{IsBegunProblem};
ghost use Rattle.line_network.specs.Networks.{network_at};
ghost use Rattle.problem_table.specs.Allowed.{IsTableOf};

use crate::made_problem::MadeProblem;
use cost_table::Cells;
use line_network::{Networks, Tables};
use price_checker::Snap;
use std::marker::Model;
use std::sync::Arc;

/// The problem of a book's version at a moment, with its table over the network in force in that version. A contract sees the
/// snapshot, the book's networks and the table.
#[derive(Drop)]
pub struct BegunProblem {
    snap: Snap,
    made: Arc<MadeProblem>,
    networks: Arc<Networks>,
}

impl Model for BegunProblem {
    ghost use Rattle.commit_book.specs.BegunProblem.{BegunValue, IsBegunProblem};

    ghost Value = { BegunValue };

    ghost view = { λ b. record { snap = b.snap; networks = b.networks.value; table = b.made.value.timed.cells } };

    ghost invariant = { λ b. IsBegunProblem (record { snap = b.snap; networks = b.networks.value; table = b.made.value.timed.cells }) };
}

impl BegunProblem {
    /// A snapshot with what has the table of its problem over the network in force, one of these.
    pub fn new(snap: Snap, made: Arc<MadeProblem>, networks: Arc<Networks>) -> BegunProblem
        requires { IsBegunProblem (record { snap = snap; networks = networks.value; table = made.value.timed.cells }) }
        ensures { result ≡ record { snap = snap; networks = networks.value; table = made.value.timed.cells } }
    {
        BegunProblem {
            snap,
            made,
            networks,
        }
    }

    /// The version, the network in force, and the problem. Takes no memory.
    pub fn snap(&self) -> &Snap
        ensures { result.now ≡ self.now.snap }
    {
        &self.snap
    }

    /// The problem's table. Takes no memory.
    pub fn cells(&self) -> &Cells
        ensures value { result.now ≡ self.now.table }
        ensures begun { IsBegunProblem self.now }
    {
        self.made.cells()
    }

    /// The distances of the network in force. Takes no memory.
    pub fn tables(&self) -> &Tables
        ensures in_force { network_at self.now.networks self.now.snap.network ≡ Some result.now }
        ensures table { IsTableOf result.now self.now.snap.problem self.now.table }
    {
        self.networks.get(self.snap.network()).unwrap()
    }
}
