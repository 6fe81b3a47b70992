//! Snapshots: what a planner is given.
ghost use Rattle.std.specs.Prelude.{◌≡◌, All, IfOk, map};
ghost use Rattle.price_checker.specs.Snap.{IsInRange, IsVersionNumber, named_pair};

use crate::positions::pairs_by_name;
use crate::prices::Prices;
use cost_table::{Plan, Problem};
use move_messages::{CommitText, Pairs, PriceList};
use rail_codes::Moment;
use std::alloc::{AllocError, Global};
use std::marker::Model;

/// The problem of a version at a moment, and the network in force in that version. A contract sees the version, the
/// network's number and the problem.
#[derive(Drop)]
pub struct Snap {
    version: u64,
    network: u32,
    problem: Problem,
}

impl Model for Snap {
    ghost use Rattle.price_checker.specs.Snap.{SnapValue, IsVersionNumber};

    ghost Value = { SnapValue };

    ghost view = { λ snap. record { version = snap.version; network = snap.network; problem = snap.problem } };

    ghost invariant = { λ snap. IsVersionNumber snap.version };
}

impl Snap {
    /// The problem of a version, at most 1,000,000, and the network in force in it.
    pub fn of(version: u64, network: u32, problem: Problem) -> Snap
        requires { IsVersionNumber version }
        ensures { result ≡ record { version = version; network = network; problem = problem } }
    {
        Snap {
            version,
            network,
            problem,
        }
    }

    /// The version, at most 1,000,000.
    pub fn version(&self) -> u64
        ensures value { result ≡ self.now.version }
        ensures limit { IsVersionNumber result }
    {
        self.version
    }

    /// The moment.
    pub fn at(&self) -> Moment
        ensures { result ≡ self.now.problem.at }
    {
        self.problem.at()
    }

    /// The network in force in the version, counted from 1.
    pub fn network(&self) -> u32
        ensures { result ≡ self.now.network }
    {
        self.network
    }

    /// The free wagons and the waiting orders of the version.
    pub fn problem(&self) -> &Problem
        ensures { result.now ≡ self.now.problem }
    {
        &self.problem
    }

    /// The commit of a plan and its prices: the snapshot's version and moment, the plan's pairs by name, and the
    /// prices. Each pair of the plan must be a wagon's and an order's position in the problem.
    pub fn commit_text(
        &self,
        alloc: Global,
        plan: &Plan,
        prices: &Prices,
    ) -> Result<CommitText, AllocError>
        requires { All (IsInRange self.now.problem) plan.now }
        ensures version { IfOk result (λ commit. commit.version ≡ self.now.version) }
        ensures at { IfOk result (λ commit. commit.at ≡ self.now.problem.at) }
        ensures pairs { IfOk result (λ commit. commit.pairs ≡ map (named_pair self.now.problem) plan.now) }
        ensures prices { IfOk result (λ commit. (commit.u ≡ prices.now.u.items) × (commit.v ≡ prices.now.v.items)) }
    {
        let pairs = pairs_by_name(alloc, &self.problem, plan.pairs())?;
        let u = Vec::from_slice(alloc, &prices.u)?;
        let v = Vec::from_slice(alloc, &prices.v)?;
        Ok(CommitText {
            version: self.version,
            at: self.problem.at(),
            pairs: Pairs::from_vec(pairs),
            u: PriceList::from_vec(u),
            v: PriceList::from_vec(v),
        })
    }
}
