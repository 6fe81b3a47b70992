//! A planner's work: from a snapshot to a plan and its prices.
ghost use Rattle.std.specs.Prelude.{◌↔◌, All, IfOk, IsErrOf};
ghost use Rattle.commit_book.specs.Made.{IsMadeAmong};
ghost use Rattle.price_checker.specs.Snap.{IsInRange};
ghost use Rattle.sessions.specs.Planning.{IsPlanned, IsUnknownNetwork};

use crate::PlanFault;
use assignment::plan;
use commit_book::{MadeProblem, Snap};
use cost_table::Plan;
use line_network::Networks;
use price_checker::Prices;
use std::alloc::Global;

/// A plan of the snapshot's problem at the lowest total cost over the network of its version, and prices in kilometres that
/// are a certificate of it. Its pairs are positions in that problem, as `Snap::commit_text` wants them. It takes no lock and
/// waits for nobody.
///
/// The first of these is answered: `UnknownNetwork` (79), exactly where the snapshot's network is none of these;
/// `OutOfMemory` (1).
pub fn work(alloc: Global, snap: &Snap, networks: &Networks) -> Result<(Plan, Prices), PlanFault>
    ensures planned { IfOk result (λ r. IsPlanned networks.now snap.now r.0 r.1.u.items r.1.v.items) }
    ensures in_range { IfOk result (λ r. All (IsInRange snap.now.problem) r.0) }
    ensures network { IsErrOf result PlanFault.UnknownNetwork ↔ IsUnknownNetwork networks.now snap.now.network }
{
    match work_with_table(alloc, snap, networks) {
        Ok(worked) => Ok((worked.plan, worked.prices)),
        Err(fault) => Err(fault),
    }
}

/// A plan, its prices, and what has the table of its problem.
#[derive(Drop)]
pub(crate) struct Worked {
    pub(crate) plan: Plan,
    pub(crate) prices: Prices,
    pub(crate) made: MadeProblem,
}

/// The same, with what has the table that was made for it.
pub(crate) fn work_with_table(
    alloc: Global,
    snap: &Snap,
    networks: &Networks,
) -> Result<Worked, PlanFault>
    ensures planned { IfOk result (λ r. IsPlanned networks.now snap.now r.plan r.prices.u.items r.prices.v.items) }
    ensures in_range { IfOk result (λ r. All (IsInRange snap.now.problem) r.plan) }
    ensures made { IfOk result (λ r. IsMadeAmong networks.now r.made) }
    ensures network { IsErrOf result PlanFault.UnknownNetwork ↔ IsUnknownNetwork networks.now snap.now.network }
{
    let Some(tables) = networks.get(snap.network()) else {
        return Err(PlanFault::UnknownNetwork);
    };
    let made = MadeProblem::of(alloc, snap.problem(), snap.network(), tables)?;
    match plan(alloc, made.cells()) {
        Ok((plan, prices)) => Ok(Worked { plan, prices, made }),
        Err(_) => Err(PlanFault::OutOfMemory),
    }
}
