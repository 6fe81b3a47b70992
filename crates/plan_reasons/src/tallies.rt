//! What is counted once for all orders of a text.
ghost use Rattle.std.specs.Prelude.{◌≡◌, ◌<◌, IfOk, length};
ghost use Rattle.cost_table.specs.Plan.{serves};
ghost use Rattle.cost_table.specs.Table.{order_count};
ghost use Rattle.wagons_and_orders.specs.Suits.{Suits};
ghost use Rattle.plan_reasons.specs.Reasons.{HasWay, IsCount, IsInTime};
ghost use Rattle.plan_reasons.specs.inner.Tallied.{AreCountsOf, AreSeen, AreTallies};

use crate::cell_counts::{allowed, cheaper, served};
use crate::certified_plan::CertifiedPlan;
use crate::reasons::Counts;
use crate::tested_wagons::{
    TestedWagon, TestedWagons, count_suited, listed_classes, tested_wagons, with_way,
};
use move_messages::OrderText;
use std::alloc::{AllocError, Global};

/// What is counted once for all orders of a planned problem, and the wagons as their counts need them.
#[derive(Drop)]
pub(crate) struct Tallies {
    pub(crate) tested: TestedWagons,
    /// For each order, how many wagons are there by the latest moment.
    pub(crate) in_time: Vec<u64>,
    /// For each order, how many of them cost less than its penalty.
    pub(crate) cheaper: Vec<u64>,
    /// For each order, how many wagons the plan gives it.
    pub(crate) given: Vec<u64>,
}

impl Tallies {
    /// What is counted of a planned problem.
    pub(crate) fn new(alloc: Global, planned: &CertifiedPlan) -> Result<Tallies, AllocError>
        ensures { IfOk result (AreTallies planned.now) }
    {
        Ok(Tallies {
            tested: tested_wagons(alloc, planned.problem(), planned.tables().network())?,
            in_time: allowed(alloc, planned.cells())?,
            cheaper: cheaper(alloc, planned.cells())?,
            given: served(alloc, planned.cells().orders(), planned.plan().pairs())?,
        })
    }

    /// How many wagons the plan gives order `j`.
    pub(crate) fn given(&self, planned: &CertifiedPlan, j: usize) -> u64
        requires tallies { AreTallies planned.now self.now }
        requires order { j < order_count planned.now.priced.table }
        ensures { result ≡ serves j planned.now.priced.pairs }
    {
        self.given[j]
    }

    /// How many free wagons pass each test for order `j`.
    pub(crate) fn counts(
        &self,
        alloc: Global,
        planned: &CertifiedPlan,
        j: usize,
    ) -> Result<Counts, AllocError>
        requires tallies { AreTallies planned.now self.now }
        requires order { j < length planned.now.problem.orders }
        ensures { IfOk result (AreCountsOf planned.now j) }
    {
        let order = planned.problem().orders()[j].order();
        let wagons = &self.tested.wagons;
        let listed = listed_classes(alloc, &self.tested.classes, order)?;
        let counted = count_suited(wagons, &listed, order.load());
        let in_time = self.in_time[j];
        Ok(Counts {
            class: counted.class,
            load: counted.load,
            way: on_a_way(planned, wagons, &listed, order, counted.load, in_time),
            in_time,
            cheaper: self.cheaper[j],
        })
    }
}

/// From how many wagons that carry an order's load a way leads to its place. It is handed in how many carry the load, and how
/// many are there in time: where that is as many, each has a way.
fn on_a_way(
    planned: &CertifiedPlan,
    wagons: &[TestedWagon],
    listed: &[bool],
    order: &OrderText,
    load: u64,
    in_time: u64,
) -> u64
    requires seen { AreSeen planned.now.network planned.now.problem.wagons order.now listed.now wagons.now }
    requires load { IsCount (λ wagon. Suits wagon order.now) planned.now.problem.wagons load }
    requires in_time { IsCount (λ wagon. IsInTime planned.now.network planned.now.problem.at wagon order.now) planned.now.problem.wagons in_time }
    ensures { IsCount (λ wagon. HasWay planned.now.network wagon order.now) planned.now.problem.wagons result }
{
    if load == in_time {
        return load;
    }
    with_way(planned, wagons, listed, order)
}
