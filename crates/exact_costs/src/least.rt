//! The least cost of a table.
ghost use Rattle.std.specs.Prelude.{◌≡◌, ◌≤◌, IfOk};
ghost use Rattle.cost_table.specs.Plan.{serves};
ghost use Rattle.exact_costs.specs.inner.Certified.{IsCertifiedCost, IsCertifiedGiving, max_plan_cost};

use assignment::plan;
use cost_table::Cells;
use price_checker::certified_cost;
use std::alloc::{AllocError, Global};

/// What a plan at the lowest total cost costs, in kilometres.
pub(crate) fn least_cost(alloc: Global, cells: &Cells) -> Result<u64, AllocError>
    ensures certified { IfOk result (IsCertifiedCost cells.now) }
    ensures limit { IfOk result (λ cost. cost ≤ max_plan_cost) }
{
    // The orders of a table lack few wagons.
    cells.for_the_prover();
    let (plan, prices) = plan(alloc, cells)?;
    Ok(certified_cost(cells, plan.pairs(), &prices) as u64)
}

/// What a plan at the lowest total cost costs, and how many wagons it gives an order.
#[derive(Clone, Copy)]
pub(crate) struct LeastPlan {
    pub(crate) cost: u64,
    pub(crate) gives: usize,
}

/// What a plan at the lowest total cost costs, in kilometres, and how many wagons it gives order `j`.
pub(crate) fn least_plan(alloc: Global, cells: &Cells, j: usize) -> Result<LeastPlan, AllocError>
    ensures certified { IfOk result (λ least. IsCertifiedGiving cells.now j least.cost least.gives) }
    ensures limit { IfOk result (λ least. least.cost ≤ max_plan_cost) }
{
    // The orders of a table lack few wagons.
    cells.for_the_prover();
    let (plan, prices) = plan(alloc, cells)?;
    let pairs = plan.pairs();
    let gives = given(pairs, j);
    let cost = certified_cost(cells, pairs, &prices) as u64;
    Ok(LeastPlan { cost, gives })
}

/// How many of the pairs are of order `j`.
pub(crate) fn given(pairs: &[(usize, usize)], j: usize) -> usize
    ensures { result ≡ serves j pairs.now }
{
    pairs.iter().filter(|pair| pair.1 == j).count()
}
