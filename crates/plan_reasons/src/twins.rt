//! What plans cost more that have a pair, by what was found of a wagon with the same row.
ghost use Rattle.std.specs.Prelude.{◌≡◌, ◌<◌, All, IfOk, IfSome, IsTrue};
ghost use Rattle.cost_table.specs.Table.{wagon_count};
ghost use Rattle.cost_table.specs.TableRows.{row_at};
ghost use Rattle.plan_bounds.specs.Bounds.{HasPair};
ghost use Rattle.exact_costs.specs.LeastCosts.{BestCostsMore};
ghost use Rattle.plan_reasons.specs.Numbers.{IsMoreOf};
ghost use Rattle.plan_reasons.specs.declared.numbers.Numbers.TheVariants.{Exact};
ghost use Rattle.plan_reasons.specs.inner.AddedPairs.{IsFitting, IsFoundFit};
ghost use Rattle.plan_reasons.specs.inner.Twins.{AreTwins, IsOfTwin};

use crate::certified_plan::CertifiedPlan;
use crate::fit::Fit;
use crate::numbers::{Numbers, more_bound, more_exactly};
use cost_table::Cells;
use exact_costs::OrderCosts;
use std::alloc::{AllocError, Global};

/// The exact costs of the order of the first two pairs, where they are of one order: a list of an order's pairs takes fewer plans
/// by them. Bounds take none.
pub(crate) fn costs_of_order<'a>(
    alloc: Global,
    numbers: Numbers,
    planned: &CertifiedPlan<'a>,
    pairs: &[(usize, usize)],
) -> Result<Option<OrderCosts<'a>>, AllocError>
    ensures { IfOk result (λ order. IfSome order (λ costs. costs.priced ≡ planned.now.priced)) }
{
    match numbers {
        Numbers::Exact => exact_costs_of_order(alloc, planned, first_order(pairs)),
        Numbers::Bounds => Ok(None),
    }
}

/// The exact costs of an order, where the table has it.
fn exact_costs_of_order<'a>(
    alloc: Global,
    planned: &CertifiedPlan<'a>,
    order: Option<usize>,
) -> Result<Option<OrderCosts<'a>>, AllocError>
    ensures { IfOk result (λ order. IfSome order (λ costs. costs.priced ≡ planned.now.priced)) }
{
    let Some(j) = order else {
        return Ok(None);
    };
    if j >= planned.cells().orders() {
        return Ok(None);
    }
    Ok(Some(planned.exact_costs().of_order(alloc, j)?))
}

/// The order of the first two pairs, where they are of one order.
fn first_order(pairs: &[(usize, usize)]) -> Option<usize> {
    let first = pairs.get(0)?.1;
    let second = pairs.get(1)?.1;
    if first == second { Some(first) } else { None }
}

/// What plans cost more that have a pair which fails no test. An exact number is taken over from a pair of the same order and a
/// wagon with the same row, where it was found.
pub(crate) fn more_beside(
    alloc: Global,
    numbers: Numbers,
    planned: &CertifiedPlan,
    order: &Option<OrderCosts<'_>>,
    found: &[Fit],
    pair: (usize, usize),
) -> Result<u64, AllocError>
    requires fitting { IsFitting planned.now pair }
    requires order { IfSome order.now (λ costs. costs.priced ≡ planned.now.priced) }
    requires found { All (IsFoundFit numbers planned.now) found.now }
    ensures { IfOk result (IsMoreOf numbers planned.now.priced pair) }
{
    match numbers {
        Numbers::Exact => exactly_beside(alloc, planned, order, found, pair),
        Numbers::Bounds => Ok(more_bound(planned, pair)),
    }
}

/// What the best plan costs more that has a pair which fails no test.
fn exactly_beside(
    alloc: Global,
    planned: &CertifiedPlan,
    order: &Option<OrderCosts<'_>>,
    found: &[Fit],
    pair: (usize, usize),
) -> Result<u64, AllocError>
    requires fitting { IsFitting planned.now pair }
    requires order { IfSome order.now (λ costs. costs.priced ≡ planned.now.priced) }
    requires found { All (IsFoundFit Exact planned.now) found.now }
    ensures { IfOk result (BestCostsMore planned.now.priced (HasPair pair.0 pair.1)) }
{
    match twin_of(planned.cells(), found, pair) {
        Some(more) => Ok(more),
        None => more_by_plan(alloc, planned, order, pair),
    }
}

/// The same where no twin was found.
fn more_by_plan(
    alloc: Global,
    planned: &CertifiedPlan,
    order: &Option<OrderCosts<'_>>,
    pair: (usize, usize),
) -> Result<u64, AllocError>
    requires fitting { IsFitting planned.now pair }
    requires order { IfSome order.now (λ costs. costs.priced ≡ planned.now.priced) }
    ensures { IfOk result (BestCostsMore planned.now.priced (HasPair pair.0 pair.1)) }
{
    let Some(costs) = order else {
        return more_exactly(alloc, planned, pair);
    };
    match more_of_order(alloc, costs, pair)? {
        Some(more) => Ok(more),
        None => more_exactly(alloc, planned, pair),
    }
}

/// What the best plan costs more that has a pair, by the exact costs of an order. `None` where the pair is of another one.
fn more_of_order(
    alloc: Global,
    costs: &OrderCosts<'_>,
    pair: (usize, usize),
) -> Result<Option<u64>, AllocError>
    ensures { IfOk result (λ more. IfSome more (BestCostsMore costs.now.priced (HasPair pair.0 pair.1))) }
{
    if costs.order() != pair.1 {
        return Ok(None);
    }
    costs.with_pair(alloc, pair.0)
}

/// What was found of a pair of the same order and a wagon with the same row.
fn twin_of(cells: &Cells, found: &[Fit], pair: (usize, usize)) -> Option<u64>
    ensures { IfSome result (IsOfTwin cells.now found.now pair) }
{
    for fit in found {
        if are_twins(cells, fit.pair, pair) {
            return Some(fit.more);
        }
    }
    None
}

/// Whether two pairs are of one order, and their wagons' rows stand in one place.
fn are_twins(cells: &Cells, one: (usize, usize), other: (usize, usize)) -> bool
    ensures { IsTrue result → AreTwins cells.now one other }
{
    if one.1 != other.1 || one.0 >= cells.wagons() || other.0 >= cells.wagons() {
        return false;
    }
    cells.share_row(one.0, other.0)
}
