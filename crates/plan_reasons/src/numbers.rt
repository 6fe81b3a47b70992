//! The numbers of a text: exact ones, or bounds.
ghost use Rattle.std.specs.Prelude.{◌≡◌, ◌<◌, IfOk, slice_index};
ghost use Rattle.cost_table.specs.Table.{wagon_count};
ghost use Rattle.plan_bounds.specs.Bounds.{CostsMore, HasPair, IsIdle};
ghost use Rattle.exact_costs.specs.LeastCosts.{BestCostsMore};
ghost use Rattle.plan_reasons.specs.Numbers.{IsWithout, more_of};
ghost use Rattle.plan_reasons.specs.inner.AddedPairs.{IsFitting};

use crate::certified_plan::CertifiedPlan;
use std::alloc::{AllocError, Global};

/// Which numbers a text has of plans that differ from the certified one.
#[derive(Clone, Copy)]
pub enum Numbers {
    /// What the best of them costs: each is a plan of its own.
    Exact,
    /// What each of them costs, at least: the prices tell it at once.
    Bounds,
}

/// What plans cost more in which wagon `i` stays.
pub(crate) fn without(
    alloc: Global,
    numbers: Numbers,
    planned: &CertifiedPlan,
    i: usize,
) -> Result<u64, AllocError>
    requires { i < wagon_count planned.now.priced.table }
    ensures { IfOk result (IsWithout numbers planned.now.priced i) }
{
    match numbers {
        Numbers::Exact => Ok(planned.exact_costs().without_wagon(alloc, i)?),
        Numbers::Bounds => Ok(without_bound(planned, i)),
    }
}

/// What every plan in which wagon `i` stays costs more, at least.
fn without_bound(planned: &CertifiedPlan, i: usize) -> u64
    requires { i < wagon_count planned.now.priced.table }
    ensures value { result ≡ slice_index planned.now.priced.u i }
    ensures bound { CostsMore planned.now.priced (IsIdle i) result }
{
    planned.bounds().idle_bound(i)
}

/// What the best plan costs more that has a pair which fails no test.
pub(crate) fn more_exactly(
    alloc: Global,
    planned: &CertifiedPlan,
    pair: (usize, usize),
) -> Result<u64, AllocError>
    requires { IsFitting planned.now pair }
    ensures { IfOk result (BestCostsMore planned.now.priced (HasPair pair.0 pair.1)) }
{
    let costs = planned.exact_costs();
    let more = costs.with_pair(alloc, pair.0, pair.1)?;
    Ok(more.unwrap())
}

/// What every plan costs more, at least, that has a pair.
pub(crate) fn more_bound(planned: &CertifiedPlan, pair: (usize, usize)) -> u64
    ensures { result ≡ more_of planned.now.priced pair }
{
    planned.bounds().pair_bound(pair.0, pair.1).unwrap_or(0)
}
