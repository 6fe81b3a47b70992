//! What the best plans cost exactly that have a pair of one order.
ghost use Rattle.std.specs.Prelude.{◌≡◌, ◌<◌, ◌≤◌, ◌↔◌, Some, IfOk, IfSome, IsSome};
ghost use Rattle.cost_table.specs.Plan.{IsAllowed, uses};
ghost use Rattle.cost_table.specs.Table.{cost_at, order_count};
ghost use Rattle.cost_table.specs.TableLimits.{max_cost};
ghost use Rattle.price_checker.specs.Certificate.{IsCertificate};
ghost use Rattle.plan_bounds.specs.Bounds.{HasPair};
ghost use Rattle.plan_bounds.specs.PricedPlan.{certified_cost};
ghost use Rattle.exact_costs.specs.LeastCosts.{BestCostsMore};
ghost use Rattle.exact_costs.specs.inner.Certified.{max_plan_cost};
ghost use Rattle.exact_costs.specs.inner.OneLess.{IsOneLess};

use crate::changed_table::one_less;
use crate::exact::ExactCosts;
use cost_table::{Cells, Plan};
use price_checker::{Prices, certified_cost};
use std::alloc::{AllocError, Global};
use std::marker::Model;

/// The exact costs of one order's pairs. A contract sees the certified plan, the order, and the plan and prices of the table in which
/// the order lacks one wagon less.
///
/// A wagon that goes nowhere in that plan takes no other plan: the best one with the pair is that plan and the pair.
#[derive(Drop)]
pub struct OrderCosts<'a> {
    costs: ExactCosts<'a>,
    order: usize,
    less: Cells,
    plan: Plan,
    prices: Prices,
}

impl<'a> Model for OrderCosts<'a> {
    ghost use Rattle.exact_costs.specs.OrderCosts.{OrderCostsValue};
    ghost use Rattle.exact_costs.specs.inner.OneLess.{IsOneLess};

    ghost Value = { OrderCostsValue };

    ghost view = { λ o. record { priced = o.costs; order = o.order; less = record { table = o.less; pairs = o.plan; u = o.prices.u.items; v = o.prices.v.items } } };

    ghost invariant = { λ o. IsOneLess o.costs o.order (record { table = o.less; pairs = o.plan; u = o.prices.u.items; v = o.prices.v.items }) };
}

impl<'a> OrderCosts<'a> {
    /// Beside a plan and prices that are a certificate of it, the costs of order `j`.
    pub(crate) fn new(
        alloc: Global,
        cells: &'a Cells,
        plan: &'a Plan,
        prices: &'a Prices,
        j: usize,
    ) -> Result<OrderCosts<'a>, AllocError>
        requires certificate { IsCertificate cells.now plan.now prices.now.u.items prices.now.v.items }
        requires order { j < order_count cells.now }
        ensures priced { IfOk result (λ o. o.priced ≡ record { table = cells.now; pairs = plan.now; u = prices.now.u.items; v = prices.now.v.items }) }
        ensures order { IfOk result (λ o. o.order ≡ j) }
    {
        // The orders of a table lack one wagon at least.
        cells.for_the_prover();
        let costs = ExactCosts::new(cells, plan, prices);
        let less = one_less(alloc, cells, j)?;
        let (plan, prices) = assignment::plan(alloc, &less)?;
        Ok(OrderCosts {
            costs,
            order: j,
            less,
            plan,
            prices,
        })
    }

    /// The order.
    pub fn order(&self) -> usize
        ensures { result ≡ self.now.order }
    {
        self.order
    }

    /// What the best plan costs more that has a pair of the order. `None` where the pair isn't allowed.
    pub fn with_pair(&self, alloc: Global, i: usize) -> Result<Option<u64>, AllocError>
        ensures allowed { IfOk result (λ more. IsSome more ↔ IsAllowed self.now.priced.table (i, self.now.order)) }
        ensures exact { IfOk result (λ more. IfSome more (BestCostsMore self.now.priced (HasPair i self.now.order))) }
    {
        if times_used(self.plan.pairs(), i) > 0 {
            return self.costs.with_pair(alloc, i, self.order);
        }
        Ok(self.with_idle(i))
    }

    /// The same of a wagon that goes nowhere where the order lacks one wagon less.
    fn with_idle(&self, i: usize) -> Option<u64>
        requires { uses i self.now.less.pairs ≡ 0 }
        ensures allowed { IsSome result ↔ IsAllowed self.now.priced.table (i, self.now.order) }
        ensures exact { IfSome result (BestCostsMore self.now.priced (HasPair i self.now.order)) }
    {
        match self.costs.cell(i, self.order) {
            Some(km) => Some(self.with_allowed(i, km)),
            None => None,
        }
    }

    /// The same of an allowed pair of so many kilometres.
    fn with_allowed(&self, i: usize, km: u64) -> u64
        requires idle { uses i self.now.less.pairs ≡ 0 }
        requires allowed { IsAllowed self.now.priced.table (i, self.now.order) }
        requires cost { cost_at self.now.priced.table i self.now.order ≡ Some km }
        requires limit { km ≤ max_cost }
        ensures { BestCostsMore self.now.priced (HasPair i self.now.order) result }
    {
        let cost = self.costs.cost();
        self.least() + km - cost
    }

    /// What the best plan costs where the order lacks one wagon less.
    fn least(&self) -> u64
        ensures value { result ≡ certified_cost self.now.less }
        ensures limit { result ≤ max_plan_cost }
        ensures less { IsOneLess self.now.priced self.now.order self.now.less }
    {
        // The orders of a table lack few wagons.
        self.less.for_the_prover();
        certified_cost(&self.less, self.plan.pairs(), &self.prices) as u64
    }
}

/// How many of the pairs are of wagon `i`.
fn times_used(pairs: &[(usize, usize)], i: usize) -> usize
    ensures { result ≡ uses i pairs.now }
{
    pairs.iter().filter(|pair| pair.0 == i).count()
}
