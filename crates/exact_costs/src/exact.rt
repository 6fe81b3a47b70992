//! What the best plans cost exactly.
ghost use Rattle.std.specs.Prelude.{◌≡◌, ◌+◌, ◌-◌, ◌<◌, ◌≤◌, ◌↔◌, Some, false, IfOk, IfSome, IsSome, IsTrue, OnSome, is_some, sum};
ghost use Rattle.cost_table.specs.Plan.{IsAllowed, serves};
ghost use Rattle.cost_table.specs.TableLimits.{max_cost};
ghost use Rattle.cost_table.specs.Table.{cost_at, lack_at, order_count, wagon_count};
ghost use Rattle.price_checker.specs.Certificate.{IsCertificate};
ghost use Rattle.plan_bounds.specs.PricedPlan.{IsCertified, certified_cost};
ghost use Rattle.plan_bounds.specs.Changes.{with_lack, without_wagon};
ghost use Rattle.plan_bounds.specs.Bounds.{HasPair, IsIdle, NoneServesMore};
ghost use Rattle.exact_costs.specs.LeastCosts.{BestCostsMore, BestOfCostsLess, BestOfCostsMore, IsAny, IsLeastOver, may_lack_more};
ghost use Rattle.exact_costs.specs.FurtherCosts.{IsFurther};
ghost use Rattle.exact_costs.specs.inner.Certified.{IsNoMore, max_plan_cost};
ghost use Rattle.exact_costs.specs.inner.Further.{HasNewPair};

use crate::changed_table::{one_less, with_lack, with_row, with_wanted};
use crate::further::Further;
use crate::least::{given, least_cost, least_plan};
use crate::order_costs::OrderCosts;
use cost_table::{Cells, MAX_COST, MAX_TABLE_LACK, Plan};
use move_messages::MAX_ORDER_WAGONS;
use plan_bounds::Bounds;
use price_checker::{Prices, certified_cost};
use std::alloc::{AllocError, Global};
use std::marker::Model;

/// A plan of a table and prices that are a certificate of it. A contract sees the table, the plan's pairs and the prices.
///
/// Each number is in kilometres. It is found by planning a changed table.
#[derive(Drop)]
pub struct ExactCosts<'a> {
    cells: &'a Cells,
    plan: &'a Plan,
    prices: &'a Prices,
}

impl<'a> Model for ExactCosts<'a> {
    ghost use Rattle.plan_bounds.specs.PricedPlan.{IsCertified, PricedPlan};

    ghost Value = { PricedPlan };

    ghost view = { λ b. record { table = b.cells.now; pairs = b.plan.now; u = b.prices.now.u.items; v = b.prices.now.v.items } };

    ghost invariant = { λ b. IsCertified (record { table = b.cells.now; pairs = b.plan.now; u = b.prices.now.u.items; v = b.prices.now.v.items }) };
}

impl<'a> ExactCosts<'a> {
    /// The exact costs beside a plan and its prices.
    pub fn new(cells: &'a Cells, plan: &'a Plan, prices: &'a Prices) -> ExactCosts<'a>
        requires { IsCertificate cells.now plan.now prices.now.u.items prices.now.v.items }
        ensures { result ≡ record { table = cells.now; pairs = plan.now; u = prices.now.u.items; v = prices.now.v.items } }
    {
        ExactCosts {
            cells,
            plan,
            prices,
        }
    }

    /// What the best plan costs more in which wagon `i` goes to no order, and so does the best plan without this wagon.
    pub fn without_wagon(&self, alloc: Global, i: usize) -> Result<u64, AllocError>
        requires { i < wagon_count self.now.table }
        ensures idle { IfOk result (BestCostsMore self.now (IsIdle i)) }
        ensures without { IfOk result (BestOfCostsMore self.now (without_wagon self.now.table i)) }
    {
        let cost = self.cost();
        let changed = with_row(alloc, self.cells, i, &[])?;
        Ok(least_cost(alloc, &changed)? - cost)
    }

    /// What the best plan costs more that has a pair. `None` where the pair isn't allowed.
    pub fn with_pair(&self, alloc: Global, i: usize, j: usize) -> Result<Option<u64>, AllocError>
        ensures allowed { IfOk result (λ more. IsSome more ↔ IsAllowed self.now.table (i, j)) }
        ensures exact { IfOk result (λ more. IfSome more (BestCostsMore self.now (HasPair i j))) }
    {
        match self.cell(i, j) {
            Some(km) => Ok(Some(self.with_allowed(alloc, i, j, km)?)),
            None => Ok(None),
        }
    }

    /// The costs of many pairs of order `j`.
    pub fn of_order(&self, alloc: Global, j: usize) -> Result<OrderCosts<'a>, AllocError>
        requires { j < order_count self.now.table }
        ensures priced { IfOk result (λ o. o.priced ≡ self.now) }
        ensures order { IfOk result (λ o. o.order ≡ j) }
    {
        OrderCosts::new(alloc, self.cells, self.plan, self.prices, j)
    }

    /// The kilometres of a pair. `None` where it isn't allowed.
    pub(crate) fn cell(&self, i: usize, j: usize) -> Option<u64>
        ensures value { result ≡ cost_at self.now.table i j }
        ensures in_range { OnSome result ((i < wagon_count self.now.table) × (j < order_count self.now.table)) }
        ensures limit { IfSome result (λ km. km ≤ max_cost) }
    {
        self.cells.cell(i, j)
    }

    /// What the best plan costs more that has an allowed pair of so many kilometres.
    fn with_allowed(&self, alloc: Global, i: usize, j: usize, km: u64) -> Result<u64, AllocError>
        requires allowed { IsAllowed self.now.table (i, j) }
        requires cost { cost_at self.now.table i j ≡ Some km }
        requires limit { km ≤ max_cost }
        ensures { IfOk result (BestCostsMore self.now (HasPair i j)) }
    {
        // Orders of a table are few.
        self.cells.for_the_prover();
        let cost = self.cost();
        let row = [(j as u32, 0)];
        let changed = with_row(alloc, self.cells, i, &row)?;
        Ok(least_cost(alloc, &changed)? + km - cost)
    }

    /// What the best plan costs more where order `j` lacks one wagon more. `None` where it may not: it lacks 20, or all orders
    /// lack 500.
    pub fn one_more(&self, alloc: Global, j: usize) -> Result<Option<u64>, AllocError>
        requires { j < order_count self.now.table }
        ensures some { IfOk result (λ more. is_some more ≡ may_lack_more self.now.table j) }
        ensures exact { IfOk result (λ more. IfSome more (BestOfCostsMore self.now (with_lack self.now.table j (lack_at self.now.table j + 1)))) }
    {
        if !may_lack_more(self.cells, j) {
            return Ok(None);
        }
        let cost = self.cost();
        let changed = with_lack(alloc, self.cells, j, self.cells.lack(j) + 1)?;
        Ok(Some(least_cost(alloc, &changed)? - cost))
    }

    /// What the best plan costs less where order `j` lacks one wagon less. Where it lacks one, it then lacks none.
    pub fn one_less(&self, alloc: Global, j: usize) -> Result<u64, AllocError>
        requires { j < order_count self.now.table }
        ensures { IfOk result (BestOfCostsLess self.now (with_lack self.now.table j (lack_at self.now.table j - 1))) }
    {
        let cost = self.cost();
        Ok(cost - cost_with_less(alloc, self.cells, j)?)
    }

    /// What the best plan costs more that gives order `j` more wagons than this one does. The order misses a wagon.
    ///
    /// It is found by a table where the order lacks one wagon more than it gets, and each that it misses costs 1,000,000,000 km. Where
    /// the best plan of that table refuses it a wagon, only a bound is known.
    pub fn further(&self, alloc: Global, j: usize) -> Result<Further, AllocError>
        requires order { j < order_count self.now.table }
        requires misses { serves j self.now.pairs < lack_at self.now.table j }
        ensures { IfOk result (IsFurther self.now j) }
    {
        if !self.has_new_pair(j) {
            return Ok(Further::Never);
        }
        self.with_one_further(alloc, j)
    }

    /// Whether a pair of order `j` is allowed that the plan doesn't have.
    fn has_new_pair(&self, j: usize) -> bool
        requires { j < order_count self.now.table }
        ensures some { IsTrue result → HasNewPair self.now j }
        ensures none { result ≡ false → NoneServesMore self.now j }
    {
        let bounds = Bounds::new(self.cells, self.plan, self.prices);
        match bounds.service_bound(j) {
            Some(_) => true,
            None => false,
        }
    }

    /// The same as `further`, where a plan may give the order one wagon more.
    fn with_one_further(&self, alloc: Global, j: usize) -> Result<Further, AllocError>
        requires order { j < order_count self.now.table }
        requires misses { serves j self.now.pairs < lack_at self.now.table j }
        requires new { HasNewPair self.now j }
        ensures { IfOk result (IsFurther self.now j) }
    {
        // The orders of a table lack few wagons.
        self.cells.for_the_prover();
        let cost = self.cost();
        let lack = self.cells.lack(j);
        let penalty = self.cells.penalty(j);
        let wanted = given(self.plan.pairs(), j) as u32 + 1;
        let changed = with_wanted(alloc, self.cells, j, wanted)?;
        let least = least_plan(alloc, &changed, j)?;
        if least.gives < wanted as usize {
            return Ok(Further::Over(MAX_COST - penalty));
        }
        Ok(Further::Exactly(least.cost + penalty * u64::from(lack - wanted) - cost))
    }

    /// The cost of the certified plan.
    pub(crate) fn cost(&self) -> u64
        ensures value { result ≡ certified_cost self.now }
        ensures limit { result ≤ max_plan_cost }
        ensures certified { IsCertified self.now }
    {
        // The orders of a table lack few wagons.
        self.cells.for_the_prover();
        certified_cost(self.cells, self.plan.pairs(), self.prices) as u64
    }
}

/// What the best plan costs where order `j` lacks one wagon less: no more than any plan of the table itself.
fn cost_with_less(alloc: Global, cells: &Cells, j: usize) -> Result<u64, AllocError>
    requires { j < order_count cells.now }
    ensures best { IfOk result (IsLeastOver (with_lack cells.now j (lack_at cells.now j - 1)) IsAny) }
    ensures no_more { IfOk result (λ cost. IsNoMore cells.now cost) }
{
    // An order of a table lacks one wagon at least.
    cells.for_the_prover();
    let changed = one_less(alloc, cells, j)?;
    Ok(least_cost(alloc, &changed)?)
}

/// Whether a table whose order `j` lacks one wagon more is within the limits of a table.
fn may_lack_more(cells: &Cells, j: usize) -> bool
    requires { j < order_count cells.now }
    ensures { result ≡ may_lack_more cells.now j }
{
    cells.lack(j) < MAX_ORDER_WAGONS && total_lack(cells) < MAX_TABLE_LACK
}

/// How many wagons the orders lack together.
fn total_lack(cells: &Cells) -> u64
    ensures { result ≡ sum cells.now.lacks }
{
    let mut total = 0;
    for j in 0..cells.orders() {
        total += u64::from(cells.lack(j));
    }
    total
}
