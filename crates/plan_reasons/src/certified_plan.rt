//! What is asked about.
ghost use Rattle.std.specs.Prelude.{◌≡◌};
ghost use Rattle.plan_bounds.specs.PricedPlan.{IsCertified};
ghost use Rattle.price_checker.specs.Certificate.{IsCertificate};
ghost use Rattle.problem_table.specs.Allowed.{IsTableOf};

use cost_table::{Cells, Plan, Problem};
use exact_costs::ExactCosts;
use line_network::Tables;
use plan_bounds::Bounds;
use price_checker::Prices;
use std::marker::Model;

/// A problem, the distances of its network, its table over that network, and a plan of the table with the prices that prove it
/// least. A contract sees the problem, the network, and the plan with its table and prices.
#[derive(Drop)]
pub struct CertifiedPlan<'a> {
    problem: &'a Problem,
    tables: &'a Tables,
    cells: &'a Cells,
    plan: &'a Plan,
    prices: &'a Prices,
}

impl<'a> Model for CertifiedPlan<'a> {
    ghost use Rattle.plan_reasons.specs.CertifiedPlan.{CertifiedPlanValue, IsCertifiedPlan};

    ghost Value = { CertifiedPlanValue };

    ghost view = { λ p. record { network = p.tables.now; problem = p.problem.now; priced = record { table = p.cells.now; pairs = p.plan.now; u = p.prices.now.u.items; v = p.prices.now.v.items } } };

    ghost invariant = { λ p. IsCertifiedPlan (record { network = p.tables.now; problem = p.problem.now; priced = record { table = p.cells.now; pairs = p.plan.now; u = p.prices.now.u.items; v = p.prices.now.v.items } }) };
}

impl<'a> CertifiedPlan<'a> {
    /// A plan of a problem's table over a network, and the prices that are its certificate.
    pub fn new(
        problem: &'a Problem,
        tables: &'a Tables,
        cells: &'a Cells,
        plan: &'a Plan,
        prices: &'a Prices,
    ) -> CertifiedPlan<'a>
        requires table { IsTableOf tables.now problem.now cells.now }
        requires certificate { IsCertificate cells.now plan.now prices.now.u.items prices.now.v.items }
        ensures problem { result.problem ≡ problem.now }
        ensures network { result.network ≡ tables.now }
        ensures priced { result.priced ≡ record { table = cells.now; pairs = plan.now; u = prices.now.u.items; v = prices.now.v.items } }
    {
        CertifiedPlan {
            problem,
            tables,
            cells,
            plan,
            prices,
        }
    }

    /// The free wagons and waiting orders.
    pub fn problem(&self) -> &'a Problem
        ensures value { result.now ≡ self.now.problem }
        ensures table { IsTableOf self.now.network self.now.problem self.now.priced.table }
    {
        self.problem
    }

    /// The distances of the network in force.
    pub fn tables(&self) -> &'a Tables
        ensures { result.now ≡ self.now.network }
    {
        self.tables
    }

    /// The problem's table over that network.
    pub fn cells(&self) -> &'a Cells
        ensures { result.now ≡ self.now.priced.table }
    {
        self.cells
    }

    /// The plan, of which the prices are the certificate.
    pub fn plan(&self) -> &'a Plan
        ensures value { result.now ≡ self.now.priced.pairs }
        ensures certified { IsCertified self.now.priced }
    {
        self.plan
    }

    /// What the best plans cost that are other than this one.
    pub fn exact_costs(&self) -> ExactCosts<'a>
        ensures value { result ≡ self.now.priced }
        ensures table { IsTableOf self.now.network self.now.problem self.now.priced.table }
    {
        ExactCosts::new(self.cells, self.plan, self.prices)
    }

    /// What the prices say of every other plan.
    pub fn bounds(&self) -> Bounds<'a>
        ensures value { result ≡ self.now.priced }
        ensures table { IsTableOf self.now.network self.now.problem self.now.priced.table }
    {
        Bounds::new(self.cells, self.plan, self.prices)
    }
}
