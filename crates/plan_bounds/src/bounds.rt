//! The bounds of a certificate, one by one.
ghost use Rattle.std.specs.Prelude.{◌≡◌, ◌+◌, ◌-◌, ◌<◌, ◌≤◌, ◌↔◌, Some, IsSome, IfNone, IfSome, All, length, slice_index};
ghost use Rattle.cost_table.specs.Table.{costs_at, lack_at, order_count, wagon_count};
ghost use Rattle.cost_table.specs.TableRows.{costs_of};
ghost use Rattle.cost_table.specs.Plan.{IsAllowed};
ghost use Rattle.price_checker.specs.Certificate.{IsCertificate};
ghost use Rattle.plan_bounds.specs.PricedPlan.{IsCertified, certified_cost};
ghost use Rattle.plan_bounds.specs.Slack.{in_64_bits, missed, refusal_slack, slack_of_pair};
ghost use Rattle.plan_bounds.specs.Changes.{gain_of, with_lack, with_wagon, without_wagon};
ghost use Rattle.plan_bounds.specs.Bounds.{
  AllCostMore,
  CostsMore,
  EachMissCosts,
  HasPair,
  IsIdle,
  NoneSavesMore,
  NoneServesMore,
  ServesMore,
};
ghost use Rattle.plan_bounds.specs.LeastSlack.{has_pair, least_new_slack, lesser, new_slack};

use cost_table::{Cells, Plan};
use price_checker::{Prices, certified_cost};
use std::marker::Model;

/// A plan of a table and prices that are a certificate of it. A contract sees the table, the plan's pairs and the prices.
///
/// Each bound is in kilometres, and holds of every plan of the table that is as its method says.
#[derive(Drop)]
pub struct Bounds<'a> {
    cells: &'a Cells,
    plan: &'a Plan,
    prices: &'a Prices,
}

impl<'a> Model for Bounds<'a> {
    ghost use Rattle.plan_bounds.specs.PricedPlan.{IsCertified, PricedPlan};

    ghost Value = { PricedPlan };

    ghost view = { λ b. record { table = b.cells.now; pairs = b.plan.now; u = b.prices.now.u.items; v = b.prices.now.v.items } };

    ghost invariant = { λ b. IsCertified (record { table = b.cells.now; pairs = b.plan.now; u = b.prices.now.u.items; v = b.prices.now.v.items }) };
}

impl<'a> Bounds<'a> {
    /// The bounds of a plan by its prices.
    pub fn new(cells: &'a Cells, plan: &'a Plan, prices: &'a Prices) -> Bounds<'a>
        requires { IsCertificate cells.now plan.now prices.now.u.items prices.now.v.items }
        ensures { result ≡ record { table = cells.now; pairs = plan.now; u = prices.now.u.items; v = prices.now.v.items } }
    {
        Bounds {
            cells,
            plan,
            prices,
        }
    }

    /// The cost of the certified plan: no plan of the table costs less.
    pub fn cost(&self) -> u128
        ensures value { result ≡ certified_cost self.now }
        ensures certified { IsCertified self.now }
    {
        certified_cost(self.cells, self.plan.pairs(), self.prices)
    }

    /// The slack of a pair: what every plan that has this pair costs more, at least. `None` where the pair isn't allowed.
    /// It is 0 for a pair of the certified plan. A slack past 64 bits is given as the largest number of 64 bits.
    pub fn pair_bound(&self, i: usize, j: usize) -> Option<u64>
        ensures value { result ≡ slack_of_pair self.now i j }
        ensures allowed { IsSome result ↔ IsAllowed self.now.table (i, j) }
        ensures bound { IfSome result (CostsMore self.now (HasPair i j)) }
        ensures own { HasPair i j self.now.pairs → result ≡ Some 0 }
    {
        match self.cells.cell(i, j) {
            Some(cost) => Some(pair_slack(cost, self.prices.u[i], self.prices.v[j])),
            None => None,
        }
    }

    /// The price of wagon `i`: what every plan in which it is idle costs more, at least, and every plan without it; and what
    /// one more wagon with the same costs saves at most. It is 0 for a wagon that the certified plan leaves idle.
    pub fn idle_bound(&self, i: usize) -> u64
        requires { i < wagon_count self.now.table }
        ensures value { result ≡ slice_index self.now.u i }
        ensures idle { CostsMore self.now (IsIdle i) result }
        ensures own { IsIdle i self.now.pairs → result ≡ 0 }
        ensures wagon_less { AllCostMore self.now (without_wagon self.now.table i) result }
        ensures twin { NoneSavesMore self.now (with_wagon self.now.table (costs_at self.now.table i)) result }
    {
        self.prices.u[i]
    }

    /// What one wagon more saves at most, by its row: the most by which an order's price exceeds that wagon's cost for it.
    pub fn wagon_gain(&self, row: &[(u32, u32)]) -> u64
        requires { All (λ cell. cell.0 < order_count self.now.table) row.now }
        ensures value { result ≡ gain_of self.now.v row.now }
        ensures bound { NoneSavesMore self.now (with_wagon self.now.table (costs_of (order_count self.now.table) row.now)) result }
    {
        gain(&self.prices.v, row)
    }

    /// The price of order `j`: what every plan costs more, at least, where it lacks one wagon more.
    pub fn one_more(&self, j: usize) -> u64
        requires { j < order_count self.now.table }
        ensures value { result ≡ slice_index self.now.v j }
        ensures bound { AllCostMore self.now (with_lack self.now.table j (lack_at self.now.table j + 1)) result }
    {
        self.prices.v[j]
    }

    /// The price of order `j`: what any plan saves, at most, where it lacks one wagon less.
    pub fn one_less(&self, j: usize) -> u64
        requires { j < order_count self.now.table }
        ensures value { result ≡ slice_index self.now.v j }
        ensures bound { NoneSavesMore self.now (with_lack self.now.table j (lack_at self.now.table j - 1)) result }
    {
        self.prices.v[j]
    }

    /// The slack of a refusal: what every plan costs more, at least, for each wagon that it refuses order `j`. It is 0 for an
    /// order that the certified plan refuses a wagon.
    pub fn refusal_bound(&self, j: usize) -> u64
        requires { j < order_count self.now.table }
        ensures value { result ≡ refusal_slack self.now j }
        ensures bound { EachMissCosts self.now j result }
        ensures own { 1 ≤ missed self.now self.now.pairs j → result ≡ 0 }
    {
        self.cells.penalty(j) - self.prices.v[j]
    }

    /// The least slack of order `j`'s pairs that the plan doesn't have: what every plan that gives it more wagons costs more,
    /// at least. `None` where the plan has all its allowed pairs: then no plan gives it more.
    pub fn service_bound(&self, j: usize) -> Option<u64>
        ensures value { result ≡ least_new_slack self.now j (wagon_count self.now.table) }
        ensures bound { IfSome result (CostsMore self.now (ServesMore self.now j)) }
        ensures none { IfNone result (NoneServesMore self.now j) }
    {
        let mut least = None;
        for i in 0..self.cells.wagons() {
            least = lesser(least, self.new_slack(i, j));
            if let Some(0) = least {
                return Some(0);
            }
        }
        least
    }

    /// The slack of a pair that is allowed and that the plan doesn't have.
    fn new_slack(&self, i: usize, j: usize) -> Option<u64>
        ensures { result ≡ new_slack self.now i j }
    {
        let slack = self.pair_bound(i, j)?;
        let pairs = self.plan.pairs();
        // a pair of the plan has no slack
        if slack == 0 && has_pair(pairs, i, j) {
            return None;
        }
        Some(slack)
    }
}

/// The most by which an order's price exceeds its cost in a row.
fn gain(v: &[u64], row: &[(u32, u32)]) -> u64
    requires { All (λ cell. cell.0 < length v.now) row.now }
    ensures { result ≡ gain_of v.now row.now }
{
    let mut gain = 0;
    for cell in row {
        gain = gain.max(v[cell.0 as usize].saturating_sub(u64::from(cell.1)));
    }
    gain
}

/// Whether a pair is among these.
pub fn has_pair(pairs: &[(usize, usize)], i: usize, j: usize) -> bool
    ensures { result ≡ has_pair pairs.now i j }
{
    pairs.iter().any(|pair| pair.0 == i && pair.1 == j)
}

/// The lesser of two numbers, where both are there.
fn lesser(one: Option<u64>, other: Option<u64>) -> Option<u64>
    ensures { result ≡ lesser one other }
{
    match (one, other) {
        (Some(one), Some(other)) => Some(one.min(other)),
        (Some(one), None) => Some(one),
        (None, other) => other,
    }
}

/// The slack of a pair by its cost and the prices of its wagon and its order.
fn pair_slack(cost: u64, u: u64, v: u64) -> u64
    ensures { result ≡ in_64_bits ((cost + u) - v) }
{
    if v <= cost {
        (cost - v).saturating_add(u)
    } else {
        u.saturating_sub(v - cost)
    }
}
