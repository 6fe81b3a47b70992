//! What is kept between searches.
ghost use Rattle.std.specs.Prelude.{◌≡◌, ◌<◌, ◌≤◌, IfOk, IfSome, IfNone, ◌+◌, ◌-◌, None, min, slice_index};
ghost use Rattle.cost_table.specs.Table.{order_count, penalty_at};
ghost use Rattle.cost_table.specs.TableLimits.{max_cost};
ghost use Rattle.assignment.specs.inner.Costs.{IsColumn};
ghost use Rattle.assignment.specs.inner.Groups.{group_table};
ghost use Rattle.assignment.specs.inner.State.{IsState, AreCounted, IsAtHand, IsIdleAt, IsEndFound, IsHead, IsIdleGroup, IsLeastCost, HasGroupOf, idle_after, kept};

use crate::costs::Columns;
use crate::groups::{Groups, NO_WAGON};
use crate::passes::{find_idle, least_idle};
use crate::search::End;
use cost_table::Cells;
use std::alloc::{AllocError, Global};

/// Stands for the order of a wagon that has none.
pub(crate) const NO_ORDER: u32 = u32::MAX;

/// A table, the groups of its wagons and their costs by order, the prices of its groups and orders in kilometres, the
/// order of each wagon, and how many wagons each order has.
#[derive(Drop)]
pub(crate) struct State<'a> {
    pub(crate) cells: &'a Cells,
    pub(crate) groups: Groups,
    pub(crate) costs: Vec<u32>,
    /// The price of each group; 0 where one of its wagons has no order.
    pub(crate) u: Vec<u32>,
    pub(crate) v: Vec<u32>,
    /// No wagon without an order costs order `j` less than `bound[j]` kilometres.
    pub(crate) bound: Vec<u32>,
    /// A hint at the group that costs the bound of each order.
    pub(crate) nearest: Vec<usize>,
    /// The first wagon of each group that has no order, `NO_WAGON` where each has one. Those after it have none either.
    pub(crate) idle: Vec<u32>,
    pub(crate) order_of: Vec<u32>,
    pub(crate) served: Vec<u32>,
}

impl<'a> State<'a> {
    /// No wagon has an order or a price, and each order has its first price.
    pub(crate) fn new(alloc: Global, cells: &'a Cells) -> Result<State<'a>, AllocError>
        ensures state { IfOk result (λ state. IsState state) }
        ensures counted { IfOk result (λ state. AreCounted (kept state) (λ k. 0)) }
        ensures table { IfOk result (λ state. state.cells.now ≡ cells.now) }
    {
        let groups = Groups::new(alloc, cells)?;
        let Columns { costs, v, nearest } = Columns::new(alloc, cells, &groups)?;
        let mut bound = Vec::from_elem(alloc, 0, v.len())?;
        bound.copy_from_slice(&v);
        let mut idle = Vec::from_elem(alloc, NO_WAGON, groups.first.len())?;
        idle.copy_from_slice(&groups.first);
        Ok(State {
            cells,
            u: Vec::from_elem(alloc, 0, groups.first.len())?,
            groups,
            costs,
            v,
            bound,
            nearest,
            idle,
            order_of: Vec::from_elem(alloc, NO_ORDER, cells.wagons())?,
            served: Vec::from_elem(alloc, 0, cells.orders())?,
        })
    }

    /// The costs of order `j`, one of each group.
    pub(crate) fn column(&self, j: usize) -> &[u32]
        requires state { IsState self.now }
        requires order { j < order_count self.now.cells.now }
        ensures { IsColumn (group_table self.now.cells.now self.now.groups.first.items) j result.now }
    {
        let groups = self.groups.first.len();
        let start = j * groups;
        &self.costs[start..start + groups]
    }

    /// A wagon without an order that costs order `j` what its bound says, if the hint leads to one.
    fn at_bound(&self, j: usize) -> Option<usize>
        requires state { IsState self.now }
        requires order { j < order_count self.now.cells.now }
        ensures some { IfSome result (λ i. IsIdleAt (kept self.now) j (slice_index self.now.bound.items j) i) }
        ensures head { IsHead self.now result }
    {
        let group = self.nearest[j];
        if group >= self.idle.len() {
            return None;
        }
        let wagon = self.idle[group];
        if wagon == NO_WAGON || self.column(j)[group] != self.bound[j] {
            return None;
        }
        Some(wagon as usize)
    }

    /// The least cost of order `j` in a group with a wagon without an order, in kilometres; `FAR` where there is none.
    fn least_cost(&self, j: usize) -> u32
        requires state { IsState self.now }
        requires order { j < order_count self.now.cells.now }
        ensures { IsLeastCost self.now j result }
    {
        least_idle(self.column(j), &self.idle)
    }

    /// A group with a wagon without an order that costs order `j` this much, in kilometres.
    fn idle_group(&self, j: usize, cost: u32) -> Option<usize>
        requires state { IsState self.now }
        requires order { j < order_count self.now.cells.now }
        requires least { IsLeastCost self.now j cost }
        ensures some { IfSome result (IsIdleGroup self.now j cost) }
        ensures none { IfNone result (max_cost < cost) }
    {
        find_idle(self.column(j), &self.idle, cost)
    }

    /// Finds the bound of order `j` again, and a wagon without an order that costs that, if any wagon is without one.
    fn renew(&mut self, j: usize) -> Option<usize>
        requires state { IsState self.old }
        requires order { j < order_count self.old.cells.now }
        ensures state { IsState self.new }
        ensures same { self.new ≡ record self.old { bound = self.new.bound; nearest = self.new.nearest } }
        ensures some { IfSome result (λ i. IsIdleAt (kept self.old) j (slice_index self.new.bound.items j) i) }
        ensures none { IfNone result (max_cost < slice_index self.new.bound.items j) }
        ensures head { IsHead self.old result }
    {
        let least = self.least_cost(j);
        let group = self.idle_group(j, least);
        self.bound[j] = least;
        match group {
            Some(group) => {
                self.nearest[j] = group;
                Some(self.idle[group] as usize)
            }
            None => None,
        }
    }

    /// A wagon without an order that costs order `j` what its bound says. The bound is found again where no hint leads
    /// to such a wagon. `None` where no wagon is without an order.
    fn nearest_idle(&mut self, j: usize) -> Option<usize>
        requires state { IsState self.old }
        requires order { j < order_count self.old.cells.now }
        ensures state { IsState self.new }
        ensures same { self.new ≡ record self.old { bound = self.new.bound; nearest = self.new.nearest } }
        ensures some { IfSome result (λ i. IsIdleAt (kept self.old) j (slice_index self.new.bound.items j) i) }
        ensures none { IfNone result (max_cost < slice_index self.new.bound.items j) }
        ensures head { IsHead self.old result }
    {
        match self.at_bound(j) {
            Some(wagon) => Some(wagon),
            None => self.renew(j),
        }
    }

    /// A wagon without an order whose cost is the price of order `j`.
    pub(crate) fn at_hand(&mut self, j: usize) -> Option<usize>
        requires state { IsState self.old }
        requires order { j < order_count self.old.cells.now }
        ensures state { IsState self.new }
        ensures same { self.new ≡ record self.old { bound = self.new.bound; nearest = self.new.nearest } }
        ensures some { IfSome result (λ i. IsAtHand (kept self.old) j i) }
        ensures head { IsHead self.old result }
    {
        if self.bound[j] > self.v[j] {
            return None;
        }
        let wagon = self.nearest_idle(j);
        if self.bound[j] > self.v[j] {
            return None;
        }
        wagon
    }

    /// Where a path may end that has reached order `j` at this distance, as the order settled at `index`: the order gets a
    /// wagon without an order, or it refuses a unit. Where that isn't nearer than `best`, it may tell less than the true
    /// distance. Distances are in kilometres.
    pub(crate) fn end(&mut self, j: usize, distance: u32, index: usize, best: u32) -> End
        requires state { IsState self.old }
        requires order { j < order_count self.old.cells.now }
        requires limit { distance ≤ max_cost }
        ensures state { IsState self.new }
        ensures same { self.new ≡ record self.old { bound = self.new.bound; nearest = self.new.nearest } }
        ensures end { IsEndFound (kept self.old) j distance best result }
        ensures index { result.index ≡ index }
        ensures head { IsHead self.old result.wagon }
    {
        let near = self.least_end(j, distance);
        if near >= best {
            return End {
                distance: near,
                index,
                wagon: None,
            };
        }
        let wagon = self.nearest_idle(j);
        End {
            distance: self.least_end(j, distance),
            index,
            wagon: if_at_most(self.bound[j], self.cells.penalty(j) as u32, wagon),
        }
    }

    /// No path ends at order `j` nearer than this, where it has reached it at this distance; both are in kilometres.
    fn least_end(&self, j: usize, distance: u32) -> u32
        requires state { IsState self.now }
        requires order { j < order_count self.now.cells.now }
        requires limit { distance ≤ max_cost }
        ensures { result ≡ distance + (min (slice_index self.now.bound.items j) (penalty_at self.now.cells.now j) - slice_index self.now.v.items j) }
    {
        let penalty = self.cells.penalty(j) as u32;
        distance + self.bound[j].min(penalty).saturating_sub(self.v[j])
    }

    /// The wagon has an order now, so the next one of its group is the first that has none.
    pub(crate) fn take(&mut self, wagon: Option<usize>)
        requires { IfSome wagon (HasGroupOf self.old) }
        ensures same { self.new ≡ record self.old { idle = self.new.idle } }
        ensures items { self.new.idle.items ≡ idle_after self.old.groups self.old.idle.items wagon }
    {
        if let Some(wagon) = wagon {
            let group = self.groups.of[wagon];
            self.idle[group] = self.groups.next[wagon];
        }
    }
}

/// The wagon, where a cost is at most a limit; both are in kilometres.
fn if_at_most(cost: u32, limit: u32, wagon: Option<usize>) -> Option<usize>
    ensures at_most { cost ≤ limit → result ≡ wagon }
    ensures above { limit < cost → result ≡ None }
{
    if cost <= limit { wagon } else { None }
}
