//! The search for the shortest path from an order.
ghost use Rattle.std.specs.Prelude.{◌≡◌, ◌<◌, ◌≤◌, ◌+◌, ◌-◌, ℕ, None, nat_lt, if◌then◌else◌, length, slice_index, IfOk, IfSome, IfNone, slice_set};
ghost use Rattle.cost_table.specs.Table.{Table, wagon_count, order_count};
ghost use Rattle.assignment.specs.inner.State.{IsState, IsEndFound, IsHead, Kept, kept};
ghost use Rattle.assignment.specs.inner.Search.{HasRoom, IsSearch, IsShortestPath, IsNext, IsNearer, IsClosable, IsWalking, IsWagonReached, IsReachedFrom, IsSearchOf, IsLedFrom, distance_at, settled_at};
ghost use Rattle.assignment.specs.inner.Passes.{IsNearest};

use crate::groups::NO_WAGON;
use crate::passes::{FAR, Span, find, narrowed, nearest, open, relax};
use crate::state::State;
use crate::units::Units;
use std::alloc::{AllocError, Global};

/// Where a path may end: its length in kilometres, the index of the settled order at its end, and the wagon without an
/// order that this order gets. Where there is no wagon, the order refuses a unit.
#[derive(Clone, Copy)]
pub(crate) struct End {
    pub(crate) distance: u32,
    pub(crate) index: usize,
    pub(crate) wagon: Option<usize>,
}

/// What is settled next: an order, its distance in kilometres, and the wagon that leads to it.
#[derive(Clone, Copy)]
pub(crate) struct Next {
    pub(crate) order: u32,
    pub(crate) distance: u32,
    pub(crate) wagon: usize,
}

/// What a search has reached; distances are in kilometres.
#[derive(Drop)]
pub(crate) struct Search {
    /// One more than the distance of each group that leads on, 0 for each other group. A group leads on while no wagon of
    /// it is without an order, and it isn't closed.
    pub(crate) ahead: Vec<u32>,
    /// All groups that lead on are in it.
    pub(crate) span: Span,
    /// The distance of each group that is closed, since all its wagons' orders are settled; `FAR` for each other group.
    pub(crate) closed_at: Vec<u32>,
    /// Of each group that leads on a wagon before which all wagons' orders are settled.
    pub(crate) cursor: Vec<u32>,
    /// The distance of each order that is settled, `FAR` for each other order.
    pub(crate) order_distance: Vec<u32>,
    /// The orders settled, by index.
    pub(crate) orders: Vec<u32>,
    /// The wagon that led to the order at an index; at index 0 it means nothing.
    pub(crate) via: Vec<usize>,
    /// The distance of the order settled last.
    pub(crate) front: u32,
    /// The nearest end.
    pub(crate) end: End,
}

impl Search {
    /// Memory for the searches of a table of so many groups and orders.
    pub(crate) fn new(alloc: Global, groups: usize, orders: usize) -> Result<Search, AllocError>
        ensures { IfOk result (λ f. (s : Kept) → s.group_count ≡ groups → order_count s.table ≡ orders → HasRoom s f) }
    {
        Ok(Search {
            ahead: Vec::from_elem(alloc, 0, groups)?,
            span: Span { start: 0, end: 0 },
            closed_at: Vec::from_elem(alloc, FAR, groups)?,
            cursor: Vec::from_elem(alloc, 0, groups)?,
            order_distance: Vec::from_elem(alloc, FAR, orders)?,
            orders: Vec::with_capacity(alloc, orders)?,
            via: Vec::with_capacity(alloc, orders)?,
            front: 0,
            end: End {
                distance: FAR,
                index: 0,
                wagon: None,
            },
        })
    }

    /// Forgets what was reached.
    fn clear(&mut self, state: &State)
        requires state { IsState state.now }
        requires room { HasRoom (kept state.now) self.old }
        ensures search { IsSearch (kept state.now) self.new 0 }
        ensures none { length self.new.orders.items ≡ 0 }
        ensures front { self.new.front ≡ 0 }
        ensures end { self.new.end.wagon ≡ None }
    {
        open(&mut self.ahead, &state.idle);
        self.span = Span {
            start: 0,
            end: self.ahead.len(),
        };
        self.closed_at.fill(FAR);
        self.cursor.copy_from_slice(&state.groups.first);
        self.order_distance.fill(FAR);
        self.orders.clear();
        self.via.clear();
        self.front = 0;
        self.end = End {
            distance: FAR,
            index: 0,
            wagon: None,
        };
    }

    /// Settles an order, at which a path may end.
    fn settle(&mut self, state: &State, next: Next, end: End)
        requires state { IsState state.now }
        requires search { IsSearch (kept state.now) self.old (length self.old.orders.items) }
        requires next { IsNext (kept state.now) self.old next }
        requires end { IsEndFound (kept state.now) next.order next.distance self.old.end.distance end }
        requires index { end.index ≡ length self.old.orders.items }
        ensures search { IsSearch (kept state.now) self.new (length self.old.orders.items) }
        ensures count { length self.new.orders.items ≡ length self.old.orders.items + 1 }
        ensures first { length self.old.orders.items ≡ 0 → slice_index self.new.orders.items 0 ≡ next.order }
        ensures others { 0 < length self.old.orders.items → slice_index self.new.orders.items 0 ≡ slice_index self.old.orders.items 0 }
        ensures ahead { self.new.ahead ≡ self.old.ahead }
        ensures front { self.new.front ≡ next.distance }
        ensures end { self.new.end ≡ (if nat_lt end.distance self.old.end.distance then end else self.old.end) }
    {
        self.end = nearer(self.end, end);
        self.order_distance[next.order as usize] = next.distance;
        self.orders.push_reserved(next.order);
        self.via.push_reserved(next.wagon);
        self.front = next.distance;
    }

    /// Relaxes the cells of the order settled last, and answers the least distance of a group that leads on.
    fn relax_last(&mut self, state: &State) -> u32
        requires state { IsState state.now }
        requires some { 0 < length self.old.orders.items }
        requires search { IsSearch (kept state.now) self.old (length self.old.orders.items - 1) }
        ensures search { IsSearch (kept state.now) self.new (length self.new.orders.items) }
        ensures orders { self.new.orders.items ≡ self.old.orders.items }
        ensures end { self.new.end ≡ self.old.end }
        ensures front { self.new.front ≡ self.old.front }
        ensures nearest { IsNearest (slice_index self.new.ahead.items) result (length self.new.ahead.items) }
    {
        let order = self.orders[self.orders.len() - 1] as usize;
        relax(
            &mut self.ahead,
            self.span,
            state.column(order),
            &state.u,
            self.front,
            state.v[order],
        )
    }

    /// The nearest order that isn't settled, if it is nearer than the nearest end. `onward` is the least distance of a group
    /// that leads on. A group whose orders are all settled is closed.
    fn next(&mut self, state: &State, onward: u32) -> Option<Next>
        requires state { IsState state.now }
        requires search { IsSearch (kept state.now) self.old (length self.old.orders.items) }
        requires some { 0 < length self.old.orders.items }
        requires before { self.old.front < self.old.end.distance }
        requires nearest { IsNearest (slice_index self.old.ahead.items) onward (length self.old.ahead.items) }
        ensures search { IsSearch (kept state.now) self.new (length self.new.orders.items) }
        ensures orders { self.new.orders.items ≡ self.old.orders.items }
        ensures end { self.new.end ≡ self.old.end }
        ensures next { IfSome result (λ next. IsNext (kept state.now) self.new next) }
        ensures none { IfNone result (IsShortestPath (kept state.now) self.new) }
    {
        let mut onward = onward;
        // No group outside of these is at this distance.
        let mut span = self.span;
        'groups: while onward < self.end.distance {
            match find(&self.ahead, onward + 1, span) {
                Some(group) => {
                    if let Some(wagon) = self.lead_on(state, group) {
                        return Some(Next {
                            order: state.order_of[wagon],
                            distance: onward,
                            wagon,
                        });
                    }
                    span.start = group + 1;
                }
                None => {
                    onward = nearest(&self.ahead, self.span);
                    span = self.span;
                }
            }
        }
        None
    }

    /// A wagon of a group that leads on, whose order isn't settled. Where there is none, the group is closed at the front.
    fn lead_on(&mut self, state: &State, group: usize) -> Option<usize>
        requires state { IsState state.now }
        requires some { 0 < length self.old.orders.items }
        requires search { IsSearch (kept state.now) self.old (length self.old.orders.items - 1) }
        requires group { IsLedFrom (kept state.now) self.old group }
        ensures same { self.new ≡ record self.old { ahead = self.new.ahead; closed_at = self.new.closed_at; cursor = self.new.cursor } }
        ensures search { (n : ℕ) → length self.old.orders.items ≤ n + 1 → IsSearch (kept state.now) self.old n → IsSearch (kept state.now) self.new n }
        ensures some { IfSome result (λ i. IsNearer (kept state.now) self.new group i) }
        ensures ahead { IfSome result (λ i. self.new.ahead ≡ self.old.ahead) }
        ensures none { IfNone result (self.new.ahead.items ≡ slice_set self.old.ahead.items group 0) }
    {
        match self.open_wagon(state, group) {
            Some(wagon) => {
                self.cursor[group] = wagon as u32;
                Some(wagon)
            }
            None => {
                self.closed_at[group] = self.front;
                self.ahead[group] = 0;
                None
            }
        }
    }

    /// The first wagon of a group that leads on, whose order isn't settled. The walk goes on where it stood.
    fn open_wagon(&self, state: &State, group: usize) -> Option<usize>
        requires state { IsState state.now }
        requires search { IsSearch (kept state.now) self.now (length self.now.orders.items - 1) }
        requires group { IsLedFrom (kept state.now) self.now group }
        ensures some { IfSome result (λ i. IsNearer (kept state.now) self.now group i) }
        ensures walked { IfSome result (λ i. IsWalking (kept state.now) self.now group i) }
        ensures none { IfNone result (IsClosable (kept state.now) self.now group) }
    {
        let mut wagon = self.cursor[group];
        'wagons: while wagon != NO_WAGON {
            let i = wagon as usize;
            if self.order_distance[state.order_of[i] as usize] >= FAR {
                return Some(i);
            }
            wagon = state.groups.next[i];
        }
        None
    }

    /// Closes the groups of the wagons of the order settled last, where the orders of all their wagons are settled. The
    /// span of the groups that lead on gets narrower by those at its ends.
    fn close_last(&mut self, state: &State, units: &Units)
        requires state { IsState state.now }
        requires some { 0 < length self.old.orders.items }
        requires search { IsSearch (kept state.now) self.old (length self.old.orders.items - 1) }
        requires before { self.old.front < self.old.end.distance }
        ensures search { IsSearch (kept state.now) self.new (length self.new.orders.items - 1) }
        ensures orders { self.new.orders.items ≡ self.old.orders.items }
        ensures end { self.new.end ≡ self.old.end }
        ensures front { self.new.front ≡ self.old.front }
    {
        let order = self.orders[self.orders.len() - 1] as usize;
        let served = state.served[order] as usize;
        'units: for unit in 0..served {
            self.close_of(state, units.wagon(order, unit));
        }
        self.span = narrowed(&self.ahead, self.span);
    }

    /// Closes the group of a wagon, if there is such a wagon and the orders of all wagons of its group are settled.
    fn close_of(&mut self, state: &State, wagon: Option<usize>)
        requires state { IsState state.now }
        requires some { 0 < length self.old.orders.items }
        requires search { IsSearch (kept state.now) self.old (length self.old.orders.items - 1) }
        requires before { self.old.front < self.old.end.distance }
        ensures search { IsSearch (kept state.now) self.new (length self.new.orders.items - 1) }
        ensures orders { self.new.orders.items ≡ self.old.orders.items }
        ensures end { self.new.end ≡ self.old.end }
        ensures front { self.new.front ≡ self.old.front }
    {
        if let Some(wagon) = wagon {
            if wagon < state.groups.of.len() {
                let group = state.groups.of[wagon];
                if self.ahead[group] > 0 {
                    self.lead_on(state, group);
                }
            }
        }
    }

    /// The index of the first order over whose cell the wagon that led to the order at index `end` is as far as that order.
    pub(crate) fn index_of(&self, state: &State, end: usize) -> usize
        requires search { IsSearchOf state.now self.now }
        requires end { end < length self.now.orders.items }
        requires wagon { slice_index self.now.via.items end < wagon_count state.now.cells.now }
        requires reached { IsWagonReached (kept state.now) self.now (distance_at self.now (settled_at self.now end)) end (slice_index self.now.via.items end) }
        ensures before { result < end }
        ensures from { IsReachedFrom (kept state.now) self.now (distance_at self.now (settled_at self.now end)) (slice_index self.now.via.items end) result }
    {
        let wagon = self.via[end];
        let group = state.groups.of[wagon];
        let groups = state.groups.first.len();
        let far = u64::from(self.order_distance[self.orders[end] as usize]);
        let price = u64::from(state.u[group]);
        'indexes: for index in 0..end {
            let order = self.orders[index] as usize;
            let cost = u64::from(state.costs[order * groups + group]);
            let distance = u64::from(self.order_distance[order]) + cost + price;
            if far + u64::from(state.v[order]) == distance {
                return index;
            }
        }
        unreachable!()
    }

    /// Searches for the shortest path from order `j` to a wagon without an order or to a refusal: the nearest end.
    pub(crate) fn run(&mut self, state: &mut State, units: &Units, j: usize)
        requires state { IsState state.old }
        requires room { HasRoom (kept state.old) self.old }
        requires order { j < order_count state.old.cells.now }
        ensures state { IsState state.new }
        ensures same { state.new ≡ record state.old { bound = state.new.bound; nearest = state.new.nearest } }
        ensures path { IsShortestPath (kept state.old) self.new }
        ensures first { slice_index self.new.orders.items 0 ≡ j }
        ensures head { IsHead state.old self.new.end.wagon }
    {
        self.clear(state);
        let mut next = Next {
            order: j as u32,
            distance: 0,
            wagon: 0,
        };
        'settling: loop {
            let end = state.end(
                next.order as usize,
                next.distance,
                self.orders.len(),
                self.end.distance,
            );
            self.settle(state, next, end);
            // An end as near as the order itself needs no pass.
            if self.end.distance <= self.front {
                return;
            }
            self.close_last(state, units);
            let onward = self.relax_last(state);
            let Some(following) = self.next(state, onward) else {
                return;
            };
            next = following;
        }
    }
}

/// The nearer of two ends, the first where they are as far.
fn nearer(end: End, other: End) -> End
    ensures { result ≡ (if nat_lt other.distance end.distance then other else end) }
{
    if other.distance < end.distance {
        other
    } else {
        end
    }
}
