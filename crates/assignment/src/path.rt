//! The way back along a path.
ghost use Rattle.std.specs.Prelude.{◌≡◌, ◌≢◌, ◌<◌, ◌≤◌, ◌+◌, ◌^◌, ℕ, Some, IfSome, length, slice_index, min};
ghost use Rattle.assignment.specs.inner.State.{IsState, kept, order_at};
ghost use Rattle.assignment.specs.inner.Search.{IsSearch, IsShortestPath, IsReachedFrom, label_at};
ghost use Rattle.assignment.specs.inner.Path.{AreHandedOn, HasOneToGive, IsGiven, IsHandedOn, IsOnPath, IsOnWay, given_up, wagons_of};

use crate::search::Search;
use crate::state::State;
use crate::units::Units;

/// Hands the orders on along the path to its end: the first order gets a wagon more, or an order of the path gives
/// one up. Every other order has as many as it had.
pub(crate) fn walk_back(state: &mut State, units: &mut Units, search: &Search)
    requires state { IsState state.old }
    requires path { IsShortestPath (kept state.old) search.now }
    ensures handed_on { AreHandedOn (kept state.old) search.now (IsOnPath search.now) (kept state.new).order_of }
    ensures given { IfSome search.now.end.wagon (IsGiven (kept state.old) search.now (kept state.new).order_of) }
    ensures count { (k : ℕ) → IsHandedOn (wagons_of (kept state.old)) (wagons_of (kept state.new)) search.now (given_up search.now) k }
    ensures wagons { length (kept state.new).order_of ≡ length (kept state.old).order_of }
    ensures same { state.new ≡ record state.old { order_of = state.new.order_of } }
{
    match search.end.wagon {
        Some(wagon) => hand_on(state, units, search, wagon, search.end.index),
        None => {
            let index = search.end.index;
            if index > 0 {
                hand_on(
                    state,
                    units,
                    search,
                    search.via[index],
                    search.index_of(state, index),
                );
            }
        }
    }
}

/// Gives the wagon to the order at an index from which it was reached, that order's wagon to the one before, and so on to
/// the first order.
fn hand_on(state: &mut State, units: &mut Units, search: &Search, wagon: usize, index: usize)
    requires state { IsState state.old }
    requires path { IsShortestPath (kept state.old) search.now }
    requires wagon { wagon < length state.old.order_of.items }
    requires reached { IsReachedFrom (kept state.old) search.now (min (label_at (kept state.old) search.now wagon) search.now.end.distance) wagon index }
    requires apart { (x : ℕ) → 0 < x → x ≤ index → slice_index search.now.via.items x ≢ wagon }
    ensures handed_on { AreHandedOn (kept state.old) search.now (IsOnWay search.now wagon) (kept state.new).order_of }
    ensures given { IsGiven (kept state.old) search.now (kept state.new).order_of wagon }
    ensures count { (k : ℕ) → IsHandedOn (wagons_of (kept state.old)) (wagons_of (kept state.new)) search.now (order_at (kept state.old).order_of wagon) k }
    ensures wagons { length (kept state.new).order_of ≡ length (kept state.old).order_of }
    ensures same { state.new ≡ record state.old { order_of = state.new.order_of } }
{
    let mut wagon = wagon;
    let mut index = index;
    while index > 0 {
        let given = wagon;
        state.order_of[wagon] = search.orders[index];
        wagon = search.via[index];
        units.replace(wagon, given);
        index = search.index_of(state, index);
    }
    state.order_of[wagon] = search.orders[0];
    note_unit(units, state, search.orders[0], wagon);
}

/// Notes that one more unit of an order has this wagon.
fn note_unit(units: &mut Units, state: &State, order: u32, wagon: usize) {
    let j = order as usize;
    if j < state.served.len() {
        units.give(j, state.served[j] as usize, wagon);
    }
}

/// Counts the unit that a path hands on: its first order has a wagon more, and one that gives a unit up has one fewer.
pub(crate) fn count_unit(served: &mut [u32], search: &Search)
    requires some { 0 < length search.now.orders.items }
    requires end { search.now.end.index < length search.now.orders.items }
    requires orders { (x : ℕ) → x < length search.now.orders.items → slice_index search.now.orders.items x < length served.old }
    requires limit { (k : ℕ) → k < length served.old → slice_index served.old k + 1 < 2 ^ 32 }
    requires held { (k : ℕ) → k < length served.old → HasOneToGive (slice_index served.old) search.now (given_up search.now) k }
    ensures { (k : ℕ) → k < length served.old → IsHandedOn (slice_index served.old) (slice_index served.new) search.now (given_up search.now) k }
{
    served[search.orders[0] as usize] += 1;
    if search.end.wagon.is_none() {
        served[search.orders[search.end.index] as usize] -= 1;
    }
}
