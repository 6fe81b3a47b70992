//! Whether two problems are one.
ghost use Rattle.std.specs.Prelude.{◌≡◌, ◌↔◌, IsTrue};

use cost_table::Problem;
use move_messages::is_same_order;
use wagons_and_orders::{FreeWagon, Wanted};

/// Whether two problems are of one moment, and have the same wagons and the same orders, which lack as many wagons.
pub(crate) fn is_same_problem(one: &Problem, other: &Problem) -> bool
    ensures { IsTrue result → one.now ≡ other.now }
{
    one.at() == other.at()
        && are_same_wagons(one.wagons(), other.wagons())
        && are_same_orders(one.orders(), other.orders())
}

/// Whether two lists have the same wagons.
fn are_same_wagons(one: &[FreeWagon], other: &[FreeWagon]) -> bool
    ensures { IsTrue result → one.now ≡ other.now }
{
    *one == *other
}

/// Whether two lists have the same orders, which lack as many wagons.
fn are_same_orders(one: &[Wanted], other: &[Wanted]) -> bool
    ensures { IsTrue result → one.now ≡ other.now }
{
    if one.len() != other.len() {
        return false;
    }
    for (k, wanted) in one.iter().enumerate() {
        if !is_same_wanted(wanted, &other[k]) {
            return false;
        }
    }
    true
}

/// Whether two orders are one, and lack as many wagons.
fn is_same_wanted(one: &Wanted, other: &Wanted) -> bool
    ensures { IsTrue result ↔ (one.now ≡ other.now) }
{
    one.lack() == other.lack() && is_same_order(one.order(), other.order())
}
