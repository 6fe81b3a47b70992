//! Wagons with the same row.
ghost use Rattle.std.specs.Prelude.{◌≡◌, ◌<◌, ◌↔◌, IsTrue, Some, max, slice_get};
ghost use Rattle.wagons_and_orders.specs.declared.free_wagon.FreeWagon.{FreeWagon};
ghost use Rattle.problem_table.specs.inner.Alike.{AreAlike};

use rail_codes::Moment;
use wagons_and_orders::FreeWagon;

/// Slots for hints at a table's at most 1,000 wagons.
pub(crate) const HINT_SLOTS: usize = 2_048;

/// Whether wagon `i` is one of the first `count`, and alike to this one from a moment on.
pub(crate) fn is_alike_before(
    wagons: &[FreeWagon],
    i: usize,
    count: usize,
    wagon: &FreeWagon,
    at: Moment,
) -> bool
    ensures before { IsTrue result → i < count }
    ensures alike { IsTrue result → (one : FreeWagon) → slice_get wagons.now i ≡ Some one → AreAlike at one wagon.now }
{
    match wagons.get(i) {
        Some(one) => i < count && are_alike(one, wagon, at),
        None => false,
    }
}

/// Whether two wagons have the same way to each order from a moment on: they have one class, one load limit and one place,
/// and are ready at one moment, or by then.
pub(crate) fn are_alike(one: &FreeWagon, other: &FreeWagon, at: Moment) -> bool
    ensures { IsTrue result ↔ AreAlike at one.now other.now }
{
    one.place == other.place
        && one.class == other.class
        && one.load_limit == other.load_limit
        && start_of(one, at) == start_of(other, at)
}

/// When a wagon may start at the earliest, in seconds since 1970.
fn start_of(wagon: &FreeWagon, at: Moment) -> u64
    ensures { result ≡ max wagon.now.ready at }
{
    wagon.ready.seconds().max(at.seconds())
}
