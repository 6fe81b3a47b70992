//! How often the pairs of a commit name a wagon and an order.
ghost use Rattle.std.specs.Prelude.{◌≡◌};
ghost use Rattle.operating_db.specs.Commits.{times_of_order as times_in, times_of_wagon as times_of};

use rail_codes::{OrderId, WagonNumber};

/// In how many pairs a wagon stands. Takes no memory.
pub(crate) fn times_of_wagon(number: WagonNumber, pairs: &[(WagonNumber, OrderId)]) -> usize
    ensures { result ≡ times_of number pairs.now }
{
    pairs.iter().filter(|pair| number == pair.0).count()
}

/// In how many pairs an order stands. Takes no memory.
pub fn times_of_order(id: OrderId, pairs: &[(WagonNumber, OrderId)]) -> usize
    ensures { result ≡ times_in id pairs.now }
{
    pairs.iter().filter(|pair| id == pair.1).count()
}
