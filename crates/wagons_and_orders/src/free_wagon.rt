//! Free wagons: those that may be promised.
ghost use Rattle.std.specs.Prelude.{◌≡◌, IsTrue, IfSome};
ghost use Rattle.wagons_and_orders.specs.Free.{free_of};

use crate::{Status, WagonRow};
use rail_codes::{ClassCode, Moment, Place, WagonNumber};

/// A wagon that may be promised.
#[derive(Clone, Copy, PartialEq, Eq)]
pub struct FreeWagon {
    /// Its number.
    pub number: WagonNumber,
    /// Its class.
    pub class: ClassCode,
    /// The most that it carries, in kg.
    pub load_limit: u32,
    /// Where it stands.
    pub place: Place,
    /// From when on it is ready for pull, in seconds since 1970.
    pub ready: Moment,
}

/// The row's wagon as a free one: where it is Empty, not held and not promised.
#[tactic(auto, unfolding(crate::specs::Free::free_of))]
pub fn free(row: &WagonRow) -> Option<FreeWagon>
    ensures meaning { result ≡ free_of row.now }
    ensures not_held { IsTrue row.now.held → result ≡ None }
{
    match row.status {
        Status::Empty(place, ready) if !row.held && row.promise.is_none() => Some(FreeWagon {
            number: row.number,
            class: row.class,
            load_limit: row.load_limit,
            place,
            ready,
        }),
        _ => None,
    }
}
