//! The movement of a wagon to the order that it is promised to.
ghost use Rattle.std.specs.Prelude.{◌≡◌};
ghost use Rattle.movements.specs.Lateness.{is_late};

use rail_codes::{ClassCode, Moment, OrderId, Place, WagonNumber};
use wagons_and_orders::Status;

/// The way from where a wagon is to where its order wants it: the walk of fewest kilometres, as plans use it. A longer way may
/// be quicker.
#[derive(Clone, Copy)]
pub struct Way {
    /// The kilometres between the two.
    pub km: u32,
    /// The minutes between the two.
    pub minutes: u32,
    /// The earliest moment at which the wagon can be there, in seconds since 1970; it may lie after 2099.
    pub arrival: u64,
}

/// A wagon that is promised to an order.
#[derive(Clone, Copy)]
pub struct Movement {
    /// The wagon.
    pub wagon: WagonNumber,
    /// Its class.
    pub class: ClassCode,
    /// What it is doing, and where.
    pub status: Status,
    /// The moment of its last message.
    pub since: Moment,
    /// The order that it is promised to.
    pub order: OrderId,
    /// Where the order wants it.
    pub to: Place,
    /// The last moment at which it may be there.
    pub latest: Moment,
    /// The way there; none where no walk leads there, unless the wagon has arrived.
    pub way: Option<Way>,
}

impl Movement {
    /// Whether the wagon will be late, by what is known of it: no way leads to the order's place, or it is there after the
    /// latest moment.
    pub fn is_late(&self) -> bool
        ensures { result ≡ is_late self.now }
    {
        match self.way {
            None => true,
            Some(way) => self.latest.seconds() < way.arrival,
        }
    }
}
