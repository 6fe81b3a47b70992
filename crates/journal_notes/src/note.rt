//! What a journal's lines do that a person should hear of.

use crate::status_name::StatusName;
use rail_codes::{Moment, OrderId, Place, WagonNumber};

/// Something that a line of a journal did, or was refused, and that a person should hear of.
#[derive(Clone, Copy)]
pub enum Note {
    /// A wagon is promised to an order.
    Promised(WagonForOrder),
    /// An order that lacked a wagon lacks none from now on.
    Complete(NamedOrder),
    /// A wagon was delivered to the order that it was promised to.
    Delivered(WagonForOrder),
    /// An order has all the wagons that it wants.
    Filled(FilledOrder),
    /// The promise of a wagon ended, and the wagon wasn't delivered to the order.
    Ended(EndedPromise),
    /// An order lacks wagons, since a promise to it ended.
    Short(MissingWagons),
    /// A message doesn't fit the row of its wagon.
    Refused(RefusedMessage),
    /// No network has the place of an order.
    UnknownPlace(PlaceOfOrder),
    /// The office has no wagon of the classes of an order.
    NoClass(NamedOrder),
    /// No wagon of its classes carries the load of an order.
    NoCarrier(LoadOfOrder),
    /// The latest moment of an order was past when it was placed.
    Past(LatestOfOrder),
    /// An open order became overdue: its latest moment lies before that of some wagon's last message.
    Overdue(OverdueOrder),
    /// A message is a day or more ahead of those around it.
    Ahead(HeardMessage),
}

/// A wagon and the order that it is for.
#[derive(Clone, Copy)]
pub struct WagonForOrder {
    pub wagon: WagonNumber,
    pub order: OrderId,
}

/// An order by its name.
#[derive(Clone, Copy)]
pub struct NamedOrder {
    pub order: OrderId,
}

/// An order that is filled, and by how many minutes it was late, rounded up.
#[derive(Clone, Copy)]
pub struct FilledOrder {
    pub order: OrderId,
    pub late: u64,
}

/// Why a promise ended.
#[derive(Clone, Copy)]
pub enum EndCause {
    /// The wagon is held.
    Held,
    /// The wagon was delivered at another place.
    Elsewhere,
    /// The order was withdrawn.
    Withdrawn,
}

/// A promise that ended, and why.
#[derive(Clone, Copy)]
pub struct EndedPromise {
    pub wagon: WagonNumber,
    pub order: OrderId,
    pub cause: EndCause,
}

/// How many wagons an order is missing.
#[derive(Clone, Copy)]
pub struct MissingWagons {
    pub order: OrderId,
    pub missing: u32,
}

/// A message that was refused by the status table: the number of the refusal, what its wagon is doing and where, and the
/// moment of the wagon's last accepted message. So many messages of the wagon were refused in a row with this one, since
/// that moment.
#[derive(Clone, Copy)]
pub struct RefusedMessage {
    pub number: u32,
    pub wagon: WagonNumber,
    pub status: StatusName,
    pub place: Place,
    pub last: Moment,
    pub times: u64,
    pub since: Moment,
}

/// An order and its place.
#[derive(Clone, Copy)]
pub struct PlaceOfOrder {
    pub order: OrderId,
    pub place: Place,
}

/// An order and its load in kg.
#[derive(Clone, Copy)]
pub struct LoadOfOrder {
    pub order: OrderId,
    pub load: u32,
}

/// An order and its latest moment.
#[derive(Clone, Copy)]
pub struct LatestOfOrder {
    pub order: OrderId,
    pub latest: Moment,
}

/// An order that is overdue: its latest moment, how many wagons it is missing, and how many are promised to it.
#[derive(Clone, Copy)]
pub struct OverdueOrder {
    pub order: OrderId,
    pub latest: Moment,
    pub missing: u32,
    pub promised: usize,
}

/// A message by its line, with its wagon and its moment.
#[derive(Clone, Copy)]
pub struct HeardMessage {
    pub line: u64,
    pub wagon: WagonNumber,
    pub moment: Moment,
}
