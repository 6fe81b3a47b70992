//! Movement messages: what a railway says of a wagon.
ghost use Rattle.std.specs.Prelude.{◌≡◌, ◌↔◌, IsTrue};

use rail_codes::{MessageId, Moment, Place, WagonNumber};

/// What has happened to the wagon.
#[derive(Clone, Copy, PartialEq, Eq)]
pub enum MessageKind {
    /// It is ready for pull.
    Release,
    /// It has been pulled from the place.
    Departure,
    /// It has arrived at a yard.
    YardArrival,
    /// It has left a yard.
    YardDeparture,
    /// Something unexpected has happened to it: true holds it, false lets it go.
    Exception(bool),
    /// It has arrived at the yard of the last railway.
    Arrival,
    /// It has been placed at the consignee's siding.
    Delivery,
}

/// A movement message.
#[derive(Clone, Copy)]
pub struct Message {
    /// The name that its sender gave it.
    pub id: MessageId,
    /// What has happened.
    pub kind: MessageKind,
    /// To which wagon.
    pub wagon: WagonNumber,
    /// Where.
    pub place: Place,
    /// When, in seconds since 1970.
    pub moment: Moment,
}

/// Whether two messages are one, field by field.
pub fn is_same_message(one: &Message, other: &Message) -> bool
    ensures { IsTrue result ↔ (one.now ≡ other.now) }
{
    is_same_id(one.id, other.id)
        && is_same_kind(one.kind, other.kind)
        && one.wagon == other.wagon
        && one.place == other.place
        && one.moment == other.moment
}

fn is_same_id(one: MessageId, other: MessageId) -> bool
    ensures { IsTrue result ↔ (one ≡ other) }
{
    one == other
}

fn is_same_kind(one: MessageKind, other: MessageKind) -> bool
    ensures { IsTrue result ↔ (one ≡ other) }
{
    one == other
}
