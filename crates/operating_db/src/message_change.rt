//! What a message changes, before it happens.

use rail_codes::OrderId;
use wagons_and_orders::Change;

/// What a message changes in an office. It is made once, and then let happen (`OfficeState::accept_change`).
#[derive(Clone, Copy)]
pub struct MessageChange {
    /// Where the row of the message's wagon stands.
    pub(crate) index: usize,
    /// That row after the message.
    pub(crate) change: Change,
    /// The order that the wagon is promised to.
    pub(crate) promise: Option<OrderId>,
}
