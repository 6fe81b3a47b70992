//! Calls of a book.

use move_messages::Event;
use rail_codes::Moment;

/// A call of a book, as a value.
#[derive(Drop)]
pub enum Call {
    /// An event is submitted.
    Event(Event),
    /// The problem of the present version at a moment is kept.
    Begin(Moment),
}
