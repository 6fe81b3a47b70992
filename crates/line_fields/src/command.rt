//! What a line asks for.

use move_messages::Event;
use rail_codes::Moment;

/// What a command line asks for.
#[derive(Drop)]
pub enum Command {
    /// An event is to be entered.
    Event(Event),
    /// The problem of the present version at a moment is to be kept.
    Begin(Moment),
    /// The same, and it is to be planned.
    Plan(Moment),
    /// The state is to be printed.
    Sheet,
}
