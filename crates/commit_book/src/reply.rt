//! Replies to events.

/// What an event is answered that isn't refused.
#[derive(Clone, Copy, PartialEq, Eq)]
pub enum Reply {
    /// It is the entry of this number, counted from 1.
    Accepted(u64),
    /// The same message is the entry of this number.
    Repeated(u64),
}
