//! The names of messages.

use crate::Company;

/// The name that a company gives a message of its own.
#[derive(Clone, Copy, PartialEq, Eq, PartialOrd, Ord)]
pub struct MessageId {
    /// The company that sent the message.
    pub company: Company,
    /// The company's number for the message; any number of 32 bits.
    pub number: u32,
}
