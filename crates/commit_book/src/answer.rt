//! Answers to calls.

use crate::{Refusal, Reply};

/// What a call is answered.
#[derive(Clone, Copy, PartialEq, Eq)]
pub enum Answer {
    /// An event is entered, or was before.
    Done(Reply),
    /// The problem of this version is kept.
    Begun(u64),
    /// The call is refused, and nothing has changed.
    Refused(Refusal),
}
