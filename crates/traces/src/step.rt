//! The steps of a trace.

use crate::asked_row::AskedRow;
use crate::event_brief::EventBrief;

/// How the event of a step was answered.
#[derive(Clone, Copy)]
pub enum StepAnswer {
    /// It is the entry of this number, counted from 1.
    Accepted(u64),
    /// It was refused, for the reason of this number.
    Refused(u32),
}

/// What a line of a journal did to a wagon or an order, or was to do.
#[derive(Drop)]
pub struct Step {
    /// The number of the line, counted from 1.
    pub line: u64,
    /// What the line's event says.
    pub event: EventBrief,
    /// How it was answered.
    pub answer: StepAnswer,
    /// What the office knew before the line.
    pub before: AskedRow,
    /// What it knew after the line; where the event was refused, the same.
    pub after: AskedRow,
}
