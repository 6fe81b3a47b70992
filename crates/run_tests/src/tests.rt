//! The tests, by what they try.

mod checks;
mod commands;
mod feeding;
mod manual;
mod names;
mod stops;
mod words;

/// How a run ends: the lines and the refusals, or the stop's number and line.
type End = Result<(u64, u64), (u32, Option<u64>)>;
