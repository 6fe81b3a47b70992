//! The tests, by what they try.

mod calls;
mod closing;
mod crowds;
mod desks;
mod fault_names;
mod keeping;
mod opening;
mod planning;
mod races;
mod scenes;
mod turns;
