//! Tests of runs, feeds and the program which no script of `wagons_scripts` can make: devices that fail, pieces of any size, a
//! million lines, plans that may be others, threads that meet; arguments that are no text, and each fault's message, which is
//! its name, or that of the fault inside it.
#![tactic(auto)]

#[cfg(test)]
mod tests;
