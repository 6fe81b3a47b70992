//! Books after a run of calls.

mod entries;
mod limits;
mod runs;
mod states;
mod tables;
