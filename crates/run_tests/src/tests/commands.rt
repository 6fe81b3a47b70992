//! Runs over scripts, over devices that fail, and over a million lines.

mod failures;
mod limits;
mod runs;
mod scripts;
