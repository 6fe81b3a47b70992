//! The tests, by what they try.

mod books;
mod codes;
mod commits;
mod distances;
mod examples;
mod moments;
mod networks;
mod orders;
mod problems;
mod rosters;
mod small_tables;
mod tables;
