//! Whole runs over table lines and how they fail, solved tables, and tables by the calls themselves.

mod failures;
mod runs;
mod solved_lines;
mod tables;
