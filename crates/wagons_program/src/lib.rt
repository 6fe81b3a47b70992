//! The program `wagons` as a library: what its words do, and how it ends.
#![tactic(auto)]

mod bringing;
mod check;
mod crossing;
mod early;
mod explain;
mod feed;
mod first_lines;
mod laws;
mod map;
mod moves;
mod noting;
mod opening;
mod plan;
mod printing;
mod program;
mod review;
mod run;
mod save;
mod shown;
mod solve;
mod state;
mod status;
mod table;
mod terminal;
mod trace;
mod why;

pub use laws::{
    a_run_ends_so, each_fault_is_listed, each_number_is_a_faults, the_first_lines_are_taken,
};
pub use program::{run_program, run_words};
pub use terminal::Terminal;
