//! Table lines: a distribution problem, a plan and its prices, as one JSON object a line. Such a line is read, judged and
//! planned; `check_run` and `solve_run` are the runs over many of them, and `problem_line` writes that of a problem.
#![tactic(auto)]

mod cells;
mod details;
mod found_lists;
mod json_replies;
mod lacks;
mod laws;
mod line_solver;
mod problem_text;
mod solved_tokens;
mod stating;
mod table_answer;
mod table_checker;
mod table_line;
mod table_off_tokens;
mod table_part;
mod table_reading;
mod table_refusal;
mod table_solver;
mod tokens;
mod unplanned_tokens;
mod written_lists;

pub use laws::solved_lines_are_json;
pub use line_solver::solve_line;
pub use problem_text::problem_line;
pub use stating::stated_table;
pub use table_answer::table_cost;
pub use table_checker::{TableChecker, check_run};
pub use table_line::TableLine;
pub use table_part::read_table;
pub use table_reading::read_table_line;
pub use table_refusal::TableRefusal;
pub use table_solver::{TableSolver, solve_run};
