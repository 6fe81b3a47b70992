//! What a dispatcher reads: the lines of a plan, the line of its certificate, and the sheet of an office.
//!
//! Each text is made of what is handed in, and nothing is changed. `Err` only when out of memory.
#![tactic(auto)]

mod certificate;
mod commit_tokens;
mod order_line;
mod plan_lines;
mod row_lines;
mod sheet;
mod wagon_line;
mod wagon_list;

pub use certificate::certificate_line;
pub use order_line::state_word;
pub use plan_lines::{certified_plan_text, plan_text};
pub use sheet::sheet_text;
