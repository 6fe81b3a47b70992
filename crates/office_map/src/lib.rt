//! The map of an office, which a dispatcher looks at: a graph in Graphviz's language DOT.
//!
//! It is made of what is handed in, and nothing is changed. `Err` only when out of memory.
#![tactic(auto)]

mod choice;
mod class_lines;
mod frame;
mod laws;
mod line_edges;
mod map;
mod named;
mod order_lines;
mod outside;
mod place_node;
mod position;
mod promise_arrows;
mod shown;
mod words;

pub use choice::Choice;
pub use laws::names_stay_in_quotes;
pub use map::map_text;
pub use shown::is_drawn;
