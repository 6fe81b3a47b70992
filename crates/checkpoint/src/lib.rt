//! A checkpoint: an office at one moment as lines of JSON, from which another run goes on. It is written whole and read again;
//! what was written reads back as the same office without its closed orders.
//!
//! It has a line for its head, for each wagon, for each open order, and a last one. Each is read and written here, and reads
//! back as what it was made of.
#![tactic(auto)]

mod laws;
mod limits;
mod line;
mod line_reading;
mod lines;
mod order_tokens;
mod parts;
mod read_fault;
mod reading;
mod taking;
mod tokens;
mod wagon_tokens;
mod writing;

pub use faults::CheckpointFault;
pub use laws::checkpoints_are_read;
pub use limits::MAX_LINES;
pub use line::{CheckpointLine, OrderLine};
pub use line_reading::read_line;
pub use lines::{end_line, head_line, order_line, wagon_line};
pub use read_fault::ReadFault;
pub use reading::read_checkpoint;
pub use writing::checkpoint_text;
