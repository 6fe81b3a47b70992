//! What people are told of a fault that stops the program: the file as it was named, the record or line, the field with its
//! text, and what was expected. Each text is one line, without a line feed.
#![tactic(auto)]

mod bad_record;
mod checkpoint_faults;
mod headers;
mod line_faults;
mod network_faults;
mod roster_faults;
mod shown;
mod unread_lines;
mod words;

pub use checkpoint_faults::checkpoint_text;
pub use line_faults::line_text;
pub use network_faults::network_text;
pub use roster_faults::roster_text;
pub use unread_lines::unread_text;
pub use words::file_text;
