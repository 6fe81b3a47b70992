//! Lines in and replies out: the one loop that each run of the office goes through.
#![tactic(auto)]

mod device;
mod handler;
mod line_buffer;
mod line_limit;
mod no_replies;
mod reply_text;
mod run;
mod std_device;
mod window;

pub use device::{DeviceFailed, Sink, Source};
pub use handler::{Handler, Outcome, Responder};
pub use line_limit::{LARGEST_LINE_LIMIT, LineLimit, MAX_LINE_BYTES};
pub use no_replies::NoReplies;
pub use reply_text::ReplyText;
pub use run::{MAX_FILES, MAX_INPUT_LINES, RunCount, RunFault, run_lines, run_replies};
pub use std_device::StdDevice;
