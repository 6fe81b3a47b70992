//! The codes by which a rail office names wagons, places, classes, companies, orders and moments.
//!
//! Each code is a `Copy` value that exists only where the code's rule holds, so no caller tests it
//! again. A contract sees a code as the bytes of its text.
#![tactic(auto)]

mod ascii_order;
mod ascii_text;
mod characters;
mod code;
mod code_fault;
mod codes;
mod from_text;
mod message_id;
mod moment;
mod short_text;
mod wagon_number;

pub use ascii_text::push_ascii;
pub use code::{Code, Shape};
pub use code_fault::CodeFault;
pub use codes::{ClassCode, Company, OrderId, Place};
pub use from_text::FromText;
pub use message_id::MessageId;
pub use moment::Moment;
pub use wagon_number::WagonNumber;
