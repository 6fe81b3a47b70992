//! What the CSV files of the railway share: fields, whole numbers, and reading a header with records below it.
#![tactic(auto)]

mod fault_at;
mod fields;
mod from_records;
mod reading;

pub use fault_at::{FaultAt, RecordAt};
pub use faults::RecordFault;
pub use fields::{MAX_NUMBER_DIGITS, is_text, place_of, text_of, whole_number};
pub use from_records::FromRecords;
pub use reading::{open_records, read_records};
