//! Lines of JSON: command lines, and the fields of a line: what each is read as, or why the line is refused.
//!
//! The fields are read in the order in which they are tried, and the first fault is the answer. A reader of a field gives its
//! value or the fault of that field, so that readers chained with `?` give the first fault. Only the object and what a `Vec`
//! holds are allocated.
#![tactic(auto)]

mod class_reading;
mod command;
mod command_reading;
mod fault;
mod field;
mod kind;
mod limits;
mod line;
mod line_type;
mod lists;
mod members;
mod plain_message;
mod plain_text;
mod values;
mod writer_text;

pub use command::Command;
pub use command_reading::{order_at, read_line};
pub use fault::{FieldFault, LineFault};
pub use field::Field;
pub use kind::{CountKind, ItemKind};
pub use limits::{MAX_REVISION, MAX_VERSION};
pub use line::object_of;
pub use lists::{codes_at, list_of_each, numbers_at, optional_list_at, pairs_at};
pub use members::{
    boolean_at, code_at, count_at, in_field, member, number_at, optional_code_at,
    optional_count_at, text_at,
};
pub use plain_text::{number_after, quoted_after};
pub use values::{code_from, list_of, list_within, number_within};
pub use writer_text::{code_str, written_text};
