//! Samples for the tests: texts, codes, orders, wagons, lines and books of 1 March 2026, and readers and writers over memory.
#![tactic(auto)]

mod answers;
mod books;
mod codes;
mod devices;
mod lines;
mod messages;
mod orders;
mod reading;
mod rosters;
mod texts;
mod wagons;
mod writing;

pub use answers::reply_text;
pub use books::{BOTH, LONGER, ONE_ENTRY, SAMPLE, Start, book_of, is_in_range, networks_of};
pub use codes::{class, company, message_id, moment, order_id, place, time, wagon};
pub use lines::{
    BEGIN, COMMIT, DEPARTURE, FARTHER, Line, NEAREST, ORDER, OTHER_PLACE, REVISION, WITHDRAWAL,
    call, script,
};
pub use messages::misnamed;
pub use orders::order_text;
pub use reading::{MemoryReader, MemorySource};
pub use rosters::{numbers_list, roster_of, wagon_text};
pub use texts::{FAR, NEAR, NETWORK, NETWORK_HEADER, ORDER_TEXT, ROSTER, ROSTER_HEADER, UNKNOWN};
pub use wagons::free_wagon;
pub use writing::{MemorySink, MemoryWriter};
