//! Sessions: several callers, each with a seat of its own, at one book behind one lock; and the work of a planner, which
//! takes no lock. The feed of several files of lines to one book, each by a thread and a seat of its own; and the report on
//! them.
#![tactic(auto)]

mod book_ledger;
mod close_fault;
mod closing;
mod counted_book;
mod crossing;
mod fed_file;
mod feed_lines;
mod feed_report;
mod feeding;
mod file_seat;
mod kept_notes;
mod laws;
mod noted_book;
mod open_fault;
mod opening;
mod planning;
mod receipt;
mod refused_wagons;
mod seat;
mod shared_book;

pub use book_ledger::BookLedger;
pub use close_fault::CloseFault;
pub use closing::close;
pub use crossing::Crossing;
pub use faults::{FeedFault, PlanFault};
pub use feed_report::{FeedNotes, FeedReport, FileCount, report_text};
pub use feeding::{feed, feed_noted};
pub use laws::{a_plan_for_the_present_is_accepted, receipts_are_the_history};
pub use open_fault::OpenFault;
pub use opening::{MAX_SEATS, open};
pub use planning::work;
pub use receipt::Receipt;
pub use seat::Seat;
pub use shared_book::SharedBook;
