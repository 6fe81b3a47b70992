//! What a command line may say, as values: a movement message, an order, a commit, and the events of a book.
#![tactic(auto)]

mod classes;
mod commit_text;
mod event;
mod limits;
mod message;
mod order_text;

pub use classes::Classes;
pub use commit_text::{CommitText, Pairs, PriceList};
pub use event::{Event, is_same_event};
pub use limits::{MAX_CLASSES, MAX_LOAD, MAX_ORDER_WAGONS, MAX_PENALTY};
pub use message::{Message, MessageKind, is_same_message};
pub use order_text::{OrderText, is_same_order};
