//! The texts of replies to the lines of a book, and what they share with those of other lines.
#![tactic(auto)]

mod details;
pub mod line_words;
mod replies;
mod words;

pub use details::Detailed;
pub use replies::{
    push_accepted, push_begun, push_book_refused, push_counted, push_line_refused, push_planned,
    push_refused, push_repeated,
};
pub use words::push_word;
