//! Several files at one book.

mod feeds;
mod files;
mod meetings;
mod plans;
