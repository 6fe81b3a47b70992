//! What callers of a book are told.

use commit_book::Reply;
use std::alloc::{AllocError, Global};

/// The text of a reply: `accepted 2` or `repeated 1`.
pub fn reply_text(alloc: Global, reply: Reply) -> Result<String, AllocError> {
    match reply {
        Reply::Accepted(number) => format!(in alloc; "accepted {number}"),
        Reply::Repeated(number) => format!(in alloc; "repeated {number}"),
    }
}
