//! Why an order misses wagons, in a phrase.
ghost use Rattle.std.specs.Prelude.{◌≡◌, ◌++◌, IfOk, string_bytes};
ghost use Rattle.plan_table.specs.Reasons.{no_wagon, reason_phrase};

use crate::Reason;
use std::alloc::{AllocError, Global};

/// Why an order that gets so many wagons misses others.
pub(crate) fn phrase(alloc: Global, gets: u64, reason: Reason) -> Result<String, AllocError>
    ensures { IfOk result (λ text. string_bytes text ≡ reason_phrase gets reason) }
{
    match reason {
        Reason::Past => String::from_str(alloc, "its latest moment is past"),
        Reason::Class => none_that(alloc, gets, " has a class that it lists"),
        Reason::Load => none_that(alloc, gets, " of its classes carries its load"),
        Reason::Way => none_that(alloc, gets, " that suits it has a way to its place"),
        Reason::InTime => none_that(alloc, gets, " that suits it is there in time"),
        Reason::Cheaper => none_that(alloc, gets, " costs less than its penalty"),
        Reason::Elsewhere => String::from_str(alloc, "other orders get the wagons that could go"),
    }
}

/// That no wagon is so, beside those that the order gets.
fn none_that(alloc: Global, gets: u64, is_so: &str) -> Result<String, AllocError>
    ensures { IfOk result (λ text. string_bytes text ≡ no_wagon gets ++ is_so.now) }
{
    let mut text = String::from_str(alloc, no_wagon(gets))?;
    text.push_str(is_so)?;
    Ok(text)
}

/// Which wagons are spoken of.
fn no_wagon(gets: u64) -> &'static str
    ensures { result.now ≡ no_wagon gets }
{
    if gets == 0 {
        "no free wagon"
    } else {
        "no other free wagon"
    }
}
