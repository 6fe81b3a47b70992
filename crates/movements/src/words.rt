//! What is said of a movement and of an order.
ghost use Rattle.std.specs.Prelude.{◌≡◌, ◌++◌, IfOk, OnOk, string_bytes};
ghost use Rattle.movements.specs.Words.{late_behind, late_words, order_state, order_words, outlook_words, outlook_word, spare_words};

use crate::need::OrderNeed;
use crate::outlook::Outlook;
use itoa::Buffer;
use std::alloc::{AllocError, Global};

/// Whether a wagon will be in time, and by how many minutes.
pub(crate) fn outlook_words(alloc: Global, outlook: Outlook) -> Result<String, AllocError>
    ensures { IfOk result (λ text. string_bytes text ≡ outlook_words outlook) }
{
    match outlook {
        Outlook::NoWay => String::from_str(alloc, "no way"),
        Outlook::Late(minutes) => late_words(alloc, minutes),
        Outlook::InTime(minutes) => spare_words(alloc, minutes),
    }
}

/// That a wagon is late by so many minutes.
fn late_words(alloc: Global, minutes: u64) -> Result<String, AllocError>
    ensures { IfOk result (λ text. string_bytes text ≡ late_words minutes) }
{
    let mut digits = Buffer::new();
    let mut text = String::from_str(alloc, "late by ")?;
    text.push_str(digits.format(minutes))?;
    text.push_str(" min")?;
    Ok(text)
}

/// That a wagon has so many minutes to spare.
fn spare_words(alloc: Global, minutes: u64) -> Result<String, AllocError>
    ensures { IfOk result (λ text. string_bytes text ≡ spare_words minutes) }
{
    let mut digits = Buffer::new();
    let mut text = String::from_str(alloc, digits.format(minutes))?;
    text.push_str(" min to spare")?;
    Ok(text)
}

/// Whether a wagon will be in time.
pub(crate) fn outlook_word(outlook: Outlook) -> &'static str
    ensures { result.now ≡ outlook_word outlook }
{
    match outlook {
        Outlook::NoWay => "no way",
        Outlook::Late(_) => "late",
        Outlook::InTime(_) => "in time",
    }
}

/// Whether an order has all its wagons, and whether it is past its latest moment.
pub(crate) fn order_state(need: &OrderNeed) -> &'static str
    ensures { result.now ≡ order_state need.now }
{
    if need.is_past {
        if need.missing > 0 {
            "short and past"
        } else {
            "past"
        }
    } else if need.missing > 0 {
        "short"
    } else if need.late > 0 {
        "filled late"
    } else if need.filled == need.wanted {
        "filled"
    } else {
        "promised"
    }
}

/// The same for people: behind it stands by how many minutes the order was filled late.
pub(crate) fn order_words(alloc: Global, need: &OrderNeed) -> Result<String, AllocError>
    ensures { IfOk result (λ text. string_bytes text ≡ order_words need.now) }
{
    let mut text = String::from_str(alloc, order_state(need))?;
    push_late(&mut text, need)?;
    Ok(text)
}

/// Adds by how many minutes an order was filled late, if it was.
fn push_late(text: &mut String, need: &OrderNeed) -> Result<(), AllocError>
    ensures { OnOk result (string_bytes text.new ≡ string_bytes text.old ++ late_behind need.now) }
{
    if need.late == 0 {
        return Ok(());
    }
    let mut digits = Buffer::new();
    text.push_str(" by ")?;
    text.push_str(digits.format(need.late))?;
    text.push_str(" min")
}
