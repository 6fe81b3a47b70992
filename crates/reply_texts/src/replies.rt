//! Whole replies, behind the line's number. `Err` only when out of memory; part of the text may be there then.
ghost use Rattle.std.specs.Prelude.{◌≡◌, ◌+◌, ◌≤◌, ◌++◌, [], ◌∷◌, decimal, length, IsOk, OnOk};
ghost use Rattle.line_engine.specs.Replies.{least_room, max_head_bytes};
ghost use Rattle.reply_texts.specs.Words.{next_word};
ghost use Rattle.reply_texts.specs.ReplyTexts.{accepted_text, book_refused_text, begun_text, counted, line_refused_text, planned_text, refused_text, repeated_text};

use crate::details::Detailed;
use crate::words::{push_number, push_numbers};
use faults::Refusal;
use line_engine::ReplyText;
use line_fields::LineFault;
use std::alloc::AllocError;

/// Adds `refused`, the number of a refusal, its details, and the line feed.
pub fn push_refused<T: Detailed>(
    reply: &mut ReplyText,
    number: u32,
    refusal: &T,
) -> Result<(), AllocError>
    ensures { OnOk result (reply.new ≡ reply.old ++ refused_text number (T.details refusal.now)) }
{
    reply.push_bytes(b"refused")?;
    push_number(reply, u128::from(number))?;
    refusal.push_details(reply)?;
    reply.push_bytes(b"\n")
}

/// Adds a word, a number behind it, and the line feed.
pub fn push_counted(reply: &mut ReplyText, word: &[u8], number: u128) -> Result<(), AllocError>
    ensures text { OnOk result (reply.new ≡ reply.old ++ (word.now ++ next_word (decimal number) ++ 10 ∷ [])) }
    ensures room { length reply.old + length word.now + 42 ≤ least_room → IsOk result }
{
    reply.push_bytes(word)?;
    push_number(reply, number)?;
    reply.push_bytes(b"\n")
}

/// Adds `refused CODE` and the details of a line's fault.
pub fn push_line_refused(reply: &mut ReplyText, fault: &LineFault) -> Result<(), AllocError>
    ensures { OnOk result (reply.new ≡ reply.old ++ line_refused_text fault.now) }
{
    push_refused(reply, fault.number(), fault)
}

/// Adds `refused CODE` and the details of a book's refusal.
pub fn push_book_refused(reply: &mut ReplyText, refusal: &Refusal) -> Result<(), AllocError>
    ensures { OnOk result (reply.new ≡ reply.old ++ book_refused_text refusal.now) }
{
    push_refused(reply, refusal.number(), refusal)
}

/// Adds `accepted ENTRY`. Takes no memory where the line's number and a space are all that stands there.
pub fn push_accepted(reply: &mut ReplyText, entry: u64) -> Result<(), AllocError>
    ensures text { OnOk result (reply.new ≡ reply.old ++ accepted_text entry) }
    ensures room { length reply.old ≤ max_head_bytes → IsOk result }
{
    push_counted(reply, b"accepted", u128::from(entry))
}

/// Adds `repeated ENTRY`. Takes no memory where the line's number and a space are all that stands there.
pub fn push_repeated(reply: &mut ReplyText, entry: u64) -> Result<(), AllocError>
    ensures text { OnOk result (reply.new ≡ reply.old ++ repeated_text entry) }
    ensures room { length reply.old ≤ max_head_bytes → IsOk result }
{
    push_counted(reply, b"repeated", u128::from(entry))
}

/// Adds `begun VERSION WAGONS ORDERS`. Takes no memory where the line's number and a space are all that stands there.
pub fn push_begun(
    reply: &mut ReplyText,
    version: u64,
    wagons: usize,
    orders: usize,
) -> Result<(), AllocError>
    ensures text { OnOk result (reply.new ≡ reply.old ++ begun_text version wagons orders) }
    ensures room { length reply.old ≤ max_head_bytes → IsOk result }
{
    push_version(reply, b"begun", version, wagons, orders)?;
    reply.push_bytes(b"\n")
}

/// Adds `plan VERSION WAGONS ORDERS COST`, the cost in kilometres.
pub fn push_planned(
    reply: &mut ReplyText,
    version: u64,
    wagons: usize,
    orders: usize,
    cost: u128,
) -> Result<(), AllocError>
    ensures { OnOk result (reply.new ≡ reply.old ++ planned_text version wagons orders cost) }
{
    push_version(reply, b"plan", version, wagons, orders)?;
    push_number(reply, cost)?;
    reply.push_bytes(b"\n")
}

/// Adds a word, a version, and how many wagons and orders its problem has.
fn push_version(
    reply: &mut ReplyText,
    word: &[u8],
    version: u64,
    wagons: usize,
    orders: usize,
) -> Result<(), AllocError>
    ensures text { OnOk result (reply.new ≡ reply.old ++ (word.now ++ counted version wagons orders)) }
    ensures short { OnOk result (length reply.new ≤ length reply.old + length word.now + 123) }
    ensures room { length reply.old + length word.now + 123 ≤ least_room → IsOk result }
{
    reply.push_bytes(word)?;
    push_number(reply, u128::from(version))?;
    push_numbers(reply, wagons as u128, orders as u128)
}
