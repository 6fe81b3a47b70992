//! Words of a reply, each behind a space.
ghost use Rattle.std.specs.Prelude.{◌≡◌, ◌+◌, ◌≤◌, ◌++◌, decimal, length, IsOk, OnOk};
ghost use Rattle.line_engine.specs.Replies.{least_room};
ghost use Rattle.reply_texts.specs.Words.{next_word};

use line_engine::ReplyText;
use rail_codes::{OrderId, WagonNumber};
use std::alloc::AllocError;

/// Adds a word.
pub fn push_word(reply: &mut ReplyText, word: &[u8]) -> Result<(), AllocError>
    ensures { OnOk result (reply.new ≡ reply.old ++ next_word word.now) }
{
    reply.push_bytes(b" ")?;
    reply.push_bytes(word)
}

/// Adds a number.
pub(crate) fn push_number(reply: &mut ReplyText, number: u128) -> Result<(), AllocError>
    ensures text { OnOk result (reply.new ≡ reply.old ++ next_word (decimal number)) }
    ensures short { OnOk result (length reply.new ≤ length reply.old + 41) }
    ensures room { length reply.old + 41 ≤ least_room → IsOk result }
{
    reply.push_bytes(b" ")?;
    reply.push_number(number)
}

/// Adds two numbers.
pub(crate) fn push_numbers(
    reply: &mut ReplyText,
    first: u128,
    second: u128,
) -> Result<(), AllocError>
    ensures text { OnOk result (reply.new ≡ reply.old ++ (next_word (decimal first) ++ next_word (decimal second))) }
    ensures short { OnOk result (length reply.new ≤ length reply.old + 82) }
    ensures room { length reply.old + 82 ≤ least_room → IsOk result }
{
    push_number(reply, first)?;
    push_number(reply, second)
}

/// Adds a wagon and an order.
pub(crate) fn push_pair(
    reply: &mut ReplyText,
    wagon: &WagonNumber,
    order: &OrderId,
) -> Result<(), AllocError>
    ensures { OnOk result (reply.new ≡ reply.old ++ (next_word wagon.now ++ next_word order.now)) }
{
    push_word(reply, wagon.digits())?;
    push_word(reply, order.as_bytes())
}
