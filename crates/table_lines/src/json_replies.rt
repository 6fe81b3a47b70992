//! Refusals as JSON, each one object on a line of its own. `Err` only when out of memory; part of the text may be there
//! then.
ghost use Rattle.std.specs.Prelude.{◌≡◌, ◌+◌, ◌≤◌, ◌++◌, codes, decimal, length, IsOk, OnOk};
ghost use Rattle.line_engine.specs.Replies.{least_room};
ghost use Rattle.table_lines.specs.declared.table_refusal.TableRefusal.TheVariants.{OutOfMemory};
ghost use Rattle.table_lines.specs.JsonReplies.{json_refused_head, json_refused_text};

use crate::table_refusal::TableRefusal;
use line_engine::ReplyText;
use reply_texts::Detailed;
use std::alloc::AllocError;

/// Adds a line's number as the first member.
fn push_line(reply: &mut ReplyText, line: u64) -> Result<(), AllocError>
    ensures text { OnOk result (reply.new ≡ reply.old ++ (codes "{\"line\":" ++ decimal line)) }
    ensures short { OnOk result (length reply.new ≤ length reply.old + 48) }
    ensures room { length reply.old + 48 ≤ least_room → IsOk result }
{
    reply.push_bytes(b"{\"line\":")?;
    reply.push_number(u128::from(line))
}

/// Adds what stands before the details of a refusal.
fn push_head(reply: &mut ReplyText, line: u64, number: u32) -> Result<(), AllocError>
    ensures text { OnOk result (reply.new ≡ reply.old ++ json_refused_head line number) }
    ensures short { OnOk result (length reply.new ≤ length reply.old + 100) }
    ensures room { length reply.old + 100 ≤ least_room → IsOk result }
{
    push_line(reply, line)?;
    reply.push_bytes(b",\"refused\":\"")?;
    reply.push_number(u128::from(number))
}

/// Adds `{"line":N,"refused":"CODE details"}`, the code and the details of a table line's refusal.
pub(crate) fn push_json_refused(
    reply: &mut ReplyText,
    line: u64,
    refusal: &TableRefusal,
) -> Result<(), AllocError>
    ensures { OnOk result (reply.new ≡ reply.old ++ json_refused_text line refusal.now) }
{
    push_head(reply, line, refusal.number())?;
    refusal.push_details(reply)?;
    reply.push_bytes(b"\"}\n")
}

/// Adds `{"line":N,"refused":"1"}`. Takes no memory where little stands before it.
pub(crate) fn push_json_out_of_memory(reply: &mut ReplyText, line: u64) -> Result<(), AllocError>
    ensures text { OnOk result (reply.new ≡ reply.old ++ json_refused_text line OutOfMemory) }
    ensures room { length reply.old + 103 ≤ least_room → IsOk result }
{
    push_head(reply, line, TableRefusal::OutOfMemory.number())?;
    reply.push_bytes(b"\"}\n")
}
