//! The lines of a checkpoint, each without its line feed: compact JSON, which reads as what it was made of. `Err` only when
//! out of memory.
ghost use Rattle.std.specs.Prelude.{◌≡◌, ◌≤◌, IfOk, Ok, OnOk, string_bytes};
ghost use Rattle.move_messages.specs.MaxLoad.{max_load};
ghost use Rattle.checkpoint.specs.Limits.{IsNetworkNumber, max_lines};
ghost use Rattle.checkpoint.specs.LineReading.{checkpoint_line_of};
ghost use Rattle.checkpoint.specs.LineWriting.{IsEndLine, IsHeadLine, IsOneLine, IsOrderLine, IsWagonLine};
ghost use Rattle.checkpoint.specs.OrderLine.{line_of_row};
ghost use Rattle.checkpoint.specs.declared.line.CheckpointLine.TheVariants.{End, Head, Order, Wagon};
ghost use Rattle.checkpoint.specs.inner.Written.{AddsEnd, AddsHead};

use crate::limits::LINE_FORMAT;
use crate::order_tokens::write_order;
use crate::tokens::{begin_line, write_moment_if_there, write_number};
use crate::wagon_tokens::write_wagon;
use json::Writer;
use line_fields::written_text;
use rail_codes::Moment;
use std::alloc::{AllocError, Global};
use wagons_and_orders::{OrderRow, WagonRow};

/// The first line: the number of the network in force (1 to 8), and the newest moment of all wagons, where there is one.
pub fn head_line(alloc: Global, network: u32, newest: Option<Moment>) -> Result<String, AllocError>
    requires { IsNetworkNumber network }
    ensures text { IfOk result (λ line. IsHeadLine network newest (string_bytes line)) }
    ensures reads { IfOk result (λ line. checkpoint_line_of (string_bytes line) ≡ Ok (Head network)) }
    ensures whole { IfOk result (λ line. IsOneLine (string_bytes line)) }
{
    let mut out = Writer::new(Vec::new(alloc));
    write_head(alloc, &mut out, network, newest)?;
    Ok(written_text(out))
}

/// The line of a wagon, which carries at most 200,000 kg.
pub fn wagon_line(alloc: Global, row: &WagonRow) -> Result<String, AllocError>
    requires { row.now.load_limit ≤ max_load }
    ensures text { IfOk result (λ line. IsWagonLine row.now (string_bytes line)) }
    ensures reads { IfOk result (λ line. checkpoint_line_of (string_bytes line) ≡ Ok (Wagon row.now)) }
    ensures whole { IfOk result (λ line. IsOneLine (string_bytes line)) }
{
    let mut out = Writer::new(Vec::new(alloc));
    write_wagon(alloc, &mut out, row)?;
    Ok(written_text(out))
}

/// The line of an order: what it asks for, the wagons promised to it, and those that filled it.
pub fn order_line(alloc: Global, row: &OrderRow) -> Result<String, AllocError>
    ensures text { IfOk result (λ line. IsOrderLine row.now (string_bytes line)) }
    ensures reads { IfOk result (λ line. checkpoint_line_of (string_bytes line) ≡ Ok (Order (line_of_row row.now))) }
    ensures whole { IfOk result (λ line. IsOneLine (string_bytes line)) }
{
    let mut out = Writer::new(Vec::new(alloc));
    write_order(alloc, &mut out, row)?;
    Ok(written_text(out))
}

/// The last line: how many others there are, at most 1,000,000.
pub fn end_line(alloc: Global, lines: u64) -> Result<String, AllocError>
    requires { lines ≤ max_lines }
    ensures text { IfOk result (λ line. IsEndLine lines (string_bytes line)) }
    ensures reads { IfOk result (λ line. checkpoint_line_of (string_bytes line) ≡ Ok (End lines)) }
    ensures whole { IfOk result (λ line. IsOneLine (string_bytes line)) }
{
    let mut out = Writer::new(Vec::new(alloc));
    write_end(&mut out, lines)?;
    Ok(written_text(out))
}

/// Writes the head.
fn write_head(
    alloc: Global,
    out: &mut Writer,
    network: u32,
    newest: Option<Moment>,
) -> Result<(), AllocError>
    ensures tokens { OnOk result (AddsHead network newest out.old.tokens out.new.tokens) }
    ensures before { out.new.before ≡ out.old.before }
{
    begin_line(out, "checkpoint")?;
    write_number(out, "format", LINE_FORMAT)?;
    write_number(out, "network", u64::from(network))?;
    write_moment_if_there(alloc, out, "newest", newest)?;
    out.end_object()
}

/// Writes the end.
fn write_end(out: &mut Writer, lines: u64) -> Result<(), AllocError>
    ensures tokens { OnOk result (AddsEnd lines out.old.tokens out.new.tokens) }
    ensures before { out.new.before ≡ out.old.before }
{
    begin_line(out, "end")?;
    write_number(out, "lines", lines)?;
    out.end_object()
}
