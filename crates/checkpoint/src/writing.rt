//! Writing a checkpoint.
ghost use Rattle.std.specs.Prelude.{◌≡◌, ◌≤◌, ◌++◌, ◌∷◌, [], List, ℕ, IfOk, Ok, OnOk, length, string_bytes};
ghost use Rattle.std.specs.List.{AllByRecursion, filter};
ghost use Rattle.checkpoint.specs.Checkpoint.{order_said};
ghost use Rattle.checkpoint.specs.OfficeOf.{office_of_lines};
ghost use Rattle.checkpoint.specs.Written.{IsCheckpointText, later_of, newest_of};
ghost use Rattle.checkpoint.specs.inner.Lines.{AddsLines};
ghost use Rattle.checkpoint.specs.LineWriting.{IsOrderLine, IsWagonLine};
ghost use Rattle.checkpoint.specs.declared.line.CheckpointLine.TheVariants.{Wagon};
ghost use Rattle.fleet_rows.specs.Kept.{IsWagonRows};
ghost use Rattle.line_engine.specs.Lines.{IsWithin, line_feed, lines_of, max_line_bytes};
ghost use Rattle.operating_db.specs.Compact.{compact};
ghost use Rattle.wagons_and_orders.specs.Lack.{is_open};

use crate::{end_line, head_line, order_line, wagon_line};
use operating_db::OfficeState;
use rail_codes::Moment;
use std::alloc::{AllocError, Global};
use wagons_and_orders::{OrderRow, WagonRow};

/// The text of a checkpoint: its head, a line for each wagon, ascending by number, a line for each open order, as placed,
/// and the last line, each with its line feed. Closed orders are left out. Read again, where there are as many networks, it
/// gives this very office without its closed orders. Each line is within the 65,536 bytes that a run reads.
pub fn checkpoint_text(alloc: Global, state: &OfficeState) -> Result<String, AllocError>
    ensures text { IfOk result (λ text. IsCheckpointText state.now.office (string_bytes text)) }
    ensures reads { IfOk result (λ text. office_of_lines state.now.networks (lines_of (string_bytes text)) ≡ Ok (compact state.now.office)) }
    ensures short { IfOk result (λ text. AllByRecursion (IsWithin max_line_bytes) (lines_of (string_bytes text))) }
{
    state.for_the_prover();
    let wagons = state.wagon_rows();
    let orders = state.order_rows();
    let mut text = String::new(alloc);
    push_line(
        &mut text,
        &head_line(alloc, state.network(), newest(wagons))?,
    )?;
    push_wagons(alloc, &mut text, wagons)?;
    push_orders(alloc, &mut text, orders)?;
    let before = 1 + wagons.len() + open_orders(orders);
    push_line(&mut text, &end_line(alloc, before as u64)?)?;
    Ok(text)
}

/// Adds a line and its line feed.
fn push_line(text: &mut String, line: &str) -> Result<(), AllocError>
    ensures { OnOk result (string_bytes text.new ≡ string_bytes text.old ++ (line.now ++ line_feed ∷ [])) }
{
    text.push_str(line)?;
    text.push_str("\n")
}

/// The last moment at which any of the wagons was heard of.
fn newest(rows: &[WagonRow]) -> Option<Moment>
    ensures { result ≡ newest_of rows.now }
{
    let mut newest = None;
    for row in rows {
        newest = Some(later_of(newest, row.last));
    }
    newest
}

/// The later of two moments.
fn later_of(newest: Option<Moment>, moment: Moment) -> Moment
    ensures { Some result ≡ later_of newest moment }
{
    match newest {
        Some(newest) if newest > moment => newest,
        _ => moment,
    }
}

/// Adds a line for each wagon.
fn push_wagons(alloc: Global, text: &mut String, rows: &[WagonRow]) -> Result<(), AllocError>
    requires { IsWagonRows rows.now }
    ensures { OnOk result (AddsLines IsWagonLine Wagon rows.now (string_bytes text.old) (string_bytes text.new)) }
{
    for row in rows {
        push_line(text, &wagon_line(alloc, row)?)?;
    }
    Ok(())
}

/// Adds a line for each open order.
fn push_orders(alloc: Global, text: &mut String, rows: &[OrderRow]) -> Result<(), AllocError>
    ensures { OnOk result (AddsLines IsOrderLine order_said (filter is_open rows.now) (string_bytes text.old) (string_bytes text.new)) }
{
    for row in rows {
        if row.is_open() {
            push_line(text, &order_line(alloc, row)?)?;
        }
    }
    Ok(())
}

/// How many of the orders are open.
fn open_orders(rows: &[OrderRow]) -> usize
    ensures { result ≡ length (filter is_open rows.now) }
{
    rows.iter().filter(|row| row.is_open()).count()
}
