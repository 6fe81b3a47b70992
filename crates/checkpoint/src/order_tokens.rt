//! The tokens of an order's line. `Err` only when out of memory; some of them may be there then.
ghost use Rattle.std.specs.Prelude.{◌≡◌, OnOk};
ghost use Rattle.checkpoint.specs.inner.Written.{AddsOrder, AddsOrderBack, AddsOrderFront};

use crate::tokens::{begin_line, write_code, write_codes, write_moment, write_number};
use json::Writer;
use std::alloc::{AllocError, Global};
use wagons_and_orders::OrderRow;

/// Writes an order with its wagons.
pub(crate) fn write_order(alloc: Global, out: &mut Writer, row: &OrderRow) -> Result<(), AllocError>
    ensures tokens { OnOk result (AddsOrder row.now out.old.tokens out.new.tokens) }
    ensures before { out.new.before ≡ out.old.before }
{
    write_front(out, row)?;
    write_back(alloc, out, row)
}

/// Writes the members up to the load.
fn write_front(out: &mut Writer, row: &OrderRow) -> Result<(), AllocError>
    ensures tokens { OnOk result (AddsOrderFront row.now out.old.tokens out.new.tokens) }
    ensures before { out.new.before ≡ out.old.before }
{
    let order = row.text();
    begin_line(out, "order")?;
    write_code(out, "order", &order.id())?;
    write_code(out, "place", &order.place())?;
    write_codes(out, "classes", order.classes().as_slice())?;
    write_number(out, "load", u64::from(order.load()))
}

/// Writes the members behind the load, and ends the object.
fn write_back(alloc: Global, out: &mut Writer, row: &OrderRow) -> Result<(), AllocError>
    ensures tokens { OnOk result (AddsOrderBack row.now out.old.tokens out.new.tokens) }
    ensures before { out.new.before ≡ out.old.before }
{
    let order = row.text();
    write_moment(alloc, out, "latest", order.latest())?;
    write_number(out, "penalty", order.penalty())?;
    write_number(out, "wagons", u64::from(order.wagons()))?;
    write_codes(out, "promised", row.promised())?;
    write_codes(out, "filled", row.filled())?;
    out.end_object()
}
