//! The tokens of a wagon's line. `Err` only when out of memory; some of them may be there then.
ghost use Rattle.std.specs.Prelude.{◌≡◌, OnOk};
ghost use Rattle.checkpoint.specs.inner.Written.{AddsWagon, AddsWagonBack, AddsWagonFront};

use crate::tokens::{
    begin_line, write_boolean, write_code, write_moment, write_moment_if_there, write_number,
    write_promise, write_text,
};
use json::Writer;
use std::alloc::{AllocError, Global};
use wagons_and_orders::WagonRow;

/// Writes a wagon.
pub(crate) fn write_wagon(alloc: Global, out: &mut Writer, row: &WagonRow) -> Result<(), AllocError>
    ensures tokens { OnOk result (AddsWagon row.now out.old.tokens out.new.tokens) }
    ensures before { out.new.before ≡ out.old.before }
{
    write_front(out, row)?;
    write_back(alloc, out, row)
}

/// Writes the members up to the place.
fn write_front(out: &mut Writer, row: &WagonRow) -> Result<(), AllocError>
    ensures tokens { OnOk result (AddsWagonFront row.now out.old.tokens out.new.tokens) }
    ensures before { out.new.before ≡ out.old.before }
{
    begin_line(out, "wagon")?;
    write_code(out, "wagon", &row.number)?;
    write_code(out, "class", &row.class)?;
    write_number(out, "load", u64::from(row.load_limit))?;
    write_text(out, "status", row.status.word())?;
    write_code(out, "place", &row.status.place())
}

/// Writes the members behind the place, and ends the object.
fn write_back(alloc: Global, out: &mut Writer, row: &WagonRow) -> Result<(), AllocError>
    ensures tokens { OnOk result (AddsWagonBack row.now out.old.tokens out.new.tokens) }
    ensures before { out.new.before ≡ out.old.before }
{
    write_moment_if_there(alloc, out, "ready", row.status.ready())?;
    write_moment(alloc, out, "last", row.last)?;
    write_boolean(out, "held", row.held)?;
    write_promise(out, row.promise)?;
    out.end_object()
}
