//! Promises: arrows from where wagons are to where they are wanted.
ghost use Rattle.std.specs.Prelude.{◌≡◌, ◌++◌, ◌<◌, IfOk, OnOk, count_by, length, slice_get, string_bytes, take};
ghost use Rattle.std.specs.List.{filter_map, list_any};
ghost use Rattle.office_map.specs.Promises.{arrow_at, arrow_between, arrow_for, arrow_line, arrow_lines, arrow_of, is_same_arrow, promise_lines};

use crate::words::{push_number, push_quoted};
use operating_db::OfficeState;
use rail_codes::{OrderId, Place};
use std::alloc::{AllocError, Global};
use wagons_and_orders::WagonRow;

/// From where promised wagons go, and where to.
#[derive(Clone, Copy)]
struct Arrow {
    from: Place,
    to: Place,
}

/// Adds the promises of these wagons.
pub(crate) fn push_promises(
    alloc: Global,
    text: &mut String,
    state: &OfficeState,
    wagons: &[WagonRow],
) -> Result<(), AllocError>
    ensures { OnOk result (string_bytes text.new ≡ string_bytes text.old ++ promise_lines state.now.office.orders wagons.now) }
{
    let arrows = arrows_of(alloc, state, wagons)?;
    push_arrows(text, &arrows)
}

/// The arrows of these wagons, in order.
fn arrows_of(
    alloc: Global,
    state: &OfficeState,
    wagons: &[WagonRow],
) -> Result<Vec<Arrow>, AllocError>
    ensures { IfOk result (λ arrows. arrows.items ≡ filter_map (arrow_of state.now.office.orders) wagons.now) }
{
    wagons
        .iter()
        .filter_map(|row| arrow_of(state, row))
        .collect(alloc)
}

/// The arrow of a wagon, where it is promised and not there already.
fn arrow_of(state: &OfficeState, row: &WagonRow) -> Option<Arrow>
    ensures { result ≡ arrow_of state.now.office.orders row.now }
{
    arrow_for(state, row.status.place(), row.promise)
}

/// The arrow of a wagon at a place with this promise.
fn arrow_for(state: &OfficeState, from: Place, promise: Option<OrderId>) -> Option<Arrow>
    ensures { result ≡ arrow_for state.now.office.orders from promise }
{
    let id = promise?;
    let order = state.order(id)?;
    arrow_between(from, order.text().place())
}

/// The arrow between two places, unless they are one.
fn arrow_between(from: Place, to: Place) -> Option<Arrow>
    ensures { result ≡ arrow_between from to }
{
    if from == to {
        return None;
    }
    Some(Arrow { from, to })
}

/// Adds these arrows, those between the same places as one.
fn push_arrows(text: &mut String, arrows: &[Arrow]) -> Result<(), AllocError>
    ensures { OnOk result (string_bytes text.new ≡ string_bytes text.old ++ arrow_lines arrows.now) }
{
    for i in 0..arrows.len() {
        push_arrow_at(text, arrows, i)?;
    }
    Ok(())
}

/// Adds the arrow at `i`, for all that are the same, unless one of them stands earlier.
fn push_arrow_at(text: &mut String, arrows: &[Arrow], i: usize) -> Result<(), AllocError>
    requires { i < length arrows.now }
    ensures { OnOk result (string_bytes text.new ≡ string_bytes text.old ++ arrow_at arrows.now i) }
{
    let Some(arrow) = arrows.get(i) else {
        return Ok(());
    };
    if has_arrow(&arrows[..i], arrow) {
        return Ok(());
    }
    push_arrow(text, count_same(arrows, arrow), arrow)
}

/// Whether an arrow is among these.
fn has_arrow(arrows: &[Arrow], arrow: &Arrow) -> bool
    ensures { result ≡ list_any (is_same_arrow arrow.now) arrows.now }
{
    arrows.iter().any(|other| is_same_arrow(arrow, other))
}

/// How often an arrow is among these.
fn count_same(arrows: &[Arrow], arrow: &Arrow) -> usize
    ensures { result ≡ count_by (is_same_arrow arrow.now) arrows.now }
{
    arrows
        .iter()
        .filter(|other| is_same_arrow(arrow, other))
        .count()
}

/// Whether two arrows are between the same places.
fn is_same_arrow(arrow: &Arrow, other: &Arrow) -> bool
    ensures { result ≡ is_same_arrow arrow.now other.now }
{
    arrow.from == other.from && arrow.to == other.to
}

/// Adds an arrow for so many wagons.
fn push_arrow(text: &mut String, count: usize, arrow: &Arrow) -> Result<(), AllocError>
    ensures { OnOk result (string_bytes text.new ≡ string_bytes text.old ++ arrow_line count arrow.now) }
{
    text.push_str("  ")?;
    push_quoted(text, arrow.from.as_bytes())?;
    text.push_str(" -> ")?;
    push_quoted(text, arrow.to.as_bytes())?;
    text.push_str(" [label=\"")?;
    push_number(text, count as u64)?;
    text.push_str("\"];\n")
}
