//! What an office knows of what is asked for.
ghost use Rattle.std.specs.Prelude.{◌≡◌, ◌↔◌, IfOk, IsTrue, option_copied, option_map};
ghost use Rattle.traces.specs.Asked.{order_of, row_in, wagon_of};

use crate::asked::Asked;
use move_messages::is_same_order;
use operating_db::OfficeState;
use rail_codes::{OrderId, WagonNumber};
use std::alloc::{AllocError, Global};
use wagons_and_orders::{OrderRow, OrderState, Status, WagonRow};

/// What an office knows of what is asked for. Where a wagon is asked for there is no order, and the other way round.
#[derive(Drop)]
pub struct AskedRow {
    /// The row of the wagon that is asked for; none where the office hasn't it.
    pub wagon: Option<WagonRow>,
    /// The row of the order that is asked for; none where the office hasn't it.
    pub order: Option<OrderRow>,
}

impl AskedRow {
    /// What an office knows of what is asked for, as a copy. `Err` only when out of memory.
    pub fn of(alloc: Global, asked: &Asked, state: &OfficeState) -> Result<AskedRow, AllocError>
        ensures { IfOk result (λ row. row ≡ row_in asked.now state.now.office) }
    {
        let order = copied_order(alloc, order_of(asked, state))?;
        Ok(AskedRow {
            wagon: wagon_of(asked, state).copied(),
            order,
        })
    }

    /// The same once more. `Err` only when out of memory.
    pub fn copy(&self, alloc: Global) -> Result<AskedRow, AllocError>
        ensures { IfOk result (λ row. row ≡ self.now) }
    {
        let order = copied_order(alloc, self.order.as_ref())?;
        Ok(AskedRow {
            wagon: self.wagon,
            order,
        })
    }

    /// Whether an office knows just this of what is asked for. Takes no memory.
    pub fn is_in(&self, asked: &Asked, state: &OfficeState) -> bool
        ensures { IsTrue result ↔ (self.now ≡ row_in asked.now state.now.office) }
    {
        is_that_wagon(&self.wagon, wagon_of(asked, state))
            && is_that_order(&self.order, order_of(asked, state))
    }
}

/// The row of the wagon that is asked for.
fn wagon_of<'a>(asked: &Asked, state: &'a OfficeState) -> Option<&'a WagonRow>
    ensures { option_copied result ≡ wagon_of asked.now state.now.office }
{
    match asked {
        Asked::Wagon(number) => state.wagon(*number),
        Asked::Order(_) => None,
    }
}

/// The row of the order that is asked for.
fn order_of<'a>(asked: &Asked, state: &'a OfficeState) -> Option<&'a OrderRow>
    ensures { option_map (λ row. row.now) result ≡ order_of asked.now state.now.office }
{
    match asked {
        Asked::Wagon(_) => None,
        Asked::Order(id) => state.order(*id),
    }
}

/// The row of an order, copied, where there is one.
fn copied_order(alloc: Global, row: Option<&OrderRow>) -> Result<Option<OrderRow>, AllocError>
    ensures { IfOk result (λ copy. copy ≡ option_map (λ row. row.now) row.entry) }
{
    match row {
        None => Ok(None),
        Some(row) => Ok(Some(row.copy(alloc)?)),
    }
}

/// Whether a wagon's row is this one, or neither is there.
fn is_that_wagon(kept: &Option<WagonRow>, row: Option<&WagonRow>) -> bool
    ensures { IsTrue result ↔ (kept.now ≡ option_copied row.entry) }
{
    match kept {
        None => row.is_none(),
        Some(kept) => match row {
            None => false,
            Some(row) => is_same_wagon_row(kept, row),
        },
    }
}

/// Whether an order's row is this one, or neither is there.
fn is_that_order(kept: &Option<OrderRow>, row: Option<&OrderRow>) -> bool
    ensures { IsTrue result ↔ (kept.now ≡ option_map (λ row. row.now) row.entry) }
{
    match kept {
        None => row.is_none(),
        Some(kept) => match row {
            None => false,
            Some(row) => is_same_order_row(kept, row),
        },
    }
}

/// Whether two rows of wagons are one, field by field.
fn is_same_wagon_row(one: &WagonRow, other: &WagonRow) -> bool
    ensures { IsTrue result ↔ (one.now ≡ other.now) }
{
    one.number == other.number
        && one.class == other.class
        && one.load_limit == other.load_limit
        && is_same_status(one.status, other.status)
        && one.held == other.held
        && one.last == other.last
        && is_same_promise(one.promise, other.promise)
}

fn is_same_status(one: Status, other: Status) -> bool
    ensures { IsTrue result ↔ (one ≡ other) }
{
    one == other
}

fn is_same_promise(one: Option<OrderId>, other: Option<OrderId>) -> bool
    ensures { IsTrue result ↔ (one ≡ other) }
{
    one == other
}

/// Whether two rows of orders are one, field by field.
fn is_same_order_row(one: &OrderRow, other: &OrderRow) -> bool
    ensures { IsTrue result ↔ (one.now ≡ other.now) }
{
    is_same_order(one.text(), other.text())
        && are_same_wagons(one.promised(), other.promised())
        && are_same_wagons(one.filled(), other.filled())
        && is_withdrawn(one) == is_withdrawn(other)
}

fn are_same_wagons(one: &[WagonNumber], other: &[WagonNumber]) -> bool
    ensures { IsTrue result ↔ (one.now ≡ other.now) }
{
    *one == *other
}

/// Whether an order is taken back.
fn is_withdrawn(row: &OrderRow) -> bool
    ensures { result ≡ row.now.withdrawn }
{
    matches!(row.state(), OrderState::Withdrawn)
}
