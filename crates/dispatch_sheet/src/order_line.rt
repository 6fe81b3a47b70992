//! The lines of an office's orders.
ghost use Rattle.std.specs.Prelude.{◌≡◌, ◌++◌, OnOk, string_bytes};
ghost use Rattle.dispatch_sheet.specs.Sheet.{state_word, IsOrderLine};
ghost use Rattle.dispatch_sheet.specs.inner.Parts.{order_back, order_front};

use crate::row_lines::Lined;
use crate::wagon_list::push_wagon_list;
use reply_texts::line_words::{push_code, push_moment, push_number, push_word};
use std::alloc::AllocError;
use wagons_and_orders::{OrderRow, OrderState};

impl Lined for OrderRow {
    ghost is_line = { IsOrderLine };

    /// Adds `order ORDER PLACE LATEST PENALTY STATE WAGONS LIST`.
    fn push_line(&self, text: &mut String) -> Result<(), AllocError> {
        push_order_front(text, self)?;
        push_moment(text, self.text().latest())?;
        push_order_back(text, self)
    }
}

/// Adds what stands before the latest moment.
fn push_order_front(text: &mut String, row: &OrderRow) -> Result<(), AllocError>
    ensures { OnOk result (string_bytes text.new ≡ string_bytes text.old ++ order_front row.now) }
{
    let order = row.text();
    text.push_str("order")?;
    push_code(text, order.id().as_bytes())?;
    push_code(text, order.place().as_bytes())
}

/// Adds what stands behind the latest moment.
fn push_order_back(text: &mut String, row: &OrderRow) -> Result<(), AllocError>
    ensures { OnOk result (string_bytes text.new ≡ string_bytes text.old ++ order_back row.now) }
{
    let order = row.text();
    push_number(text, order.penalty())?;
    push_word(text, state_word(row.state()))?;
    push_number(text, u64::from(order.wagons()))?;
    push_wagon_list(text, row)?;
    text.push_str("\n")
}

/// The word of an order's state.
pub fn state_word(state: OrderState) -> &'static str
    ensures { result.now ≡ state_word state }
{
    match state {
        OrderState::Waiting => "waiting",
        OrderState::Promised => "promised",
        OrderState::Filled => "filled",
        OrderState::Withdrawn => "withdrawn",
    }
}
