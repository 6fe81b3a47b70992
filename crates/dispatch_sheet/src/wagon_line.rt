//! The lines of an office's wagons.
ghost use Rattle.std.specs.Prelude.{◌≡◌, ◌++◌, OnOk, string_bytes};
ghost use Rattle.wagons_and_orders.specs.StatusTable.{place_of};
ghost use Rattle.wagons_and_orders.specs.StatusWords.{status_word};
ghost use Rattle.dispatch_sheet.specs.Sheet.{hold_word, promise_word, IsWagonLine};
ghost use Rattle.reply_texts.specs.Words.{next_word};
ghost use Rattle.dispatch_sheet.specs.inner.Parts.{wagon_back, wagon_front};

use crate::row_lines::Lined;
use rail_codes::OrderId;
use reply_texts::line_words::{push_code, push_moment, push_number, push_word};
use std::alloc::AllocError;
use wagons_and_orders::{Status, WagonRow};

impl Lined for WagonRow {
    ghost is_line = { IsWagonLine };

    /// Adds `wagon NUMBER CLASS LOAD STATUS PLACE LAST HOLD PROMISE`.
    fn push_line(&self, text: &mut String) -> Result<(), AllocError> {
        push_wagon_front(text, self)?;
        push_moment(text, self.last)?;
        push_wagon_back(text, self)
    }
}

/// Adds what stands before the last moment.
fn push_wagon_front(text: &mut String, row: &WagonRow) -> Result<(), AllocError>
    ensures { OnOk result (string_bytes text.new ≡ string_bytes text.old ++ wagon_front row.now) }
{
    text.push_str("wagon")?;
    push_code(text, row.number.digits())?;
    push_code(text, row.class.as_bytes())?;
    push_number(text, u64::from(row.load_limit))?;
    push_status(text, row.status)
}

/// Adds what stands behind the last moment.
fn push_wagon_back(text: &mut String, row: &WagonRow) -> Result<(), AllocError>
    ensures { OnOk result (string_bytes text.new ≡ string_bytes text.old ++ wagon_back row.now) }
{
    push_word(text, hold_word(row.held))?;
    push_promise(text, row.promise)?;
    text.push_str("\n")
}

/// Adds the word of a status, and where the wagon is.
fn push_status(text: &mut String, status: Status) -> Result<(), AllocError>
    ensures { OnOk result (string_bytes text.new ≡ string_bytes text.old ++ (next_word (status_word status) ++ next_word (place_of status))) }
{
    push_word(text, status.word())?;
    push_code(text, status.place().as_bytes())
}

/// The word for whether a wagon is held.
fn hold_word(held: bool) -> &'static str
    ensures { result.now ≡ hold_word held }
{
    if held { "held" } else { "-" }
}

/// Adds the order that a wagon is promised to.
fn push_promise(text: &mut String, promise: Option<OrderId>) -> Result<(), AllocError>
    ensures { OnOk result (string_bytes text.new ≡ string_bytes text.old ++ next_word (promise_word promise)) }
{
    match promise {
        None => push_word(text, "-"),
        Some(order) => push_code(text, order.as_bytes()),
    }
}
