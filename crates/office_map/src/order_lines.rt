//! The orders of a place.
ghost use Rattle.std.specs.Prelude.{◌≡◌, ◌++◌, count_by, OnOk, string_bytes};
ghost use Rattle.rail_codes.specs.Moment.{IsMomentText};
ghost use Rattle.reply_texts.specs.Lines.{Adds, AreLines};
ghost use Rattle.std.specs.List.{flat_map};
ghost use Rattle.office_map.specs.Orders.{class_words, here_words, is_for, is_promised_to, lack_words, or_class, order_back, order_cell, order_colour, order_front, IsOrderLine};

use crate::shown::ShownOrder;
use crate::words::{PROMISED_COLOUR, WAITING_COLOUR, push_number, push_texts, push_words};
use rail_codes::{ClassCode, Moment, OrderId, push_ascii};
use std::alloc::AllocError;
use wagons_and_orders::WagonRow;

/// Adds a line of the label for each of the orders of a place, at which these wagons are.
pub(crate) fn push_order_lines(
    text: &mut String,
    wagons: &[WagonRow],
    orders: &[ShownOrder],
) -> Result<(), AllocError>
    ensures { OnOk result (Adds (AreLines (IsOrderLine wagons.now) orders.now) (string_bytes text.old) (string_bytes text.new)) }
{
    for order in orders {
        push_order_line(text, wagons, order)?;
    }
    Ok(())
}

/// Adds the line of an order.
fn push_order_line(
    text: &mut String,
    wagons: &[WagonRow],
    order: &ShownOrder,
) -> Result<(), AllocError>
    ensures { OnOk result (Adds (IsOrderLine wagons.now order.now) (string_bytes text.old) (string_bytes text.new)) }
{
    push_order_front(text, order)?;
    push_moment(text, order.text.latest())?;
    push_order_back(text, count_here(wagons, order.text.id()))
}

/// Adds what stands before the latest moment.
fn push_order_front(text: &mut String, order: &ShownOrder) -> Result<(), AllocError>
    ensures { OnOk result (string_bytes text.new ≡ string_bytes text.old ++ order_front order.now) }
{
    push_cell(text, order.lack)?;
    push_lack(text, order)?;
    push_classes(text, order.text.classes().as_slice())?;
    push_words(text, "<BR/>")
}

/// Adds the beginning of the cell of an order that lacks so many wagons.
fn push_cell(text: &mut String, lack: u32) -> Result<(), AllocError>
    ensures { OnOk result (string_bytes text.new ≡ string_bytes text.old ++ order_cell lack) }
{
    push_texts(text, "    <TR><TD COLSPAN=\"4\"", order_colour(lack), ">")
}

/// Adds the name of an order, and how many wagons it lacks.
fn push_lack(text: &mut String, order: &ShownOrder) -> Result<(), AllocError>
    ensures { OnOk result (string_bytes text.new ≡ string_bytes text.old ++ lack_words order.now) }
{
    push_ascii(text, order.text.id().as_bytes())?;
    text.push_str(" lacks ")?;
    push_number(text, u64::from(order.lack))?;
    text.push_str(" ")
}

/// Adds a moment.
fn push_moment(text: &mut String, moment: Moment) -> Result<(), AllocError>
    ensures { OnOk result (Adds (IsMomentText moment) (string_bytes text.old) (string_bytes text.new)) }
{
    moment.push_text(text)
}

/// Adds what stands behind the latest moment.
fn push_order_back(text: &mut String, here: usize) -> Result<(), AllocError>
    ensures { OnOk result (string_bytes text.new ≡ string_bytes text.old ++ order_back here) }
{
    push_here(text, here)?;
    text.push_str("</TD></TR>\n")
}

/// Adds how many wagons are at their order's place, where there are some.
fn push_here(text: &mut String, count: usize) -> Result<(), AllocError>
    ensures { OnOk result (string_bytes text.new ≡ string_bytes text.old ++ here_words count) }
{
    if count == 0 {
        return Ok(());
    }
    text.push_str("<BR/>")?;
    push_number(text, count as u64)?;
    text.push_str(" here already")
}

/// Adds the classes that an order accepts.
fn push_classes(text: &mut String, classes: &[ClassCode]) -> Result<(), AllocError>
    ensures { OnOk result (string_bytes text.new ≡ string_bytes text.old ++ class_words classes.now) }
{
    let Some((class, others)) = classes.split_first() else {
        return Ok(());
    };
    push_ascii(text, class.as_bytes())?;
    push_other_classes(text, others)
}

/// Adds each of these classes behind an `or`.
fn push_other_classes(text: &mut String, classes: &[ClassCode]) -> Result<(), AllocError>
    ensures { OnOk result (string_bytes text.new ≡ string_bytes text.old ++ flat_map or_class classes.now) }
{
    for class in classes {
        push_or_class(text, *class)?;
    }
    Ok(())
}

/// Adds a class behind an `or`.
fn push_or_class(text: &mut String, class: ClassCode) -> Result<(), AllocError>
    ensures { OnOk result (string_bytes text.new ≡ string_bytes text.old ++ or_class class) }
{
    text.push_str(" or ")?;
    push_ascii(text, class.as_bytes())
}

/// The colour of an order that lacks so many wagons.
fn order_colour(lack: u32) -> &'static str
    ensures { result.now ≡ order_colour lack }
{
    if lack == 0 {
        PROMISED_COLOUR
    } else {
        WAITING_COLOUR
    }
}

/// How many of these wagons are promised to an order.
fn count_here(wagons: &[WagonRow], id: OrderId) -> usize
    ensures { result ≡ count_by (is_promised_to id) wagons.now }
{
    wagons.iter().filter(|row| is_for(id, row.promise)).count()
}

/// Whether a promise is to an order.
fn is_for(id: OrderId, promise: Option<OrderId>) -> bool
    ensures { result ≡ is_for id promise }
{
    match promise {
        None => false,
        Some(promise) => id == promise,
    }
}
