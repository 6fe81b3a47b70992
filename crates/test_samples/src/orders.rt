//! Orders at DE00003.

use crate::codes::{class, moment, order_id, place};
use move_messages::{Classes, OrderText};
use std::test::Fail;

/// An order at DE00003 of `Eanos`, 50,000 kg a wagon, with a penalty of 1,000 km, of this name, for so many wagons by
/// this moment.
pub fn order_text(name: &str, wagons: u32, latest: &str) -> Result<OrderText, Fail> {
    let classes = Classes::from_slice(&[class("Eanos")?]).ok_or("one class")?;
    let text = OrderText::new(
        order_id(name)?,
        place("DE00003")?,
        classes,
        50_000,
        moment(latest)?,
        1_000,
        wagons,
    );
    Ok(text.ok_or("an order")?)
}
