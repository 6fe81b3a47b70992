//! Codes that are read from their texts.

use rail_codes::{ClassCode, Company, MessageId, Moment, OrderId, Place, WagonNumber};
use std::alloc::Global;
use std::test::Fail;

pub fn wagon(text: &str) -> Result<WagonNumber, Fail> {
    Ok(WagonNumber::read(text)?)
}

pub fn place(text: &str) -> Result<Place, Fail> {
    Ok(Place::read(text)?)
}

pub fn class(text: &str) -> Result<ClassCode, Fail> {
    Ok(ClassCode::read(text)?)
}

pub fn order_id(text: &str) -> Result<OrderId, Fail> {
    Ok(OrderId::read(text)?)
}

pub fn moment(text: &str) -> Result<Moment, Fail> {
    Ok(Moment::read(text)?)
}

/// A moment of 1 March 2026, as `01:30`.
pub fn time(alloc: Global, text: &str) -> Result<Moment, Fail> {
    let text = format!(in alloc; "2026-03-01T{text}:00Z")?;
    moment(text.as_str())
}

/// The first message of company 0080.
pub fn message_id() -> Result<MessageId, Fail> {
    Ok(MessageId {
        company: company("0080")?,
        number: 1,
    })
}

pub fn company(text: &str) -> Result<Company, Fail> {
    Ok(Company::read(text)?)
}
