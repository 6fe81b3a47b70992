//! Free wagons.

use crate::codes::{class, moment, place, wagon};
use std::test::Fail;
use wagons_and_orders::FreeWagon;

/// A wagon of 60,000 kg that is free at a place since midnight.
pub fn free_wagon(number: &str, class_code: &str, at: &str) -> Result<FreeWagon, Fail> {
    Ok(FreeWagon {
        number: wagon(number)?,
        class: class(class_code)?,
        load_limit: 60_000,
        place: place(at)?,
        ready: moment("2026-03-01T00:00:00Z")?,
    })
}
