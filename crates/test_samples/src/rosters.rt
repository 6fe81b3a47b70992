//! Rosters and lists of many wagons.

use crate::texts::ROSTER_HEADER;
use rail_codes::WagonNumber;
use std::alloc::{AllocError, Global};

/// The number of a wagon whose first eleven digits spell this serial number.
pub fn wagon_text(alloc: Global, serial: u32) -> Result<String, AllocError> {
    for check_digit in 0..9 {
        let number = format!(in alloc; "{serial:011}{check_digit}")?;
        if WagonNumber::read(&number).is_ok() {
            return Ok(number);
        }
    }
    format!(in alloc; "{serial:011}9")
}

/// A roster of so many wagons of class `Eanos` at DE00001 with this status word.
pub fn roster_of(alloc: Global, count: u32, status: &str) -> Result<String, AllocError> {
    let mut text = String::new(alloc);
    text.push_str(ROSTER_HEADER)?;
    for serial in 0..count {
        let number = wagon_text(alloc, serial)?;
        let record = format!(in alloc; "{number},Eanos,0,{status},DE00001,2026-03-01T00:00:00Z\n")?;
        text.push_str(&record)?;
    }
    Ok(text)
}

/// So many wagon numbers, as a list in JSON.
pub fn numbers_list(alloc: Global, count: u32) -> Result<String, AllocError> {
    let mut text = String::new(alloc);
    for serial in 0..count {
        let number = wagon_text(alloc, serial)?;
        text.push_str(if serial == 0 { "[\"" } else { "\",\"" })?;
        text.push_str(&number)?;
    }
    text.push_str(if count == 0 { "[]" } else { "\"]" })?;
    Ok(text)
}
