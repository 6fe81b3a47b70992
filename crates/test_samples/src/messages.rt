//! Messages that faults print.

use std::alloc::{AllocError, Global};
use std::fmt::Display;

/// The place of the first fault in a list that prints another message than stands beside it, counted from 0.
pub fn misnamed<E: Display>(
    alloc: Global,
    faults: &[(E, &str)],
) -> Result<Option<usize>, AllocError> {
    for (k, (fault, name)) in faults.iter().enumerate() {
        let message = format!(in alloc; "{fault}")?;
        if message.as_str() != *name {
            return Ok(Some(k));
        }
    }
    Ok(None)
}
