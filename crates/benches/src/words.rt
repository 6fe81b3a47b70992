//! The words that the program is called with.

use anyhow::{Context, Result};

/// The number that a word says.
pub(crate) fn number(words: &[String], place: usize) -> Result<u32> {
    let word = words.get(place).context("a number is missing")?;
    word.parse::<u32>().context("a number is wanted")
}
