//! The cells of a row.
ghost use Rattle.std.specs.Prelude.{◌≡◌, ◌++◌, ◌∷◌, [], decimal, IfOk, length, map, OnOk, slice_index_or, string_bytes};
ghost use Rattle.std.specs.List.{join_with_byte};
ghost use Rattle.std.specs.Str.{IsAscii};
ghost use Rattle.text_tables.specs.inner.Joined.{next_part};

use itoa::Buffer;
use line_fields::code_str;
use rail_codes::{Code, Shape, push_ascii};
use std::alloc::{AllocError, Global};
use std::marker::Model;

/// The cells of a row, from the left. A contract sees their texts.
#[derive(Drop)]
pub struct Row {
    cells: Vec<String>,
}

impl Model for Row {
    ghost use Rattle.std.specs.Prelude.{ℕ, List, map, string_bytes};

    ghost Value = { List (List ℕ) };

    ghost view = { λ row. map string_bytes row.cells.items };
}

impl Row {
    /// No cell.
    pub fn new(alloc: Global) -> Row
        ensures { result ≡ [] }
    {
        Row {
            cells: Vec::new(alloc),
        }
    }

    /// How many cells there are.
    pub fn len(&self) -> usize
        ensures { result ≡ length self.now }
    {
        self.cells.len()
    }

    /// Cell `k`; nothing past the last.
    pub fn cell(&self, k: usize) -> &str
        ensures { result.now ≡ slice_index_or self.now k [] }
    {
        match self.cells.get(k) {
            Some(cell) => cell.as_str(),
            None => "",
        }
    }

    /// Adds a cell.
    pub fn push_cell(&mut self, cell: String) -> Result<(), AllocError>
        ensures { OnOk result (self.new ≡ self.old ++ string_bytes cell ∷ []) }
    {
        self.cells.push(cell)?;
        Ok(())
    }

    /// Adds a cell of this text.
    pub fn push(&mut self, text: &str) -> Result<(), AllocError>
        ensures { OnOk result (self.new ≡ self.old ++ text.now ∷ []) }
    {
        let cell = String::from_str(*self.cells.allocator(), text)?;
        self.push_cell(cell)
    }

    /// Adds a cell of these characters.
    pub fn push_code(&mut self, characters: &[u8]) -> Result<(), AllocError>
        requires { IsAscii characters.now }
        ensures { OnOk result (self.new ≡ self.old ++ characters.now ∷ []) }
    {
        let mut cell = String::new(*self.cells.allocator());
        push_ascii(&mut cell, characters)?;
        self.push_cell(cell)
    }

    /// Adds a cell of these codes, parted by spaces.
    pub fn push_words<S: Shape<ROOM>, const ROOM: usize>(
        &mut self,
        codes: &[Code<S, ROOM>],
    ) -> Result<(), AllocError>
        ensures { OnOk result (self.new ≡ self.old ++ join_with_byte 32 codes.now ∷ []) }
    {
        let cell = words(*self.cells.allocator(), codes)?;
        self.push_cell(cell)
    }

    /// Adds a number.
    pub fn push_number(&mut self, number: u64) -> Result<(), AllocError>
        ensures { OnOk result (self.new ≡ self.old ++ decimal number ∷ []) }
    {
        let mut digits = Buffer::new();
        self.push(digits.format(number))
    }
}

/// A row of titles.
pub fn titles_row(alloc: Global, titles: &[&str]) -> Result<Row, AllocError>
    ensures { IfOk result (λ row. row ≡ map (λ title. title.now) titles.now) }
{
    let mut row = Row::new(alloc);
    for title in titles {
        row.push(title)?;
    }
    Ok(row)
}

/// Codes, parted by spaces.
fn words<S: Shape<ROOM>, const ROOM: usize>(
    alloc: Global,
    codes: &[Code<S, ROOM>],
) -> Result<String, AllocError>
    ensures { IfOk result (λ text. string_bytes text ≡ join_with_byte 32 codes.now) }
{
    let mut text = String::new(alloc);
    for k in 0..codes.len() {
        push_next_word(&mut text, k, code_str(&codes[k]))?;
    }
    Ok(text)
}

/// Adds word `k`, behind a space where others stand before it.
fn push_next_word(text: &mut String, k: usize, word: &str) -> Result<(), AllocError>
    ensures { OnOk result (string_bytes text.new ≡ string_bytes text.old ++ next_part 32 k word.now) }
{
    if k == 0 {
        return text.push_str(word);
    }
    text.push_str(" ")?;
    text.push_str(word)
}
