//! A place with its name and where it lies.
ghost use Rattle.std.specs.Prelude.{◌≡◌, ◌<◌, ◌==◌, IfOk, List, length, option_map, position, drop, chars, unsigned_abs};
ghost use Rattle.std.specs.List.{list_all, list_any};
ghost use Rattle.std.specs.Char.{is_ascii_digit, is_control};
ghost use Rattle.place_names.specs.Records.{coordinates_in, decimal_in, name_in, pair_in};
ghost use Rattle.place_names.specs.Texts.{after_sign, are_digits, is_decimal, is_place_name, is_unsigned};
ghost use Rattle.place_names.specs.Values.{millionths};

use crate::limits::{MAX_FRACTION_DIGITS, MAX_NAME_BYTES, MAX_WHOLE_DIGITS};
use crate::value::millionths;
use csv_records::text_of;
use rail_codes::Place;
use std::alloc::{AllocError, Global};
use std::marker::Model;
use std::str;

/// A place with its name and where it lies.
pub struct NamedPlace {
    /// The place.
    pub place: Place,
    /// Its name, which may be empty.
    pub name: PlaceName,
    /// Where it lies, if that is said.
    pub coordinates: Option<Coordinates>,
}

// Written out, it is proved here once; a derived one, in each crate that drops a value.
impl Drop for NamedPlace {
    fn drop(self) {
        let NamedPlace {
            place: _,
            name: _,
            coordinates: _,
        } = self;
    }
}

/// Where a place lies, in whatever unit its file has.
#[derive(Drop)]
pub struct Coordinates {
    /// How far to the east, or to the right.
    pub x: Decimal,
    /// How far to the north, or up.
    pub y: Decimal,
}

/// A place's name: UTF-8 of at most 60 bytes without a control character; it may be empty. A contract sees its bytes.
#[derive(Drop)]
pub struct PlaceName {
    text: String,
}

impl Model for PlaceName {
    ghost use Rattle.std.specs.Prelude.{ℕ, List, string_bytes, IsTrue};
    ghost use Rattle.place_names.specs.Texts.{is_place_name};

    ghost Value = { List ℕ };

    ghost view = { λ name. string_bytes name.text };

    ghost invariant = { λ name. IsTrue (is_place_name (string_bytes name.text)) };
}

impl PlaceName {
    /// The name that a field is, if it is one.
    pub(crate) fn read(alloc: Global, field: &[u8]) -> Result<Option<PlaceName>, AllocError>
        ensures { IfOk result (λ name. name ≡ name_in field.now) }
    {
        let Some(text) = text_of(field) else {
            return Ok(None);
        };
        if !is_place_name(text) {
            return Ok(None);
        }
        Ok(Some(PlaceName {
            text: String::from_str(alloc, text)?,
        }))
    }

    /// The name.
    pub fn as_str(&self) -> &str
        ensures { result.now ≡ self.now }
    {
        self.text.as_str()
    }
}

/// A decimal number as it was written: a minus sign or none, 1 to 7 digits, and 1 to 6 digits behind a point, if there is
/// one. A contract sees its characters.
#[derive(Drop)]
pub struct Decimal {
    text: String,
}

impl Model for Decimal {
    ghost use Rattle.std.specs.Prelude.{ℕ, List, string_bytes, IsTrue};
    ghost use Rattle.place_names.specs.Texts.{is_decimal};

    ghost Value = { List ℕ };

    ghost view = { λ number. string_bytes number.text };

    ghost invariant = { λ number. IsTrue (is_decimal (string_bytes number.text)) };
}

impl Decimal {
    /// The decimal number that a field is, if it is one.
    fn read(alloc: Global, field: &[u8]) -> Result<Option<Decimal>, AllocError>
        ensures { IfOk result (λ number. number ≡ decimal_in field.now) }
    {
        let Some(text) = text_of(field) else {
            return Ok(None);
        };
        if !is_decimal(text.as_bytes()) {
            return Ok(None);
        }
        Ok(Some(Decimal {
            text: String::from_str(alloc, text)?,
        }))
    }

    /// The number as text.
    pub fn as_str(&self) -> &str
        ensures { result.now ≡ self.now }
    {
        self.text.as_str()
    }
}

impl Decimal {
    /// The number in millionths, exactly.
    pub fn millionths(&self) -> i64
        ensures value { result ≡ millionths self.now }
        ensures small { unsigned_abs result < 10000000000000 }
    {
        millionths(self.text.as_bytes())
    }
}

impl Coordinates {
    /// The coordinates that two fields say, none where both are empty; `None` where they are no coordinates.
    pub(crate) fn read(
        alloc: Global,
        x: &[u8],
        y: &[u8],
    ) -> Result<Option<Option<Coordinates>>, AllocError>
        ensures { IfOk result (λ coordinates. coordinates ≡ coordinates_in x.now y.now) }
    {
        if x.is_empty() && y.is_empty() {
            return Ok(Some(None));
        }
        match Coordinates::read_both(alloc, x, y)? {
            Some(coordinates) => Ok(Some(Some(coordinates))),
            None => Ok(None),
        }
    }

    /// The coordinates that two numbers are.
    fn read_both(alloc: Global, x: &[u8], y: &[u8]) -> Result<Option<Coordinates>, AllocError>
        ensures { IfOk result (λ coordinates. coordinates ≡ pair_in x.now y.now) }
    {
        let Some(x) = Decimal::read(alloc, x)? else {
            return Ok(None);
        };
        let Some(y) = Decimal::read(alloc, y)? else {
            return Ok(None);
        };
        Ok(Some(Coordinates { x, y }))
    }
}

/// Whether a text is a name.
fn is_place_name(text: &str) -> bool
    ensures { result ≡ is_place_name text.now }
{
    text.len() <= MAX_NAME_BYTES && !has_control(text)
}

/// Whether a text has a control character.
fn has_control(text: &str) -> bool
    ensures { result ≡ list_any is_control (chars text.now) }
{
    text.chars().any(|c| c.is_control())
}

/// Whether a field is a decimal number.
fn is_decimal(field: &[u8]) -> bool
    ensures { result ≡ is_decimal field.now }
{
    is_unsigned(after_sign(field))
}

/// A field behind its minus sign, if it has one.
pub(crate) fn after_sign(field: &[u8]) -> &[u8]
    ensures { result.now ≡ after_sign field.now }
{
    match field.split_first() {
        Some((b'-', rest)) => rest,
        _ => field,
    }
}

/// Whether a field is a decimal number without a sign.
fn is_unsigned(field: &[u8]) -> bool
    ensures { result ≡ is_unsigned field.now }
{
    match point_of(field) {
        Some(k) => {
            are_digits(MAX_WHOLE_DIGITS, &field[..k])
                && are_digits(MAX_FRACTION_DIGITS, &field[k + 1..])
        }
        None => are_digits(MAX_WHOLE_DIGITS, field),
    }
}

/// Where the point stands.
pub(crate) fn point_of(field: &[u8]) -> Option<usize>
    ensures { result ≡ position (λ b. b == 46) field.now }
{
    field.iter().position(|b| *b == b'.')
}

/// Whether these are 1 to `most` digits.
fn are_digits(most: usize, field: &[u8]) -> bool
    ensures { result ≡ are_digits most field.now }
{
    1 <= field.len() && field.len() <= most && all_digits(field)
}

/// Whether each is a digit.
fn all_digits(field: &[u8]) -> bool
    ensures { result ≡ list_all is_ascii_digit field.now }
{
    field.iter().all(|b| b.is_ascii_digit())
}
