//! The fields of a record: texts, places and whole numbers.
ghost use Rattle.std.specs.Prelude.{◌≡◌, ◌≤◌, ◌<◌, IfSome, length, option_map};
ghost use Rattle.csv_records.specs.Fields.{digits_in, is_text, max_number_digits, whole_number_in, place_in, text_in};

use rail_codes::Place;
use std::str;

/// The most digits of a whole number in a field.
pub const MAX_NUMBER_DIGITS: usize = 7;

/// Whether a field is this text.
pub fn is_text(text: &str, field: &[u8]) -> bool
    ensures { result ≡ is_text text.now field.now }
{
    field == text.as_bytes()
}

/// The field as text, where its bytes are UTF-8.
pub fn text_of(field: &[u8]) -> Option<&str>
    ensures { option_map (λ text. text.now) result ≡ text_in field.now }
{
    str::from_utf8(field).ok()
}

/// The place that a field names.
pub fn place_of(field: &[u8]) -> Option<Place>
    ensures { result ≡ place_in field.now }
{
    let text = str::from_utf8(field).ok()?;
    Place::read(text).ok()
}

/// The whole number that 1 to 7 digits spell.
pub fn whole_number(field: &[u8]) -> Option<u32>
    ensures { result ≡ whole_number_in field.now }
{
    if field.is_empty() || field.len() > MAX_NUMBER_DIGITS {
        return None;
    }
    read_digits(field)
}

/// The number that a field of digits spells.
#[tactic(auto, using(crate::proofs::FieldLemmas::of_digits))]
fn read_digits(field: &[u8]) -> Option<u32>
    requires { length field.now ≤ max_number_digits }
    ensures { result ≡ digits_in field.now }
{
    let mut number = 0;
    for digit in field {
        if !digit.is_ascii_digit() {
            return None;
        }
        number = number * 10 + u32::from(*digit - b'0');
    }
    Some(number)
}
