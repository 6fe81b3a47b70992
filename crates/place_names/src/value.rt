//! The value of a decimal number.
ghost use Rattle.std.specs.Prelude.{◌≡◌, ◌<◌, ◌≤◌, ◌==◌, ◌^◌, length, position, unsigned_abs, IsTrue};
ghost use Rattle.std.specs.Char.{is_ascii_digit};
ghost use Rattle.std.specs.List.{list_all};
ghost use Rattle.place_names.specs.Texts.{are_digits, is_decimal, is_unsigned};
ghost use Rattle.place_names.specs.Values.{fraction_of, is_negative, millionths, number_of, size_of};

use crate::named_place::{after_sign, point_of};

/// A decimal number in millionths.
pub(crate) fn millionths(text: &[u8]) -> i64
    requires { IsTrue (is_decimal text.now) }
    ensures value { result ≡ millionths text.now }
    ensures small { unsigned_abs result < 10000000000000 }
{
    let size = size_of(after_sign(text)) as i64;
    if is_negative(text) { -size } else { size }
}

/// Whether a number has a minus sign.
fn is_negative(text: &[u8]) -> bool
    ensures { result ≡ is_negative text.now }
{
    text.first() == Some(&b'-')
}

/// A number without a sign, in millionths.
fn size_of(text: &[u8]) -> u64
    requires { IsTrue (is_unsigned text.now) }
    ensures value { result ≡ size_of text.now }
    ensures small { result < 10000000000000 }
{
    match point_of(text) {
        Some(k) => number_of(&text[..k]) * 1_000_000 + fraction_of(&text[k + 1..]),
        None => number_of(text) * 1_000_000,
    }
}

/// The millionths that digits behind a point are.
fn fraction_of(digits: &[u8]) -> u64
    requires { IsTrue (are_digits 6 digits.now) }
    ensures value { result ≡ fraction_of digits.now }
    ensures small { result < 1000000 }
{
    number_of(digits) * 10_u64.pow(6 - digits.len() as u32)
}

/// The number that at most seven digits are.
fn number_of(digits: &[u8]) -> u64
    requires digits { IsTrue (list_all is_ascii_digit digits.now) }
    requires short { length digits.now ≤ 7 }
    ensures value { result ≡ number_of digits.now }
    ensures small { result < 10000000 }
    ensures short { result < 10 ^ length digits.now }
{
    let mut number = 0;
    for digit in digits {
        number = number * 10 + u64::from(*digit - b'0');
    }
    number
}
