//! Wagon numbers.
ghost use Rattle.std.specs.Prelude.{◌≡◌, ◌≤◌, ◌*◌, ℕ, ◌%◌, ◌↔◌, IsTrue, if◌then◌else◌, Some, None, Ok, IsOk, IfOk, IfSome, List, take, string_bytes};
ghost use Rattle.rail_codes.specs.inner.CheckDigit.{missing_to_ten};
ghost use Rattle.rail_codes.specs.WagonNumber.{kept_characters, are_twelve_digits, digit_sum, weighted_digit_sum, wagon_number_of, IsWagonNumber};
ghost use Rattle.rail_codes.specs.inner.WagonTexts.{wagon_number_of-IsWagonNumber};

use crate::CodeFault;
use crate::characters::are_digits;
use crate::code::{Code, Shape};
use crate::short_text::ShortText;

/// A wagon's twelve-digit number: two digits of interoperability code, two of country, four of
/// technical characteristics, three of serial number and a check digit. Only the length and the
/// check digit are judged. Where one is read, spaces and hyphens are ignored wherever they stand.
///
/// A text is refused with `NotTwelveDigits` (11) where its other characters are not twelve ASCII
/// digits, else with `CheckDigit` (12) where the check digit is wrong.
pub type WagonNumber = Code<WagonShape, 12>;

/// The shape of a wagon's number.
pub struct WagonShape;

impl Shape<12> for WagonShape {
    ghost HasShape = { IsWagonNumber };

    ghost kept = { kept_characters };

    ghost code_of = { wagon_number_of };

    fn read(text: &[u8]) -> Result<ShortText<12>, CodeFault> {
        let Some(digits) = twelve_digits(text) else {
            return Err(CodeFault::NotTwelveDigits);
        };
        if !ends_in_check_digit(&digits) {
            return Err(CodeFault::CheckDigit);
        }
        Ok(ShortText::new(&digits))
    }

    ghost reads_back = { wagon_number_of-IsWagonNumber };
}

impl Code<WagonShape, 12> {
    /// The twelve ASCII digits.
    pub fn digits(&self) -> &[u8; 12]
        ensures value { result.now ≡ self.now }
        ensures valid { IsWagonNumber result.now }
    {
        self.as_array()
    }
}

/// The characters of a text that are neither spaces nor hyphens, where they are twelve digits.
fn twelve_digits(text: &[u8]) -> Option<[u8; 12]>
    ensures meaning { result ≡ (if are_twelve_digits (kept_characters text.now) then Some (kept_characters text.now) else None) }
    ensures digits { IfSome result (λ digits. IsTrue (are_twelve_digits digits)) }
{
    match plain_digits(text) {
        Some(digits) => Some(digits),
        None => kept_digits(text),
    }
}

/// A text of twelve digits and nothing else, as most are: read at once, where
/// `kept_digits` goes byte by byte.
fn plain_digits(text: &[u8]) -> Option<[u8; 12]>
    ensures { IfSome result (λ digits. (digits ≡ text.now) × IsTrue (are_twelve_digits digits)) }
{
    let digits = <[u8; 12]>::try_from(text).ok()?;
    if are_digits(&digits) {
        Some(digits)
    } else {
        None
    }
}

/// The same as `twelve_digits`, for any text.
fn kept_digits(text: &[u8]) -> Option<[u8; 12]>
    ensures meaning { result ≡ (if are_twelve_digits (kept_characters text.now) then Some (kept_characters text.now) else None) }
    ensures digits { IfSome result (λ digits. IsTrue (are_twelve_digits digits)) }
{
    let mut digits = [b'0'; 12];
    let mut count = 0;
    for byte in text {
        if *byte == b' ' || *byte == b'-' {
            continue;
        }
        if count == 12 || !byte.is_ascii_digit() {
            return None;
        }
        digits[count] = *byte;
        count += 1;
    }
    if count == 12 { Some(digits) } else { None }
}

/// Whether the last digit is the check digit of the first eleven.
fn ends_in_check_digit(digits: &[u8; 12]) -> bool
    requires { IsTrue (are_twelve_digits digits.now) }
    ensures { IsTrue result ↔ (weighted_digit_sum digits.now % 10 ≡ 0) }
{
    check_digit(digits) == digits[11] - b'0'
}

/// The digit that brings the weighted digit sum of the first eleven digits to the next multiple of
/// ten.
fn check_digit(digits: &[u8; 12]) -> u8
    requires { IsTrue (are_twelve_digits digits.now) }
    ensures { result ≡ missing_to_ten (weighted_digit_sum (take 11 digits.now)) }
{
    let mut sum = 0;
    let mut weight = 2;
    for digit in &digits[..11] {
        sum += weighted_digit(weight, *digit - b'0');
        weight = 3 - weight;
    }
    (10 - sum % 10) % 10
}

/// The two decimal digits of a weight's product with a digit, added.
fn weighted_digit(weight: u8, digit: u8) -> u8
    requires weight { (1 ≤ weight) × (weight ≤ 2) }
    requires digit { digit ≤ 9 }
    ensures { result ≡ digit_sum (weight * digit) }
{
    if weight == 1 {
        digit
    } else if digit > 4 {
        2 * digit - 9
    } else {
        2 * digit
    }
}
