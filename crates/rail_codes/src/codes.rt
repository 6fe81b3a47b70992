//! Classes, companies, order names and places.
ghost use Rattle.std.specs.Prelude.{◌≡◌};
ghost use Rattle.std.specs.List.{list_all};
ghost use Rattle.std.proofs.Common.{rules};
ghost use Rattle.rail_codes.specs.ClassCode.{is_class_code, class_code_of, IsClassCode};
ghost use Rattle.rail_codes.specs.Company.{is_company, is_company_character, company_of, IsCompany};
ghost use Rattle.rail_codes.specs.OrderId.{is_order_id, is_order_character, order_id_of, IsOrderId};
ghost use Rattle.rail_codes.specs.Place.{is_place, place_read, IsPlace};

use crate::CodeFault;
use crate::characters::{are_digits, are_letters, are_uppercase_letters};
use crate::code::{Code, Shape};
use crate::short_text::ShortText;

/// The most letters of a class; it has one at least.
const MAX_CLASS_LETTERS: usize = 12;

/// The most characters of an order's name; it has one at least.
const MAX_ORDER_ID_CHARACTERS: usize = 16;

/// A wagon's class: 1 to 12 ASCII letters, whose meaning is not judged. Classes are compared with
/// case. Another text is refused with `BadClass` (14).
pub type ClassCode = Code<ClassShape, MAX_CLASS_LETTERS>;

/// A company's code: four characters, each 0-9 or A-Z. Another text is refused with `BadCompany`
/// (15).
pub type Company = Code<CompanyShape, 4>;

/// An order's name: 1 to 16 characters, each A-Z, 0-9 or hyphen. Another text is refused with
/// `BadOrderId` (16).
pub type OrderId = Code<OrderIdShape, MAX_ORDER_ID_CHARACTERS>;

/// A place: two letters A-Z for its country and five digits, as a primary location code has them.
/// Another text is refused with `BadPlace` (13).
pub type Place = Code<PlaceShape, 7>;

/// The shape of a class.
pub struct ClassShape;

impl Shape<MAX_CLASS_LETTERS> for ClassShape {
    ghost HasShape = { IsClassCode };

    ghost code_of = { class_code_of };

    fn read(text: &[u8]) -> Result<ShortText<MAX_CLASS_LETTERS>, CodeFault> {
        if !is_class_code(text) {
            return Err(CodeFault::BadClass);
        }
        Ok(ShortText::new(text))
    }

    ghost reads_back = { Prim.search rules };
}

/// Whether these are 1 to 12 ASCII letters.
fn is_class_code(letters: &[u8]) -> bool
    ensures { result ≡ is_class_code letters.now }
{
    1 <= letters.len() && letters.len() <= MAX_CLASS_LETTERS && are_letters(letters)
}

/// The shape of a company's code.
pub struct CompanyShape;

impl Shape<4> for CompanyShape {
    ghost HasShape = { IsCompany };

    ghost code_of = { company_of };

    fn read(text: &[u8]) -> Result<ShortText<4>, CodeFault> {
        if !is_company(text) {
            return Err(CodeFault::BadCompany);
        }
        Ok(ShortText::new(text))
    }

    ghost reads_back = { Prim.search rules };
}

/// Whether there are four, each 0-9 or A-Z.
fn is_company(characters: &[u8]) -> bool
    ensures { result ≡ is_company characters.now }
{
    characters.len() == 4 && are_company_characters(characters)
}

/// Whether each is 0-9 or A-Z.
fn are_company_characters(characters: &[u8]) -> bool
    ensures { result ≡ list_all is_company_character characters.now }
{
    characters.iter().all(|c| is_company_character(*c))
}

/// Whether it is 0-9 or A-Z.
fn is_company_character(c: u8) -> bool
    ensures { result ≡ is_company_character c }
{
    c.is_ascii_digit() || c.is_ascii_uppercase()
}

/// The shape of an order's name.
pub struct OrderIdShape;

impl Shape<MAX_ORDER_ID_CHARACTERS> for OrderIdShape {
    ghost HasShape = { IsOrderId };

    ghost code_of = { order_id_of };

    fn read(text: &[u8]) -> Result<ShortText<MAX_ORDER_ID_CHARACTERS>, CodeFault> {
        if !is_order_id(text) {
            return Err(CodeFault::BadOrderId);
        }
        Ok(ShortText::new(text))
    }

    ghost reads_back = { Prim.search rules };
}

/// Whether these are 1 to 16 characters of an order's name.
fn is_order_id(characters: &[u8]) -> bool
    ensures { result ≡ is_order_id characters.now }
{
    1 <= characters.len()
        && characters.len() <= MAX_ORDER_ID_CHARACTERS
        && are_order_characters(characters)
}

/// Whether each is A-Z, 0-9 or a hyphen.
fn are_order_characters(characters: &[u8]) -> bool
    ensures { result ≡ list_all is_order_character characters.now }
{
    characters.iter().all(|c| is_order_character(*c))
}

/// Whether it is A-Z, 0-9 or a hyphen.
fn is_order_character(c: u8) -> bool
    ensures { result ≡ is_order_character c }
{
    c.is_ascii_uppercase() || c.is_ascii_digit() || c == b'-'
}

/// The shape of a place.
pub struct PlaceShape;

impl Shape<7> for PlaceShape {
    ghost HasShape = { IsPlace };

    ghost code_of = { place_read };

    fn read(text: &[u8]) -> Result<ShortText<7>, CodeFault> {
        if !is_place(text) {
            return Err(CodeFault::BadPlace);
        }
        Ok(ShortText::new(text))
    }

    ghost reads_back = { Prim.search rules };
}

/// Whether these are two letters A-Z and five digits.
fn is_place(characters: &[u8]) -> bool
    ensures { result ≡ is_place characters.now }
{
    characters.len() == 7 && are_uppercase_letters(&characters[..2]) && are_digits(&characters[2..])
}
