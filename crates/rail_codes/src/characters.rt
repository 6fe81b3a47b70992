//! Tests of every character of a text.
ghost use Rattle.std.specs.Prelude.{◌≡◌};
ghost use Rattle.std.specs.List.{list_all};
ghost use Rattle.std.specs.Char.{is_ascii_alphabetic, is_ascii_digit, is_ascii_uppercase};

/// Whether each is an ASCII letter.
pub(crate) fn are_letters(characters: &[u8]) -> bool
    ensures { result ≡ list_all is_ascii_alphabetic characters.now }
{
    characters.iter().all(|c| c.is_ascii_alphabetic())
}

/// Whether each is A-Z.
pub(crate) fn are_uppercase_letters(characters: &[u8]) -> bool
    ensures { result ≡ list_all is_ascii_uppercase characters.now }
{
    characters.iter().all(|c| c.is_ascii_uppercase())
}

/// Whether each is an ASCII digit.
pub(crate) fn are_digits(characters: &[u8]) -> bool
    ensures { result ≡ list_all is_ascii_digit characters.now }
{
    characters.iter().all(|c| c.is_ascii_digit())
}
