//! The parts of a JSON text that has no space between its tokens and no escape in its texts, taken off one after the
//! other.
ghost use Rattle.std.specs.Prelude.{◌≡◌, ◌++◌, ◌∷◌, decimal, take, IfSome};
ghost use Rattle.json.specs.Print.{escape, quoted};
ghost use Rattle.line_fields.specs.inner.PlainTexts as meaning;

/// A number below this fits 64 bits with one digit more.
const MOST_TO_CONTINUE: u64 = 1_000_000_000_000_000_000;

/// The text that stands in quotes behind an opening, and what follows the quotes. `None` where this begins otherwise, or
/// the text has an escape or a control character.
pub fn quoted_after<'a>(text: &'a str, opening: &str) -> Option<(&'a str, &'a str)>
    ensures { IfSome result (λ parts. text.now ≡ opening.now ++ (quoted parts.0.now ++ parts.1.now)) }
{
    let behind = text.strip_prefix(opening)?;
    let open = behind.strip_prefix('"')?;
    let (inside, closing) = open.split_at_checked(plain_len(open.as_bytes()))?;
    let rest = closing.strip_prefix('"')?;
    Some((inside, rest))
}

/// The whole number that stands behind an opening, and what follows the comma behind it. `None` where this begins
/// otherwise, or the number has a zero in front of other digits or over 19 digits.
pub fn number_after<'a>(text: &'a str, opening: &str) -> Option<(u64, &'a str)>
    ensures { IfSome result (λ parts. text.now ≡ opening.now ++ (decimal parts.0 ++ 44 ∷ parts.1.now)) }
{
    let behind = text.strip_prefix(opening)?;
    let (digits, rest) = behind.split_once(',')?;
    let number = decimal_number(digits.as_bytes())?;
    Some((number, rest))
}

/// The number of up to 19 digits that is written so.
fn decimal_number(digits: &[u8]) -> Option<u64>
    ensures { IfSome result (λ number. digits.now ≡ decimal number) }
{
    let [first, others @ ..] = digits else {
        return None;
    };
    if *first == b'0' && digits.len() == 1 {
        return Some(0);
    }
    if *first < b'1' || b'9' < *first {
        return None;
    }
    let mut number = u64::from(*first - b'0');
    for digit in others {
        if *digit < b'0' || b'9' < *digit || MOST_TO_CONTINUE <= number {
            return None;
        }
        number = number * 10 + u64::from(*digit - b'0');
    }
    Some(number)
}

/// How many bytes stand in front of the first quote, backslash or control character. They stand for themselves in
/// quotes.
fn plain_len(bytes: &[u8]) -> usize
    ensures { escape (take result bytes.now) ≡ take result bytes.now }
{
    let mut len = 0;
    while len < bytes.len() && is_plain_byte(bytes[len]) {
        len += 1;
    }
    len
}

/// Whether this is no quote, no backslash and no control character.
fn is_plain_byte(byte: u8) -> bool
    ensures { result ≡ meaning.is_plain byte }
{
    32 <= byte && byte != b'"' && byte != b'\\'
}
