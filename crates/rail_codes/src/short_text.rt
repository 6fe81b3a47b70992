//! A short text of ASCII characters in a field of fixed size.
ghost use Rattle.std.specs.Prelude.{◌≡◌, ◌≤◌, length, nat_eq, Some, refl};
ghost use Rattle.std.specs.List.{position, position_or_len};
ghost use Rattle.std.specs.Ordering.{nat_cmp};
ghost use Rattle.std.specs.Cmp.{partial_equiv_from_equiv};
ghost use Rattle.std.specs.Cmp.Lexicographic.{pointwise, slice_cmp, nat_list_eq_equiv, nat_list_cmp_total, texts_po, texts_ties};
ghost use Rattle.std.specs.Cmp.Rules.{hashing};
ghost use Rattle.std.specs.Hash as fed;
ghost use Rattle.std.specs.Str.{IsAscii};
ghost use Rattle.std.proofs.Common.{rules};
ghost use Rattle.rail_codes.specs.inner.ShortText.{HasNoNul, is_nul, padded};

use crate::ascii_order::order_of;
use std::cmp::Ordering;
use std::hash::{Hash, Hasher};
use std::marker::Model;

/// A text of at most `ROOM` ASCII characters other than NUL, which is compared as a text. A contract sees the text.
#[derive(Clone, Copy, Debug)]
pub struct ShortText<const ROOM: usize> {
    // 0 past the text
    bytes: [u8; ROOM],
}

impl<const ROOM: usize> Model for ShortText<ROOM> {
    ghost use Rattle.std.specs.Prelude.{ℕ, List};
    ghost use Rattle.rail_codes.specs.inner.ShortText.{IsPadded, padded, text_in};

    ghost Value = { List ℕ };

    ghost view = { λ t. text_in t.bytes };

    ghost invariant = { λ t. IsPadded ROOM t.bytes };

    ghost inverse = { λ text. record { bytes = padded ROOM text } };

    ghost inverse_ok = { λ t h i. record { bytes = h.2 i } };
}

impl<const ROOM: usize> ShortText<ROOM> {
    /// A text of at most `ROOM` ASCII characters other than NUL.
    pub(crate) fn new(text: &[u8]) -> ShortText<ROOM>
        requires room { length text.now ≤ ROOM }
        requires ascii { IsAscii text.now }
        requires no_nul { HasNoNul text.now }
        ensures { result ≡ text.now }
    {
        ShortText {
            bytes: padded(text),
        }
    }

    /// The bytes of the text.
    pub(crate) fn as_bytes(&self) -> &[u8]
        ensures value { result.now ≡ self.now }
        ensures ascii { IsAscii result.now }
    {
        &self.bytes[..length_of_text(&self.bytes)]
    }

    /// The bytes of a text that leaves no room.
    pub(crate) fn as_array(&self) -> &[u8; ROOM]
        requires { length self.now ≡ ROOM }
        ensures { result.now ≡ self.now }
    {
        &self.bytes
    }
}

/// How many bytes stand before the first 0.
fn length_of_text(bytes: &[u8]) -> usize
    ensures { result ≡ position_or_len is_nul bytes.now }
{
    first_nul(bytes).unwrap_or(bytes.len())
}

/// Where the first 0 stands.
fn first_nul(bytes: &[u8]) -> Option<usize>
    ensures { result ≡ position is_nul bytes.now }
{
    bytes.iter().position(|b| *b == 0)
}

/// The text with 0 behind it.
fn padded<const ROOM: usize>(text: &[u8]) -> [u8; ROOM]
    requires { length text.now ≤ ROOM }
    ensures { result ≡ padded ROOM text.now }
{
    let mut bytes = [0; ROOM];
    bytes[..text.len()].copy_from_slice(text);
    bytes
}

impl<const ROOM: usize> PartialEq for ShortText<ROOM> {
    ghost eq = { pointwise nat_eq };

    ghost laws = { partial_equiv_from_equiv nat_list_eq_equiv };

    fn eq(&self, other: &Self) -> bool {
        self.cmp(other).is_eq()
    }
}

impl<const ROOM: usize> Eq for ShortText<ROOM> {
    ghost laws = { nat_list_eq_equiv };
}

impl<const ROOM: usize> PartialOrd for ShortText<ROOM> {
    ghost partial_cmp = { λ a b. Some (slice_cmp nat_cmp a b) };

    ghost laws = { texts_po };

    fn partial_cmp(&self, other: &Self) -> Option<Ordering> {
        Some(self.cmp(other))
    }
}

impl<const ROOM: usize> Ord for ShortText<ROOM> {
    ghost cmp = { slice_cmp nat_cmp };

    ghost total = { nat_list_cmp_total };

    ghost matches_partial_cmp = { λ a b. refl };

    ghost matches_eq = { texts_ties };

    fn cmp(&self, other: &Self) -> Ordering {
        // the 0 past a text comes before every character
        order_of(&self.bytes, &other.bytes)
    }
}

impl<const ROOM: usize> Hash for ShortText<ROOM> {
    ghost hash_input = { λ text. fed.slice fed.u8 (padded ROOM text) };

    ghost respects_eq = { Prim.search (hashing, rules) };

    fn hash<H: Hasher>(&self, state: &mut H) {
        self.bytes.hash(state);
    }
}
