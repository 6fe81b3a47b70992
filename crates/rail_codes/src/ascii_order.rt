//! The order of two ASCII texts.
ghost use Rattle.std.specs.Prelude.{◌≡◌, ◌+◌, ◌*◌, slice_index};
ghost use Rattle.std.specs.Cmp.Lexicographic.{slice_cmp};
ghost use Rattle.std.specs.Ordering.{nat_cmp};
ghost use Rattle.std.specs.Str.{IsAscii};

use std::cmp::Ordering;

/// How two texts are ordered: their first eight bytes as one number, then four more, then three, then the rest. Numbers are
/// compared in place, while the kit's code for texts is called.
pub(crate) fn order_of(text: &[u8], other: &[u8]) -> Ordering
    requires text { IsAscii text.now }
    requires other { IsAscii other.now }
    ensures { result ≡ slice_cmp nat_cmp text.now other.now }
{
    match (
        text.split_first_chunk::<8>(),
        other.split_first_chunk::<8>(),
    ) {
        (Some((first, rest)), Some((other_first, other_rest))) => {
            match u64::from_be_bytes(*first).cmp(&u64::from_be_bytes(*other_first)) {
                Ordering::Equal => order_by_four(rest, other_rest),
                order => order,
            }
        }
        _ => order_by_four(text, other),
    }
}

/// The same: their first four bytes as one number, then the rest.
fn order_by_four(text: &[u8], other: &[u8]) -> Ordering
    requires text { IsAscii text.now }
    requires other { IsAscii other.now }
    ensures { result ≡ slice_cmp nat_cmp text.now other.now }
{
    match (
        text.split_first_chunk::<4>(),
        other.split_first_chunk::<4>(),
    ) {
        (Some((first, rest)), Some((other_first, other_rest))) => {
            match u32::from_be_bytes(*first).cmp(&u32::from_be_bytes(*other_first)) {
                Ordering::Equal => order_by_three(rest, other_rest),
                order => order,
            }
        }
        _ => order_by_three(text, other),
    }
}

/// The same: their first three bytes as one number, then the rest.
fn order_by_three(text: &[u8], other: &[u8]) -> Ordering
    requires text { IsAscii text.now }
    requires other { IsAscii other.now }
    ensures { result ≡ slice_cmp nat_cmp text.now other.now }
{
    match (
        text.split_first_chunk::<3>(),
        other.split_first_chunk::<3>(),
    ) {
        (Some((first, rest)), Some((other_first, other_rest))) => {
            match three_bytes(*first).cmp(&three_bytes(*other_first)) {
                Ordering::Equal => order_of_rest(rest, other_rest),
                order => order,
            }
        }
        _ => order_of_rest(text, other),
    }
}

/// Three bytes as one number, the first of them highest.
fn three_bytes(bytes: [u8; 3]) -> u32
    ensures { result ≡ slice_index bytes 0 * 65536 + slice_index bytes 1 * 256 + slice_index bytes 2 }
{
    u32::from(bytes[0]) * 65536 + u32::from(bytes[1]) * 256 + u32::from(bytes[2])
}

/// The same where mostly nothing is left of either.
fn order_of_rest(text: &[u8], other: &[u8]) -> Ordering
    ensures { result ≡ slice_cmp nat_cmp text.now other.now }
{
    if text.is_empty() && other.is_empty() {
        return Ordering::Equal;
    }
    text.cmp(other)
}
