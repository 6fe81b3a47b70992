//! What one JSON value is read as. Nothing is allocated here.

ghost use Rattle.std.specs.Prelude.{◌≡◌, ◌≤◌, IfOk, length};
ghost use Rattle.serde_json.specs.View.{view, items_view};
ghost use Rattle.line_fields.specs.Fields.{seen_by};
ghost use Rattle.line_fields.specs.Values as meaning;

use crate::fault::FieldFault;
use rail_codes::FromText;
use serde_json::Value;

/// A text. Any other value, null among them, is `WrongKind` (19).
#[tactic(auto, unfolding(crate::specs::Values::text_of))]
pub(crate) fn text_of(value: &Value) -> Result<&str, FieldFault>
    ensures { seen_by (λ text. text.now) result ≡ meaning.text_of (view value.now) }
{
    value.as_str().ok_or(FieldFault::WrongKind)
}

/// True or false. Any other value is `WrongKind` (19).
#[tactic(auto, unfolding(crate::specs::Values::boolean_of))]
pub(crate) fn boolean_of(value: &Value) -> Result<bool, FieldFault>
    ensures { result ≡ meaning.boolean_of (view value.now) }
{
    value.as_bool().ok_or(FieldFault::WrongKind)
}

/// A whole number from `low` to `high`. What is no whole number from 0 to 2^64 - 1 is `WrongKind`
/// (19), and one outside the limits `OutOfRange` (20).
#[tactic(auto, unfolding(crate::specs::Values::number_within))]
pub fn number_within(value: &Value, low: u64, high: u64) -> Result<u64, FieldFault>
    ensures meaning { result ≡ meaning.number_within low high (view value.now) }
    ensures limits { IfOk result (λ number. (low ≤ number) × (number ≤ high)) }
{
    let number = value.as_u64().ok_or(FieldFault::WrongKind)?;
    if low <= number && number <= high {
        Ok(number)
    } else {
        Err(FieldFault::OutOfRange)
    }
}

/// A whole number from `low` to `high`, as `number_within` reads it.
#[tactic(auto, unfolding(crate::specs::Values::number_within))]
pub(crate) fn count_within(value: &Value, low: u32, high: u32) -> Result<u32, FieldFault>
    ensures meaning { result ≡ meaning.number_within low high (view value.now) }
    ensures limits { IfOk result (λ count. (low ≤ count) × (count ≤ high)) }
{
    let number = number_within(value, u64::from(low), u64::from(high))?;
    u32::try_from(number).map_err(|_| FieldFault::OutOfRange)
}

/// A code or a moment. What is no text is `WrongKind` (19), and another text has its own fault (11 to 18).
#[tactic(auto, unfolding(crate::specs::Values::code_from))]
pub fn code_from<C: FromText>(value: &Value) -> Result<C, FieldFault>
    ensures { result ≡ meaning.code_from C.meaning (view value.now) }
{
    let text = text_of(value)?;
    C::from_text(text).map_err(FieldFault::Code)
}

/// The items of a list. Any other value is `WrongKind` (19).
#[tactic(auto, unfolding(crate::specs::Values::list_of))]
pub fn list_of(value: &Value) -> Result<&[Value], FieldFault>
    ensures { seen_by (λ items. items_view items.now) result ≡ meaning.list_of (view value.now) }
{
    let items = value.as_array().ok_or(FieldFault::WrongKind)?;
    Ok(items.as_slice())
}

/// The items of a list of `low` to `high` items. What is no list is `WrongKind` (19), and a list of
/// another count `OutOfRange` (20).
#[tactic(auto, using(crate::proofs::Items::items_len_is_length), unfolding(crate::specs::Values::list_within))]
pub fn list_within(value: &Value, low: usize, high: usize) -> Result<&[Value], FieldFault>
    ensures meaning { seen_by (λ items. items_view items.now) result
        ≡ meaning.list_within low high (view value.now) }
    ensures count { IfOk result (λ items. (low ≤ length items.now) × (length items.now ≤ high)) }
{
    let items = list_of(value)?;
    if low <= items.len() && items.len() <= high {
        Ok(items)
    } else {
        Err(FieldFault::OutOfRange)
    }
}
