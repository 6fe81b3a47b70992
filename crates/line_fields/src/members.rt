//! The fields of an object. Nothing is allocated here.

ghost use Rattle.std.specs.Prelude.{◌≡◌, ◌≤◌, IfOk, IfSome, option_map};
ghost use Rattle.serde_json.specs.View.{view};
ghost use Rattle.serde_json.specs.Find.{get};
ghost use Rattle.line_fields.specs.Field.{field_name};
ghost use Rattle.line_fields.specs.Fields.{seen_by};
ghost use Rattle.line_fields.specs.Fields as meaning;
ghost use Rattle.line_fields.specs.Values as values;

use crate::fault::{FieldFault, LineFault};
use crate::field::Field;
use crate::values::{boolean_of, code_from, count_within, number_within, text_of};
use rail_codes::FromText;
use serde_json::Value;

/// The member of an object; `None` where it is missing.
pub(crate) fn optional_member(object: &Value, field: Field) -> Option<&Value>
    ensures { option_map (λ value. view value.now) result
        ≡ get (field_name field) (view object.now) }
{
    object.get(field.name())
}

/// The member of an object; `MissingField` (24) where it is missing.
#[tactic(auto, unfolding(crate::specs::Fields::member))]
pub fn member(object: &Value, field: Field) -> Result<&Value, LineFault>
    ensures { seen_by (λ value. view value.now) result ≡ meaning.member field (view object.now) }
{
    optional_member(object, field).ok_or(LineFault::MissingField(field))
}

/// What a member's value was read as, or its fault as that of the field, `BadField` (25).
pub fn in_field<T>(field: Field, read: Result<T, FieldFault>) -> Result<T, LineFault>
    ensures { result ≡ meaning.in_field field read }
{
    match read {
        Ok(value) => Ok(value),
        Err(fault) => Err(LineFault::BadField(field, fault)),
    }
}

/// A field that is a text.
#[tactic(auto, unfolding(crate::specs::Fields::field_of))]
pub fn text_at(object: &Value, field: Field) -> Result<&str, LineFault>
    ensures { seen_by (λ text. text.now) result
        ≡ meaning.field_of values.text_of field (view object.now) }
{
    in_field(field, text_of(member(object, field)?))
}

/// A field that is true or false.
#[tactic(auto, unfolding(crate::specs::Fields::field_of))]
pub fn boolean_at(object: &Value, field: Field) -> Result<bool, LineFault>
    ensures { result ≡ meaning.field_of values.boolean_of field (view object.now) }
{
    in_field(field, boolean_of(member(object, field)?))
}

/// A field that is a whole number from `low` to `high`.
#[tactic(auto, unfolding(crate::specs::Fields::field_of))]
pub fn number_at(object: &Value, field: Field, low: u64, high: u64) -> Result<u64, LineFault>
    ensures meaning { result
        ≡ meaning.field_of (values.number_within low high) field (view object.now) }
    ensures limits { IfOk result (λ number. (low ≤ number) × (number ≤ high)) }
{
    in_field(field, number_within(member(object, field)?, low, high))
}

/// A field that is a whole number of 32 bits from `low` to `high`.
#[tactic(auto, unfolding(crate::specs::Fields::field_of))]
pub fn count_at(object: &Value, field: Field, low: u32, high: u32) -> Result<u32, LineFault>
    ensures meaning { result
        ≡ meaning.field_of (values.number_within low high) field (view object.now) }
    ensures limits { IfOk result (λ count. (low ≤ count) × (count ≤ high)) }
{
    in_field(field, count_within(member(object, field)?, low, high))
}

/// A field that may be missing, and is else a whole number of 32 bits from `low` to `high`.
#[tactic(auto, unfolding(crate::specs::Fields::optional_field_of))]
pub fn optional_count_at(
    object: &Value,
    field: Field,
    low: u32,
    high: u32,
) -> Result<Option<u32>, LineFault>
    ensures meaning { result
        ≡ meaning.optional_field_of (values.number_within low high) field (view object.now) }
    ensures limits { IfOk result (λ o. IfSome o (λ count. (low ≤ count) × (count ≤ high))) }
{
    match optional_member(object, field) {
        None => Ok(None),
        Some(value) => {
            let count = in_field(field, count_within(value, low, high))?;
            Ok(Some(count))
        }
    }
}

/// A field that is a code or a moment.
#[tactic(auto, unfolding(crate::specs::Fields::field_of))]
pub fn code_at<C: FromText>(object: &Value, field: Field) -> Result<C, LineFault>
    ensures { result ≡ meaning.field_of (values.code_from C.meaning) field (view object.now) }
{
    in_field(field, code_from(member(object, field)?))
}

/// A field that may be missing, and is else a code or a moment.
#[tactic(auto, unfolding(crate::specs::Fields::optional_field_of))]
pub fn optional_code_at<C: FromText>(object: &Value, field: Field) -> Result<Option<C>, LineFault>
    ensures { result ≡ meaning.optional_field_of (values.code_from C.meaning) field (view object.now) }
{
    match optional_member(object, field) {
        None => Ok(None),
        Some(value) => {
            let code = in_field(field, code_from(value))?;
            Ok(Some(code))
        }
    }
}
