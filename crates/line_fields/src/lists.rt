//! Fields that are lists. The items are read in turn, and the first that is refused gives the
//! fault. `OutOfMemory` (1) may be the answer in place of any other.

ghost use Rattle.std.specs.Prelude.{◌≡◌, ◌≤◌, Ok, All, IfOk, option_map};
ghost use Rattle.std.specs.List.{AllZip};
ghost use Rattle.serde_json.specs.View.{view, items_view};
ghost use Rattle.line_fields.specs.Fields.{Gives};
ghost use Rattle.line_fields.specs.Fields as meaning;
ghost use Rattle.line_fields.specs.Values as values;

use crate::fault::LineFault;
use crate::field::Field;
use crate::kind::{CodeKind, ItemKind, NumberKind, PairKind};
use crate::members::{in_field, member, optional_member};
use crate::values::list_of;
use rail_codes::{FromText, OrderId, WagonNumber};
use serde_json::Value;
use std::alloc::Global;
use std::marker::PhantomData;

/// Each of the items, up to the first that is refused: `BadField` (25).
pub(crate) fn each<K: ItemKind>(
    alloc: Global,
    field: Field,
    kind: &K,
    items: &[Value],
) -> Result<Vec<K::Item>, LineFault>
    ensures meaning { Gives (λ v. v.items) result
        (meaning.in_field field (values.each (K.meaning kind.now) (items_view items.now))) }
    // As many as the items, each read from the one in its place.
    ensures in_place { IfOk result
        (λ v. AllZip (λ item x. K.meaning kind.now (view item) ≡ Ok x) items.now v.items) }
{
    let mut found = Vec::with_capacity(alloc, items.len())?;
    for item in items {
        let read = in_field(field, kind.read(item))?;
        found.push_reserved(read);
    }
    Ok(found)
}

/// The value of a field that is a list of any length. What is no list, and the first item that is
/// refused, is `BadField` (25).
#[tactic(auto, unfolding(crate::specs::Values::list_of_each))]
pub fn list_of_each<K: ItemKind>(
    alloc: Global,
    field: Field,
    kind: &K,
    value: &Value,
) -> Result<Vec<K::Item>, LineFault>
    ensures { Gives (λ v. v.items) result
        (meaning.in_field field (values.list_of_each (K.meaning kind.now) (view value.now))) }
{
    let items = in_field(field, list_of(value))?;
    each(alloc, field, kind, items)
}

/// A field that is a list of any length: `MissingField` (24) or `BadField` (25) where it is not.
#[tactic(auto, unfolding(crate::specs::Fields::field_of))]
pub(crate) fn list_at<K: ItemKind>(
    alloc: Global,
    object: &Value,
    field: Field,
    kind: &K,
) -> Result<Vec<K::Item>, LineFault>
    ensures { Gives (λ v. v.items) result
        (meaning.list_at (K.meaning kind.now) field (view object.now)) }
{
    list_of_each(alloc, field, kind, member(object, field)?)
}

/// A field that may be missing, and is else a list of any length, or `BadField` (25).
#[tactic(auto, unfolding(crate::specs::Fields::optional_field_of))]
pub fn optional_list_at<K: ItemKind>(
    alloc: Global,
    object: &Value,
    field: Field,
    kind: &K,
) -> Result<Option<Vec<K::Item>>, LineFault>
    ensures { Gives (λ found. option_map (λ v. v.items) found) result
        (meaning.optional_list_at (K.meaning kind.now) field (view object.now)) }
{
    match optional_member(object, field) {
        None => Ok(None),
        Some(value) => {
            let found = list_of_each(alloc, field, kind, value)?;
            Ok(Some(found))
        }
    }
}

/// A field that is a list of codes of one type.
pub fn codes_at<C: FromText>(
    alloc: Global,
    object: &Value,
    field: Field,
) -> Result<Vec<C>, LineFault>
    ensures { Gives (λ v. v.items) result
        (meaning.list_at (values.code_from C.meaning) field (view object.now)) }
{
    list_at(alloc, object, field, &CodeKind { code: PhantomData })
}

/// A field that is a list of whole numbers from `low` to `high`.
pub fn numbers_at(
    alloc: Global,
    object: &Value,
    field: Field,
    low: u64,
    high: u64,
) -> Result<Vec<u64>, LineFault>
    ensures meaning { Gives (λ v. v.items) result
        (meaning.list_at (values.number_within low high) field (view object.now)) }
    ensures limits { IfOk result (λ v. All (λ n. (low ≤ n) × (n ≤ high)) v.items) }
{
    list_at(alloc, object, field, &NumberKind { low, high })
}

/// A field that is a list of pairs of a wagon and an order, each a list of two texts.
pub fn pairs_at(
    alloc: Global,
    object: &Value,
    field: Field,
) -> Result<Vec<(WagonNumber, OrderId)>, LineFault>
    ensures { Gives (λ v. v.items) result (meaning.list_at values.wagon_and_order field (view object.now)) }
{
    list_at(alloc, object, field, &PairKind)
}
