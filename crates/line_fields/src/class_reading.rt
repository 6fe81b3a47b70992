//! The classes of an order, read from a line.

ghost use Rattle.std.specs.Prelude.{◌≡◌, ◌<◌, [], ◌∷◌, length};
ghost use Rattle.serde_json.specs.View.{view, items_view};
ghost use Rattle.line_fields.specs.Fields.{field_of};
ghost use Rattle.line_fields.specs.Values.{each, class_from};
ghost use Rattle.line_fields.specs.inner.Loops.{with_front};
ghost use Rattle.line_fields.specs.declared.field.Field.TheVariants as field;
ghost use Rattle.move_messages.specs.Classes.{max_classes};
ghost use Rattle.line_fields.specs.Commands as meaning;

use crate::{Field, FieldFault, LineFault, code_from, in_field, list_within, member};
use move_messages::{Classes, MAX_CLASSES};
use rail_codes::ClassCode;
use serde_json::Value;

/// The classes, in the field of that name.
#[tactic(auto, unfolding(crate::specs::Fields::field_of))]
pub(crate) fn classes_at(object: &Value) -> Result<Classes, LineFault>
    ensures { result ≡ field_of meaning.classes_from field.Classes (view object.now) }
{
    in_field(
        Field::Classes,
        classes_from(member(object, Field::Classes)?),
    )
}

/// 1 to 8 classes. What is no list is `WrongKind` (19), a list of another count `OutOfRange` (20),
/// and the first item that is refused has its own fault.
#[tactic(auto, unfolding(crate::specs::Commands::classes_from, crate::specs::Values::list_within, crate::specs::Values::each))]
fn classes_from(value: &Value) -> Result<Classes, FieldFault>
    ensures { result ≡ meaning.classes_from (view value.now) }
{
    let items = list_within(value, 1, MAX_CLASSES)?;
    let [first, rest @ ..] = items else {
        return Err(FieldFault::OutOfRange);
    };
    let first: ClassCode = code_from(first)?;
    with_more_classes(first, rest)
}

/// The class and those behind it, up to the first that is refused.
fn with_more_classes(first: ClassCode, rest: &[Value]) -> Result<Classes, FieldFault>
    requires { length rest.now < max_classes }
    ensures { result ≡ with_front (first ∷ []) (each class_from (items_view rest.now)) }
{
    let mut classes = Classes::one(first);
    for item in rest {
        let class: ClassCode = code_from(item)?;
        classes.push(class);
    }
    Ok(classes)
}
