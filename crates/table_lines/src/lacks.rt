//! How many wagons each order of a table line lacks.

ghost use Rattle.std.specs.Prelude.{All, IfOk, IfSome, option_map};
ghost use Rattle.serde_json.specs.View.{view};
ghost use Rattle.line_fields.specs.Fields.{Gives};
ghost use Rattle.table_lines.specs.TableLine as meaning;
ghost use Rattle.wagons_and_orders.specs.WantedLimits.{IsLack};

use line_fields::{CountKind, Field, LineFault, optional_list_at};
use move_messages::MAX_ORDER_WAGONS;
use serde_json::Value;
use std::alloc::Global;

/// How many wagons each order lacks, where the field is there.
pub(crate) fn lacks_at(alloc: Global, object: &Value) -> Result<Option<Vec<u32>>, LineFault>
    ensures meaning { Gives (λ lacks. option_map (λ list. list.items) lacks) result
        (meaning.lacks_field (view object.now)) }
    ensures limits { IfOk result (λ lacks. IfSome lacks (λ list. All IsLack list.items)) }
{
    let kind = CountKind {
        low: 1,
        high: MAX_ORDER_WAGONS,
    };
    optional_list_at(alloc, object, Field::Lacks, &kind)
}
