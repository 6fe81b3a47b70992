//! Table lines, read field by field.

ghost use Rattle.std.specs.Prelude.{IfOk};
ghost use Rattle.serde_json.specs.View.{view};
ghost use Rattle.line_fields.specs.Fields.{Gives};
ghost use Rattle.table_lines.specs.TableLine.{IsWithinLimits, table_text, table_text_of, table_line_of};

use crate::table_line::TableLine;
use crate::table_off_tokens::planned_off_tokens;
use crate::table_part::table_part;
use line_fields::{Field, LineFault, numbers_at, object_of, pairs_at};
use serde_json::Value;
use std::alloc::Global;

/// The table that a line gives.
///
/// The bytes are no JSON value (21), or no object (22); else the fields are tried in the order
/// wagons, orders, cells, penalties, lacks, pairs, u, v, and the first that is missing (24) or bad
/// (25) is the answer. `lacks` may be missing. `OutOfMemory` (1) may be the
/// answer in place of any other.
#[tactic(auto, unfolding(crate::specs::TableLine::table_line_of))]
pub fn read_table_line(alloc: Global, bytes: &[u8]) -> Result<TableLine, LineFault>
    ensures meaning { Gives table_text result (table_line_of bytes.now) }
    ensures limits { IfOk result IsWithinLimits }
{
    if let Some(table) = planned_off_tokens(alloc, bytes) {
        return Ok(table);
    }
    let object = object_of(alloc, bytes)?;
    table_of(alloc, &object)
}

/// The table that an object gives.
#[tactic(auto, unfolding(crate::specs::TableLine::table_text_of, crate::specs::TableLine::with_plan_of))]
fn table_of(alloc: Global, object: &Value) -> Result<TableLine, LineFault>
    ensures meaning { Gives table_text result (table_text_of (view object.now)) }
    ensures limits { IfOk result IsWithinLimits }
{
    let mut table = table_part(alloc, object)?;
    table.pairs = pairs_at(alloc, object, Field::Pairs)?;
    table.u = numbers_at(alloc, object, Field::WagonPrices, 0, u64::MAX)?;
    table.v = numbers_at(alloc, object, Field::OrderPrices, 0, u64::MAX)?;
    Ok(table)
}
