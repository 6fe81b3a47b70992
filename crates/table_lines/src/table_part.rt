//! Table lines, read without their plan.

ghost use Rattle.std.specs.Prelude.{◌≡◌, IfOk};
ghost use Rattle.serde_json.specs.View.{view};
ghost use Rattle.line_fields.specs.Fields.{Gives};
ghost use Rattle.table_lines.specs.TableLine.{IsWithinLimits, table_line_of, table_of, table_text};
ghost use Rattle.table_lines.specs.TablePart.{table_of_line, table_then_plan};

use crate::cells::cells_at;
use crate::lacks::lacks_at;
use crate::table_line::TableLine;
use crate::table_off_tokens::stated_off_tokens;
use cost_table::MAX_COST;
use line_fields::{Field, LineFault, codes_at, numbers_at, object_of};
use serde_json::Value;
use std::alloc::Global;

/// The table that a line states, without pairs and prices, whether the line gives some or not.
///
/// The bytes are no JSON value (21), or no object (22); else the fields are tried in the order
/// wagons, orders, cells, penalties, lacks, and the first that is missing (24) or bad (25) is the
/// answer. `lacks` may be missing. `OutOfMemory` (1) may be the answer in place of any other.
#[tactic(auto, unfolding(crate::specs::TablePart::table_of_line))]
pub fn read_table(alloc: Global, bytes: &[u8]) -> Result<TableLine, LineFault>
    ensures meaning { Gives table_text result (table_of_line bytes.now) }
    ensures limits { IfOk result IsWithinLimits }
    // What `read_table_line` reads is this table, and then its plan.
    ensures agrees { table_line_of bytes.now ≡ table_then_plan bytes.now }
{
    if let Some(table) = stated_off_tokens(alloc, bytes) {
        return Ok(table);
    }
    let object = object_of(alloc, bytes)?;
    table_part(alloc, &object)
}

/// The table that an object states.
#[tactic(auto, unfolding(crate::specs::TableLine::table_of))]
pub(crate) fn table_part(alloc: Global, object: &Value) -> Result<TableLine, LineFault>
    ensures meaning { Gives table_text result (table_of (view object.now)) }
    ensures limits { IfOk result IsWithinLimits }
{
    let wagons = codes_at(alloc, object, Field::Wagons)?;
    let orders = codes_at(alloc, object, Field::Orders)?;
    let cells = cells_at(alloc, object)?;
    let penalties = numbers_at(alloc, object, Field::Penalties, 0, MAX_COST)?;
    let lacks = lacks_at(alloc, object)?;
    Ok(TableLine {
        wagons,
        orders,
        cells,
        penalties,
        lacks,
        pairs: Vec::new(alloc),
        u: Vec::new(alloc),
        v: Vec::new(alloc),
    })
}
