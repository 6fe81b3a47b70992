//! The rows of costs of a table line.

ghost use Rattle.std.specs.Prelude.{All, IfOk, Result, map};
ghost use Rattle.serde_json.specs.View.{view, items_view};
ghost use Rattle.line_fields.specs.declared.fault.FieldFault.{FieldFault};
ghost use Rattle.line_fields.specs.Values.{each};
ghost use Rattle.line_fields.specs.Fields.{Gives, in_field};
ghost use Rattle.table_lines.specs.TableLine as meaning;
ghost use Rattle.cost_table.specs.TableLimits.{IsNumber};

use cost_table::MAX_COST;
use line_fields::{
    Field, FieldFault, ItemKind, LineFault, in_field, list_of, list_of_each, member, number_within,
};
use serde_json::Value;
use std::alloc::Global;

/// Costs of cells in km, null where the pair is not allowed.
#[derive(Clone, Copy)]
pub(crate) struct CellKind;

impl ItemKind for CellKind {
    type Item = Option<u64>;

    ghost meaning = { λ _. meaning.cell_of };

    #[tactic(auto, unfolding(crate::specs::TableLine::cell_of))]
    fn read(&self, value: &Value) -> Result<Option<u64>, FieldFault> {
        if value.is_null() {
            return Ok(None);
        }
        let cost = number_within(value, 0, MAX_COST)?;
        Ok(Some(cost))
    }
}

/// Each row of costs, up to the first that is refused.
fn rows_of(alloc: Global, rows: &[Value]) -> Result<Vec<Vec<Option<u64>>>, LineFault>
    ensures { Gives (λ found. map (λ row. row.items) found.items) result
        (in_field Field.Cells (each meaning.row_of (items_view rows.now))) }
{
    let mut found = Vec::with_capacity(alloc, rows.len())?;
    for row in rows {
        let cells = list_of_each(alloc, Field::Cells, &CellKind, row)?;
        found.push_reserved(cells);
    }
    Ok(found)
}

/// The rows of costs, one for each wagon.
#[tactic(auto, unfolding(line_fields::specs::Fields::field_of, line_fields::specs::Values::list_of_each))]
pub(crate) fn cells_at(alloc: Global, object: &Value) -> Result<Vec<Vec<Option<u64>>>, LineFault>
    ensures meaning { Gives (λ rows. map (λ row. row.items) rows.items) result
        (meaning.cells_of (view object.now)) }
    ensures limits { IfOk result (λ rows. All (λ row. All IsNumber row.items) rows.items) }
{
    let value = member(object, Field::Cells)?;
    let rows = in_field(Field::Cells, list_of(value))?;
    rows_of(alloc, rows)
}
