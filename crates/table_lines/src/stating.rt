//! The table that a line states, by its names.

ghost use Rattle.std.specs.Prelude.{◌≡◌, ◌≤◌, All, length, sum};
ghost use Rattle.cost_table.specs.DistinctNames.{names_or_fault as read_names};
ghost use Rattle.cost_table.specs.TableLimits.{IsNumber, max_cost, max_table_lack, max_table_orders, max_table_wagons};
ghost use Rattle.wagons_and_orders.specs.WantedLimits.{IsLack};
ghost use Rattle.table_lines.specs.TableLine.{IsWithinLimits, table_text};
ghost use Rattle.table_lines.specs.TableCost.{Yields, even_table_of, lacks_in, with_table_fault};
ghost use Rattle.table_lines.specs.StatedTable.{CostsOfPlans, stated_in};

use crate::table_answer::{even_cells, is_too_large, lacks_of};
use crate::table_line::TableLine;
use crate::table_refusal::TableRefusal;
use cost_table::{Cells, Names, TableFault};
use std::alloc::Global;

/// The names and the costs of the table that a line states; its pairs and prices don't matter.
///
/// Else the first refusal: the table is too large (53); a wagon (51) or an order (52) is listed twice; the lists are
/// uneven (54). When out of memory it is `OutOfMemory` (1).
#[tactic(auto, unfolding(crate::specs::StatedTable::stated_in))]
pub fn stated_table(alloc: Global, table: &TableLine) -> Result<(Names, Cells), TableRefusal>
    requires limits { IsWithinLimits table.now }
    ensures meaning { Yields (λ stated. stated) result (stated_in (table_text table.now)) }
    // What the check of a plan of this table answers.
    ensures checked { CostsOfPlans (table_text table.now) }
{
    let lacks = lacks_of(alloc, table)?;
    if is_too_large(table, &lacks) {
        return Err(TableRefusal::Table(TableFault::TooLarge));
    }
    let names = names_of(alloc, table)?;
    let cells = cells_of(alloc, table, lacks)?;
    Ok((names, cells))
}

/// The names of a table.
fn names_of(alloc: Global, table: &TableLine) -> Result<Names, TableRefusal>
    ensures { Yields (λ names. names) result (with_table_fault (read_names table.now.wagons.items table.now.orders.items)) }
{
    let wagons = Vec::from_slice(alloc, &table.wagons)?;
    let orders = Vec::from_slice(alloc, &table.orders)?;
    Ok(Names::new(wagons, orders)?)
}

/// The costs of a table that isn't too large, where its lists are even.
fn cells_of(alloc: Global, table: &TableLine, lacks: Vec<u32>) -> Result<Cells, TableRefusal>
    requires wagons { length table.now.wagons.items ≤ max_table_wagons }
    requires orders { length table.now.orders.items ≤ max_table_orders }
    requires lacked { sum lacks.items ≤ max_table_lack }
    requires costs { All (λ row. All IsNumber row.items) table.now.cells.items }
    requires penalties { All (λ penalty. penalty ≤ max_cost) table.now.penalties.items }
    requires lacks { All IsLack lacks.items }
    requires stated { lacks.items ≡ lacks_in (table_text table.now) }
    ensures { Yields (λ cells. cells) result (even_table_of (table_text table.now)) }
{
    let (wagons, orders) = (table.wagons.len(), table.orders.len());
    let penalties = Vec::from_slice(alloc, &table.penalties)?;
    even_cells(alloc, wagons, orders, &table.cells, penalties, lacks)
}
