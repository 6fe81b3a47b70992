//! What a table line is answered.
ghost use Rattle.std.specs.Prelude.{◌≡◌, ◌<◌, ◌≤◌, All, IfOk, IfSome, map, sum, nat_lt};
ghost use Rattle.cost_table.specs.TableLimits.{IsNumber, max_cost, max_table_lack, max_table_orders, max_table_wagons};
ghost use Rattle.wagons_and_orders.specs.WantedLimits.{IsLack};
ghost use Rattle.table_lines.specs.TableLine.{IsWithinLimits, table_text};
ghost use Rattle.table_lines.specs.TableCost.{Yields, lacks_in, is_too_large as is_large, even_table, cost_of_text, cost_of_line, IsCertified, CertifiesLine};

use crate::table_line::TableLine;
use crate::table_reading::read_table_line;
use crate::table_refusal::TableRefusal;
use cost_table::{Cells, MAX_TABLE_LACK, MAX_TABLE_ORDERS, MAX_TABLE_WAGONS, Names, TableFault};
use price_checker::{Prices, check_named};
use rail_codes::{OrderId, WagonNumber};
use std::alloc::{AllocError, Global};

/// The cost of the plan of a table line, in kilometres, where its pairs and prices are a certificate of its table.
///
/// Else the first refusal: the line is no table line (21, 22, 24, 25); the table is too large (53); a wagon (51) or an
/// order (52) is listed twice; the lists are uneven (54); a pair isn't named (84); what the price checker refuses (61
/// to 66). When out of memory it is `OutOfMemory` (1).
#[tactic(auto, unfolding(crate::specs::TableCost::cost_of_line))]
pub fn table_cost(alloc: Global, line: &[u8]) -> Result<u128, TableRefusal>
    ensures meaning { Yields (λ cost. cost) result (cost_of_line line.now) }
    ensures optimal { IfOk result (CertifiesLine line.now) }
{
    let table = read_table_line(alloc, line)?;
    cost_of(alloc, table)
}

/// How many wagons each order lacks: one where the line doesn't say.
pub(crate) fn lacks_of(alloc: Global, table: &TableLine) -> Result<Vec<u32>, AllocError>
    requires { IfSome table.now.lacks (λ lacks. All IsLack lacks.items) }
    ensures lacks { IfOk result (λ lacks. lacks.items ≡ lacks_in (table_text table.now)) }
    ensures limits { IfOk result (λ lacks. All IsLack lacks.items) }
{
    match &table.lacks {
        Some(lacks) => Vec::from_slice(alloc, lacks),
        None => vec![in alloc; 1; table.orders.len()],
    }
}

/// Whether there are over 1,000 wagons, over 500 orders, or over 500 lacking wagons in all.
pub(crate) fn is_too_large(table: &TableLine, lacks: &[u32]) -> bool
    requires { lacks.now ≡ lacks_in (table_text table.now) }
    ensures { result ≡ is_large (table_text table.now) }
{
    table.wagons.len() > MAX_TABLE_WAGONS
        || table.orders.len() > MAX_TABLE_ORDERS
        || lack_too_much(lacks)
}

/// Whether the lacks add up to more than a table may have.
fn lack_too_much(lacks: &[u32]) -> bool
    ensures { result ≡ nat_lt max_table_lack (sum lacks.now) }
{
    let mut total = 0;
    for lack in lacks {
        total += u64::from(*lack);
        if total > MAX_TABLE_LACK {
            return true;
        }
    }
    false
}

/// The table of these cells, where there is a row for each wagon and everywhere a number for each order.
pub(crate) fn even_cells(
    alloc: Global,
    wagons: usize,
    orders: usize,
    cells: &[Vec<Option<u64>>],
    penalties: Vec<u64>,
    lacks: Vec<u32>,
) -> Result<Cells, TableRefusal>
    requires wagons { wagons ≤ max_table_wagons }
    requires orders { orders ≤ max_table_orders }
    requires lacked { sum lacks.items ≤ max_table_lack }
    requires costs { All (λ row. All IsNumber row.items) cells.now }
    requires penalties { All (λ penalty. penalty ≤ max_cost) penalties.items }
    requires lacks { All IsLack lacks.items }
    ensures { Yields (λ table. table) result (even_table wagons orders (map (λ row. row.items) cells.now) penalties.items lacks.items) }
{
    if cells.len() != wagons || penalties.len() != orders {
        return Err(TableRefusal::Table(TableFault::UnevenRows));
    }
    Ok(Cells::from_lists(alloc, cells, penalties, lacks)?)
}

/// The cost of a table's plan.
#[tactic(auto, unfolding(crate::specs::TableCost::cost_of_text))]
fn cost_of(alloc: Global, table: TableLine) -> Result<u128, TableRefusal>
    requires limits { IsWithinLimits table }
    ensures meaning { Yields (λ cost. cost) result (cost_of_text (table_text table)) }
    ensures optimal { IfOk result (IsCertified (table_text table)) }
{
    let lacks = lacks_of(alloc, &table)?;
    if is_too_large(&table, &lacks) {
        return Err(TableRefusal::Table(TableFault::TooLarge));
    }
    let (wagons, orders) = (table.wagons.len(), table.orders.len());
    let names = Names::new(table.wagons, table.orders)?;
    let penalties = table.penalties;
    let cells = even_cells(alloc, wagons, orders, &table.cells, penalties, lacks)?;
    let prices = Prices {
        u: table.u,
        v: table.v,
    };
    let certified = check_named(alloc, &names, &cells, &table.pairs, &prices)?;
    Ok(certified.cost())
}
