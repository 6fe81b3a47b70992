//! The plan of one table line.
ghost use Rattle.std.specs.Prelude.{◌≡◌, ◌≢◌, ◌<◌, Err, IfErr, IfOk, Ok, string_bytes};
ghost use Rattle.cost_table.specs.Plan.{cost_of};
ghost use Rattle.price_checker.specs.Certificate.{IsCertificate};
ghost use Rattle.table_lines.specs.StatedTable.{stated_in, stated_line};
ghost use Rattle.table_lines.specs.TableLine.{IsWithinLimits, TableText, table_text};
ghost use Rattle.table_lines.specs.declared.table_refusal.TableRefusal.TheVariants.{OutOfMemory};
ghost use Rattle.table_lines.specs.Solving.{IsSolved};

use crate::solved_tokens::solved_line;
use crate::stating::stated_table;
use crate::table_line::TableLine;
use crate::table_part::read_table;
use crate::table_refusal::TableRefusal;
use assignment::certified_plan;
use cost_table::{Cells, Names, Plan};
use price_checker::{Certified, Prices, pairs_by_name};
use std::alloc::{AllocError, Global};

/// The table that a line states, with a plan at the lowest total cost, its cost and its prices, as a line of JSON without
/// its line feed: the members `cells`, `cost`, `lacks` where the line has it, `orders`, `pairs`, `penalties`, `u`, `v`
/// and `wagons`, in this order, and no space. Costs and prices are in kilometres. A plan and prices in the line don't
/// matter.
///
/// Else the first refusal: the line states no table (21, 22, 24, 25); the table is too large (53); a wagon (51) or an
/// order (52) is listed twice; the lists are uneven (54). When out of memory it is `OutOfMemory` (1).
#[tactic(auto, unfolding(crate::specs::StatedTable::stated_line))]
pub fn solve_line(alloc: Global, line: &[u8]) -> Result<String, TableRefusal>
    ensures solved { IfOk result (λ text. (t : TableText) × (stated_line line.now ≡ Ok t) × IsSolved t (string_bytes text)) }
    ensures refused { IfErr result (λ refusal. refusal ≢ OutOfMemory → stated_line line.now ≡ Err refusal) }
{
    let table = read_table(alloc, line)?;
    let (names, cells) = stated_table(alloc, &table)?;
    let text = planned_line(alloc, &table, &names, &cells)?;
    Ok(text)
}

/// The line of a stated table with a plan.
fn planned_line(
    alloc: Global,
    table: &TableLine,
    names: &Names,
    cells: &Cells,
) -> Result<String, AllocError>
    requires stated { stated_in (table_text table.now) ≡ Ok (names.now, cells.now) }
    requires limits { IsWithinLimits table.now }
    ensures { IfOk result (λ text. IsSolved (table_text table.now) (string_bytes text)) }
{
    let (plan, prices, certified) = certified_plan(alloc, cells)?;
    let cost = small_cost(cells, &plan, &prices, certified);
    let pairs = pairs_by_name(alloc, names, plan.pairs())?;
    solved_line(alloc, table, &pairs, &prices, cost)
}

/// The cost of a certified plan, which is far below what a number of 64 bits holds.
fn small_cost(cells: &Cells, plan: &Plan, prices: &Prices, certified: Certified) -> u64
    requires certificate { IsCertificate cells.now plan.now prices.now.u.items prices.now.v.items }
    requires cost { certified ≡ cost_of cells.now plan.now }
    ensures { result ≡ cost_of cells.now plan.now }
{
    // A table's numbers are within its limits.
    cells.for_the_prover();
    certified.cost() as u64
}
