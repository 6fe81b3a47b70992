//! The table of a problem over a network.
ghost use Rattle.std.specs.Prelude.{◌≡◌, ◌+◌, ◌*◌, ◌<◌, ◌≤◌, ◌++◌, [], ℕ, IfNone, IfOk, IfSome, length, max};
ghost use Rattle.line_network.specs.Network.{place_index};
ghost use Rattle.problem_table.specs.Allowed.{IsTableOf};
ghost use Rattle.problem_table.specs.Lasting.{IsLastingTable, IsTableUntil};
ghost use Rattle.problem_table.specs.inner.AllowedRows.{AreLastingRows, IsLastingRow};
ghost use Rattle.problem_table.specs.inner.Goals.{IsWayTo, goals_of};
ghost use Rattle.problem_table.specs.inner.RowsSoFar.{RowSoFar};
ghost use Rattle.cost_table.specs.RowParts.{cells_in};
ghost use Rattle.cost_table.specs.SharedRows.{HasPlaces, rows_in};
ghost use Rattle.cost_table.specs.TableLimits.{max_cost};

use crate::goals::Goal;
use crate::lasting::{TimedCells, timed_table};
use crate::making::{Making, make};
use crate::unwanted::unwanted_rows;
use cost_table::{Cells, Problem, Row, TableRows};
use line_network::Tables;
use rail_codes::Moment;
use std::alloc::{AllocError, Global};
use wagons_and_orders::{FreeWagon, carries};

/// The table of a problem over the network of these tables: a cell exactly where the wagon suits the order and,
/// starting at the problem's moment or when it is ready, reaches its place by the latest moment, with the
/// kilometres of the way; each order's penalty and lack.
pub fn cells(alloc: Global, problem: &Problem, tables: &Tables) -> Result<Cells, AllocError>
    ensures table { IfOk result (IsTableOf tables.now problem.now) }
{
    Ok(timed_cells(alloc, problem, tables)?.cells)
}

/// The same, and up to which later moments, in place of the problem's, each wagon's cells and the whole are the table's
/// too: no wagon that is in time has to start before.
pub fn timed_cells(
    alloc: Global,
    problem: &Problem,
    tables: &Tables,
) -> Result<TimedCells, AllocError>
    ensures table { IfOk result (λ made. IsTableOf tables.now problem.now made.cells) }
    ensures within { IfOk result (λ made. problem.now.at ≤ made.until) }
    ensures lasts { IfOk result (λ made. IsTableUntil tables.now problem.now made.until made.cells) }
    ensures by_wagon { IfOk result (λ made. IsLastingTable tables.now problem.now made.cells made.lasts.items) }
{
    let (rows, lasts) = rows(alloc, problem, tables)?;
    timed_table(alloc, problem, tables, rows, lasts)
}

/// The rows of all wagons, and up to which moment each is that row.
fn rows(
    alloc: Global,
    problem: &Problem,
    tables: &Tables,
) -> Result<(TableRows, Vec<u64>), AllocError>
    ensures placed { IfOk result (λ r. HasPlaces r.0) }
    ensures rows { IfOk result (λ r. AreLastingRows tables.now problem.now.at problem.now.wagons problem.now.orders (rows_in r.0) r.1.items) }
{
    if problem.orders().is_empty() {
        return unwanted_rows(alloc, problem, tables);
    }
    let wagons = problem.wagons();
    let rows = TableRows::empty(alloc, wagons.len())?;
    let mut making = Making::beginning(alloc, rows, wagons.len())?;
    for (k, wagon) in wagons.iter().enumerate() {
        make(alloc, &mut making, problem, tables, k, wagon)?;
    }
    let rows = making.rows.to_share(alloc)?;
    Ok((rows, making.lasts))
}

/// Adds the row of one wagon to no entries, by the goals of its class, and says up to which moment it is that row. The
/// number of the wagon's place is handed in.
pub(crate) fn push_row(
    entries: &mut Vec<(u32, u32)>,
    problem: &Problem,
    wagon: &FreeWagon,
    from: Option<usize>,
    goals: &[Goal],
    tables: &Tables,
) -> Result<u64, AllocError>
    requires none { entries.old.items ≡ [] }
    requires from { from ≡ place_index tables.now.places wagon.now.place }
    requires goals { goals.now ≡ goals_of tables.now wagon.now.class problem.now.orders }
    ensures row { IfOk result (λ last. IsLastingRow tables.now problem.now.at wagon.now problem.now.orders entries.new.items last) }
    ensures within { IfOk result (λ last. problem.now.at ≤ last) }
{
    // A moment is below the greatest number.
    problem.at().for_the_prover();
    let none = Row {
        first: &[],
        rest: &[],
    };
    push_goals(none, entries, problem, wagon, from, goals, tables, u64::MAX)
}

/// Goes on with the row of one wagon, which is known up to a last moment, by the goals of later orders, and says up to which
/// moment it is that row. The row begins with cells that stand elsewhere; they are for the prover alone.
pub(crate) fn push_goals(
    _first: Row<'_>,
    entries: &mut Vec<(u32, u32)>,
    problem: &Problem,
    wagon: &FreeWagon,
    from: Option<usize>,
    goals: &[Goal],
    tables: &Tables,
    until: u64,
) -> Result<u64, AllocError>
    requires from { from ≡ place_index tables.now.places wagon.now.place }
    requires within { problem.now.at ≤ until }
    requires so_far { (m : ℕ) → problem.now.at ≤ m → m ≤ until → RowSoFar tables.now m wagon.now problem.now.orders goals.now [] (cells_in _first ++ entries.old.items) }
    ensures row { IfOk result (λ last. IsLastingRow tables.now problem.now.at wagon.now problem.now.orders (cells_in _first.entry ++ entries.new.items) last) }
    ensures within { IfOk result (λ last. problem.now.at ≤ last) }
{
    let at = problem.at();
    let mut last = until;
    entries.reserve(goals.len())?;
    for goal in goals {
        if let Some(way) = way_to(tables, from, *goal, at, wagon) {
            entries.push_reserved((goal.order, way.km));
            last = last.min(way.last_start);
        }
    }
    Ok(last)
}

/// The way of a wagon to a goal that it reaches in time: the kilometres, and the last moment at which it may start, in
/// seconds since 1970.
#[derive(Clone, Copy)]
struct Way {
    km: u32,
    last_start: u64,
}

/// The way of a wagon to a goal of its class, if its load is within the wagon's limit and it is reached in time. The
/// number of the wagon's place is handed in.
fn way_to(
    tables: &Tables,
    from: Option<usize>,
    goal: Goal,
    at: Moment,
    wagon: &FreeWagon,
) -> Option<Way>
    requires from { from ≡ place_index tables.now.places wagon.now.place }
    requires goal { goal.place < length tables.now.places }
    ensures meaning { IsWayTo tables.now at wagon.now goal result }
    ensures within { IfSome result (λ way. at ≤ way.last_start) }
    ensures limit { IfSome result (λ way. way.km ≤ max_cost) }
{
    if !carries(wagon, goal.load) {
        return None;
    }
    let number = from?;
    let (km, minutes) = tables.between_numbers(number, goal.place)?;
    let last_start = last_start(wagon.ready, at, minutes, goal.latest)?;
    Some(Way { km, last_start })
}

/// The last moment at which a wagon may start to be there by the latest one, in seconds since 1970; none where it is
/// ready, or may start, only later.
fn last_start(ready: Moment, at: Moment, minutes: u32, latest: Moment) -> Option<u64>
    ensures last { IfSome result (λ last. last + 60 * minutes ≡ latest) }
    ensures in_time { IfSome result (λ last. max ready at ≤ last) }
    ensures late { IfNone result (latest < max ready at + 60 * minutes) }
{
    let start = ready.seconds().max(at.seconds());
    let last = latest.seconds().checked_sub(60 * u64::from(minutes))?;
    if start <= last { Some(last) } else { None }
}
