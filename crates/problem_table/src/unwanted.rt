//! The rows of a problem in which no order waits.
ghost use Rattle.std.specs.Prelude.{◌≡◌, [], IfOk};
ghost use Rattle.cost_table.specs.SharedRows.{HasPlaces, rows_in};
ghost use Rattle.problem_table.specs.inner.AllowedRows.{AreLastingRows};

use cost_table::{Problem, TableRows};
use line_network::Tables;
use std::alloc::{AllocError, Global};

/// The rows of wagons that no order waits for: they are empty, and stay so. The tables are for the prover alone.
pub(crate) fn unwanted_rows(
    alloc: Global,
    problem: &Problem,
    _tables: &Tables,
) -> Result<(TableRows, Vec<u64>), AllocError>
    requires { problem.now.orders ≡ [] }
    ensures placed { IfOk result (λ r. HasPlaces r.0) }
    ensures rows { IfOk result (λ r. AreLastingRows _tables.now problem.now.at problem.now.wagons problem.now.orders (rows_in r.0) r.1.items) }
{
    // A moment is below the greatest number.
    problem.at().for_the_prover();
    let count = problem.wagons().len();
    let rows = TableRows::all_empty(alloc, count)?;
    let lasts = Vec::from_elem(alloc, u64::MAX, count)?;
    Ok((rows, lasts))
}
