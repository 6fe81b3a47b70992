//! What a plan costs.
ghost use Rattle.std.specs.Prelude.{◌≡◌, ◌<◌, ◌≤◌, ◌+◌, ◌*◌, ◌^◌, All};
ghost use Rattle.std.specs.List.{sum_by};
ghost use Rattle.cost_table.specs.Table.{penalty_at, lack_at, order_count};
ghost use Rattle.cost_table.specs.Plan.{IsPlan, cost_of, pair_cost, sum_below};
ghost use Rattle.cost_table.specs.inner.Spared.{pair_penalty};

use crate::table_cells::Cells;

/// The penalty of all wagons that order `j` lacks.
fn penalty_in_all(cells: &Cells, j: usize) -> u64
    requires { j < order_count cells.now }
    ensures value { result ≡ penalty_at cells.now j * lack_at cells.now j }
    ensures limit { result ≤ 20_000_000_000 }
{
    cells.penalty(j) * u64::from(cells.lack(j))
}

/// The cost of serving nothing: the penalty of each wagon that an order lacks.
fn idle_cost(cells: &Cells) -> u64
    ensures value { result ≡ sum_below (order_count cells.now) (λ j. penalty_at cells.now j * lack_at cells.now j) }
    ensures limit { result ≤ 10_000_000_000_000 }
{
    let mut total: u64 = 0;
    for j in 0..cells.orders() {
        total += penalty_in_all(cells, j);
    }
    total
}

/// The cost of the pairs alone.
fn served_cost(cells: &Cells, pairs: &[(usize, usize)]) -> u128
    ensures value { result ≡ sum_by (pair_cost cells.now) pairs.now }
    ensures limit { result < 2 ^ 95 }
{
    let mut total: u128 = 0;
    for pair in pairs {
        total += u128::from(cells.cell(pair.0, pair.1).unwrap_or(0));
    }
    total
}

/// The penalty of each wagon that the pairs give an order.
fn spared_cost(cells: &Cells, pairs: &[(usize, usize)]) -> u128
    requires { All (λ pair. pair.1 < order_count cells.now) pairs.now }
    ensures { result ≡ sum_by (pair_penalty cells.now) pairs.now }
{
    let mut total: u128 = 0;
    for pair in pairs {
        total += u128::from(cells.penalty(pair.1));
    }
    total
}

/// The cost of a plan in kilometres: that of its pairs, and the penalty of each wagon that an order misses.
pub fn cost(cells: &Cells, pairs: &[(usize, usize)]) -> u128
    requires { IsPlan cells.now pairs.now }
    ensures value { result ≡ cost_of cells.now pairs.now }
    ensures limit { result < 2 ^ 96 }
{
    let served = served_cost(cells, pairs);
    let missed = u128::from(idle_cost(cells)) - spared_cost(cells, pairs);
    served + missed
}
