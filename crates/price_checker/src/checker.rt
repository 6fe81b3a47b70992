//! The checker: each test in its order.
ghost use Rattle.std.specs.Prelude.{◌≡◌, ◌<◌, ◌≤◌, ◌+◌, ◌*◌, ◌^◌, ◌==◌, ◌↔◌, [], length, sum, All, IsOk, OnOk, IfOk};
ghost use Rattle.std.specs.Result.{result_err};
ghost use Rattle.cost_table.specs.RowParts.{cells_in};
ghost use Rattle.cost_table.specs.TableLimits.{IsTable, max_table_wagons};
ghost use Rattle.cost_table.specs.Table.{lack_at, wagon_count, order_count};
ghost use Rattle.cost_table.specs.Plan.{IsPlan, IsOptimal, cost_of, uses, serves};
ghost use Rattle.price_checker.specs.Certificate.{IsCertificate};
ghost use Rattle.price_checker.specs.inner.RowWalk.{gap_of_row};
ghost use Rattle.price_checker.specs.Faults.{first_fault, wrong_lengths, not_allowed, used_twice, price_gap, over_penalty, sums_differ, paid_by_orders};

use crate::{Certified, CheckFault, Prices};
use cost_table::{Cells, Row, cost};

/// Checks that the pairs are a plan of the table and that the prices, in kilometres, show it to be an optimal one.
/// Allocates nothing.
///
/// The first of these is answered: `WrongLengths` (61); `NotAllowed` (62), the first pair that is out of range or
/// has no cost; `UsedTwice` (63), the first pair whose wagon is in an earlier pair, or whose order is in as many
/// earlier pairs as it lacks wagons; `PriceGap` (64), the least wagon and its least order whose price passes the cost and the
/// wagon's price; `OverPenalty` (65), the least order whose price passes its penalty; `SumsDiffer` (66).
pub fn check(
    cells: &Cells,
    pairs: &[(usize, usize)],
    prices: &Prices,
) -> Result<Certified, CheckFault>
    ensures fault { result_err result ≡ first_fault cells.now pairs.now prices.now.u.items prices.now.v.items }
    ensures certificate { IsOk result ↔ IsCertificate cells.now pairs.now prices.now.u.items prices.now.v.items }
    ensures optimal { OnOk result (IsOptimal cells.now pairs.now) }
    ensures cost { IfOk result (λ c. c ≡ cost_of cells.now pairs.now) }
{
    check_in_order(cells, pairs, prices)
}

/// Each test in its order.
fn check_in_order(
    cells: &Cells,
    pairs: &[(usize, usize)],
    prices: &Prices,
) -> Result<Certified, CheckFault>
    ensures table { IsTable cells.now }
    ensures fault { result_err result ≡ first_fault cells.now pairs.now prices.now.u.items prices.now.v.items }
    ensures cost { IfOk result (λ c. c ≡ cost_of cells.now pairs.now) }
{
    let u = prices.u.as_slice();
    let v = prices.v.as_slice();
    check_lengths(cells, u, v)?;
    check_allowed(cells, pairs)?;
    check_used(cells, pairs)?;
    check_gaps(cells, u, v)?;
    check_penalties(cells, v)?;
    check_sums(cells, pairs, u, v)
}

/// One price per wagon, one per order.
fn check_lengths(cells: &Cells, u: &[u64], v: &[u64]) -> Result<(), CheckFault>
    ensures table { IsTable cells.now }
    ensures fault { result_err result ≡ wrong_lengths cells.now u.now v.now }
{
    if u.len() != cells.wagons() || v.len() != cells.orders() {
        return Err(CheckFault::WrongLengths);
    }
    Ok(())
}

/// Each pair has a cost.
fn check_allowed(cells: &Cells, pairs: &[(usize, usize)]) -> Result<(), CheckFault>
    ensures { result_err result ≡ not_allowed cells.now pairs.now }
{
    for pair in pairs {
        if cells.cell(pair.0, pair.1).is_none() {
            return Err(CheckFault::NotAllowed(pair.0, pair.1));
        }
    }
    Ok(())
}

/// How many of the pairs are of this wagon.
fn uses(wagon: usize, pairs: &[(usize, usize)]) -> usize
    ensures { result ≡ uses wagon pairs.now }
{
    pairs.iter().filter(|pair| pair.0 == wagon).count()
}

/// How many of the pairs are of this order.
fn serves(order: usize, pairs: &[(usize, usize)]) -> usize
    ensures { result ≡ serves order pairs.now }
{
    pairs.iter().filter(|pair| pair.1 == order).count()
}

/// No wagon stands twice, no order more often than it lacks.
fn check_used(cells: &Cells, pairs: &[(usize, usize)]) -> Result<(), CheckFault>
    requires { All (λ pair. pair.1 < order_count cells.now) pairs.now }
    ensures { result_err result ≡ used_twice cells.now pairs.now }
{
    for (k, pair) in pairs.iter().enumerate() {
        let before = &pairs[..k];
        if uses(pair.0, before) > 0 || serves(pair.1, before) >= cells.lack(pair.1) as usize {
            return Err(CheckFault::UsedTwice(pair.0, pair.1));
        }
    }
    Ok(())
}

/// No price of an order passes the cost of one of these cells and the wagon's price. (Less the wagon's price it is
/// compared with the cost, since the sum of those two may not fit.)
fn check_cells(i: usize, cells: &[(u32, u32)], u: u64, v: &[u64]) -> Result<(), CheckFault>
    requires { All (λ cell. cell.0 < length v.now) cells.now }
    ensures { result_err result ≡ gap_of_row i cells.now u v.now }
{
    for cell in cells {
        let j = cell.0 as usize;
        if v[j].saturating_sub(u) > u64::from(cell.1) {
            return Err(CheckFault::PriceGap(i, j));
        }
    }
    Ok(())
}

/// No price of an order in a wagon's row passes the cost and the wagon's price.
fn check_row(i: usize, row: Row<'_>, u: u64, v: &[u64]) -> Result<(), CheckFault>
    requires { All (λ cell. cell.0 < length v.now) (cells_in row) }
    ensures { result_err result ≡ gap_of_row i (cells_in row.entry) u v.now }
{
    check_cells(i, row.first, u, v)?;
    check_cells(i, row.rest, u, v)
}

/// No order's price passes the cost of a pair and its wagon's price.
fn check_gaps(cells: &Cells, u: &[u64], v: &[u64]) -> Result<(), CheckFault>
    requires wagons { length u.now ≡ wagon_count cells.now }
    requires orders { length v.now ≡ order_count cells.now }
    ensures { result_err result ≡ price_gap cells.now u.now v.now }
{
    for (i, price) in u.iter().enumerate() {
        check_row(i, cells.row(i), *price, v)?;
    }
    Ok(())
}

/// No order's price passes its penalty.
fn check_penalties(cells: &Cells, v: &[u64]) -> Result<(), CheckFault>
    requires { length v.now ≡ order_count cells.now }
    ensures { result_err result ≡ over_penalty cells.now v.now }
{
    for (j, price) in v.iter().enumerate() {
        if *price > cells.penalty(j) {
            return Err(CheckFault::OverPenalty(j));
        }
    }
    Ok(())
}

/// All numbers of a short list together.
pub(crate) fn total(prices: &[u64]) -> u128
    requires { length prices.now ≤ max_table_wagons }
    ensures value { result ≡ sum prices.now }
    ensures limit { result ≤ max_table_wagons * 2 ^ 64 }
{
    let mut total: u128 = 0;
    for price in prices {
        total += u128::from(*price);
    }
    total
}

/// What order `j` pays: its price for each wagon that it lacks.
fn paid_by_order(cells: &Cells, j: usize, price: u64) -> u128
    requires { j < order_count cells.now }
    ensures value { result ≡ lack_at cells.now j * price }
    ensures limit { result ≤ 20 * 2 ^ 64 }
{
    u128::from(cells.lack(j)) * u128::from(price)
}

/// What all orders pay.
pub(crate) fn paid_by_orders(cells: &Cells, v: &[u64]) -> u128
    requires table { IsTable cells.now }
    requires orders { length v.now ≡ order_count cells.now }
    ensures value { result ≡ paid_by_orders cells.now v.now }
{
    let mut total: u128 = 0;
    for (j, price) in v.iter().enumerate() {
        total += paid_by_order(cells, j, *price);
    }
    total
}

/// The plan's cost with all wagons' prices is what the orders pay.
fn check_sums(
    cells: &Cells,
    pairs: &[(usize, usize)],
    u: &[u64],
    v: &[u64],
) -> Result<Certified, CheckFault>
    requires table { IsTable cells.now }
    requires wagons { length u.now ≡ wagon_count cells.now }
    requires orders { length v.now ≡ order_count cells.now }
    requires plan { IsPlan cells.now pairs.now }
    ensures fault { result_err result ≡ sums_differ cells.now pairs.now u.now v.now }
    ensures cost { IfOk result (λ c. c ≡ cost_of cells.now pairs.now) }
{
    let cost = cost(cells, pairs);
    let left = cost + total(u);
    let right = paid_by_orders(cells, v);
    if left == right {
        Ok(Certified::of(cost))
    } else {
        Err(CheckFault::SumsDiffer(left, right))
    }
}
