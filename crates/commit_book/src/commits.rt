//! The tests of a commit.
ghost use Rattle.std.specs.Prelude.{◌≡◌, ◌≢◌, IfErr, IfOk, None, OnOk, Some, length};
ghost use Rattle.std.specs.Result.{result_err};
ghost use Rattle.cost_table.specs.Table.{order_count, wagon_count};
ghost use Rattle.commit_book.specs.BookStep.{refusal_in};
ghost use Rattle.commit_book.specs.Commits.{free_in, is_same_free, lacks_fewer, order_changed, wagon_changed, wagon_of as wagon_in_problem};
ghost use Rattle.faults.specs.declared.faults.Refusal.TheVariants.{OutOfMemory};

use crate::Refusal;
use crate::ascending_problem::AscendingProblem;
use cost_table::Cells;
use move_messages::CommitText;
use operating_db::{OfficeState, times_of_order};
use price_checker::{Prices, check_named};
use rail_codes::{OrderId, WagonNumber};
use std::alloc::{AllocError, Global};
use wagons_and_orders::{FreeWagon, free};

/// Tests a commit of a kept problem, whose table is handed in, in the office as it is now. Its pairs are of the problem (84);
/// they and its prices are a certificate of the table (61 to 66); its wagons are free as they were (82); its orders lack as
/// many wagons as they are given (83).
pub(crate) fn judge(
    alloc: Global,
    problem: &AscendingProblem,
    cells: &Cells,
    now: &OfficeState,
    commit: &CommitText,
) -> Result<(), Refusal>
    requires wagons { wagon_count cells.now ≡ length problem.now.wagons }
    requires orders { order_count cells.now ≡ length problem.now.orders }
    ensures accepted { OnOk result (refusal_in problem.now now.now.office commit.now cells.now ≡ None) }
    ensures refused { IfErr result (λ refusal. refusal ≢ OutOfMemory → refusal_in problem.now now.now.office commit.now cells.now ≡ Some refusal) }
{
    let pairs = commit.pairs.as_slice();
    let prices = prices_of(alloc, commit)?;
    let _cost = check_named(alloc, problem, cells, pairs, &prices)?;
    wagons_unchanged(problem, now, pairs)?;
    orders_unchanged(now, pairs)
}

/// The prices of a commit.
fn prices_of(alloc: Global, commit: &CommitText) -> Result<Prices, AllocError>
    ensures { IfOk result (λ prices. (prices.u.items ≡ commit.now.u) × (prices.v.items ≡ commit.now.v)) }
{
    let u = Vec::from_slice(alloc, commit.u.as_slice())?;
    let v = Vec::from_slice(alloc, commit.v.as_slice())?;
    Ok(Prices { u, v })
}

/// Each wagon of the pairs is free now as it is in the problem.
fn wagons_unchanged(
    problem: &AscendingProblem,
    now: &OfficeState,
    pairs: &[(WagonNumber, OrderId)],
) -> Result<(), Refusal>
    ensures { result_err result ≡ wagon_changed problem.now now.now.office pairs.now }
{
    for pair in pairs {
        if !is_free_as_planned(problem, now, pair.0) {
            return Err(Refusal::WagonChanged(pair.0));
        }
    }
    Ok(())
}

/// Whether a wagon is free now as it is in the problem.
fn is_free_as_planned(problem: &AscendingProblem, now: &OfficeState, number: WagonNumber) -> bool
    ensures { result ≡ is_same_free (wagon_in_problem problem.now number) (free_in now.now.office number) }
{
    is_unchanged(wagon_of(problem, number), free_now(now, number))
}

/// The wagon of a number, where the problem has it.
fn wagon_of(problem: &AscendingProblem, number: WagonNumber) -> Option<FreeWagon>
    ensures { result ≡ wagon_in_problem problem.now number }
{
    problem.wagon(number).copied()
}

/// The wagon of a number as a free one, where the office has it and it is free.
fn free_now(now: &OfficeState, number: WagonNumber) -> Option<FreeWagon>
    ensures { result ≡ free_in now.now.office number }
{
    free(now.wagon(number)?)
}

/// Whether both are there, and one wagon.
fn is_unchanged(planned: Option<FreeWagon>, present: Option<FreeWagon>) -> bool
    ensures { result ≡ is_same_free planned present }
{
    match (planned, present) {
        (Some(planned), Some(present)) => planned == present,
        _ => false,
    }
}

/// Each order lacks as many wagons now as the pairs give it.
fn orders_unchanged(now: &OfficeState, pairs: &[(WagonNumber, OrderId)]) -> Result<(), Refusal>
    ensures { result_err result ≡ order_changed now.now.office pairs.now }
{
    for (k, pair) in pairs.iter().enumerate() {
        if lacks_fewer(now, &pairs[..k + 1], pair.1) {
            return Err(Refusal::OrderChanged(pair.1));
        }
    }
    Ok(())
}

/// Whether an order lacks fewer wagons now than these pairs give it.
fn lacks_fewer(now: &OfficeState, pairs: &[(WagonNumber, OrderId)], id: OrderId) -> bool
    ensures { result ≡ lacks_fewer now.now.office pairs.now id }
{
    (now.lack(id) as usize) < times_of_order(id, pairs)
}
