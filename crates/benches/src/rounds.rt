//! Rounds of timed calls.

use crate::growth::{Growth, SUITED, entered};
use crate::times::KINDS;
use anyhow::{Context, Result};
use assignment::certified_plan;
use commit_book::{BegunProblem, Snap};
use cost_table::Cells;
use move_messages::CommitText;
use problem_table::cells;
use rail_codes::OrderId;
use std::alloc::Global;
use std::time::Instant;
use test_samples::is_in_range;

/// The nanoseconds that one call of each kind took. The order that is placed is promised a wagon, and withdrawn.
pub(crate) fn round(rt: &HostRuntime, alloc: Global, growth: &mut Growth) -> Result<[u128; KINDS]> {
    let message = timed_message(rt, alloc, growth)?;
    let (order, id) = timed_order(rt, alloc, growth)?;
    let network = timed_revision(rt, alloc, growth)?;
    let (begin, table, commit) = timed_plan(rt, alloc, growth)?;
    let withdraw = timed_withdrawal(rt, alloc, growth, id)?;
    Ok([message, order, withdraw, network, begin, table, commit])
}

/// How long it has been since a moment.
fn since(rt: &HostRuntime, start: Instant) -> Result<u128> {
    Ok(start.elapsed(rt)?.as_nanos())
}

/// A wagon is held, which is timed, and let go.
fn timed_message(rt: &HostRuntime, alloc: Global, growth: &mut Growth) -> Result<u128> {
    let held = growth.next_message(true)?;
    let start = Instant::now(rt)?;
    entered(growth.book.message(alloc, &held))?;
    let time = since(rt, start)?;
    let let_go = growth.next_message(false)?;
    entered(growth.book.message(alloc, &let_go))?;
    Ok(time)
}

/// An order is placed.
fn timed_order(rt: &HostRuntime, alloc: Global, growth: &mut Growth) -> Result<(u128, OrderId)> {
    let text = growth.next_order(alloc, SUITED)?;
    let start = Instant::now(rt)?;
    entered(growth.book.place(alloc, &text))?;
    Ok((since(rt, start)?, text.id()))
}

/// An order is withdrawn.
fn timed_withdrawal(
    rt: &HostRuntime,
    alloc: Global,
    growth: &mut Growth,
    id: OrderId,
) -> Result<u128> {
    let start = Instant::now(rt)?;
    entered(growth.book.withdraw(alloc, id))?;
    since(rt, start)
}

/// The second network comes in force, which is timed, and the first again.
fn timed_revision(rt: &HostRuntime, alloc: Global, growth: &mut Growth) -> Result<u128> {
    let start = Instant::now(rt)?;
    entered(growth.book.revise(alloc, 2))?;
    let time = since(rt, start)?;
    entered(growth.book.revise(alloc, 1))?;
    Ok(time)
}

/// A problem is begun, its table made and its plan promised.
fn timed_plan(rt: &HostRuntime, alloc: Global, growth: &mut Growth) -> Result<(u128, u128, u128)> {
    let (begin, begun) = timed_begin(rt, alloc, growth)?;
    let (table, commit) = timed_planning(rt, alloc, growth, begun.snap())?;
    Ok((begin, table, timed_commit(rt, alloc, growth, &commit)?))
}

/// The commit of a problem's plan, and the time of its table.
fn timed_planning(
    rt: &HostRuntime,
    alloc: Global,
    growth: &Growth,
    snap: &Snap,
) -> Result<(u128, CommitText)> {
    let (table, made) = timed_table(rt, alloc, growth, snap)?;
    Ok((table, planned(alloc, snap, &made)?))
}

/// A problem is begun, with its table.
fn timed_begin(
    rt: &HostRuntime,
    alloc: Global,
    growth: &mut Growth,
) -> Result<(u128, BegunProblem)> {
    let at = growth.at()?;
    let start = Instant::now(rt)?;
    let begun = growth.book.begin_with_table(alloc, at)?;
    Ok((since(rt, start)?, begun))
}

/// The table of a problem is made.
fn timed_table(
    rt: &HostRuntime,
    alloc: Global,
    growth: &Growth,
    snap: &Snap,
) -> Result<(u128, Cells)> {
    let start = Instant::now(rt)?;
    let made = cells(alloc, snap.problem(), &growth.distances)?;
    Ok((since(rt, start)?, made))
}

/// A plan is promised.
fn timed_commit(
    rt: &HostRuntime,
    alloc: Global,
    growth: &mut Growth,
    commit: &CommitText,
) -> Result<u128> {
    let start = Instant::now(rt)?;
    entered(growth.book.commit(alloc, commit))?;
    since(rt, start)
}

/// The commit of a plan of least cost of a snapshot's problem.
fn planned(alloc: Global, snap: &Snap, table: &Cells) -> Result<CommitText> {
    let (plan, prices, _certified) = certified_plan(alloc, table)?;
    if !is_in_range(snap.problem(), &plan) {
        return None.context("a plan of another problem");
    }
    Ok(snap.commit_text(alloc, &plan, &prices)?)
}
