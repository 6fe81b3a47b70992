//! A planner's work for a seat.

use super::desks::{Desk, text_of};
use super::scenes::{Action, played};
use commit_book::Snap;
use cost_table::Plan;
use line_network::Networks;
use move_messages::CommitText;
use price_checker::{Prices, check};
use problem_table::cells;
use sessions::{BookLedger, PlanFault, Seat, work};
use std::alloc::Global;
use std::sync::Wait;
use std::test::Fail;
use std::thread::Threads;
use test_samples::{
    BOTH, NEAR, NETWORK, ORDER, REVISION, SAMPLE, Start, networks_of, order_id, time, wagon,
};

/// The cost of a plan of a snapshot, as the price checker has it.
fn cost_of(
    alloc: Global,
    snap: &Snap,
    networks: &Networks,
    plan: &Plan,
    prices: &Prices,
) -> Result<u128, Fail> {
    let tables = networks.get(snap.network()).ok_or("no network")?;
    let table = cells(alloc, snap.problem(), tables)?;
    Ok(check(&table, plan.pairs(), prices)?.cost())
}

/// Whether a commit names version 1 and gives the nearer wagon to the sample's order.
fn is_nearest(commit: &CommitText) -> Result<bool, Fail> {
    let pair = (wagon(NEAR)?, order_id("O1")?);
    let pairs = commit.pairs.as_slice();
    Ok(commit.version == 1 && pairs.len() == 1 && pairs.first() == Some(&pair))
}

/// Begins at one o'clock.
fn begun<L: BookLedger, R: Wait>(desk: &Desk<'_, L, R>, seat: &mut Seat<L>) -> Result<Snap, Fail> {
    let at = time(desk.alloc, "01:00")?;
    Ok(desk.shared.begin(desk.rt, desk.alloc, seat, at)?)
}

/// Whether a plan gives the first wagon to the first order, at 50 km.
fn is_least(
    alloc: Global,
    snap: &Snap,
    networks: &Networks,
    plan: &Plan,
    prices: &Prices,
) -> Result<bool, Fail> {
    let is_first = plan.pairs().len() == 1 && plan.pairs().first() == Some(&(0, 0));
    Ok(is_first && cost_of(alloc, snap, networks, plan, prices)? == 50)
}

/// The commit of what is planned for a snapshot, and whether that is the nearer wagon.
fn planned(alloc: Global, snap: &Snap, networks: &Networks) -> Result<(CommitText, bool), Fail> {
    let (plan, prices) = work(alloc, snap, networks)?;
    let is_least = is_least(alloc, snap, networks, &plan, &prices)?;
    Ok((snap.commit_text(alloc, &plan, &prices)?, is_least))
}

/// Whether a seat has the nearer wagon planned for the sample's order, and commits that as the second entry.
fn commits<L: BookLedger, R: Wait>(
    desk: &Desk<'_, L, R>,
    seat: &mut Seat<L>,
    snap: &Snap,
) -> Result<bool, Fail> {
    let networks = networks_of(desk.alloc, SAMPLE.networks)?;
    let (commit, is_least) = planned(desk.alloc, snap, &networks)?;
    let is_nearest = is_nearest(&commit)?;
    let reply = desk.shared.commit(desk.rt, desk.alloc, seat, &commit);
    let told = text_of(desk.alloc, reply)?;
    Ok(is_least && told.as_str() == "accepted 2" && is_nearest)
}

/// Whether a seat begins, has the nearer wagon planned for the sample's order, and commits that.
pub(crate) fn plans<L: BookLedger, R: Wait>(
    desk: &Desk<'_, L, R>,
    seats: &mut [Seat<L>],
) -> Result<bool, Fail> {
    let seat = seats.first_mut().ok_or("no seat")?;
    let is_placed = desk.told(seat, ORDER)?.as_str() == "accepted 1";
    let snap = begun(desk, seat)?;
    let are_planned = commits(desk, seat, &snap)?;
    Ok(are_planned && is_placed && seat.count() == 2)
}

/// Whether planning over the first network alone is refused, since the second is in force.
fn is_unknown(alloc: Global, snap: &Snap) -> Result<bool, Fail> {
    let networks = networks_of(alloc, &[NETWORK])?;
    Ok(match work(alloc, snap, &networks) {
        Err(fault) => fault == PlanFault::UnknownNetwork && fault.number() == 79,
        Ok(_) => false,
    })
}

/// Whether planning over both networks gives no pair.
fn is_empty(alloc: Global, snap: &Snap) -> Result<bool, Fail> {
    let networks = networks_of(alloc, BOTH.networks)?;
    let (plan, _prices) = work(alloc, snap, &networks)?;
    Ok(plan.pairs().is_empty())
}

/// Whether a seat revises to the second network, so that a plan wants more than the first.
pub(crate) fn revises<L: BookLedger, R: Wait>(
    desk: &Desk<'_, L, R>,
    seats: &mut [Seat<L>],
) -> Result<bool, Fail> {
    let seat = seats.first_mut().ok_or("no seat")?;
    let is_revised = desk.told(seat, REVISION)?.as_str() == "accepted 1";
    let snap = begun(desk, seat)?;
    let is_of = snap.version() == 1 && snap.network() == 2 && seat.count() == 1;
    Ok(is_revised && is_of && wants_both(desk.alloc, &snap)?)
}

/// Whether planning needs the second network.
fn wants_both(alloc: Global, snap: &Snap) -> Result<bool, Fail> {
    Ok(is_unknown(alloc, snap)? && is_empty(alloc, snap)?)
}

/// Whether a book at which a seat did this has so many entries.
fn leads_to<T: Threads + Wait + Sync>(
    rt: &T,
    alloc: Global,
    start: Start<'_>,
    action: Action,
    entries: u64,
) -> Result<bool, Fail> {
    Ok(played(rt, alloc, start, 1, action)?.len() == entries)
}

#[test]
fn work_for_a_seat(rt: HostRuntime) -> Result<(), Fail> {
    assert!(rt; leads_to(&rt, rt.alloc(), SAMPLE, Action::Planning, 2)?);
    assert!(rt; leads_to(&rt, rt.alloc(), BOTH, Action::Revising, 1)?);
    Ok(())
}
