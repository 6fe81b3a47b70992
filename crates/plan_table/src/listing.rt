//! The list of a plan.
ghost use Rattle.std.specs.Prelude.{◌≡◌, ◌<◌, IfOk, OnOk, Some, length, slice_get};
ghost use Rattle.std.specs.List.{AllZip};
ghost use Rattle.cost_table.specs.Plan.{serves};
ghost use Rattle.plan_reasons.specs.Journeys.{IsJourney};
ghost use Rattle.plan_reasons.specs.OrderCounts.{AreOrderCounts};
ghost use Rattle.plan_table.specs.ListOf.{IsListOf, IsShortfall, failed_test, reason_of};
ghost use Rattle.plan_table.specs.inner.Listed.{AreShortfalls, with_missing};

use crate::plan_list::{PlanList, Reason, Shortfall};
use cost_table::cost;
use plan_reasons::{CertifiedPlan, Counts, Journey, journey_of, order_counts};
use rail_codes::Moment;
use std::alloc::{AllocError, Global};

/// A plan of a version as a list: each wagon that goes with its way, in the plan's order; each order that misses wagons as
/// placed, and why it misses them; the sum of all kilometres and penalties.
pub fn list_of_plan(
    alloc: Global,
    version: u64,
    planned: &CertifiedPlan,
) -> Result<PlanList, AllocError>
    ensures { IfOk result (IsListOf version planned.now.network planned.now.problem planned.now.priced) }
{
    let journeys = all_journeys(alloc, planned)?;
    let shortfalls = all_shortfalls(alloc, planned)?;
    Ok(PlanList {
        version,
        at: planned.problem().at(),
        journeys,
        shortfalls,
        sum: cost(planned.cells(), planned.plan().pairs()),
    })
}

/// Each wagon that goes.
fn all_journeys(alloc: Global, planned: &CertifiedPlan) -> Result<Vec<Journey>, AllocError>
    ensures { IfOk result (λ journeys. AllZip (IsJourney planned.now.network planned.now.problem) planned.now.priced.pairs journeys.items) }
{
    let mut journeys = Vec::new(alloc);
    for pair in planned.plan().pairs() {
        journeys.push(journey_of(planned, *pair))?;
    }
    Ok(journeys)
}

/// Each order that misses wagons.
fn all_shortfalls(alloc: Global, planned: &CertifiedPlan) -> Result<Vec<Shortfall>, AllocError>
    ensures { IfOk result (λ shortfalls. AreShortfalls planned.now (length planned.now.problem.orders) shortfalls.items) }
{
    let counts = order_counts(alloc, planned)?;
    let mut shortfalls = Vec::new(alloc);
    for j in 0..planned.problem().orders().len() {
        push_missing(&mut shortfalls, shortfall_of(planned, &counts, j))?;
    }
    Ok(shortfalls)
}

/// Adds an order that misses wagons; another is left out.
fn push_missing(shortfalls: &mut Vec<Shortfall>, shortfall: Shortfall) -> Result<(), AllocError>
    ensures { OnOk result (shortfalls.new.items ≡ with_missing shortfalls.old.items shortfall) }
{
    if shortfall.missing == 0 {
        return Ok(());
    }
    shortfalls.push(shortfall)?;
    Ok(())
}

/// How many wagons order `j` gets and misses, and why.
fn shortfall_of(planned: &CertifiedPlan, counts: &[Counts], j: usize) -> Shortfall
    requires counts { AreOrderCounts planned.now.network planned.now.problem counts.now }
    requires order { j < length planned.now.problem.orders }
    ensures { IsShortfall planned.now.network planned.now.problem planned.now.priced j result }
{
    let order = planned.problem().orders()[j].order();
    let gets = given(planned.plan().pairs(), j);
    let passed = passed_at(counts, j);
    Shortfall {
        order: order.id(),
        place: order.place(),
        gets,
        missing: u64::from(planned.cells().lack(j)).saturating_sub(gets),
        penalty: order.penalty(),
        reason: reason_of(planned.problem().at(), order.latest(), gets, &passed),
    }
}

/// How many wagons pass the tests for order `j`.
fn passed_at(counts: &[Counts], j: usize) -> Counts
    requires { j < length counts.now }
    ensures { slice_get counts.now j ≡ Some result }
{
    counts[j]
}

/// How many wagons a plan gives order `j`.
fn given(pairs: &[(usize, usize)], j: usize) -> u64
    ensures { result ≡ serves j pairs.now }
{
    pairs.iter().filter(|pair| pair.1 == j).count() as u64
}

/// Why an order misses wagons at a moment.
fn reason_of(at: Moment, latest: Moment, gets: u64, passed: &Counts) -> Reason
    ensures { result ≡ reason_of at latest gets passed.now }
{
    if latest < at {
        return Reason::Past;
    }
    failed_test(gets, passed)
}

/// The first test that no more wagons pass than an order gets.
fn failed_test(gets: u64, passed: &Counts) -> Reason
    ensures { result ≡ failed_test gets passed.now }
{
    if passed.class <= gets {
        Reason::Class
    } else if passed.load <= gets {
        Reason::Load
    } else if passed.way <= gets {
        Reason::Way
    } else if passed.in_time <= gets {
        Reason::InTime
    } else if passed.cheaper <= gets {
        Reason::Cheaper
    } else {
        Reason::Elsewhere
    }
}
