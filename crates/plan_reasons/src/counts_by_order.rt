//! How many free wagons pass the tests for each order.
ghost use Rattle.std.specs.Prelude.{IfOk};
ghost use Rattle.plan_reasons.specs.OrderCounts.{AreOrderCounts};

use crate::certified_plan::CertifiedPlan;
use crate::reasons::Counts;
use crate::tallies::Tallies;
use std::alloc::{AllocError, Global};

/// For each waiting order as placed, how many free wagons pass each test for it.
pub fn order_counts(alloc: Global, planned: &CertifiedPlan) -> Result<Vec<Counts>, AllocError>
    ensures { IfOk result (λ counts. AreOrderCounts planned.now.network planned.now.problem counts.items) }
{
    let tallies = Tallies::new(alloc, planned)?;
    let mut counts = Vec::new(alloc);
    for j in 0..planned.problem().orders().len() {
        counts.push(tallies.counts(alloc, planned, j)?)?;
    }
    Ok(counts)
}
