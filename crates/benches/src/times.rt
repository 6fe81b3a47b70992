//! The times of calls.

use anyhow::Result;
use std::alloc::Global;

/// How many kinds of calls are timed.
pub(crate) const KINDS: usize = 7;

const NAMES: [&str; KINDS] = [
    "message", "order", "withdraw", "network", "begin", "table", "commit",
];

/// Writes the median and the worst time of each kind of call.
pub(crate) fn write_times(rt: &HostRuntime, alloc: Global, times: &[[u128; KINDS]]) -> Result<()> {
    for (kind, name) in NAMES.iter().enumerate() {
        let mut all = times
            .iter()
            .filter_map(|round| round.get(kind).copied())
            .collect::<Vec<u128>>(alloc)?;
        all.sort()?;
        let median = all.get(all.len() / 2).copied().unwrap_or(0);
        let worst = all.last().copied().unwrap_or(0);
        eprintln!(rt; "{name} {median} {worst}")?;
    }
    Ok(())
}
