//! The word `distances`.

use crate::words::number;
use anyhow::Result;
use line_network::{Network, OpenGate, Tables, read_lines, tables, tables_by_workers};
use std::alloc::Global;
use std::rt::Runtime;
use std::sync::Wait;
use std::thread::Threads;
use std::time::Instant;

/// Times how long the tables of a network take: `distances WORKERS TIMES` reads the network from standard input as CSV.
/// With 0 workers the tables are made on one thread, else by so many workers. The sums of all distances, in kilometres
/// and minutes, go to standard output, and the least time to standard error, in microseconds.
pub(crate) fn time_distances<R: Runtime + Threads + Wait + AllocGlobal>(
    rt: &R,
    words: &[String],
) -> Result<()> {
    let workers = number(words, 2)? as usize;
    let times = number(words, 3)?;
    let network = read_lines(rt.alloc(), rt.reader())?;
    let mut least = u128::MAX;
    for _ in 0..times {
        let start = Instant::now(rt)?;
        let made = tables_of(rt, rt.alloc(), &network, workers)?;
        least = least.min(start.elapsed(rt)?.as_micros());
        drop(made);
    }
    let (km, minutes) = sums(&network, &tables_of(rt, rt.alloc(), &network, workers)?);
    println!(rt; "{km} {minutes}")?;
    eprintln!(rt; "{least}")?;
    Ok(())
}

/// The tables of a network, made on one thread or by workers.
fn tables_of<R: Threads + Wait>(
    rt: &R,
    alloc: Global,
    network: &Network,
    workers: usize,
) -> Result<Tables> {
    if workers == 0 {
        return Ok(tables(alloc, network)?);
    }
    Ok(tables_by_workers(rt, alloc, network, workers, &OpenGate)?)
}

/// The sums of all kilometres and of all minutes.
fn sums(network: &Network, distances: &Tables) -> (u64, u64) {
    let (mut km, mut minutes) = (0u64, 0u64);
    for from in 0..network.places() {
        for to in 0..network.places() {
            let (Some(from), Some(to)) = (network.place_at(from), network.place_at(to)) else {
                continue;
            };
            if let Some(pair) = distances.between(from, to) {
                km = km.wrapping_add(u64::from(pair.0));
                minutes = minutes.wrapping_add(u64::from(pair.1));
            }
        }
    }
    (km, minutes)
}
