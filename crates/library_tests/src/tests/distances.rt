//! Distances by several workers, and beside another way to find them.

use line_network::{
    Gate, Network, NetworkFault, OpenGate, Tables, WorkFault, read_lines, tables, tables_by_workers,
};
use std::alloc::{AllocError, Global};
use std::sync::Wait;
use std::sync::atomic::{AtomicU64, Ordering};
use std::test::Fail;
use std::thread;
use std::thread::Threads;
use test_samples::{MemoryReader, NETWORK, NETWORK_HEADER, place};

/// Whether two tables answer the same between any two places of a network.
fn same_answers(network: &Network, one: &Tables, other: &Tables) -> bool {
    for from in 0..network.places() {
        for to in 0..network.places() {
            let (Some(from), Some(to)) = (network.place_at(from), network.place_at(to)) else {
                return false;
            };
            if one.between(from, to) != other.between(from, to) {
                return false;
            }
        }
    }
    true
}

/// Whether so many workers make the tables of the sample that one thread makes.
fn like_one_thread<R: Threads + Wait, G: Gate + Sync>(
    rt: &R,
    alloc: Global,
    workers: usize,
    gate: &G,
) -> Result<bool, Fail> {
    let network = read_lines(alloc, NETWORK.as_bytes())?;
    let many = tables_by_workers(rt, alloc, &network, workers, gate)?;
    is_like_one_thread(alloc, &network, &many)
}

/// Whether tables answer as those that one thread makes.
fn is_like_one_thread(alloc: Global, network: &Network, many: &Tables) -> Result<bool, Fail> {
    let one = tables(alloc, network)?;
    Ok(same_answers(network, &one, many))
}

#[test]
fn workers_like_one_thread(rt: HostRuntime) -> Result<(), Fail> {
    for workers in [1, 2, 3, 64] {
        assert!(rt;
            like_one_thread(&rt, rt.alloc(), workers, &OpenGate)?,
            "{workers}"
        );
    }
    Ok(())
}

/// Why so many workers make no tables of the sample.
fn refusal<R: Threads + Wait>(
    rt: &R,
    alloc: Global,
    workers: usize,
) -> Result<Option<WorkFault>, Fail> {
    let network = read_lines(alloc, NETWORK.as_bytes())?;
    Ok(tables_by_workers(rt, alloc, &network, workers, &OpenGate).err())
}

#[test]
fn one_to_sixty_four_workers(rt: HostRuntime) -> Result<(), Fail> {
    for workers in [0, 65] {
        assert_eq!(rt;
            refusal(&rt, rt.alloc(), workers)?,
            Some(WorkFault::BadWorkerCount),
            "{workers}"
        );
    }
    assert_eq!(rt; WorkFault::BadWorkerCount.number(), 45);
    Ok(())
}

/// Holds each worker until so many origins have entered, and counts who entered and who gave up.
#[derive(Drop)]
struct MeetingGate {
    wanted: u64,
    entered: [AtomicU64; 3],
    gave_up: AtomicU64,
}

impl MeetingGate {
    fn new(wanted: u64) -> MeetingGate {
        MeetingGate {
            wanted,
            entered: [AtomicU64::new(0), AtomicU64::new(0), AtomicU64::new(0)],
            gave_up: AtomicU64::new(0),
        }
    }

    /// How many origins have entered.
    fn in_all(&self) -> u64 {
        let mut sum: u64 = 0;
        for entered in &self.entered {
            sum = sum.saturating_add(entered.load(Ordering::SeqCst));
        }
        sum
    }

    /// Whether each of the three origins entered once, and none gave up.
    fn is_passed(&self) -> bool {
        self.gave_up.load(Ordering::SeqCst) == 0
            && self.entered.iter().all(|n| n.load(Ordering::SeqCst) == 1)
    }
}

impl Gate for MeetingGate {
    fn enter(&self, origin: usize) {
        let Some(own) = self.entered.get(origin) else {
            return;
        };
        own.fetch_add(1, Ordering::SeqCst);
        for _ in 0..10_000_000 {
            if self.in_all() >= self.wanted {
                return;
            }
            thread::yield_now();
        }
        self.gave_up.fetch_add(1, Ordering::SeqCst);
    }
}

/// Whether so many workers are at work at once, and make the tables that one thread makes.
fn meet<R: Threads + Wait>(
    rt: &R,
    alloc: Global,
    workers: usize,
    wanted: u64,
) -> Result<bool, Fail> {
    let gate = MeetingGate::new(wanted);
    let is_same = like_one_thread(rt, alloc, workers, &gate)?;
    Ok(is_same && gate.is_passed())
}

#[test]
fn workers_meet(rt: HostRuntime) -> Result<(), Fail> {
    assert!(rt; meet(&rt, rt.alloc(), 2, 2)?);
    assert!(rt; meet(&rt, rt.alloc(), 3, 3)?);
    Ok(())
}

/// So many records of lines of one length, each from the place `step` after that of the record before, to the
/// place behind it; the places go round after `places`.
fn records(alloc: Global, count: u32, step: u32, places: u32, length: u32) -> Result<String, Fail> {
    let mut text = String::from_str(alloc, NETWORK_HEADER)?;
    for record in 0..count {
        let from = record.wrapping_mul(step) % places.max(1);
        let to = from.wrapping_add(1) % places.max(1);
        let line = format!(in alloc; "DE{from:05},DE{to:05},{length},{length},one\n")?;
        text.push_str(&line)?;
    }
    Ok(text)
}

/// A ring of 2,000 places, from each to the next in 10,000 km and as many minutes.
fn ring(alloc: Global) -> Result<Network, Fail> {
    let text = records(alloc, 2000, 1, 2000, 10000)?;
    Ok(read_lines(alloc, text.as_bytes())?)
}

/// The distances from the ring's first place to its last, and back.
fn ring_distances(alloc: Global) -> Result<[Option<(u32, u32)>; 2], Fail> {
    let (first, last) = (place("DE00000")?, place("DE01999")?);
    let network = ring(alloc)?;
    let distances = tables(alloc, &network)?;
    Ok([
        distances.between(first, last),
        distances.between(last, first),
    ])
}

#[test]
fn a_ring(rt: HostRuntime) -> Result<(), Fail> {
    let [there, back] = ring_distances(rt.alloc())?;
    assert_eq!(rt; there, Some((19_990_000, 19_990_000)));
    assert_eq!(rt; back, Some((10_000, 10_000)));
    Ok(())
}

/// How many places and lines a text has, or why it is no network.
fn counts(alloc: Global, text: &str) -> Result<(usize, usize), NetworkFault> {
    let network = read_lines(alloc, text.as_bytes())?;
    Ok((network.places(), network.lines().len()))
}

#[test]
fn limits_of_networks(rt: HostRuntime) -> Result<(), Fail> {
    let alloc = rt.alloc();
    for (count, places, answer) in [
        (1000, 2002, Ok((2000, 1000))),
        (1001, 2002, Err(NetworkFault::TooManyPlaces)),
        (20000, 2, Ok((2, 20000))),
        (20001, 2, Err(NetworkFault::TooManyLines)),
    ] {
        let text = records(alloc, count, 2, places, 1)?;
        assert_eq!(rt; counts(alloc, &text), answer, "{count} records");
    }
    assert_eq!(rt; NetworkFault::TooManyPlaces.number(), 42);
    assert_eq!(rt; NetworkFault::TooManyLines.number(), 43);
    Ok(())
}

/// A reader that fails behind the sample, or in its midst and then goes on.
#[test]
fn unreadable_networks(rt: HostRuntime) {
    for (given, once) in [(NETWORK.len(), false), (60, false), (60, true)] {
        let reader = MemoryReader::failing(NETWORK.as_bytes(), given, once);
        let fault = read_lines(rt.alloc(), reader).err();
        assert_eq!(rt; fault, Some(NetworkFault::ReadFailed), "{given}");
        assert_eq!(rt; fault.map(|fault| fault.number()), Some(93));
    }
}

/// Numbers from a seed.
#[derive(Drop)]
struct Random(u64);

impl Random {
    fn below(&mut self, bound: u64) -> u64 {
        self.0 ^= self.0 << 13;
        self.0 ^= self.0 >> 7;
        self.0 ^= self.0 << 17;
        self.0 % bound.max(1)
    }
}

/// A network of at most twelve places, with lines so short that many walks are as long as others.
fn random_network(alloc: Global, random: &mut Random) -> Result<Network, Fail> {
    let mut text = String::from_str(alloc, NETWORK_HEADER)?;
    for _ in 0..random.below(30) {
        let (from, to) = (random.below(12), random.below(12));
        let km = random.below(4).wrapping_add(1);
        let minutes = random.below(9).wrapping_add(1);
        let way = if random.below(3) == 0 { "both" } else { "one" };
        let line = format!(in alloc; "DE{from:05},DE{to:05},{km},{minutes},{way}\n")?;
        text.push_str(&line)?;
    }
    Ok(read_lines(alloc, text.as_bytes())?)
}

/// The distances from an origin, by relaxing all lines in as many rounds as there are places.
fn relaxed(
    alloc: Global,
    network: &Network,
    origin: usize,
) -> Result<Vec<Option<(u32, u32)>>, AllocError> {
    let mut labels = vec![in alloc; None; network.places()]?;
    if let Some(label) = labels.get_mut(origin) {
        *label = Some((0, 0));
    }
    for _ in 0..network.places() {
        for line in network.lines() {
            relax(&mut labels, line.from, line.to, (line.km, line.minutes));
        }
    }
    Ok(labels)
}

/// Relaxes one line.
fn relax(labels: &mut [Option<(u32, u32)>], from: usize, to: usize, length: (u32, u32)) {
    if from >= labels.len() || to >= labels.len() {
        return;
    }
    let Some((km, minutes)) = labels[from] else {
        return;
    };
    let pair = (km.wrapping_add(length.0), minutes.wrapping_add(length.1));
    if falls(labels[to], pair) {
        labels[to] = Some(pair);
    }
}

/// Whether a label falls to a pair.
fn falls(label: Option<(u32, u32)>, pair: (u32, u32)) -> bool {
    match label {
        Some(label) => pair < label,
        None => true,
    }
}

/// Whether tables answer what the rounds find, between any two places.
fn agree(alloc: Global, network: &Network, distances: &Tables) -> Result<bool, AllocError> {
    for origin in 0..network.places() {
        let labels = relaxed(alloc, network, origin)?;
        if !row_agrees(network, distances, origin, &labels) {
            return Ok(false);
        }
    }
    Ok(true)
}

/// The same from one place.
fn row_agrees(
    network: &Network,
    distances: &Tables,
    origin: usize,
    labels: &[Option<(u32, u32)>],
) -> bool {
    for end in 0..network.places() {
        let (Some(from), Some(to)) = (network.place_at(origin), network.place_at(end)) else {
            return false;
        };
        if labels.get(end).copied() != Some(distances.between(from, to)) {
            return false;
        }
    }
    true
}

/// Whether the tables of a network answer what the rounds find.
fn agrees(alloc: Global, network: &Network) -> Result<bool, Fail> {
    let distances = tables(alloc, network)?;
    Ok(agree(alloc, network, &distances)?)
}

#[test]
fn like_relaxing_in_rounds(rt: HostRuntime) -> Result<(), Fail> {
    let mut random = Random(20260301);
    for number in 0..60 {
        let network = random_network(rt.alloc(), &mut random)?;
        assert!(rt; agrees(rt.alloc(), &network)?, "network {number}");
    }
    Ok(())
}
