//! How many networks there may be, and their numbers.

use line_network::{Network, Networks, Tables, read_lines, tables};
use std::alloc::Global;
use std::test::Fail;
use test_samples::NETWORK_HEADER;

/// So many tables of one network.
fn several(alloc: Global, network: &Network, count: u32) -> Result<Vec<Tables>, Fail> {
    let mut all = Vec::new(alloc);
    for _ in 0..count {
        all.push(tables(alloc, network)?)?;
    }
    Ok(all)
}

/// So many networks without a line, or the number of their refusal.
fn empty_networks(alloc: Global, count: u32) -> Result<Result<Networks, u32>, Fail> {
    let network = read_lines(alloc, NETWORK_HEADER.as_bytes())?;
    let all = several(alloc, &network, count)?;
    Ok(Networks::new(all).map_err(|fault| fault.number()))
}

/// How many they are, or the number of their refusal.
fn count_of(alloc: Global, count: u32) -> Result<Result<u32, u32>, Fail> {
    let networks = empty_networks(alloc, count)?;
    Ok(networks.map(|networks| networks.count()))
}

#[test]
fn eight_networks_at_most(rt: HostRuntime) -> Result<(), Fail> {
    for (count, wanted) in [(0, Err(47)), (1, Ok(1)), (8, Ok(8)), (9, Err(47))] {
        assert_eq!(rt; count_of(rt.alloc(), count)?, wanted, "{count}");
    }
    Ok(())
}

/// Whether one network has a number.
fn is_numbered(alloc: Global, number: u32) -> Result<bool, Fail> {
    let networks = empty_networks(alloc, 1)?;
    Ok(networks.is_ok_and(|networks| networks.get(number).is_some()))
}

#[test]
fn networks_are_numbered_from_one(rt: HostRuntime) -> Result<(), Fail> {
    for (number, there) in [(0, false), (1, true), (2, false)] {
        assert_eq!(rt; is_numbered(rt.alloc(), number)?, there, "{number}");
    }
    Ok(())
}
