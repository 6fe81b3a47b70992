//! Problems of wagons and orders, on 1 March 2026.

use cost_table::{Problem, TableFault};
use std::alloc::Global;
use std::sync::Arc;
use std::test::Fail;
use test_samples::{FAR, NEAR, UNKNOWN, free_wagon, moment, order_id, order_text, time, wagon};
use wagons_and_orders::{FreeWagon, Wanted};

/// The sample order, for one wagon, of another name and latest moment.
fn wanted(name: &str, latest: &str) -> Result<Wanted, Fail> {
    Ok(Wanted::new(order_text(name, 1, latest)?, 1).ok_or("one wagon")?)
}

/// Three wagons, ascending neither by number nor by place; and two orders, the second of which waits a second less.
fn problem(alloc: Global) -> Result<Problem, Fail> {
    let mut wagons = Vec::new(alloc);
    wagons.push(free_wagon(FAR, "Eanos", "DE00001")?)?;
    wagons.push(free_wagon(NEAR, "Eanos", "DE00002")?)?;
    wagons.push(free_wagon(UNKNOWN, "Fals", "DE00003")?)?;
    let mut orders = Vec::new(alloc);
    orders.push(wanted("O1", "2026-03-01T04:00:00Z")?)?;
    orders.push(wanted("O2", "2026-03-01T03:59:59Z")?)?;
    let at = time(alloc, "01:00")?;
    Ok(Problem::new(at, Arc::new(alloc, wagons)?, Arc::new(alloc, orders)?)?)
}

#[test]
fn positions_of_names(rt: HostRuntime) -> Result<(), Fail> {
    let alloc = rt.alloc();
    let problem = problem(alloc)?;
    let at = time(alloc, "01:00")?;
    assert_eq!(rt; problem.at(), at);
    let pair = problem.pair_of(wagon(NEAR)?, order_id("O2")?);
    assert_eq!(rt; pair, Some((1, 1)));
    Ok(())
}

/// So many equal wagons.
fn wagons(alloc: Global, count: u32) -> Result<Vec<FreeWagon>, Fail> {
    let mut wagons = Vec::new(alloc);
    for _ in 0..count {
        wagons.push(free_wagon(FAR, "Eanos", "DE00001")?)?;
    }
    Ok(wagons)
}

/// So many equal orders.
fn orders(alloc: Global, count: u32) -> Result<Vec<Wanted>, Fail> {
    let mut orders = Vec::new(alloc);
    for _ in 0..count {
        orders.push(wanted("O1", "2026-03-01T04:00:00Z")?)?;
    }
    Ok(orders)
}

/// Why so many equal wagons and orders are no problem.
fn fault_of(alloc: Global, wagon_count: u32, order_count: u32) -> Result<Option<TableFault>, Fail> {
    let at = moment("2026-03-01T01:00:00Z")?;
    let wagons = Arc::new(alloc, wagons(alloc, wagon_count)?)?;
    let orders = Arc::new(alloc, orders(alloc, order_count)?)?;
    Ok(Problem::new(at, wagons, orders).err())
}

#[test]
fn refused_problems(rt: HostRuntime) -> Result<(), Fail> {
    let alloc = rt.alloc();
    let (number, id) = (wagon(FAR)?, order_id("O1")?);
    for (wagon_count, order_count, fault) in [
        (1001, 0, TableFault::TooLarge),
        (0, 501, TableFault::TooLarge),
        (2, 2, TableFault::DuplicateWagon(number)),
        (1000, 2, TableFault::DuplicateWagon(number)),
        (1, 2, TableFault::DuplicateOrder(id)),
    ] {
        let refused = fault_of(alloc, wagon_count, order_count)?;
        assert_eq!(rt; refused, Some(fault), "{wagon_count} {order_count}");
    }
    Ok(())
}
