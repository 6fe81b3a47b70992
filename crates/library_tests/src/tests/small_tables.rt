//! All tables of at most two wagons and two orders, with cells from none, 0, 1 and 2, penalties from 0 to 2 and lacks
//! of 1 and 2: the planner's cost is the least of all plans.

use crate::tests::tables::table;
use assignment::certified_plan;
use cost_table::Cells;
use std::alloc::Global;
use std::test::Fail;

/// What a plan costs that sends each wagon to its order, where that is a plan.
fn cost_of(cells: &Cells, order_of: &[Option<usize>]) -> Option<u64> {
    let mut cost: u64 = 0;
    for (i, order) in order_of.iter().enumerate() {
        if let Some(j) = order {
            cost = cost.saturating_add(cells.cell(i, *j)?);
        }
    }
    for j in 0..cells.orders() {
        let served = order_of.iter().filter(|order| **order == Some(j)).count();
        let missed = u64::from(cells.lack(j)).checked_sub(served as u64)?;
        cost = cost.saturating_add(cells.penalty(j).saturating_mul(missed));
    }
    Some(cost)
}

/// The least cost of all plans of a table of at most two wagons and two orders.
fn least_cost(cells: &Cells) -> u64 {
    let choices = [None, Some(0), Some(1)];
    let mut least = u64::MAX;
    for first in choices {
        for second in choices {
            if let Some(cost) = cost_of(cells, &[first, second]) {
                least = least.min(cost);
            }
        }
    }
    least
}

/// The digits of a number, each with a base of its own.
#[derive(Drop)]
struct Digits(usize);

impl Digits {
    /// The next digit.
    fn next(&mut self, base: usize) -> usize {
        let digit = self.0 % base.max(1);
        self.0 /= base.max(1);
        digit
    }
}

/// A list of some of the words, by the next digits.
fn list(alloc: Global, digits: &mut Digits, words: &[&str], length: usize) -> Result<String, Fail> {
    let mut text = String::new(alloc);
    for place in 0..length {
        if place > 0 {
            text.push_str(",")?;
        }
        let digit = digits.next(words.len());
        text.push_str(words.get(digit).ok_or("a word")?)?;
    }
    Ok(text)
}

/// The table that a number stands for, among those of so many wagons and orders.
fn small_table(alloc: Global, wagons: usize, orders: usize, number: usize) -> Result<Cells, Fail> {
    let mut digits = Digits(number);
    let mut rows = String::new(alloc);
    for wagon in 0..wagons {
        let row = list(alloc, &mut digits, &["null", "0", "1", "2"], orders)?;
        let comma = if wagon > 0 { "," } else { "" };
        rows.push_str(&format!(in alloc; "{comma}[{row}]")?)?;
    }
    let penalties = list(alloc, &mut digits, &["0", "1", "2"], orders)?;
    let lacks = list(alloc, &mut digits, &["1", "2"], orders)?;
    table(alloc, &rows, &penalties, &lacks)
}

/// Whether the plan of the table that a number stands for costs as much as the best of all plans.
fn is_least(alloc: Global, wagons: usize, orders: usize, number: usize) -> Result<bool, Fail> {
    let cells = small_table(alloc, wagons, orders, number)?;
    let (_plan, _prices, certified) = certified_plan(alloc, &cells)?;
    Ok(certified.cost() == u128::from(least_cost(&cells)))
}

#[test]
fn no_plan_costs_less(rt: HostRuntime) -> Result<(), Fail> {
    let alloc = rt.alloc();
    for (wagons, orders, tables) in [
        (0, 0, 1),
        (1, 0, 1),
        (2, 0, 1),
        (0, 1, 6),
        (1, 1, 24),
        (2, 1, 96),
        (0, 2, 36),
        (1, 2, 576),
        (2, 2, 9216),
    ] {
        for number in 0..tables {
            let is_least = is_least(alloc, wagons, orders, number)?;
            assert!(rt; is_least, "{wagons} {orders} {number}");
        }
    }
    Ok(())
}
