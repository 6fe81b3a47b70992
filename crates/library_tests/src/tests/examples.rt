//! A table that doesn't fit a line, planned.

use crate::tests::tables::table;
use assignment::plan;
use cost_table::{Cells, Plan};
use price_checker::check;
use std::alloc::Global;
use std::test::Fail;

/// The plan of a table, and its cost, as the checker certifies it.
fn planned(alloc: Global, cells: &Cells) -> Result<(Plan, u128), Fail> {
    let (plan, prices) = plan(alloc, cells)?;
    let certified = check(cells, plan.pairs(), &prices)?;
    Ok((plan, certified.cost()))
}

/// The rows of 1,000 wagons and 500 orders: wagon i has one cell, of order i mod 500 at i + 1 kilometres.
fn sparse_rows(alloc: Global) -> Result<String, Fail> {
    let mut text = String::new(alloc);
    for wagon in 0..1000 {
        for order in 0..500 {
            text.push_str(if order > 0 {
                ","
            } else if wagon > 0 {
                "],["
            } else {
                "["
            })?;
            if order == wagon % 500 {
                text.push_str(&format!(in alloc; "{}", wagon + 1)?)?;
            } else {
                text.push_str("null")?;
            }
        }
    }
    text.push_str("]")?;
    Ok(text)
}

/// A list of 500 times the same.
fn five_hundred(alloc: Global, item: &str) -> Result<String, Fail> {
    let mut text = String::from_str(alloc, item)?;
    for _ in 1..500 {
        text.push_str(",")?;
        text.push_str(item)?;
    }
    Ok(text)
}

/// The table of these rows; each order lacks one wagon.
fn sparse_table(alloc: Global) -> Result<Cells, Fail> {
    let rows = sparse_rows(alloc)?;
    let penalties = five_hundred(alloc, "1000000000")?;
    let lacks = five_hundred(alloc, "1")?;
    table(alloc, &rows, &penalties, &lacks)
}

/// Whether a plan gives each of 500 orders the wagon of its number.
fn is_diagonal(plan: &Plan) -> bool {
    plan.pairs().len() == 500
        && plan
            .pairs()
            .iter()
            .enumerate()
            .all(|(j, pair)| *pair == (j, j))
}

#[test]
fn one_cell_a_wagon(rt: HostRuntime) -> Result<(), Fail> {
    let cells = sparse_table(rt.alloc())?;
    assert_eq!(rt; (cells.wagons(), cells.orders()), (1000, 500));
    let (plan, cost) = planned(rt.alloc(), &cells)?;
    assert_eq!(rt; (cost, is_diagonal(&plan)), (125_250, true));
    Ok(())
}
