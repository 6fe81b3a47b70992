//! The lines of a plan.
ghost use Rattle.std.specs.Prelude.{◌≡◌, ◌++◌, ◌<◌, ◌≤◌, ◌==◌, ℕ, length, replicate, IfOk, IfSome, OnOk, string_bytes};
ghost use Rattle.std.specs.List.{concat, flat_map, prefix_len};
ghost use Rattle.cost_table.specs.Plan.{AllAllowed, IsAllowed, IsPlan, pair_cost};
ghost use Rattle.cost_table.specs.Table.{lack_at};
ghost use Rattle.price_checker.specs.Certificate.{IsCertificate};
ghost use Rattle.price_checker.specs.Tight.{AreTight, IsTight};
ghost use Rattle.dispatch_sheet.specs.PlanText.{assign_line, plan_text_of, refuse_line, FitsProblem};
ghost use Rattle.dispatch_sheet.specs.inner.PairLines.{lines_of_pairs};

use cost_table::{Cells, Plan, Problem};
use price_checker::{Prices, Snap, certified_pair_cost, order_name, wagon_name};
use reply_texts::line_words::{push_code, push_number};
use std::alloc::{AllocError, Global};

/// The lines of a plan: order by order as placed, `assign WAGON ORDER KM` for each wagon that the plan gives it, in
/// the plan's order, then `refuse ORDER PENALTY` for each wagon that it misses. `KM` and `PENALTY` are kilometres. The
/// table must have as many wagons and orders as the snapshot's problem, and its penalties; the plan must be one of the
/// table.
pub fn plan_text(
    alloc: Global,
    snap: &Snap,
    cells: &Cells,
    plan: &Plan,
) -> Result<String, AllocError>
    requires fits { FitsProblem snap.now.problem cells.now }
    requires plan { IsPlan cells.now plan.now }
    ensures { IfOk result (λ text. string_bytes text ≡ plan_text_of snap.now.problem cells.now plan.now) }
{
    text_of_plan(alloc, snap, cells, plan, None)
}

/// The same of a plan that comes with its certificate, whose prices tell the kilometres: no cell is looked up.
pub fn certified_plan_text(
    alloc: Global,
    snap: &Snap,
    cells: &Cells,
    plan: &Plan,
    prices: &Prices,
) -> Result<String, AllocError>
    requires fits { FitsProblem snap.now.problem cells.now }
    requires certificate { IsCertificate cells.now plan.now prices.now.u.items prices.now.v.items }
    ensures { IfOk result (λ text. string_bytes text ≡ plan_text_of snap.now.problem cells.now plan.now) }
{
    text_of_plan(alloc, snap, cells, plan, Some(prices))
}

/// The lines of a plan. Prices tell the kilometres, where they are there.
fn text_of_plan(
    alloc: Global,
    snap: &Snap,
    cells: &Cells,
    plan: &Plan,
    prices: Option<&Prices>,
) -> Result<String, AllocError>
    requires fits { FitsProblem snap.now.problem cells.now }
    requires plan { IsPlan cells.now plan.now }
    requires tight { IfSome prices (λ p. AreTight cells.now p.now.u.items p.now.v.items plan.now) }
    ensures { IfOk result (λ text. string_bytes text ≡ plan_text_of snap.now.problem cells.now plan.now) }
{
    let problem = snap.problem();
    let mut rest = plan.pairs();
    let mut text = String::new(alloc);
    for j in 0..problem.orders().len() {
        let (mine, later) = rest.split_at(pairs_of_order(rest, j));
        push_lines_of_order(&mut text, problem, cells, prices, mine, j)?;
        rest = later;
    }
    Ok(text)
}

/// How many pairs at the front go to order `j`.
fn pairs_of_order(pairs: &[(usize, usize)], j: usize) -> usize
    ensures value { result ≡ prefix_len (λ (p : ℕ × ℕ). p.1 == j) pairs.now }
    ensures within { result ≤ length pairs.now }
{
    pairs.iter().take_while(|pair| pair.1 == j).count()
}

/// Adds the lines of order `j`; `mine` are its pairs.
fn push_lines_of_order(
    text: &mut String,
    problem: &Problem,
    cells: &Cells,
    prices: Option<&Prices>,
    mine: &[(usize, usize)],
    j: usize,
) -> Result<(), AllocError>
    requires fits { FitsProblem problem.now cells.now }
    requires allowed { AllAllowed cells.now mine.now }
    requires tight { IfSome prices (λ p. AreTight cells.now p.now.u.items p.now.v.items mine.now) }
    requires order { j < length problem.now.orders }
    requires within { length mine.now ≤ lack_at cells.now j }
    ensures { OnOk result (string_bytes text.new ≡ string_bytes text.old ++ lines_of_pairs problem.now cells.now mine.now j) }
{
    push_assign_lines(text, problem, cells, prices, mine)?;
    push_refuse_lines(text, problem, cells, j, cells.lack(j) as usize - mine.len())
}

/// Adds a line for each pair.
fn push_assign_lines(
    text: &mut String,
    problem: &Problem,
    cells: &Cells,
    prices: Option<&Prices>,
    pairs: &[(usize, usize)],
) -> Result<(), AllocError>
    requires fits { FitsProblem problem.now cells.now }
    requires allowed { AllAllowed cells.now pairs.now }
    requires tight { IfSome prices (λ p. AreTight cells.now p.now.u.items p.now.v.items pairs.now) }
    ensures { OnOk result (string_bytes text.new ≡ string_bytes text.old ++ flat_map (assign_line problem.now cells.now) pairs.now) }
{
    for pair in pairs {
        push_assign_line(text, problem, cells, prices, *pair)?;
    }
    Ok(())
}

/// Adds the line of a wagon that goes to an order.
fn push_assign_line(
    text: &mut String,
    problem: &Problem,
    cells: &Cells,
    prices: Option<&Prices>,
    pair: (usize, usize),
) -> Result<(), AllocError>
    requires fits { FitsProblem problem.now cells.now }
    requires allowed { IsAllowed cells.now pair }
    requires tight { IfSome prices (λ p. IsTight cells.now p.now.u.items p.now.v.items pair) }
    ensures { OnOk result (string_bytes text.new ≡ string_bytes text.old ++ assign_line problem.now cells.now pair) }
{
    let (i, j) = pair;
    text.push_str("assign")?;
    push_code(text, wagon_name(problem, i).digits())?;
    push_code(text, order_name(problem, j).as_bytes())?;
    push_number(text, kilometres(cells, prices, pair))?;
    text.push_str("\n")
}

/// The kilometres of a pair of the plan.
fn kilometres(cells: &Cells, prices: Option<&Prices>, pair: (usize, usize)) -> u64
    requires allowed { IsAllowed cells.now pair }
    requires tight { IfSome prices (λ p. IsTight cells.now p.now.u.items p.now.v.items pair) }
    ensures { result ≡ pair_cost cells.now pair }
{
    match prices {
        Some(prices) => certified_pair_cost(cells, pair, prices),
        None => cells.cell(pair.0, pair.1).unwrap_or(0),
    }
}

/// Adds a line for each wagon that order `j` misses.
fn push_refuse_lines(
    text: &mut String,
    problem: &Problem,
    cells: &Cells,
    j: usize,
    missed: usize,
) -> Result<(), AllocError>
    requires fits { FitsProblem problem.now cells.now }
    requires order { j < length problem.now.orders }
    ensures { OnOk result (string_bytes text.new ≡ string_bytes text.old ++ concat (replicate missed (refuse_line problem.now cells.now j))) }
{
    for _missed in 0..missed {
        push_refuse_line(text, problem, cells, j)?;
    }
    Ok(())
}

/// Adds the line of a wagon that order `j` misses.
fn push_refuse_line(
    text: &mut String,
    problem: &Problem,
    cells: &Cells,
    j: usize,
) -> Result<(), AllocError>
    requires fits { FitsProblem problem.now cells.now }
    requires order { j < length problem.now.orders }
    ensures { OnOk result (string_bytes text.new ≡ string_bytes text.old ++ refuse_line problem.now cells.now j) }
{
    text.push_str("refuse")?;
    push_code(text, order_name(problem, j).as_bytes())?;
    push_number(text, cells.penalty(j))?;
    text.push_str("\n")
}
