//! The text that says why a plan is as it is.
ghost use Rattle.std.specs.Prelude.{◌≡◌, ◌-◌, ◌++◌, ◌≤◌, ◌*◌, IfOk, OnOk, length, string_bytes};
ghost use Rattle.cost_table.specs.Table.{order_count};
ghost use Rattle.plan_bounds.specs.PricedPlan.{certified_cost};
ghost use Rattle.plan_reasons.specs.PrintedNumbers.{ArePlanNumbers, IsPrinted};
ghost use Rattle.plan_reasons.specs.WhyText.{IsWhyText, missed_in_all, plan_fields, problem_fields, why_line};
ghost use Rattle.plan_reasons.specs.inner.Added.{AddsOrderLines, AddsWagonLines};
ghost use Rattle.plan_reasons.specs.inner.Tallied.{AreTallies};

use crate::certified_plan::CertifiedPlan;
use crate::headings::{order_columns, push_heading, push_heading_over, wagon_columns, why_columns};
use crate::numbers::Numbers;
use crate::order_line::{missed, push_order_line};
use crate::style::{Style, end_line, first_number, number_field, push_field};
use crate::tallies::Tallies;
use crate::wagon_line::push_wagon_line;
use cost_table::cost;
use itoa::Buffer;
use std::alloc::{AllocError, Global};

/// Why a plan is as it is. In a text of words it is `why VERSION FREE ORDERS COST GO STAY MISS`, then `order NAME LACKS GETS
/// MISSES CLASS LOAD WAY TIME CHEAPER MORE LESS FURTHER` for each order as placed, then `wagon NUMBER ORDER KM ARRIVAL WITHOUT`
/// for each wagon that goes, in the plan's order. As JSON each line is an object with the members `why`, `free`, `orders`, `cost`,
/// `go`, `stay`, `miss`; `order`, `lacks`, `gets`, `misses`, `class`, `load`, `way`, `time`, `cheaper`, `more`, `less`, `further`;
/// or `wagon`, `order`, `km`, `arrival`, `without`. In a text of words a line that begins with `#` stands before the first line of
/// each kind, and names its words.
///
/// `CLASS` to `CHEAPER` are how many free wagons pass each test for the order, one after the other. `MORE` is what the best plan
/// costs more where the order lacks one wagon more: `-` (in JSON null) where a table may not have one more. `LESS` is what the
/// best plan costs less where it lacks one less. `FURTHER` is what the best plan costs more that gives the order more wagons:
/// `-` where it misses none, and `none` where no plan does. It is `over` where that is only known to be no less than
/// 1,000,000,000 km less the order's penalty. `WITHOUT` is what the best plan costs more in which the wagon stays.
///
/// Where bounds are asked for, `PRICE`, as JSON `price`, stands in place of `MORE LESS`: what every plan costs more, at least,
/// where the order lacks one wagon more, and what any plan saves, at most, where it lacks one less. `FURTHER` is what every plan
/// costs more, at least, that gives the order more wagons. `WITHOUT` is what every plan costs more, at least, in which the wagon
/// stays.
pub fn why_text(
    alloc: Global,
    style: Style,
    numbers: Numbers,
    version: u64,
    planned: &CertifiedPlan,
) -> Result<String, AllocError>
    ensures { IfOk result (λ text. IsWhyText style numbers version planned.now.network planned.now.problem planned.now.priced (string_bytes text)) }
{
    let mut text = String::new(alloc);
    let tallies = Tallies::new(alloc, planned)?;
    let orders = planned.problem().orders().len();
    let wagons = planned.plan().pairs().len();
    push_heading(&mut text, style, why_columns())?;
    push_why_line(&mut text, style, version, planned, &tallies)?;
    push_heading_over(&mut text, style, order_columns(numbers), orders)?;
    push_orders(alloc, &mut text, style, numbers, planned, &tallies)?;
    push_heading_over(&mut text, style, wagon_columns(), wagons)?;
    push_wagons(alloc, &mut text, style, numbers, planned)?;
    Ok(text)
}

/// Adds the line of the whole.
fn push_why_line(
    text: &mut String,
    style: Style,
    version: u64,
    planned: &CertifiedPlan,
    tallies: &Tallies,
) -> Result<(), AllocError>
    requires { AreTallies planned.now tallies.now }
    ensures text { OnOk result (string_bytes text.new ≡ string_bytes text.old ++ why_line style version planned.now.problem planned.now.priced) }
    ensures numbers { OnOk result (ArePlanNumbers planned.now.problem planned.now.priced (missed_in_all planned.now.priced)) }
{
    push_problem(text, style, version, planned)?;
    push_plan(text, style, planned, tallies)?;
    end_line(text, style)
}

/// Adds the version, and how many free wagons and orders there are.
fn push_problem(
    text: &mut String,
    style: Style,
    version: u64,
    planned: &CertifiedPlan,
) -> Result<(), AllocError>
    ensures text { OnOk result (string_bytes text.new ≡ string_bytes text.old ++ problem_fields style version planned.now.problem) }
    ensures free { IsPrinted (length planned.now.problem.wagons) }
    ensures orders { IsPrinted (length planned.now.problem.orders) }
{
    let free = planned.problem().wagons().len() as u64;
    let orders = planned.problem().orders().len() as u64;
    first_number(text, style, "why", version)?;
    number_field(text, style, "free", free)?;
    number_field(text, style, "orders", orders)
}

/// Adds what the plan costs, how many wagons go and stay, and how many the orders miss.
fn push_plan(
    text: &mut String,
    style: Style,
    planned: &CertifiedPlan,
    tallies: &Tallies,
) -> Result<(), AllocError>
    requires { AreTallies planned.now tallies.now }
    ensures text { OnOk result (string_bytes text.new ≡ string_bytes text.old ++ plan_fields style planned.now.problem planned.now.priced) }
    ensures cost { IsPrinted (certified_cost planned.now.priced) }
    ensures go { IsPrinted (length planned.now.priced.pairs) }
    ensures miss { IsPrinted (missed_in_all planned.now.priced) }
{
    let pairs = planned.plan().pairs();
    let cost = cost(planned.cells(), pairs);
    let go = pairs.len() as u64;
    let miss = missed_in_all(planned, tallies);
    let mut digits = Buffer::new();
    push_field(text, style, "cost", digits.format(cost))?;
    number_field(text, style, "go", go)?;
    number_field(text, style, "stay", staying(planned) as u64)?;
    number_field(text, style, "miss", miss)
}

/// How many free wagons stay.
fn staying(planned: &CertifiedPlan) -> usize
    ensures { result ≡ length planned.now.problem.wagons - length planned.now.priced.pairs }
{
    let free = planned.problem().wagons().len();
    free.saturating_sub(planned.plan().pairs().len())
}

/// How many wagons the orders miss in all.
fn missed_in_all(planned: &CertifiedPlan, tallies: &Tallies) -> u64
    requires { AreTallies planned.now tallies.now }
    ensures { result ≡ missed_in_all planned.now.priced }
{
    let mut all = 0;
    for j in 0..planned.cells().orders() {
        all += missed(planned, tallies, j);
    }
    all
}

/// Adds the line of each order.
fn push_orders(
    alloc: Global,
    text: &mut String,
    style: Style,
    numbers: Numbers,
    planned: &CertifiedPlan,
    tallies: &Tallies,
) -> Result<(), AllocError>
    requires { AreTallies planned.now tallies.now }
    ensures { OnOk result (AddsOrderLines style numbers planned.now (length planned.now.problem.orders) (string_bytes text.old) (string_bytes text.new)) }
{
    for j in 0..planned.problem().orders().len() {
        push_order_line(alloc, text, style, numbers, planned, tallies, j)?;
    }
    Ok(())
}

/// Adds the line of each wagon that goes.
fn push_wagons(
    alloc: Global,
    text: &mut String,
    style: Style,
    numbers: Numbers,
    planned: &CertifiedPlan,
) -> Result<(), AllocError>
    ensures { OnOk result (AddsWagonLines style numbers planned.now planned.now.priced.pairs (string_bytes text.old) (string_bytes text.new)) }
{
    for pair in planned.plan().pairs() {
        push_wagon_line(alloc, text, style, numbers, planned, *pair)?;
    }
    Ok(())
}
