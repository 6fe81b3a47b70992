//! The lines of orders.
ghost use Rattle.std.specs.Prelude.{◌≡◌, ◌+◌, ◌++◌, ◌<◌, ◌≤◌, codes, is_some, length, nat_lt, slice_index, IfOk, IfSome, OnOk, string_bytes};
ghost use Rattle.cost_table.specs.Table.{lack_at, order_count};
ghost use Rattle.plan_bounds.specs.Bounds.{AllCostMore};
ghost use Rattle.plan_bounds.specs.Changes.{with_lack};
ghost use Rattle.plan_bounds.specs.Slack.{missed};
ghost use Rattle.exact_costs.specs.FurtherCosts.{IsFurther};
ghost use Rattle.reply_texts.specs.Lines.{Adds};
ghost use Rattle.plan_reasons.specs.Fields.{field, quoted};
ghost use Rattle.plan_reasons.specs.PrintedNumbers.{AreChangeNumbers, AreCountNumbers, AreOrderNumbers, IsFurtherPrinted, IsPrinted};
ghost use Rattle.plan_reasons.specs.WhyText.{AreExactFields, AreLastFields, change_fields, count_fields, exact_value, further_value, number_value, order_fields, price_fields};
ghost use Rattle.plan_reasons.specs.inner.Added.{AddsOrderLine};
ghost use Rattle.plan_reasons.specs.inner.Tallied.{AreTallies};

use crate::certified_plan::CertifiedPlan;
use crate::numbers::Numbers;
use crate::reasons::Counts;
use crate::style::{Style, code_field, end_line, first_code, nothing, number_field, push_field};
use crate::tallies::Tallies;
use exact_costs::Further;
use plan_bounds::Bounds;
use price_checker::order_name;
use std::alloc::{AllocError, Global};

/// Adds the line of order `j`.
pub(crate) fn push_order_line(
    alloc: Global,
    text: &mut String,
    style: Style,
    numbers: Numbers,
    planned: &CertifiedPlan,
    tallies: &Tallies,
    j: usize,
) -> Result<(), AllocError>
    requires tallies { AreTallies planned.now tallies.now }
    requires order { j < length planned.now.problem.orders }
    ensures { OnOk result (AddsOrderLine style numbers planned.now j (string_bytes text.old) (string_bytes text.new)) }
{
    let counts = tallies.counts(alloc, planned, j)?;
    push_order_fields(text, style, planned, tallies, j)?;
    push_counts(text, style, counts)?;
    push_last(alloc, text, style, numbers, planned, tallies, j)
}

/// Adds the name of order `j`, how many wagons it lacks, gets, and misses.
fn push_order_fields(
    text: &mut String,
    style: Style,
    planned: &CertifiedPlan,
    tallies: &Tallies,
    j: usize,
) -> Result<(), AllocError>
    requires tallies { AreTallies planned.now tallies.now }
    requires order { j < length planned.now.problem.orders }
    ensures text { OnOk result (string_bytes text.new ≡ string_bytes text.old ++ order_fields style planned.now.problem planned.now.priced j) }
    ensures numbers { AreOrderNumbers planned.now.priced j }
{
    let name = order_name(planned.problem(), j);
    let lacks = u64::from(planned.cells().lack(j));
    let gets = tallies.given(planned, j);
    first_code(text, style, "order", name.as_bytes())?;
    number_field(text, style, "lacks", lacks)?;
    number_field(text, style, "gets", gets)?;
    number_field(text, style, "misses", missed(planned, tallies, j))
}

/// Adds how many wagons pass each test.
fn push_counts(text: &mut String, style: Style, counts: Counts) -> Result<(), AllocError>
    ensures text { OnOk result (string_bytes text.new ≡ string_bytes text.old ++ count_fields style counts) }
    ensures numbers { AreCountNumbers counts }
{
    number_field(text, style, "class", counts.class)?;
    number_field(text, style, "load", counts.load)?;
    number_field(text, style, "way", counts.way)?;
    number_field(text, style, "time", counts.in_time)?;
    number_field(text, style, "cheaper", counts.cheaper)
}

/// Adds the last fields of order `j`: what plans cost in which it lacks, or gets, another number of wagons.
fn push_last(
    alloc: Global,
    text: &mut String,
    style: Style,
    numbers: Numbers,
    planned: &CertifiedPlan,
    tallies: &Tallies,
    j: usize,
) -> Result<(), AllocError>
    requires tallies { AreTallies planned.now tallies.now }
    requires order { j < length planned.now.problem.orders }
    ensures { OnOk result (Adds (AreLastFields style numbers planned.now.priced j) (string_bytes text.old) (string_bytes text.new)) }
{
    match numbers {
        Numbers::Exact => push_exact(alloc, text, style, planned, tallies, j),
        Numbers::Bounds => push_prices(text, style, planned, tallies, j),
    }
}

/// Adds what the best plan costs more where order `j` lacks one wagon more, what it costs less where it lacks one less, and
/// what the best plan that gives it more wagons costs more.
fn push_exact(
    alloc: Global,
    text: &mut String,
    style: Style,
    planned: &CertifiedPlan,
    tallies: &Tallies,
    j: usize,
) -> Result<(), AllocError>
    requires tallies { AreTallies planned.now tallies.now }
    requires order { j < length planned.now.problem.orders }
    ensures { OnOk result (Adds (AreExactFields style planned.now.priced j) (string_bytes text.old) (string_bytes text.new)) }
{
    let costs = planned.exact_costs();
    let more = costs.one_more(alloc, j)?;
    let less = costs.one_less(alloc, j)?;
    let further = further_of(alloc, planned, tallies, j)?;
    push_changes(text, style, more, less, further)?;
    end_line(text, style)
}

/// What the best plan costs more that gives order `j` more wagons, where it misses one.
fn further_of(
    alloc: Global,
    planned: &CertifiedPlan,
    tallies: &Tallies,
    j: usize,
) -> Result<Option<Further>, AllocError>
    requires tallies { AreTallies planned.now tallies.now }
    requires order { j < order_count planned.now.priced.table }
    ensures misses { IfOk result (λ further. is_some further ≡ nat_lt 0 (missed planned.now.priced planned.now.priced.pairs j)) }
    ensures further { IfOk result (λ further. IfSome further (IsFurther planned.now.priced j)) }
{
    let misses = missed(planned, tallies, j);
    if misses == 0 {
        return Ok(None);
    }
    Ok(Some(planned.exact_costs().further(alloc, j)?))
}

/// Adds what one wagon more costs, what one less saves, and what it costs to give the order more.
fn push_changes(
    text: &mut String,
    style: Style,
    more: Option<u64>,
    less: u64,
    further: Option<Further>,
) -> Result<(), AllocError>
    ensures text { OnOk result (string_bytes text.new ≡ string_bytes text.old ++ change_fields style more less further) }
    ensures numbers { AreChangeNumbers more less further }
{
    push_more(text, style, more)?;
    number_field(text, style, "less", less)?;
    push_exactly(text, style, further)
}

/// Adds what it costs to give an order more wagons.
fn push_exactly(text: &mut String, style: Style, further: Option<Further>) -> Result<(), AllocError>
    ensures text { OnOk result (string_bytes text.new ≡ string_bytes text.old ++ field style (codes "further") (exact_value style further)) }
    ensures number { IfSome further IsFurtherPrinted }
{
    match further {
        Some(Further::Exactly(km)) => number_field(text, style, "further", km),
        Some(Further::Over(_)) => push_field(text, style, "further", only_a_bound(style)),
        Some(Further::Never) => push_field(text, style, "further", no_bound(style)),
        None => push_field(text, style, "further", nothing(style)),
    }
}

/// The word where only a bound is known.
fn only_a_bound(style: Style) -> &'static str
    ensures { result.now ≡ quoted style (codes "over") }
{
    match style {
        Style::Text => "over",
        Style::Json => "\"over\"",
    }
}

/// Adds what one wagon more costs, if there may be one.
fn push_more(text: &mut String, style: Style, more: Option<u64>) -> Result<(), AllocError>
    ensures text { OnOk result (string_bytes text.new ≡ string_bytes text.old ++ field style (codes "more") (number_value style more)) }
    ensures number { IfSome more IsPrinted }
{
    match more {
        Some(km) => number_field(text, style, "more", km),
        None => push_field(text, style, "more", nothing(style)),
    }
}

/// Adds the price of order `j`, and what every plan that gives it more wagons costs more, at least.
fn push_prices(
    text: &mut String,
    style: Style,
    planned: &CertifiedPlan,
    tallies: &Tallies,
    j: usize,
) -> Result<(), AllocError>
    requires tallies { AreTallies planned.now tallies.now }
    requires order { j < length planned.now.problem.orders }
    ensures text { OnOk result (string_bytes text.new ≡ string_bytes text.old ++ price_fields style planned.now.priced j) }
    ensures price { IsPrinted (slice_index planned.now.priced.v j) }
{
    let bounds = planned.bounds();
    number_field(text, style, "price", price(&bounds, j))?;
    push_further(text, style, planned, tallies, &bounds, j)?;
    end_line(text, style)
}

/// Adds what every plan that gives order `j` more wagons costs more, at least.
fn push_further(
    text: &mut String,
    style: Style,
    planned: &CertifiedPlan,
    tallies: &Tallies,
    bounds: &Bounds,
    j: usize,
) -> Result<(), AllocError>
    requires tallies { AreTallies planned.now tallies.now }
    requires order { j < order_count planned.now.priced.table }
    requires bounds { bounds.now ≡ planned.now.priced }
    ensures { OnOk result (string_bytes text.new ≡ string_bytes text.old ++ field style (codes "further") (further_value style planned.now.priced j)) }
{
    if missed(planned, tallies, j) == 0 {
        return push_field(text, style, "further", nothing(style));
    }
    match bounds.service_bound(j) {
        Some(km) => number_field(text, style, "further", km),
        None => push_field(text, style, "further", no_bound(style)),
    }
}

/// The word where no plan gives an order more.
fn no_bound(style: Style) -> &'static str
    ensures { result.now ≡ quoted style (codes "none") }
{
    match style {
        Style::Text => "none",
        Style::Json => "\"none\"",
    }
}

/// What every plan costs more, at least, where order `j` lacks one wagon more.
fn price(bounds: &Bounds, j: usize) -> u64
    requires { j < order_count bounds.now.table }
    ensures value { result ≡ slice_index bounds.now.v j }
    ensures one_more { AllCostMore bounds.now (with_lack bounds.now.table j (lack_at bounds.now.table j + 1)) result }
{
    bounds.one_more(j)
}

/// How many wagons order `j` misses.
pub(crate) fn missed(planned: &CertifiedPlan, tallies: &Tallies, j: usize) -> u64
    requires tallies { AreTallies planned.now tallies.now }
    requires order { j < order_count planned.now.priced.table }
    ensures value { result ≡ missed planned.now.priced planned.now.priced.pairs j }
    ensures limit { result ≤ 20 }
{
    u64::from(planned.cells().lack(j)).saturating_sub(tallies.given(planned, j))
}
