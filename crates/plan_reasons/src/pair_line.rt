//! The line of a free wagon with a waiting order.
ghost use Rattle.std.specs.Prelude.{◌≡◌, ◌++◌, OnOk, string_bytes};
ghost use Rattle.cost_table.specs.Plan.{pair_cost};
ghost use Rattle.plan_reasons.specs.declared.style.Style.TheVariants.{Text};
ghost use Rattle.plan_reasons.specs.Pairs.{IsFailed, as_good, cost_fields, planned_field, truth};
ghost use Rattle.plan_reasons.specs.PrintedNumbers.{IsPrinted};
ghost use Rattle.plan_reasons.specs.inner.AddedPairs.{AddsFailedLine, AddsFitsLine, IsFailing, IsFoundFailed, IsFoundFit};

use crate::certified_plan::CertifiedPlan;
use crate::failed::Failed;
use crate::failed_line::{push_pair, push_test_line};
use crate::fit::Fit;
use crate::line_form::LineForm;
use crate::numbers::Numbers;
use crate::reasons::{Test, first_failed};
use crate::style::{Style, end_line, number_field, push_field};
use plan_bounds::has_pair;
use std::alloc::AllocError;

/// Adds the line of a pair that fails no test.
pub(crate) fn push_fits_line(
    text: &mut String,
    style: Style,
    numbers: Numbers,
    planned: &CertifiedPlan,
    fit: Fit,
) -> Result<(), AllocError>
    requires { IsFoundFit numbers planned.now fit }
    ensures { OnOk result (AddsFitsLine style numbers planned.now fit (string_bytes text.old) (string_bytes text.new)) }
{
    let problem = planned.problem();
    let wagon = &problem.wagons()[fit.pair.0];
    let order = problem.orders()[fit.pair.1].order();
    push_pair(text, style, "fits", wagon, order)?;
    push_costs(text, style, numbers, planned, fit)?;
    end_line(text, style)
}

/// The first test that a pair fails.
pub(crate) fn failed_test(planned: &CertifiedPlan, pair: (usize, usize)) -> Test
    requires { IsFailing planned.now pair }
    ensures { IsFailed planned.now.network planned.now.problem (record { pair = pair; test = result }) }
{
    let problem = planned.problem();
    let at = problem.at();
    let wagon = &problem.wagons()[pair.0];
    let order = problem.orders()[pair.1].order();
    let tables = planned.tables();
    first_failed(tables, at, wagon, order)
}

/// Adds the line of a pair by the first test that it fails.
pub(crate) fn push_failed_line(
    text: &mut String,
    form: &LineForm<'_>,
    planned: &CertifiedPlan,
    failed: Failed,
) -> Result<(), AllocError>
    requires { IsFoundFailed planned.now failed }
    ensures { OnOk result (AddsFailedLine form.now planned.now failed (string_bytes text.old) (string_bytes text.new)) }
{
    let problem = planned.problem();
    let at = problem.at();
    let wagon = &problem.wagons()[failed.pair.0];
    let order = problem.orders()[failed.pair.1].order();
    let tables = planned.tables();
    push_test_line(text, form, tables, at, wagon, order, failed.test)
}

/// Adds the kilometres of a pair, what plans with it cost more, and whether the plan has it.
fn push_costs(
    text: &mut String,
    style: Style,
    numbers: Numbers,
    planned: &CertifiedPlan,
    fit: Fit,
) -> Result<(), AllocError>
    ensures text { OnOk result (string_bytes text.new ≡ string_bytes text.old ++ cost_fields style numbers planned.now.priced fit) }
    ensures km { IsPrinted (pair_cost planned.now.priced.table fit.pair) }
    ensures more { IsPrinted fit.more }
{
    let (i, j) = fit.pair;
    let km = planned.cells().cell(i, j).unwrap_or(0);
    number_field(text, style, "km", km)?;
    number_field(text, style, "more", fit.more)?;
    let is_planned = has_pair(planned.plan().pairs(), i, j);
    push_planned(text, style, numbers, fit.more, is_planned)
}

/// Adds whether the plan has a pair.
fn push_planned(
    text: &mut String,
    style: Style,
    numbers: Numbers,
    more: u64,
    planned: bool,
) -> Result<(), AllocError>
    ensures { OnOk result (string_bytes text.new ≡ string_bytes text.old ++ planned_field style numbers more planned) }
{
    match style {
        Style::Json => push_field(text, style, "planned", truth(planned)),
        Style::Text => text.push_str(planned_words(numbers, more, planned)),
    }
}

/// Whether something is so.
fn truth(is_so: bool) -> &'static str
    ensures { result.now ≡ truth is_so }
{
    if is_so { "true" } else { "false" }
}

/// The words at the end of a pair's line.
fn planned_words(numbers: Numbers, more: u64, planned: bool) -> &'static str
    ensures { result.now ≡ planned_field Text numbers more planned }
{
    if planned {
        return " planned";
    }
    if more == 0 { as_good(numbers) } else { "" }
}

/// What is said of a pair that plans may have at no more cost.
fn as_good(numbers: Numbers) -> &'static str
    ensures { result.now ≡ as_good numbers }
{
    match numbers {
        Numbers::Exact => " another plan is as good",
        Numbers::Bounds => " another plan may be as good",
    }
}
