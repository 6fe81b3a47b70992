//! The lines of wagons that go.
ghost use Rattle.std.specs.Prelude.{◌≡◌, ◌++◌, OnOk, string_bytes};
ghost use Rattle.cost_table.specs.Plan.{IsAllowed, pair_cost};
ghost use Rattle.plan_reasons.specs.PrintedNumbers.{IsPrinted};
ghost use Rattle.plan_reasons.specs.WhyText.{wagon_fields, without_fields};
ghost use Rattle.plan_reasons.specs.inner.Added.{AddsWagonLine};

use crate::certified_plan::CertifiedPlan;
use crate::journey::journey_of;
use crate::numbers::{Numbers, without};
use crate::style::{Style, code_field, end_line, first_code, moment_field, number_field};
use price_checker::{order_name, wagon_name};
use std::alloc::{AllocError, Global};

/// Adds the line of a wagon that goes to an order.
pub(crate) fn push_wagon_line(
    alloc: Global,
    text: &mut String,
    style: Style,
    numbers: Numbers,
    planned: &CertifiedPlan,
    pair: (usize, usize),
) -> Result<(), AllocError>
    requires { IsAllowed planned.now.priced.table pair }
    ensures { OnOk result (AddsWagonLine style numbers planned.now pair (string_bytes text.old) (string_bytes text.new)) }
{
    let without = without(alloc, numbers, planned, pair.0)?;
    push_wagon_fields(text, style, planned, pair)?;
    let journey = journey_of(planned, pair);
    moment_field(text, style, "arrival", journey.arrival)?;
    push_without(text, style, without)
}

/// Adds the number of a wagon that goes, its order, and its kilometres.
fn push_wagon_fields(
    text: &mut String,
    style: Style,
    planned: &CertifiedPlan,
    pair: (usize, usize),
) -> Result<(), AllocError>
    requires { IsAllowed planned.now.priced.table pair }
    ensures text { OnOk result (string_bytes text.new ≡ string_bytes text.old ++ wagon_fields style planned.now.problem planned.now.priced pair) }
    ensures km { IsPrinted (pair_cost planned.now.priced.table pair) }
{
    let (i, j) = pair;
    let km = planned.cells().cell(i, j).unwrap_or(0);
    first_code(
        text,
        style,
        "wagon",
        wagon_name(planned.problem(), i).digits(),
    )?;
    code_field(
        text,
        style,
        "order",
        order_name(planned.problem(), j).as_bytes(),
    )?;
    number_field(text, style, "km", km)
}

/// Adds what plans cost more in which a wagon stays.
fn push_without(text: &mut String, style: Style, km: u64) -> Result<(), AllocError>
    ensures { OnOk result (string_bytes text.new ≡ string_bytes text.old ++ without_fields style km) }
{
    number_field(text, style, "without", km)?;
    end_line(text, style)
}
