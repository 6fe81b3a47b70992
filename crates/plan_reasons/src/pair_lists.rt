//! The lines of pairs.
ghost use Rattle.std.specs.Prelude.{◌≡◌, ◌==◌, All, IfOk, IfSome, OnOk, map, not, string_bytes};
ghost use Rattle.std.specs.List.{filter};
ghost use Rattle.plan_reasons.specs.Pairs.{IsFailed};
ghost use Rattle.plan_reasons.specs.PairLists.{
  AreByMore,
  AreFailed,
  AreNearest,
  fails,
  nearest,
  passes_all,
  place_of,
};
ghost use Rattle.plan_reasons.specs.inner.AddedPairs.{
  AddsFailedLines,
  AddsFitLines,
  AddsFitsLines,
  AddsLaterLines,
  AddsTestLines,
  IsFailing,
  IsFitting,
  IsFoundFailed,
  IsFoundFit,
  IsPairOf,
};

use crate::certified_plan::CertifiedPlan;
use crate::failed::Failed;
use crate::fit::Fit;
use crate::headings::{fits_columns, push_heading_over, test_columns};
use crate::line_form::LineForm;
use crate::numbers::Numbers;
use crate::pair_line::{failed_test, push_failed_line, push_fits_line};
use crate::reasons::Test;
use crate::style::Style;
use crate::twins::{costs_of_order, more_beside};
use cost_table::Cells;
use exact_costs::OrderCosts;
use std::alloc::{AllocError, Global};

/// Adds the lines of the pairs that fail no test, by what plans with them cost more: all of them, or the first ones alone.
pub(crate) fn push_fits(
    alloc: Global,
    text: &mut String,
    style: Style,
    numbers: Numbers,
    planned: &CertifiedPlan,
    near: Option<u32>,
    pairs: &[(usize, usize)],
) -> Result<(), AllocError>
    requires { All (IsPairOf planned.now.problem) pairs.now }
    ensures { OnOk result (AddsFitsLines style numbers planned.now near pairs.now (string_bytes text.old) (string_bytes text.new)) }
{
    let fits = nearest_fits(alloc, numbers, planned, near, pairs)?;
    push_heading_over(text, style, fits_columns(), fits.len())?;
    push_fit_lines(text, style, numbers, planned, &fits)
}

/// Adds the lines of the pairs that fail one test first.
pub(crate) fn push_test(
    alloc: Global,
    text: &mut String,
    form: &LineForm<'_>,
    planned: &CertifiedPlan,
    failed: &[Failed],
    test: Test,
) -> Result<(), AllocError>
    requires { All (IsFoundFailed planned.now) failed.now }
    ensures { OnOk result (AddsTestLines form.now planned.now failed.now test (string_bytes text.old) (string_bytes text.new)) }
{
    let listed = of_test(alloc, failed, test)?;
    push_heading_over(text, form.style, test_columns(form, test), listed.len())?;
    push_failed_lines(text, form, planned, &listed)
}

/// Adds the lines of the pairs that fail a test behind that of the class, test by test.
pub(crate) fn push_later_tests(
    alloc: Global,
    text: &mut String,
    form: &LineForm<'_>,
    planned: &CertifiedPlan,
    failed: &[Failed],
) -> Result<(), AllocError>
    requires { All (IsFoundFailed planned.now) failed.now }
    ensures { OnOk result (AddsLaterLines form.now planned.now failed.now (string_bytes text.old) (string_bytes text.new)) }
{
    push_test(alloc, text, form, planned, failed, Test::Load)?;
    push_test(alloc, text, form, planned, failed, Test::Way)?;
    push_test(alloc, text, form, planned, failed, Test::InTime)?;
    push_test(alloc, text, form, planned, failed, Test::Cheaper)
}

/// Those of the pairs that fail a test, each with the first that it fails.
pub(crate) fn failed_pairs(
    alloc: Global,
    planned: &CertifiedPlan,
    pairs: &[(usize, usize)],
) -> Result<Vec<Failed>, AllocError>
    requires { All (IsPairOf planned.now.problem) pairs.now }
    ensures failed { IfOk result (λ failed. AreFailed planned.now.network planned.now.problem planned.now.priced.table pairs.now failed.items) }
    ensures each { IfOk result (λ failed. All (IsFoundFailed planned.now) failed.items) }
{
    let failing = failing(alloc, planned.cells(), pairs)?;
    let failed = tested(alloc, planned, &failing)?;
    Ok(failed)
}

/// Those of the pairs that fail this test first.
pub(crate) fn of_test(
    alloc: Global,
    failed: &[Failed],
    test: Test,
) -> Result<Vec<Failed>, AllocError>
    ensures { IfOk result (λ listed. listed.items ≡ filter (fails test) failed.now) }
{
    let mut listed = Vec::from_slice(alloc, failed)?;
    listed.retain(|failed| fails(test, *failed));
    Ok(listed)
}

/// Whether a pair fails this test first.
fn fails(test: Test, failed: Failed) -> bool
    ensures { result ≡ fails test failed }
{
    place_of(failed.test) == place_of(test)
}

/// Where a test stands among the tests.
fn place_of(test: Test) -> u8
    ensures { result ≡ place_of test }
{
    match test {
        Test::Class => 0,
        Test::Load => 1,
        Test::Way => 2,
        Test::InTime => 3,
        Test::Cheaper => 4,
    }
}

/// Those of the pairs that fail no test, by what plans with them cost more: all of them, or the first ones alone.
fn nearest_fits(
    alloc: Global,
    numbers: Numbers,
    planned: &CertifiedPlan,
    near: Option<u32>,
    pairs: &[(usize, usize)],
) -> Result<Vec<Fit>, AllocError>
    requires { All (IsPairOf planned.now.problem) pairs.now }
    ensures nearest { IfOk result (λ shown. AreNearest numbers planned.now.priced near pairs.now shown.items) }
    ensures fitting { IfOk result (λ shown. All (IsFoundFit numbers planned.now) shown.items) }
{
    let mut fits = fits_by_more(alloc, numbers, planned, pairs)?;
    keep_nearest(&mut fits, near);
    Ok(fits)
}

/// Keeps the first pairs alone, where so many are asked for.
fn keep_nearest(fits: &mut Vec<Fit>, near: Option<u32>)
    ensures { fits.new.items ≡ nearest near fits.old.items }
{
    if let Some(count) = near {
        fits.truncate(count as usize);
    }
}

/// Those of the pairs that fail no test, by what plans with them cost more.
fn fits_by_more(
    alloc: Global,
    numbers: Numbers,
    planned: &CertifiedPlan,
    pairs: &[(usize, usize)],
) -> Result<Vec<Fit>, AllocError>
    requires { All (IsPairOf planned.now.problem) pairs.now }
    ensures by_more { IfOk result (λ fits. AreByMore numbers planned.now.priced pairs.now fits.items) }
    ensures fitting { IfOk result (λ fits. All (IsFoundFit numbers planned.now) fits.items) }
{
    let fitting = fitting(alloc, planned.cells(), pairs)?;
    let mut fits = found(alloc, numbers, planned, &fitting)?;
    fits.sort_by_key(|fit| fit.more)?;
    Ok(fits)
}

/// Pairs that fail no test, each with what plans with it cost more.
fn found(
    alloc: Global,
    numbers: Numbers,
    planned: &CertifiedPlan,
    fitting: &[(usize, usize)],
) -> Result<Vec<Fit>, AllocError>
    requires { All (IsFitting planned.now) fitting.now }
    ensures pairs { IfOk result (λ found. map (λ fit. fit.pair) found.items ≡ fitting.now) }
    ensures fitting { IfOk result (λ found. All (IsFoundFit numbers planned.now) found.items) }
{
    let order = costs_of_order(alloc, numbers, planned, fitting)?;
    found_by(alloc, numbers, planned, &order, fitting)
}

/// The same, by the costs of an order where they are there.
fn found_by(
    alloc: Global,
    numbers: Numbers,
    planned: &CertifiedPlan,
    order: &Option<OrderCosts<'_>>,
    fitting: &[(usize, usize)],
) -> Result<Vec<Fit>, AllocError>
    requires fitting { All (IsFitting planned.now) fitting.now }
    requires order { IfSome order.now (λ costs. costs.priced ≡ planned.now.priced) }
    ensures pairs { IfOk result (λ found. map (λ fit. fit.pair) found.items ≡ fitting.now) }
    ensures fitting { IfOk result (λ found. All (IsFoundFit numbers planned.now) found.items) }
{
    let mut found = Vec::with_capacity(alloc, fitting.len())?;
    for pair in fitting {
        let pair = *pair;
        let more = more_beside(alloc, numbers, planned, order, &found, pair)?;
        found.push(Fit { pair, more })?;
    }
    Ok(found)
}

/// Those of the pairs that fail no test.
fn fitting(
    alloc: Global,
    cells: &Cells,
    pairs: &[(usize, usize)],
) -> Result<Vec<(usize, usize)>, AllocError>
    ensures { IfOk result (λ fits. fits.items ≡ filter (passes_all cells.now) pairs.now) }
{
    let mut fits = Vec::from_slice(alloc, pairs)?;
    fits.retain(|pair| passes_all(cells, *pair));
    Ok(fits)
}

/// Those of the pairs that fail a test.
fn failing(
    alloc: Global,
    cells: &Cells,
    pairs: &[(usize, usize)],
) -> Result<Vec<(usize, usize)>, AllocError>
    ensures { IfOk result (λ failing. failing.items ≡ filter (λ pair. not (passes_all cells.now pair)) pairs.now) }
{
    let mut failing = Vec::from_slice(alloc, pairs)?;
    failing.retain(|pair| !passes_all(cells, *pair));
    Ok(failing)
}

/// Whether a pair fails no test: the table has it, at less than the order's penalty.
fn passes_all(cells: &Cells, pair: (usize, usize)) -> bool
    ensures { result ≡ passes_all cells.now pair }
{
    let (i, j) = pair;
    match cells.cell(i, j) {
        Some(km) => km < cells.penalty(j),
        None => false,
    }
}

/// Pairs that fail a test, each with the first that it fails.
fn tested(
    alloc: Global,
    planned: &CertifiedPlan,
    failing: &[(usize, usize)],
) -> Result<Vec<Failed>, AllocError>
    requires { All (IsFailing planned.now) failing.now }
    ensures pairs { IfOk result (λ tested. map (λ failed. failed.pair) tested.items ≡ failing.now) }
    ensures each { IfOk result (λ tested. All (IsFoundFailed planned.now) tested.items) }
{
    let mut tested = Vec::with_capacity(alloc, failing.len())?;
    for pair in failing {
        let pair = *pair;
        let test = failed_test(planned, pair);
        tested.push(Failed { pair, test })?;
    }
    Ok(tested)
}

/// Adds the lines of pairs that fail no test.
fn push_fit_lines(
    text: &mut String,
    style: Style,
    numbers: Numbers,
    planned: &CertifiedPlan,
    fits: &[Fit],
) -> Result<(), AllocError>
    requires { All (IsFoundFit numbers planned.now) fits.now }
    ensures { OnOk result (AddsFitLines style numbers planned.now fits.now (string_bytes text.old) (string_bytes text.new)) }
{
    for fit in fits {
        push_fits_line(text, style, numbers, planned, *fit)?;
    }
    Ok(())
}

/// Adds the lines of pairs that fail a test.
fn push_failed_lines(
    text: &mut String,
    form: &LineForm<'_>,
    planned: &CertifiedPlan,
    failed: &[Failed],
) -> Result<(), AllocError>
    requires { All (IsFoundFailed planned.now) failed.now }
    ensures { OnOk result (AddsFailedLines form.now planned.now failed.now (string_bytes text.old) (string_bytes text.new)) }
{
    for pair in failed {
        push_failed_line(text, form, planned, *pair)?;
    }
    Ok(())
}
