//! The texts about one order and about one wagon.
ghost use Rattle.std.specs.Prelude.{◌≡◌, ◌==◌, ◌<◌, ◌++◌, IfOk, OnOk, length, string_bytes};
ghost use Rattle.std.specs.List.{find};
ghost use Rattle.reply_texts.specs.Lines.{Adds};
ghost use Rattle.plan_reasons.specs.PairLists.{
  AreFailedOfOrder,
  AreFailedOfWagon,
  IsOrderTextOf,
  IsWagonTextOf,
  UnlessNear,
  counted,
  own_columns,
  pairs_of_order,
  pairs_of_wagon,
  stays_line,
};
ghost use Rattle.plan_reasons.specs.PlaceFields.{names_of};
ghost use Rattle.plan_reasons.specs.inner.AddedPairs.{AddsFailedOfOrder, AddsFailedOfWagon, AddsOwnLine};

use crate::certified_plan::CertifiedPlan;
use crate::failed_line::push_counted_line;
use crate::headings::{counted_columns, order_columns, push_heading, stays_columns, wagon_columns};
use crate::line_form::LineForm;
use crate::numbers::Numbers;
use crate::order_line::push_order_line;
use crate::pair_lists::{failed_pairs, of_test, push_fits, push_later_tests, push_test};
use crate::reasons::Test;
use crate::style::{Style, end_line, first_code};
use crate::tallies::Tallies;
use crate::wagon_line::push_wagon_line;
use cost_table::Problem;
use move_messages::OrderText;
use price_checker::wagon_name;
use std::alloc::{AllocError, Global};

/// The reasons of order `j`: its line as in the whole text, then a line for each free wagon.
///
/// First those that pass each test for the order: `fits NUMBER NAME KM MORE`, where `MORE` is what the best plan costs
/// more that has this pair, in km; the least first, and where that is the same as placed. ` planned` stands behind it where the
/// plan has the pair; ` another plan is as good` where it hasn't and `MORE` is 0. Where bounds are asked for, `MORE` is what every
/// plan costs more, at least, that has the pair, and the words are ` another plan may be as good`. Then the others by the first
/// test that each fails, and as placed where that is the same. Of those whose class the order doesn't list it is only said how many
/// they are, where there is one: `class COUNT NAME CLASSES`. The others have a line each: `load NUMBER NAME LIMIT LOAD` in kg, `way
/// NUMBER NAME FROM TO`, `late NUMBER NAME ARRIVAL LATEST` (`-`, in JSON null, for an arrival past the year 2099), or `costly
/// NUMBER NAME KM PENALTY`.
///
/// Where only so many pairs are asked for, `near`, there are only the first so many lines of pairs that fail no test.
///
/// As JSON: `fits`, `order`, `km`, `more`, `planned` (true or false); `class` (a number), `order`, `wants` (a list); `load`,
/// `order`, `has`, `wants`; `way`, `order`, `from`, `to`; `late`, `order`, `arrival`, `latest`; `costly`, `order`, `km`,
/// `penalty`. Where the names of places are asked for, each place has its name behind it, as JSON has a text: as JSON the members
/// `from_name` and `to_name`, empty where a place has none.
///
/// In a text of words a line that begins with `#` stands before the first line of each kind, and names its words.
pub fn order_text(
    alloc: Global,
    form: &LineForm<'_>,
    numbers: Numbers,
    near: Option<u32>,
    planned: &CertifiedPlan,
    j: usize,
) -> Result<String, AllocError>
    requires { j < length planned.now.problem.orders }
    ensures { IfOk result (λ text. IsOrderTextOf form.now numbers near planned.now j (string_bytes text)) }
{
    let pairs = pairs_of_order(alloc, planned.problem(), j)?;
    let tallies = Tallies::new(alloc, planned)?;
    let style = form.style;
    let mut text = String::new(alloc);
    push_heading(&mut text, style, order_columns(numbers))?;
    push_order_line(alloc, &mut text, style, numbers, planned, &tallies, j)?;
    push_fits(alloc, &mut text, style, numbers, planned, near, &pairs)?;
    push_failed_of_order(alloc, &mut text, form, planned, near, j, &pairs)?;
    Ok(text)
}

/// The reasons of free wagon `i`: `wagon NUMBER ORDER KM ARRIVAL WITHOUT` as in the whole text where it goes, else `stays
/// NUMBER`; then a line for each waiting order, as in the text about an order. Each order whose classes the wagon's isn't among
/// has a line too: `class NUMBER NAME CLASS CLASSES`, as JSON `class`, `order`, `has`, `wants` (a list).
pub fn wagon_text(
    alloc: Global,
    form: &LineForm<'_>,
    numbers: Numbers,
    near: Option<u32>,
    planned: &CertifiedPlan,
    i: usize,
) -> Result<String, AllocError>
    requires { i < length planned.now.problem.wagons }
    ensures { IfOk result (λ text. IsWagonTextOf form.now numbers near planned.now i (string_bytes text)) }
{
    let pairs = pairs_of_wagon(alloc, planned.problem(), i)?;
    let style = form.style;
    let mut text = String::new(alloc);
    push_heading(&mut text, style, own_columns(planned, i))?;
    push_own_line(alloc, &mut text, style, numbers, planned, i)?;
    push_fits(alloc, &mut text, style, numbers, planned, near, &pairs)?;
    push_failed_of_wagon(alloc, &mut text, form, planned, near, i, &pairs)?;
    Ok(text)
}

/// Adds what is said of the pairs of order `j` that fail a test: nothing where only the nearest pairs are asked for.
fn push_failed_of_order(
    alloc: Global,
    text: &mut String,
    form: &LineForm<'_>,
    planned: &CertifiedPlan,
    near: Option<u32>,
    j: usize,
    pairs: &[(usize, usize)],
) -> Result<(), AllocError>
    requires order { j < length planned.now.problem.orders }
    requires pairs { pairs.now ≡ pairs_of_order planned.now.problem j }
    ensures { OnOk result (Adds (UnlessNear near (AreFailedOfOrder form.now.style (names_of form.now) planned.now.network planned.now.problem planned.now.priced.table j)) (string_bytes text.old) (string_bytes text.new)) }
{
    match near {
        Some(_) => Ok(()),
        None => push_all_of_order(alloc, text, form, planned, j, pairs),
    }
}

/// Adds what is said of the pairs of order `j` that fail a test.
fn push_all_of_order(
    alloc: Global,
    text: &mut String,
    form: &LineForm<'_>,
    planned: &CertifiedPlan,
    j: usize,
    pairs: &[(usize, usize)],
) -> Result<(), AllocError>
    requires order { j < length planned.now.problem.orders }
    requires pairs { pairs.now ≡ pairs_of_order planned.now.problem j }
    ensures { OnOk result (AddsFailedOfOrder form.now planned.now j (string_bytes text.old) (string_bytes text.new)) }
{
    let failed = failed_pairs(alloc, planned, pairs)?;
    let other_class = of_test(alloc, &failed, Test::Class)?;
    let count = other_class.len() as u64;
    let order = planned.problem().orders()[j].order();
    push_counted(text, form.style, count, order)?;
    push_later_tests(alloc, text, form, planned, &failed)
}

/// Adds how many wagons are of classes that an order doesn't list, where there is one.
fn push_counted(
    text: &mut String,
    style: Style,
    count: u64,
    order: &OrderText,
) -> Result<(), AllocError>
    ensures { OnOk result (string_bytes text.new ≡ string_bytes text.old ++ counted style count order.now) }
{
    if count == 0 {
        return Ok(());
    }
    push_heading(text, style, counted_columns())?;
    push_counted_line(text, style, count, order)
}

/// Adds what is said of the pairs of wagon `i` that fail a test: nothing where only the nearest pairs are asked for.
fn push_failed_of_wagon(
    alloc: Global,
    text: &mut String,
    form: &LineForm<'_>,
    planned: &CertifiedPlan,
    near: Option<u32>,
    i: usize,
    pairs: &[(usize, usize)],
) -> Result<(), AllocError>
    requires wagon { i < length planned.now.problem.wagons }
    requires pairs { pairs.now ≡ pairs_of_wagon planned.now.problem i }
    ensures { OnOk result (Adds (UnlessNear near (AreFailedOfWagon form.now.style (names_of form.now) planned.now.network planned.now.problem planned.now.priced.table i)) (string_bytes text.old) (string_bytes text.new)) }
{
    match near {
        Some(_) => Ok(()),
        None => push_all_of_wagon(alloc, text, form, planned, i, pairs),
    }
}

/// Adds what is said of the pairs of wagon `i` that fail a test.
fn push_all_of_wagon(
    alloc: Global,
    text: &mut String,
    form: &LineForm<'_>,
    planned: &CertifiedPlan,
    i: usize,
    pairs: &[(usize, usize)],
) -> Result<(), AllocError>
    requires wagon { i < length planned.now.problem.wagons }
    requires pairs { pairs.now ≡ pairs_of_wagon planned.now.problem i }
    ensures { OnOk result (AddsFailedOfWagon form.now planned.now i (string_bytes text.old) (string_bytes text.new)) }
{
    let failed = failed_pairs(alloc, planned, pairs)?;
    push_test(alloc, text, form, planned, &failed, Test::Class)?;
    push_later_tests(alloc, text, form, planned, &failed)
}

/// The words of the line of wagon `i`.
fn own_columns(planned: &CertifiedPlan, i: usize) -> &'static str
    ensures { result.now ≡ own_columns (find (λ pair. pair.0 == i) planned.now.priced.pairs) }
{
    match pair_with(planned.plan().pairs(), i) {
        Some(_) => wagon_columns(),
        None => stays_columns(),
    }
}

/// Adds the line of wagon `i`: the one of the pair that the plan has of it, or that it stays.
fn push_own_line(
    alloc: Global,
    text: &mut String,
    style: Style,
    numbers: Numbers,
    planned: &CertifiedPlan,
    i: usize,
) -> Result<(), AllocError>
    requires { i < length planned.now.problem.wagons }
    ensures { OnOk result (AddsOwnLine style numbers planned.now i (string_bytes text.old) (string_bytes text.new)) }
{
    match pair_with(planned.plan().pairs(), i) {
        Some(pair) => push_wagon_line(alloc, text, style, numbers, planned, pair),
        None => push_stays(text, style, planned.problem(), i),
    }
}

/// The pair of wagon `i`.
fn pair_with(pairs: &[(usize, usize)], i: usize) -> Option<(usize, usize)>
    ensures { result ≡ find (λ pair. pair.0 == i) pairs.now }
{
    pairs.iter().copied().find(|pair| pair.0 == i)
}

/// Adds the line of a wagon that stays.
fn push_stays(
    text: &mut String,
    style: Style,
    problem: &Problem,
    i: usize,
) -> Result<(), AllocError>
    requires { i < length problem.now.wagons }
    ensures { OnOk result (string_bytes text.new ≡ string_bytes text.old ++ stays_line style problem.now i) }
{
    first_code(text, style, "stays", wagon_name(problem, i).digits())?;
    end_line(text, style)
}

/// Each free wagon with order `j`.
fn pairs_of_order(
    alloc: Global,
    problem: &Problem,
    j: usize,
) -> Result<Vec<(usize, usize)>, AllocError>
    ensures { IfOk result (λ pairs. pairs.items ≡ pairs_of_order problem.now j) }
{
    let count = problem.wagons().len();
    let mut pairs = Vec::with_capacity(alloc, count)?;
    for i in 0..count {
        pairs.push((i, j))?;
    }
    Ok(pairs)
}

/// Each waiting order with wagon `i`.
fn pairs_of_wagon(
    alloc: Global,
    problem: &Problem,
    i: usize,
) -> Result<Vec<(usize, usize)>, AllocError>
    ensures { IfOk result (λ pairs. pairs.items ≡ pairs_of_wagon problem.now i) }
{
    let count = problem.orders().len();
    let mut pairs = Vec::with_capacity(alloc, count)?;
    for j in 0..count {
        pairs.push((i, j))?;
    }
    Ok(pairs)
}
