//! Why the plan of a book's last version is as it is.
ghost use Rattle.std.specs.Prelude.{◌≡◌, ◌⊎◌, IfErr, IfOk, option_copied, string_bytes};
ghost use Rattle.last_texts.specs.ReasonsOfLast.{AreNoReasonsOfLast, AreNoReasonsOfPlan, AreReasonsOfLast, AreReasonsOfPlan, IsAnswerFor, IsLacking, numbers_of, style_of};
ghost use Rattle.office_files.specs.declared.stop.Stop.TheVariants.{OutOfMemory};

use command_line::{Asked, WhyOptions};
use commit_book::{BegunProblem, Book};
use office_files::Stop;
use place_names::Places;
use plan_reasons::{
    CertifiedPlan, LineForm, Numbers, Style, find_order, find_wagon, order_text, wagon_text,
    why_text,
};
use rail_codes::Moment;
use std::alloc::Global;

/// What is asked about a plan of a book's last version at a moment, over the network in force, with the names of places where they
/// are asked for. Its numbers are exact, or bounds where it is to be quick. Refused with `OrderNotInProblem` or `WagonNotInProblem`
/// (84) where the problem doesn't have what is asked about, else only with `OutOfMemory` (1). The problem is kept by the book, as a
/// begin keeps it.
pub fn last_reasons(
    alloc: Global,
    book: &mut Book,
    at: Moment,
    options: &WhyOptions<'_>,
    names: Option<&Places>,
) -> Result<String, Stop>
    ensures reasons { IfOk result (λ text. AreReasonsOfLast book.old.setting book.old.state.history at options.now (option_copied names.entry) (string_bytes text)) }
    ensures none { IfErr result (AreNoReasonsOfLast book.old.setting book.old.state.history at options.now) }
{
    let begun = book.begin_with_table(alloc, at)?;
    reasons_of_problem(alloc, &begun, options, names)
}

/// The same of a problem that was begun, as a line of a journal is about it. A commit's problem is planned anew: that plan costs the
/// same.
pub fn reasons_of_problem(
    alloc: Global,
    begun: &BegunProblem,
    options: &WhyOptions<'_>,
    names: Option<&Places>,
) -> Result<String, Stop>
    ensures reasons { IfOk result (λ text. AreReasonsOfPlan begun.now options.now (option_copied names.entry) (string_bytes text)) }
    ensures none { IfErr result (AreNoReasonsOfPlan begun.now options.now) }
{
    let (cells, snap) = (begun.cells(), begun.snap());
    let (plan, prices) = assignment::plan(alloc, cells)?;
    let planned = CertifiedPlan::new(snap.problem(), begun.tables(), cells, &plan, &prices);
    answer(alloc, options, names, snap.version(), &planned)
}

/// The text that answers what is asked about a plan.
fn answer(
    alloc: Global,
    options: &WhyOptions<'_>,
    names: Option<&Places>,
    version: u64,
    planned: &CertifiedPlan<'_>,
) -> Result<String, Stop>
    ensures answer { IfOk result (λ text. IsAnswerFor options.now (option_copied names.entry) version planned.now (string_bytes text)) }
    ensures none { IfErr result (λ why. IsLacking options.now.asked planned.now.problem why ⊎ (why ≡ OutOfMemory)) }
{
    let style = style_of(options.json);
    let numbers = numbers_of(options.quick);
    let form = LineForm { style, names };
    match &options.asked {
        Asked::Plan => Ok(why_text(alloc, style, numbers, version, planned)?),
        Asked::Order(id) => match find_order(planned.problem(), id) {
            Some(j) => Ok(order_text(alloc, &form, numbers, options.near, planned, j)?),
            None => Err(Stop::OrderNotInProblem(*id)),
        },
        Asked::Wagon(number) => match find_wagon(planned.problem(), number) {
            Some(i) => Ok(wagon_text(alloc, &form, numbers, options.near, planned, i)?),
            None => Err(Stop::WagonNotInProblem(*number)),
        },
    }
}

/// Which numbers are printed.
fn numbers_of(quick: bool) -> Numbers
    ensures { result ≡ numbers_of quick }
{
    if quick {
        Numbers::Bounds
    } else {
        Numbers::Exact
    }
}

/// How the lines are written.
fn style_of(json: bool) -> Style
    ensures { result ≡ style_of json }
{
    if json { Style::Json } else { Style::Text }
}
