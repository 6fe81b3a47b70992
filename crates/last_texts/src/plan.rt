//! The plan of a book's last version, for people.
ghost use Rattle.std.specs.Prelude.{◌≡◌, IfErr, IfOk, option_copied};
ghost use Rattle.last_texts.specs.PlanOfLast.{IsPlanOfLast, IsPlanTextOfLast, IsPrinted, IsPrintedIn};
ghost use Rattle.last_texts.specs.ZoneClock.{HasZoneFor, IsNoClock, IsReadFor, name_of};
ghost use Rattle.office_files.specs.declared.stop.Stop.TheVariants.{OutOfMemory};
ghost use Rattle.plan_table.specs.ListOf.{IsListOf};

use crate::zone::{ZoneFile, clock_of};
use command_line::PlanOptions;
use commit_book::Book;
use office_files::Stop;
use place_names::Places;
use plan_reasons::CertifiedPlan;
use plan_table::{PlanList, csv_text, list_of_plan, table_text};
use rail_codes::Moment;
use std::alloc::Global;
use text_tables::Clock;

/// The plan of a book's last version at a moment, over the network in force, for people, as a table or as CSV; with moments as
/// they are shown in the time zone that is asked for, which was read before. Refused only with `OutOfMemory` (1), or with
/// `OpenFailed` (93) where that zone can't be looked up. The problem is kept by the book, as a begin keeps it.
pub fn last_plan_text(
    alloc: Global,
    book: &mut Book,
    options: &PlanOptions<'_>,
    places: &Places,
    zone: &ZoneFile<'_>,
) -> Result<Vec<u8>, Stop>
    requires zone { IsReadFor (option_copied options.now.zone) zone.now }
    ensures plan { IfOk result (λ text. IsPlanTextOfLast book.old.setting book.old.state.history options.now places.now zone.now.bytes.items text.items) }
    ensures refused { IfErr result IsNoClock }
{
    let list = last_plan(alloc, book, options.problem.at)?;
    printed_in(alloc, options.csv, places, zone, &list)
}

/// A plan of a book's last version at a moment, over the network in force, as a list.
fn last_plan(alloc: Global, book: &mut Book, at: Moment) -> Result<PlanList, Stop>
    ensures plan { IfOk result (IsPlanOfLast book.old.setting book.old.state.history at) }
    ensures refused { IfErr result (λ why. why ≡ OutOfMemory) }
{
    let begun = book.begin_with_table(alloc, at)?;
    let (plan, prices) = assignment::plan(alloc, begun.cells())?;
    let (problem, tables) = (begun.snap().problem(), begun.tables());
    let planned = CertifiedPlan::new(problem, tables, begun.cells(), &plan, &prices);
    listed(alloc, begun.snap().version(), &planned)
}

/// A plan of a version as a list.
fn listed(alloc: Global, version: u64, planned: &CertifiedPlan<'_>) -> Result<PlanList, Stop>
    ensures list { IfOk result (IsListOf version planned.now.network planned.now.problem planned.now.priced) }
    ensures refused { IfErr result (λ why. why ≡ OutOfMemory) }
{
    Ok(list_of_plan(alloc, version, planned)?)
}

/// What is printed of a list, with moments as they are shown in a time zone.
fn printed_in(
    alloc: Global,
    csv: bool,
    places: &Places,
    zone: &ZoneFile<'_>,
    plan: &PlanList,
) -> Result<Vec<u8>, Stop>
    requires { HasZoneFor zone.now.database (name_of zone.now) zone.now.bytes.items }
    ensures text { IfOk result (λ text. IsPrintedIn csv places.now (name_of zone.now) zone.now.bytes.items plan.now text.items) }
    ensures refused { IfErr result IsNoClock }
{
    match clock_of(zone) {
        Ok(clock) => printed(alloc, csv, places, &clock, plan),
        Err(stop) => Err(stop),
    }
}

/// What is printed of a list, with moments as a clock shows them.
fn printed(
    alloc: Global,
    csv: bool,
    places: &Places,
    clock: &Clock<'_>,
    plan: &PlanList,
) -> Result<Vec<u8>, Stop>
    ensures text { IfOk result (λ text. IsPrinted csv places.now clock.now plan.now text.items) }
    ensures refused { IfErr result (λ why. why ≡ OutOfMemory) }
{
    if csv {
        return Ok(csv_text(alloc, places, clock, plan)?);
    }
    let text = table_text(alloc, places, clock, plan)?;
    Ok(text.into_bytes())
}
