//! The text of a plan for people.
ghost use Rattle.std.specs.Prelude.{◌≡◌, ◌++◌, ◌∷◌, IfOk, OnOk, decimal, map, string_bytes};
ghost use Rattle.plan_table.specs.Cells.{shortfall_row, shortfall_titles};
ghost use Rattle.plan_table.specs.TableText.{IsTableText, head_line, kilometres_of, moment_words, numbered, shortfalls_text, sum_line, sum_parts, version_words};
ghost use Rattle.plan_table.specs.inner.Rows.{AddsHead, AddsJourneys, AreJourneyRows};

use crate::plan_list::{PlanList, Shortfall};
use crate::rows::{JOURNEY_TITLES, SHORTFALL_TITLES, journey_row, shortfall_row};
use itoa::Buffer;
use place_names::Places;
use plan_reasons::Journey;
use std::alloc::{AllocError, Global};
use text_tables::{Clock, Row, Side, push_aligned, shown, titles_row};

/// At which side the cells of wagons that go stand.
const JOURNEY_SIDES: [Side; 8] = [
    Side::Left,
    Side::Left,
    Side::Left,
    Side::Left,
    Side::Right,
    Side::Right,
    Side::Left,
    Side::Left,
];

/// At which side the cells of orders that miss wagons stand.
const SHORTFALL_SIDES: [Side; 4] = [Side::Left, Side::Right, Side::Right, Side::Left];

/// A plan for people: `plan of version VERSION at MOMENT`, and below an empty line a table with a line for each wagon that
/// goes, under the titles `wagon`, `class`, `from`, `to`, `km`, `minutes`, `arrival` and `order`. Where orders miss wagons
/// there is a table of them behind another empty line, under the titles `order`, `missing`, `penalty` and `why`; the penalty
/// is that of each missing wagon, in km. At the end stands `sum KM km: DRIVEN km to drive, PENALTIES km of penalties` behind an
/// empty line. A name of `places` stands behind its place.
pub fn table_text(
    alloc: Global,
    places: &Places,
    clock: &Clock<'_>,
    plan: &PlanList,
) -> Result<String, AllocError>
    ensures { IfOk result (λ text. IsTableText places.now clock.now plan.now (string_bytes text)) }
{
    let mut text = String::new(alloc);
    push_head(alloc, &mut text, clock, plan)?;
    push_journeys(alloc, &mut text, places, clock, &plan.journeys)?;
    push_shortfalls(alloc, &mut text, &plan.shortfalls)?;
    push_sum(&mut text, plan.sum, kilometres(&plan.journeys))?;
    Ok(text)
}

/// Adds the version and the moment.
fn push_head(
    alloc: Global,
    text: &mut String,
    clock: &Clock<'_>,
    plan: &PlanList,
) -> Result<(), AllocError>
    ensures { OnOk result (AddsHead clock.now plan.now (string_bytes text.old) (string_bytes text.new)) }
{
    let at = shown(alloc, clock, plan.at)?;
    push_head_line(text, plan.version, at.as_str())
}

/// Adds the first line, and an empty one.
fn push_head_line(text: &mut String, version: u64, at: &str) -> Result<(), AllocError>
    ensures { OnOk result (string_bytes text.new ≡ string_bytes text.old ++ head_line version at.now) }
{
    push_version(text, version)?;
    push_moment(text, at)
}

/// Adds the version.
fn push_version(text: &mut String, version: u64) -> Result<(), AllocError>
    ensures { OnOk result (string_bytes text.new ≡ string_bytes text.old ++ version_words version) }
{
    text.push_str("plan of version ")?;
    push_number(text, version)
}

/// Adds a number.
fn push_number(text: &mut String, number: u64) -> Result<(), AllocError>
    ensures { OnOk result (string_bytes text.new ≡ string_bytes text.old ++ decimal number) }
{
    let mut digits = Buffer::new();
    text.push_str(digits.format(number))
}

/// Adds the moment, the end of the line, and an empty line.
fn push_moment(text: &mut String, at: &str) -> Result<(), AllocError>
    ensures { OnOk result (string_bytes text.new ≡ string_bytes text.old ++ moment_words at.now) }
{
    text.push_str(" at ")?;
    text.push_str(at)?;
    text.push_str("\n\n")
}

/// Adds the table of wagons that go.
fn push_journeys(
    alloc: Global,
    text: &mut String,
    places: &Places,
    clock: &Clock<'_>,
    journeys: &[Journey],
) -> Result<(), AllocError>
    ensures { OnOk result (AddsJourneys places.now clock.now journeys.now (string_bytes text.old) (string_bytes text.new)) }
{
    let rows = journey_rows(alloc, places, clock, journeys)?;
    push_aligned(alloc, text, &JOURNEY_SIDES, &rows)
}

/// The titles, and a row of each wagon that goes.
fn journey_rows(
    alloc: Global,
    places: &Places,
    clock: &Clock<'_>,
    journeys: &[Journey],
) -> Result<Vec<Row>, AllocError>
    ensures { IfOk result (λ rows. AreJourneyRows places.now clock.now journeys.now rows.items) }
{
    let mut rows = Vec::new(alloc);
    rows.push(titles_row(alloc, &JOURNEY_TITLES)?)?;
    for journey in journeys {
        rows.push(journey_row(alloc, places, clock, journey)?)?;
    }
    Ok(rows)
}

/// Adds the table of orders that miss wagons, if there are any.
fn push_shortfalls(
    alloc: Global,
    text: &mut String,
    shortfalls: &[Shortfall],
) -> Result<(), AllocError>
    ensures { OnOk result (string_bytes text.new ≡ string_bytes text.old ++ shortfalls_text shortfalls.now) }
{
    if shortfalls.is_empty() {
        return Ok(());
    }
    let rows = shortfall_rows(alloc, shortfalls)?;
    text.push_str("\n")?;
    push_aligned(alloc, text, &SHORTFALL_SIDES, &rows)
}

/// The titles, and a row of each order that misses wagons.
fn shortfall_rows(alloc: Global, shortfalls: &[Shortfall]) -> Result<Vec<Row>, AllocError>
    ensures { IfOk result (λ rows. rows.items ≡ shortfall_titles ∷ map shortfall_row shortfalls.now) }
{
    let mut rows = Vec::new(alloc);
    rows.push(titles_row(alloc, &SHORTFALL_TITLES)?)?;
    for shortfall in shortfalls {
        rows.push(shortfall_row(alloc, shortfall)?)?;
    }
    Ok(rows)
}

/// The kilometres of all wagons that go.
fn kilometres(journeys: &[Journey]) -> u128
    ensures { result ≡ kilometres_of journeys.now }
{
    let mut total: u128 = 0;
    for journey in journeys {
        total += u128::from(journey.km);
    }
    total
}

/// Adds the sum, how much of it is driven, and how much of it is penalties.
fn push_sum(text: &mut String, sum: u128, driven: u128) -> Result<(), AllocError>
    ensures { OnOk result (string_bytes text.new ≡ string_bytes text.old ++ sum_line sum driven) }
{
    push_words(text, "\nsum ", sum)?;
    push_parts(text, driven, sum.saturating_sub(driven))
}

/// Adds the parts of the sum.
fn push_parts(text: &mut String, driven: u128, penalties: u128) -> Result<(), AllocError>
    ensures { OnOk result (string_bytes text.new ≡ string_bytes text.old ++ sum_parts driven penalties) }
{
    push_words(text, " km: ", driven)?;
    push_words(text, " km to drive, ", penalties)?;
    text.push_str(" km of penalties\n")?;
    Ok(())
}

/// Adds words, and a number behind them.
#[tactic(auto, unfolding(crate::specs::TableText::numbered))]
fn push_words(text: &mut String, words: &str, number: u128) -> Result<(), AllocError>
    ensures { OnOk result (string_bytes text.new ≡ string_bytes text.old ++ numbered words.now number) }
{
    let mut digits = Buffer::new();
    text.push_str(words)?;
    text.push_str(digits.format(number))
}
