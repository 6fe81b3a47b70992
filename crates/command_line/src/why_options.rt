//! The options of `why`.
ghost use Rattle.std.specs.Prelude.{◌≤◌, IfOk, IfSome, codes};
ghost use Rattle.command_line.specs.Options.{AreWhyOptions, IsAsked, IsNearOf, IsWhen, max_near};
ghost use Rattle.command_line.specs.Values.{IsOptionalNumberOf, given_in};

use crate::office_options::OfficeOptions;
use crate::values::{
    code_from, fault_of_word, is_given, number_if_given, number_of, out_of_range, value_of,
};
use clap::error::ErrorKind;
use clap::{ArgMatches, Error};
use line_engine::MAX_INPUT_LINES;
use rail_codes::{Moment, OrderId, WagonNumber};
use std::alloc::Global;

/// The most pairs that `--near` prints.
pub const MAX_NEAR: u64 = 1_000;

/// The word, as usage lines name it.
const WHY: &str = "wagons why";

/// What is wrong if a number of pairs is given alone.
const NEAR_ALONE: &str = "the argument '--near <N>' needs '--order <NAME>' or '--wagon <NUMBER>'";

/// Which plan `why` is asked about.
#[derive(Clone, Copy)]
pub enum When {
    /// The plan of the last version at this moment.
    At(Moment),
    /// The plan of this line, counted from 1: a plan line, a begin, or a commit that is accepted.
    Line(u64),
}

/// What `why` is asked about.
#[derive(Clone, Copy)]
pub enum Asked {
    /// The whole plan.
    Plan,
    /// One order, with each free wagon.
    Order(OrderId),
    /// One wagon, with each waiting order.
    Wagon(WagonNumber),
}

/// What `why` is asked to do.
#[derive(Drop)]
pub struct WhyOptions<'a> {
    /// What the office is opened with.
    pub office: OfficeOptions<'a>,
    /// Which plan is asked about.
    pub when: When,
    /// The file of the places' names.
    pub places: Option<&'a str>,
    /// What is asked about.
    pub asked: Asked,
    /// How many of the pairs that fit are printed at most, 1 to 1,000, with no others; none if all pairs are. Of the whole plan none.
    pub near: Option<u32>,
    /// Whether JSON lines are printed.
    pub json: bool,
    /// Whether bounds are printed, without a plan for each number.
    pub quick: bool,
}

impl<'a> WhyOptions<'a> {
    /// The options that were given. A moment, an order's name or a wagon's number that is none is a fault of the arguments, and so
    /// is a number of pairs without an order or a wagon.
    pub(crate) fn read(alloc: Global, matches: &ArgMatches<'a>) -> Result<WhyOptions<'a>, Error>
        ensures { IfOk result (AreWhyOptions (given_in matches.now)) }
    {
        let asked = asked_of(alloc, matches)?;
        let when = when_of(alloc, matches)?;
        let near = near_of(alloc, matches)?;
        check_near(alloc, near, &asked)?;
        let office = OfficeOptions::read(alloc, matches)?;
        Ok(WhyOptions {
            office,
            when,
            places: value_of(matches, "places"),
            asked,
            near,
            json: is_given(matches, "json"),
            quick: is_given(matches, "quick"),
        })
    }
}

/// Which plan is asked about. `clap` has refused both a moment and a line before, and neither.
fn when_of(alloc: Global, matches: &ArgMatches<'_>) -> Result<When, Error>
    ensures { IfOk result (IsWhen (given_in matches.now)) }
{
    match value_of(matches, "at") {
        Some(moment) => Ok(When::At(code_from(alloc, WHY, "--at <MOMENT>", moment)?)),
        None => Ok(When::Line(number_of(matches, "line", MAX_INPUT_LINES))),
    }
}

/// What is asked about. `clap` has refused both an order and a wagon before.
fn asked_of(alloc: Global, matches: &ArgMatches<'_>) -> Result<Asked, Error>
    ensures { IfOk result (IsAsked (given_in matches.now)) }
{
    match value_of(matches, "order") {
        Some(name) => Ok(Asked::Order(code_from(alloc, WHY, "--order <NAME>", name)?)),
        None => match value_of(matches, "wagon") {
            Some(number) => Ok(Asked::Wagon(code_from(alloc, WHY, "--wagon <NUMBER>", number)?)),
            None => Ok(Asked::Plan),
        },
    }
}

/// How many pairs are printed at most. `clap` has refused other numbers before, so no fault comes; it lets callers rely on the
/// range.
fn near_of(alloc: Global, matches: &ArgMatches<'_>) -> Result<Option<u32>, Error>
    ensures near { IfOk result (IsOptionalNumberOf (codes "near") (given_in matches.now)) }
    ensures range { IfOk result (λ near. IfSome near (λ n. (1 ≤ n) × (n ≤ max_near))) }
{
    match number_if_given(matches, "near") {
        Some(near) => {
            if near < 1 || near > MAX_NEAR {
                return Err(out_of_range(alloc, WHY, "--near <N>", near, MAX_NEAR)?);
            }
            Ok(Some(near as u32))
        }
        None => Ok(None),
    }
}

/// Pairs are those of an order or of a wagon: a number of them without either is a fault of the arguments.
fn check_near(alloc: Global, near: Option<u32>, asked: &Asked) -> Result<(), Error>
    ensures { IfOk result (λ _. IsNearOf asked.now near) }
{
    match asked {
        Asked::Plan => match near {
            Some(_) => Err(fault_of_word(
                alloc,
                WHY,
                ErrorKind::MissingRequiredArgument,
                NEAR_ALONE,
            )?),
            None => Ok(()),
        },
        Asked::Order(_) => Ok(()),
        Asked::Wagon(_) => Ok(()),
    }
}
