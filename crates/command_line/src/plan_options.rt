//! The options of `plan`.
ghost use Rattle.std.specs.Prelude.{IfOk};
ghost use Rattle.command_line.specs.Options.{ArePlanOptions};
ghost use Rattle.command_line.specs.Values.{given_in};

use crate::office_options::ProblemOptions;
use crate::values::{is_given, value_of};
use crate::zone::zone_of;
use clap::{ArgMatches, Error};
use std::alloc::Global;

/// The word, as usage lines name it.
const PLAN: &str = "wagons plan";

/// What `plan` is asked to do.
#[derive(Drop)]
pub struct PlanOptions<'a> {
    /// The office and the moment of the problem.
    pub problem: ProblemOptions<'a>,
    /// The file of the places' names.
    pub places: Option<&'a str>,
    /// The time zone in which moments are shown, by its name.
    pub zone: Option<&'a str>,
    /// Whether CSV is printed.
    pub csv: bool,
}

impl<'a> PlanOptions<'a> {
    /// The options that were given. A moment that is none, or a time zone whose name can't be one, is a fault of the
    /// arguments.
    pub(crate) fn read(alloc: Global, matches: &ArgMatches<'a>) -> Result<PlanOptions<'a>, Error>
        ensures { IfOk result (ArePlanOptions (given_in matches.now)) }
    {
        let problem = ProblemOptions::read(alloc, PLAN, matches)?;
        let zone = zone_of(alloc, PLAN, matches)?;
        Ok(PlanOptions {
            problem,
            places: value_of(matches, "places"),
            zone,
            csv: is_given(matches, "csv"),
        })
    }
}
