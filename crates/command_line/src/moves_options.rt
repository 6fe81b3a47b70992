//! The options of `moves`.
ghost use Rattle.std.specs.Prelude.{◌≤◌, IfOk, IfSome, codes};
ghost use Rattle.command_line.specs.Options.{AreMovesOptions, max_silent_hours};
ghost use Rattle.command_line.specs.Values.{IsOptionalNumberOf, given_in};

use crate::office_options::ProblemOptions;
use crate::values::{code_of, is_given, number_if_given, out_of_range, value_of};
use crate::zone::zone_of;
use clap::{ArgMatches, Error};
use rail_codes::{Company, OrderId, WagonNumber};
use std::alloc::Global;

/// The most hours after which a wagon that was not heard from is shown.
pub const MAX_SILENT_HOURS: u64 = 100_000;

/// The word, as usage lines name it.
const MOVES: &str = "wagons moves";

/// What `moves` is asked to do.
#[derive(Drop)]
pub struct MovesOptions<'a> {
    /// The office, and the moment from which arrivals are computed.
    pub problem: ProblemOptions<'a>,
    /// The file of the places' names.
    pub places: Option<&'a str>,
    /// The time zone in which moments are shown, by its name.
    pub zone: Option<&'a str>,
    /// Whether CSV is printed.
    pub csv: bool,
    /// Whether JSON lines are printed. `clap` has refused both before.
    pub json: bool,
    /// Whether what needs a person is shown alone.
    pub late: bool,
    /// The wagon that is shown alone.
    pub wagon: Option<WagonNumber>,
    /// The order that is shown alone. `clap` has refused a wagon and an order before.
    pub order: Option<OrderId>,
    /// The company whose wagons are shown alone: those whose last accepted message it sent.
    pub company: Option<Company>,
    /// After how many hours, 1 to 100,000, a wagon that was not heard from is shown; none if no such wagon is.
    pub silent: Option<u64>,
}

impl<'a> MovesOptions<'a> {
    /// The options that were given. A moment, a wagon's number, an order's name or a company that is none, or a time zone
    /// whose name can't be one, is a fault of the arguments.
    pub(crate) fn read(alloc: Global, matches: &ArgMatches<'a>) -> Result<MovesOptions<'a>, Error>
        ensures { IfOk result (AreMovesOptions (given_in matches.now)) }
    {
        let wagon = code_of::<WagonNumber>(alloc, MOVES, "wagon", "--wagon <NUMBER>", matches)?;
        let order = code_of::<OrderId>(alloc, MOVES, "order", "--order <NAME>", matches)?;
        let company = code_of::<Company>(alloc, MOVES, "company", "--company <CODE>", matches)?;
        let silent = silent_of(alloc, matches)?;
        let zone = zone_of(alloc, MOVES, matches)?;
        let problem = ProblemOptions::read(alloc, MOVES, matches)?;
        Ok(MovesOptions {
            problem,
            places: value_of(matches, "places"),
            zone,
            csv: is_given(matches, "csv"),
            json: is_given(matches, "json"),
            late: is_given(matches, "late"),
            wagon,
            order,
            company,
            silent,
        })
    }
}

/// The hours of silence that were given. `clap` has refused other numbers before, so no fault comes; it lets callers rely on the
/// range.
fn silent_of(alloc: Global, matches: &ArgMatches<'_>) -> Result<Option<u64>, Error>
    ensures hours { IfOk result (IsOptionalNumberOf (codes "silent") (given_in matches.now)) }
    ensures range { IfOk result (λ hours. IfSome hours (λ n. (1 ≤ n) × (n ≤ max_silent_hours))) }
{
    match number_if_given(matches, "silent") {
        Some(hours) => {
            if hours < 1 || hours > MAX_SILENT_HOURS {
                return Err(out_of_range(alloc, MOVES, "--silent <N>", hours, MAX_SILENT_HOURS)?);
            }
            Ok(Some(hours))
        }
        None => Ok(None),
    }
}
