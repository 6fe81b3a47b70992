//! The options of `trace`.
ghost use Rattle.std.specs.Prelude.{IfOk};
ghost use Rattle.command_line.specs.Options.{AreTraceOptions, IsFollowed};
ghost use Rattle.command_line.specs.Values.{given_in};

use crate::state_options::StateOptions;
use crate::values::{code_from, needed_value, value_of};
use clap::{ArgMatches, Error};
use rail_codes::{OrderId, WagonNumber};
use std::alloc::Global;

/// The word, as usage lines name it.
const TRACE: &str = "wagons trace";

/// What a trace follows.
#[derive(Clone, Copy)]
pub enum Followed {
    /// A wagon.
    Wagon(WagonNumber),
    /// An order.
    Order(OrderId),
}

/// What `trace` is asked to do.
#[derive(Drop)]
pub struct TraceOptions<'a> {
    /// What the office is opened with, and how the trace is printed.
    pub state: StateOptions<'a>,
    /// What is followed.
    pub followed: Followed,
}

impl<'a> TraceOptions<'a> {
    /// The options that were given. A wagon's number or an order's name that is none, or a time zone whose name can't be one,
    /// is a fault of the arguments.
    pub(crate) fn read(alloc: Global, matches: &ArgMatches<'a>) -> Result<TraceOptions<'a>, Error>
        ensures { IfOk result (AreTraceOptions (given_in matches.now)) }
    {
        let followed = followed_of(alloc, matches)?;
        let state = StateOptions::read(alloc, TRACE, matches)?;
        Ok(TraceOptions { state, followed })
    }
}

/// What is followed. `clap` has refused both an order and a wagon before, and neither.
fn followed_of(alloc: Global, matches: &ArgMatches<'_>) -> Result<Followed, Error>
    ensures { IfOk result (IsFollowed (given_in matches.now)) }
{
    match value_of(matches, "order") {
        Some(name) => Ok(Followed::Order(code_from(alloc, TRACE, "--order <NAME>", name)?)),
        None => {
            let number = needed_value(matches, "wagon");
            Ok(Followed::Wagon(code_from(alloc, TRACE, "--wagon <NUMBER>", number)?))
        }
    }
}
