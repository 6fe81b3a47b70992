//! The options of the words that list an office: `fleet` and `orders`.
ghost use Rattle.std.specs.Prelude.{IfOk};
ghost use Rattle.command_line.specs.Options.{AreStateOptions};
ghost use Rattle.command_line.specs.Values.{given_in};

use crate::office_options::OfficeOptions;
use crate::values::{is_given, value_of};
use crate::zone::zone_of;
use clap::{ArgMatches, Error};
use std::alloc::Global;

/// What `fleet` and `orders` are asked to do.
#[derive(Drop)]
pub struct StateOptions<'a> {
    /// What the office is opened with.
    pub office: OfficeOptions<'a>,
    /// The file of the places' names.
    pub places: Option<&'a str>,
    /// The time zone in which moments are shown, by its name.
    pub zone: Option<&'a str>,
    /// Whether CSV is printed.
    pub csv: bool,
    /// Whether JSON lines are printed. `clap` has refused both before.
    pub json: bool,
}

impl<'a> StateOptions<'a> {
    /// The options that were given to a word, by its name for the usage. A time zone whose name can't be one is a fault of
    /// the arguments.
    pub(crate) fn read(
        alloc: Global,
        word: &str,
        matches: &ArgMatches<'a>,
    ) -> Result<StateOptions<'a>, Error>
        ensures { IfOk result (AreStateOptions (given_in matches.now)) }
    {
        let zone = zone_of(alloc, word, matches)?;
        let office = OfficeOptions::read(alloc, matches)?;
        Ok(StateOptions {
            office,
            places: value_of(matches, "places"),
            zone,
            csv: is_given(matches, "csv"),
            json: is_given(matches, "json"),
        })
    }
}
