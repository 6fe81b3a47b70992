//! The options of `map`.
ghost use Rattle.std.specs.Prelude.{IfOk};
ghost use Rattle.command_line.specs.Options.{AreMapOptions};
ghost use Rattle.command_line.specs.Values.{given_in};

use crate::office_options::OfficeOptions;
use crate::values::{code_of, is_given, value_of};
use clap::{ArgMatches, Error};
use rail_codes::{ClassCode, OrderId};
use std::alloc::Global;

/// The word, as usage lines name it.
const MAP: &str = "wagons map";

/// What `map` is asked to do.
#[derive(Drop)]
pub struct MapOptions<'a> {
    /// What the office is opened with.
    pub office: OfficeOptions<'a>,
    /// The file of the places' names, and of where they lie.
    pub places: Option<&'a str>,
    /// Whether places with nothing on them are left out.
    pub busy: bool,
    /// The order that is shown alone.
    pub order: Option<OrderId>,
    /// The class that is shown alone.
    pub class: Option<ClassCode>,
}

impl<'a> MapOptions<'a> {
    /// The options that were given. An order's name or a class that is none is a fault of the arguments.
    pub(crate) fn read(alloc: Global, matches: &ArgMatches<'a>) -> Result<MapOptions<'a>, Error>
        ensures { IfOk result (AreMapOptions (given_in matches.now)) }
    {
        let order = code_of::<OrderId>(alloc, MAP, "order", "--order <NAME>", matches)?;
        let class = code_of::<ClassCode>(alloc, MAP, "class", "--class <CODE>", matches)?;
        let office = OfficeOptions::read(alloc, matches)?;
        Ok(MapOptions {
            office,
            places: value_of(matches, "places"),
            busy: is_given(matches, "busy"),
            order,
            class,
        })
    }
}
