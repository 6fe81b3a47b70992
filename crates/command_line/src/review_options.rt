//! The options of `review`.
ghost use Rattle.std.specs.Prelude.{IfOk};
ghost use Rattle.command_line.specs.Options.{AreReviewOptions};
ghost use Rattle.command_line.specs.Values.{given_in};

use crate::office_options::OfficeOptions;
use crate::values::{is_given, value_of};
use clap::ArgMatches;
use std::alloc::{AllocError, Global};

/// What `review` is asked to do.
#[derive(Drop)]
pub struct ReviewOptions<'a> {
    /// What the office is opened with.
    pub office: OfficeOptions<'a>,
    /// The file of the places' names.
    pub places: Option<&'a str>,
    /// Whether the notes are JSON lines. `clap` has refused both before.
    pub json: bool,
}

impl<'a> ReviewOptions<'a> {
    /// The options that were given.
    pub(crate) fn read(
        alloc: Global,
        matches: &ArgMatches<'a>,
    ) -> Result<ReviewOptions<'a>, AllocError>
        ensures { IfOk result (AreReviewOptions (given_in matches.now)) }
    {
        let office = OfficeOptions::read(alloc, matches)?;
        Ok(ReviewOptions {
            office,
            places: value_of(matches, "places"),
            json: is_given(matches, "json"),
        })
    }
}
