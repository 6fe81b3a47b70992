//! The option of the words over table lines.
ghost use Rattle.std.specs.Prelude.{◌≡◌};
ghost use Rattle.line_engine.specs.Lines.{max_line_bytes};
ghost use Rattle.command_line.specs.Options.{AreLineOptions};
ghost use Rattle.command_line.specs.Values.{given_in};

use crate::values::number_of;
use clap::ArgMatches;
use line_engine::{LARGEST_LINE_LIMIT, LineLimit};

/// What `check` and `solve` are asked to do.
#[derive(Drop)]
pub struct LineOptions {
    /// The most bytes of a line.
    pub limit: LineLimit,
}

impl LineOptions {
    /// The options if none is given.
    pub(crate) fn standard() -> LineOptions
        ensures { result.limit ≡ max_line_bytes }
    {
        LineOptions {
            limit: LineLimit::standard(),
        }
    }

    /// The options that were given, and the defaults of the others.
    pub(crate) fn read(matches: &ArgMatches<'_>) -> LineOptions
        ensures { AreLineOptions (given_in matches.now) result }
    {
        let bytes = number_of(matches, "line-bytes", LARGEST_LINE_LIMIT as u64);
        LineOptions {
            limit: LineLimit::new(bytes as u32).unwrap(),
        }
    }
}
