//! How the lines about one order or one wagon are written.

use crate::style::Style;
use place_names::Places;

/// How the lines about one order or one wagon are written: as words or as JSON, and whether the names of places stand in them.
#[derive(Clone, Copy)]
pub struct LineForm<'a> {
    /// How a line is written.
    pub style: Style,
    /// The names of places, where they are asked for.
    pub names: Option<&'a Places>,
}
