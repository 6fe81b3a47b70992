//! Places in tables.
ghost use Rattle.std.specs.Prelude.{◌≡◌, ◌++◌, IfOk, OnOk, string_bytes};
ghost use Rattle.text_tables.specs.PlaceCells.{place_cell, place_cells, place_in};

use crate::form::Form;
use crate::row::Row;
use place_names::Places;
use rail_codes::Place;
use std::alloc::{AllocError, Global};

/// A place with its name behind it, if it has one.
pub fn place_cell(alloc: Global, places: &Places, place: Place) -> Result<String, AllocError>
    ensures { IfOk result (λ cell. string_bytes cell ≡ place_cell places.now place) }
{
    let mut cell = place.text(alloc)?;
    places.push_name(&mut cell, place)?;
    Ok(cell)
}

/// Adds a place, and its name in the next cell, which is empty where it has none.
pub fn push_place(row: &mut Row, places: &Places, place: Place) -> Result<(), AllocError>
    ensures { OnOk result (row.new ≡ row.old ++ place_cells places.now place) }
{
    row.push_code(place.as_bytes())?;
    row.push(places.name_of(place))
}

/// Adds a place in a form: for people a cell with its name behind it, for a program two cells.
pub fn push_place_in(
    alloc: Global,
    row: &mut Row,
    form: Form,
    places: &Places,
    place: Place,
) -> Result<(), AllocError>
    ensures { OnOk result (row.new ≡ row.old ++ place_in form places.now place) }
{
    match form {
        Form::Table => row.push_cell(place_cell(alloc, places, place)?),
        Form::Csv | Form::Json => push_place(row, places, place),
    }
}
