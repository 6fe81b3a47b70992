//! Movements in each form.
ghost use Rattle.std.specs.Prelude.{IfOk, string_bytes};
ghost use Rattle.movements.specs.FormText.{IsFormText, IsJsonText};
ghost use Rattle.movements.specs.TableText.{IsTableText};

use crate::movement_list::MovementList;
use crate::spreadsheet::{csv_rows, csv_text};
use crate::table::table_text;
use place_names::Places;
use std::alloc::{AllocError, Global};
use text_tables::{Clock, Form, Side, json_rows_text};

/// At which side the columns of CSV stand: those of numbers at the right.
const CSV_SIDES: [Side; 22] = [
    Side::Left,
    Side::Left,
    Side::Left,
    Side::Left,
    Side::Left,
    Side::Left,
    Side::Left,
    Side::Left,
    Side::Left,
    Side::Left,
    Side::Right,
    Side::Right,
    Side::Left,
    Side::Left,
    Side::Right,
    Side::Right,
    Side::Right,
    Side::Right,
    Side::Right,
    Side::Right,
    Side::Right,
    Side::Left,
];

/// Movements in a form: as `table_text`, `csv_text` or `json_text` has them.
pub fn movements_text(
    alloc: Global,
    places: &Places,
    clock: &Clock<'_>,
    form: Form,
    list: &MovementList,
) -> Result<Vec<u8>, AllocError>
    ensures { IfOk result (λ text. IsFormText places.now clock.now form list.now text.items) }
{
    match form {
        Form::Table => table_bytes(alloc, places, clock, list),
        Form::Csv => csv_text(alloc, places, clock, list),
        Form::Json => json_bytes(alloc, places, clock, list),
    }
}

/// Movements for people, as bytes.
fn table_bytes(
    alloc: Global,
    places: &Places,
    clock: &Clock<'_>,
    list: &MovementList,
) -> Result<Vec<u8>, AllocError>
    ensures { IfOk result (λ text. IsTableText places.now clock.now list.now text.items) }
{
    let text = table_text(alloc, places, clock, list)?;
    Ok(text.into_bytes())
}

/// Movements as lines of JSON, as bytes.
fn json_bytes(
    alloc: Global,
    places: &Places,
    clock: &Clock<'_>,
    list: &MovementList,
) -> Result<Vec<u8>, AllocError>
    ensures { IfOk result (λ text. IsJsonText places.now clock.now list.now text.items) }
{
    let text = json_text(alloc, places, clock, list)?;
    Ok(text.into_bytes())
}

/// Movements, orders and silent wagons as lines of JSON: an object for each, whose members are the titles of the CSV with its
/// fields. An empty field is `null`. `km`, `minutes`, `spare`, `late`, `wanted`, `filled`, `promised`, `missing` and `penalty`
/// are numbers, all others are strings.
pub fn json_text(
    alloc: Global,
    places: &Places,
    clock: &Clock<'_>,
    list: &MovementList,
) -> Result<String, AllocError>
    ensures { IfOk result (λ text. IsJsonText places.now clock.now list.now (string_bytes text)) }
{
    let rows = csv_rows(alloc, places, clock, list)?;
    json_rows_text(alloc, &CSV_SIDES, &rows)
}
