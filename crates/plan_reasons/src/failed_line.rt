//! The line of a free wagon with a waiting order by the first test that it fails.
ghost use Rattle.std.specs.Prelude.{◌≡◌, ◌<◌, ◌≤◌, ◌==◌, [], ◌∷◌, ◌++◌, OnOk, codes, if◌then◌else◌, map, string_bytes};
ghost use Rattle.std.specs.List.{join_with_byte};
ghost use Rattle.rail_codes.specs.Moment.{first_second};
ghost use Rattle.reply_texts.specs.Lines.{Adds};
ghost use Rattle.plan_reasons.specs.Fields.{field, quoted};
ghost use Rattle.plan_reasons.specs.Pairs.{
  IsCostlyLine,
  IsLateLine,
  class_line,
  costly_line,
  counted_line,
  list_end,
  list_start,
  list_value,
  load_line,
  pair_fields,
  way_line,
};
ghost use Rattle.plan_reasons.specs.PlaceFields.{names_of};
ghost use Rattle.plan_reasons.specs.PrintedNumbers.{IsPrinted};
ghost use Rattle.plan_reasons.specs.Reasons.{FailsFirst, HasWay, IsInTime};
ghost use Rattle.plan_reasons.specs.inner.AddedPairs.{AddsTestLine, IsArrivalField, comma};

use crate::line_form::LineForm;
use crate::place_fields::place_field;
use crate::reasons::{Test, arrival, way_of};
use crate::style::{
    Style, code_field, end_line, first_code, first_number, moment_field, nothing, number_field,
    push_field, push_name, push_quoted,
};
use line_network::Tables;
use move_messages::OrderText;
use rail_codes::{ClassCode, Moment};
use std::alloc::AllocError;
use wagons_and_orders::FreeWagon;

/// Adds the line of a wagon by the first test that it fails for an order.
pub(crate) fn push_test_line(
    text: &mut String,
    form: &LineForm<'_>,
    tables: &Tables,
    at: Moment,
    wagon: &FreeWagon,
    order: &OrderText,
    test: Test,
) -> Result<(), AllocError>
    requires { FailsFirst tables.now at wagon.now order.now test }
    ensures { OnOk result (AddsTestLine form.now tables.now at wagon.now order.now test (string_bytes text.old) (string_bytes text.new)) }
{
    match test {
        Test::Class => push_class(text, form.style, wagon, order),
        Test::Load => push_load(text, form.style, wagon, order),
        Test::Way => push_way(text, form, wagon, order),
        Test::InTime => push_late(text, form.style, tables, at, wagon, order),
        Test::Cheaper => push_costly(text, form.style, tables, at, wagon, order),
    }
}

/// Begins the line of a pair.
pub(crate) fn push_pair(
    text: &mut String,
    style: Style,
    name: &str,
    wagon: &FreeWagon,
    order: &OrderText,
) -> Result<(), AllocError>
    ensures { OnOk result (string_bytes text.new ≡ string_bytes text.old ++ pair_fields style name.now wagon.now order.now) }
{
    first_code(text, style, name, wagon.number.digits())?;
    code_field(text, style, "order", order.id().as_bytes())
}

/// Adds the line of a wagon whose class the order doesn't list.
fn push_class(
    text: &mut String,
    style: Style,
    wagon: &FreeWagon,
    order: &OrderText,
) -> Result<(), AllocError>
    ensures { OnOk result (string_bytes text.new ≡ string_bytes text.old ++ class_line style wagon.now order.now) }
{
    push_pair(text, style, "class", wagon, order)?;
    code_field(text, style, "has", wagon.class.as_bytes())?;
    push_wanted(text, style, order.classes().as_slice())?;
    end_line(text, style)
}

/// Adds the line that counts the wagons of classes that an order doesn't list.
pub(crate) fn push_counted_line(
    text: &mut String,
    style: Style,
    count: u64,
    order: &OrderText,
) -> Result<(), AllocError>
    ensures { OnOk result (string_bytes text.new ≡ string_bytes text.old ++ counted_line style count order.now) }
{
    first_number(text, style, "class", count)?;
    code_field(text, style, "order", order.id().as_bytes())?;
    push_wanted(text, style, order.classes().as_slice())?;
    end_line(text, style)
}

/// Adds the classes that an order lists.
fn push_wanted(text: &mut String, style: Style, classes: &[ClassCode]) -> Result<(), AllocError>
    ensures { OnOk result (string_bytes text.new ≡ string_bytes text.old ++ field style (codes "wants") (list_value style classes.now)) }
{
    push_name(text, style, "wants")?;
    text.push_str(list_start(style))?;
    push_joined(text, style, classes)?;
    text.push_str(list_end(style))
}

/// What begins a list.
fn list_start(style: Style) -> &'static str
    ensures { result.now ≡ list_start style }
{
    match style {
        Style::Text => "",
        Style::Json => "[",
    }
}

/// What ends a list.
fn list_end(style: Style) -> &'static str
    ensures { result.now ≡ list_end style }
{
    match style {
        Style::Text => "",
        Style::Json => "]",
    }
}

/// Adds classes, parted by commas.
fn push_joined(text: &mut String, style: Style, classes: &[ClassCode]) -> Result<(), AllocError>
    ensures { OnOk result (string_bytes text.new ≡ string_bytes text.old ++ join_with_byte 44 (map (quoted style) classes.now)) }
{
    for k in 0..classes.len() {
        push_item(text, style, k, classes[k])?;
    }
    Ok(())
}

/// Adds the class at `k` of a list.
fn push_item(text: &mut String, style: Style, k: usize, class: ClassCode) -> Result<(), AllocError>
    ensures { OnOk result (string_bytes text.new ≡ string_bytes text.old ++ (comma k ++ quoted style class)) }
{
    text.push_str(comma(k))?;
    push_quoted(text, style, class.as_bytes())
}

/// What stands before the item at `k` of a list.
fn comma(k: usize) -> &'static str
    ensures { result.now ≡ comma k }
{
    if k == 0 { "" } else { "," }
}

/// Adds the line of a wagon that doesn't carry the order's load.
fn push_load(
    text: &mut String,
    style: Style,
    wagon: &FreeWagon,
    order: &OrderText,
) -> Result<(), AllocError>
    ensures text { OnOk result (string_bytes text.new ≡ string_bytes text.old ++ load_line style wagon.now order.now) }
    ensures limit { IsPrinted wagon.now.load_limit }
    ensures load { IsPrinted order.now.load }
{
    let limit = u64::from(wagon.load_limit);
    let load = u64::from(order.load());
    push_pair(text, style, "load", wagon, order)?;
    number_field(text, style, "has", limit)?;
    number_field(text, style, "wants", load)?;
    end_line(text, style)
}

/// Adds the line of a wagon from which no way leads to the order's place.
fn push_way(
    text: &mut String,
    form: &LineForm<'_>,
    wagon: &FreeWagon,
    order: &OrderText,
) -> Result<(), AllocError>
    ensures { OnOk result (string_bytes text.new ≡ string_bytes text.old ++ way_line form.now.style (names_of form.now) wagon.now order.now) }
{
    push_pair(text, form.style, "way", wagon, order)?;
    place_field(text, form, "from", "from_name", wagon.place)?;
    place_field(text, form, "to", "to_name", order.place())?;
    end_line(text, form.style)
}

/// Adds the line of a wagon that would be there too late.
fn push_late(
    text: &mut String,
    style: Style,
    tables: &Tables,
    at: Moment,
    wagon: &FreeWagon,
    order: &OrderText,
) -> Result<(), AllocError>
    requires { HasWay tables.now wagon.now order.now }
    ensures { OnOk result (Adds (IsLateLine style tables.now at wagon.now order.now) (string_bytes text.old) (string_bytes text.new)) }
{
    let (_, minutes) = way_of(tables, wagon, order);
    push_pair(text, style, "late", wagon, order)?;
    push_arrival(text, style, arrival(at, wagon, minutes))?;
    moment_field(text, style, "latest", order.latest())?;
    end_line(text, style)
}

/// Adds when a wagon would be there: nothing where that is past the last second of which a moment may be.
fn push_arrival(text: &mut String, style: Style, seconds: u64) -> Result<(), AllocError>
    requires { first_second ≤ seconds }
    ensures { OnOk result (Adds (IsArrivalField style seconds) (string_bytes text.old) (string_bytes text.new)) }
{
    match Moment::from_seconds(seconds) {
        Ok(moment) => moment_field(text, style, "arrival", moment),
        Err(_) => push_field(text, style, "arrival", nothing(style)),
    }
}

/// Adds the line of a wagon that costs no less than the order's penalty.
fn push_costly(
    text: &mut String,
    style: Style,
    tables: &Tables,
    at: Moment,
    wagon: &FreeWagon,
    order: &OrderText,
) -> Result<(), AllocError>
    requires { IsInTime tables.now at wagon.now order.now }
    ensures { OnOk result (Adds (IsCostlyLine style tables.now at wagon.now order.now) (string_bytes text.old) (string_bytes text.new)) }
{
    let (km, _) = way_of(tables, wagon, order);
    push_kilometres(text, style, wagon, order, u64::from(km))
}

/// Adds the line of a wagon of so many kilometres, which are no less than the order's penalty.
fn push_kilometres(
    text: &mut String,
    style: Style,
    wagon: &FreeWagon,
    order: &OrderText,
    km: u64,
) -> Result<(), AllocError>
    ensures text { OnOk result (string_bytes text.new ≡ string_bytes text.old ++ costly_line style wagon.now order.now km) }
    ensures km { IsPrinted km }
    ensures penalty { IsPrinted order.now.penalty }
{
    let penalty = order.penalty();
    push_pair(text, style, "costly", wagon, order)?;
    number_field(text, style, "km", km)?;
    number_field(text, style, "penalty", penalty)?;
    end_line(text, style)
}
