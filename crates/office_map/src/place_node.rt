//! Places.
ghost use Rattle.std.specs.Prelude.{◌≡◌, ◌++◌, IfOk, OnOk, filter, string_bytes};
ghost use Rattle.reply_texts.specs.Lines.{Adds, AreLines};
ghost use Rattle.office_map.specs.Places.{name_line, place_back, place_front, title_line, IsPlaceNode, IsPlaceOf};
ghost use Rattle.office_map.specs.Shown.{stands_at, wants_at};

use crate::class_lines::push_class_lines;
use crate::named::{coordinates_of, push_name};
use crate::order_lines::push_order_lines;
use crate::position::push_position;
use crate::shown::ShownOrder;
use crate::words::{push_between, push_words};
use place_names::Places;
use rail_codes::Place;
use std::alloc::{AllocError, Global};
use wagons_and_orders::WagonRow;

/// Adds places, each with the wagons among these that are there, and the orders among these that want some there.
pub(crate) fn push_places(
    alloc: Global,
    text: &mut String,
    named: &Places,
    wagons: &[WagonRow],
    orders: &[ShownOrder],
    places: &[Place],
) -> Result<(), AllocError>
    ensures { OnOk result (Adds (AreLines (IsPlaceOf named.now wagons.now orders.now) places.now) (string_bytes text.old) (string_bytes text.new)) }
{
    for place in places {
        push_place(alloc, text, named, wagons, orders, *place)?;
    }
    Ok(())
}

/// Adds a place.
fn push_place(
    alloc: Global,
    text: &mut String,
    named: &Places,
    wagons: &[WagonRow],
    orders: &[ShownOrder],
    place: Place,
) -> Result<(), AllocError>
    ensures { OnOk result (Adds (IsPlaceOf named.now wagons.now orders.now place) (string_bytes text.old) (string_bytes text.new)) }
{
    let here = wagons_at(alloc, wagons, place)?;
    let wanting = orders_at(alloc, orders, place)?;
    push_node(text, named, &here, &wanting, place)
}

/// Adds a place with these wagons and orders.
fn push_node(
    text: &mut String,
    named: &Places,
    wagons: &[WagonRow],
    orders: &[ShownOrder],
    place: Place,
) -> Result<(), AllocError>
    ensures { OnOk result (Adds (IsPlaceNode named.now wagons.now orders.now place) (string_bytes text.old) (string_bytes text.new)) }
{
    push_front(text, named, place)?;
    push_class_lines(text, wagons)?;
    push_order_lines(text, wagons, orders)?;
    push_back(text, named, place)
}

/// Adds the code of a place, and the first line of its label.
fn push_front(text: &mut String, named: &Places, place: Place) -> Result<(), AllocError>
    ensures { OnOk result (string_bytes text.new ≡ string_bytes text.old ++ place_front named.now place) }
{
    push_code(text, place)?;
    push_title(text, named, place)
}

/// Adds the end of a place's label, and where the place lies, if that is said.
fn push_back(text: &mut String, named: &Places, place: Place) -> Result<(), AllocError>
    ensures { OnOk result (string_bytes text.new ≡ string_bytes text.old ++ place_back named.now place) }
{
    push_words(text, "  </TABLE>>")?;
    push_position(text, coordinates_of(named, place))?;
    push_words(text, "];\n")
}

/// Adds the code of a place, and the beginning of its label.
fn push_code(text: &mut String, place: Place) -> Result<(), AllocError>
    ensures { OnOk result (string_bytes text.new ≡ string_bytes text.old ++ name_line place) }
{
    push_between(
        text,
        "  \"",
        place.as_bytes(),
        "\" [label=<<TABLE BORDER=\"0\" CELLBORDER=\"0\" CELLSPACING=\"0\" CELLPADDING=\"0\">\n",
    )
}

/// Adds the first line of a place's label, with its name if it has one.
fn push_title(text: &mut String, named: &Places, place: Place) -> Result<(), AllocError>
    ensures { OnOk result (string_bytes text.new ≡ string_bytes text.old ++ title_line named.now place) }
{
    push_between(
        text,
        "    <TR><TD COLSPAN=\"4\"><B>",
        place.as_bytes(),
        "</B>",
    )?;
    push_name(text, named.name_of(place))?;
    push_words(text, "</TD></TR>\n")
}

/// The wagons at a place, in order.
fn wagons_at(alloc: Global, wagons: &[WagonRow], place: Place) -> Result<Vec<WagonRow>, AllocError>
    ensures { IfOk result (λ here. here.items ≡ filter (stands_at place) wagons.now) }
{
    wagons
        .iter()
        .filter(|row| row.status.place() == place)
        .copied()
        .collect(alloc)
}

/// The orders that want wagons at a place, as placed.
fn orders_at(
    alloc: Global,
    orders: &[ShownOrder],
    place: Place,
) -> Result<Vec<ShownOrder>, AllocError>
    ensures { IfOk result (λ here. here.items ≡ filter (wants_at place) orders.now) }
{
    orders
        .iter()
        .filter(|order| order.text.place() == place)
        .copied()
        .collect(alloc)
}
