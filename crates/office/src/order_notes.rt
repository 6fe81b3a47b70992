//! The notes of an order. `Err` only when out of memory; part of the text may be there then.
ghost use Rattle.std.specs.Prelude.{◌≡◌, ◌++◌, OnOk, string_bytes};
ghost use Rattle.std.specs.List.{flat_map};
ghost use Rattle.reply_texts.specs.Lines.{Adds};
ghost use Rattle.reply_texts.specs.Words.{next_word};
ghost use Rattle.office.specs.NoteText.{NotedIf};
ghost use Rattle.journal_notes.specs.OrderNotes.{is_past};
ghost use Rattle.office.specs.OrderNotes.{AreOrderNotes, IsPastNote, class_note, load_note, place_note, place_words};

use crate::note_text::{end_note, push_head};
use journal_notes::{is_past, lacks_class, lacks_load, lacks_place};
use line_network::Network;
use move_messages::OrderText;
use place_names::Places;
use rail_codes::{ClassCode, Place};
use reply_texts::line_words::{push_code, push_moment, push_number};
use std::alloc::AllocError;
use wagons_and_orders::WagonRow;

/// Adds the notes of an order on this line.
pub(crate) fn push_order_notes(
    text: &mut String,
    line: u64,
    networks: &[Network],
    named: &Places,
    wagons: &[WagonRow],
    order: &OrderText,
) -> Result<(), AllocError>
    ensures { OnOk result (Adds (AreOrderNotes line networks.now named.now wagons.now order.now) (string_bytes text.old) (string_bytes text.new)) }
{
    push_place_note(text, line, networks, named, order)?;
    push_class_note(text, line, wagons, order)?;
    push_load_note(text, line, wagons, order)?;
    push_past_note(text, line, wagons, order)
}

/// Adds the note of an order whose place no network has, with the place's name where it has one.
fn push_place_note(
    text: &mut String,
    line: u64,
    networks: &[Network],
    named: &Places,
    order: &OrderText,
) -> Result<(), AllocError>
    ensures { OnOk result (string_bytes text.new ≡ string_bytes text.old ++ place_note line networks.now named.now order.now) }
{
    if !lacks_place(networks, order) {
        return Ok(());
    }
    push_head(text, line, "place")?;
    push_code(text, order.id().as_bytes())?;
    push_place(text, named, order.place())?;
    end_note(text)
}

/// Adds a place, and its name behind it where it has one.
fn push_place(text: &mut String, named: &Places, place: Place) -> Result<(), AllocError>
    ensures { OnOk result (string_bytes text.new ≡ string_bytes text.old ++ place_words named.now place) }
{
    push_code(text, place.as_bytes())?;
    named.push_name(text, place)
}

/// Adds the note of an order of whose classes the office has no wagon.
fn push_class_note(
    text: &mut String,
    line: u64,
    wagons: &[WagonRow],
    order: &OrderText,
) -> Result<(), AllocError>
    ensures { OnOk result (string_bytes text.new ≡ string_bytes text.old ++ class_note line wagons.now order.now) }
{
    if !lacks_class(wagons, order) {
        return Ok(());
    }
    push_head(text, line, "class")?;
    push_code(text, order.id().as_bytes())?;
    push_classes(text, order.classes().as_slice())?;
    end_note(text)
}

/// Adds classes, each as a word.
fn push_classes(text: &mut String, classes: &[ClassCode]) -> Result<(), AllocError>
    ensures { OnOk result (string_bytes text.new ≡ string_bytes text.old ++ flat_map next_word classes.now) }
{
    for class in classes {
        push_code(text, class.as_bytes())?;
    }
    Ok(())
}

/// Adds the note of an order whose load no wagon of its classes carries, though there are some.
fn push_load_note(
    text: &mut String,
    line: u64,
    wagons: &[WagonRow],
    order: &OrderText,
) -> Result<(), AllocError>
    ensures { OnOk result (string_bytes text.new ≡ string_bytes text.old ++ load_note line wagons.now order.now) }
{
    if !lacks_load(wagons, order) {
        return Ok(());
    }
    push_head(text, line, "load")?;
    push_code(text, order.id().as_bytes())?;
    push_number(text, u64::from(order.load()))?;
    end_note(text)
}

/// Adds the note of an order whose latest moment is past.
fn push_past_note(
    text: &mut String,
    line: u64,
    wagons: &[WagonRow],
    order: &OrderText,
) -> Result<(), AllocError>
    ensures { OnOk result (Adds (NotedIf (is_past wagons.now order.now) (IsPastNote line order.now)) (string_bytes text.old) (string_bytes text.new)) }
{
    if !is_past(wagons, order) {
        return Ok(());
    }
    push_head(text, line, "past")?;
    push_code(text, order.id().as_bytes())?;
    push_moment(text, order.latest())?;
    end_note(text)
}
