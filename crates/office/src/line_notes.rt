//! The notes of a line by itself and by what was known before it. `Err` only when out of memory; part of the text may be there then.
ghost use Rattle.std.specs.Prelude.{◌≡◌, ◌≢◌, ◌++◌, Err, IfOk, OnOk, string_bytes};
ghost use Rattle.line_fields.specs.Commands.{command_of};
ghost use Rattle.line_fields.specs.Fields.{Gives};
ghost use Rattle.line_fields.specs.Line.{object_of};
ghost use Rattle.line_fields.specs.declared.fault.LineFault.TheVariants.{OutOfMemory};
ghost use Rattle.reply_texts.specs.Lines.{Adds};
ghost use Rattle.office.specs.LineNotes.{is_marked, mark_note, open_note};
ghost use Rattle.office.specs.MemberNotes.{fields_of, member_notes};
ghost use Rattle.office.specs.CommandNotes.{AheadNotesOf, AreCommandNotes, AreLineNotes, OrderNotesOf, ReadNotes};
ghost use Rattle.office.specs.inner.KnownValues.{known_values};

use crate::brackets::is_left_open;
use crate::heard::push_ahead_note;
use crate::member_notes::{fields_of, push_member_notes};
use crate::note_text::push_note;
use crate::order_notes::push_order_notes;
use journal_notes::Heard;
use line_fields::{Command, LineFault, object_of};
use line_network::Network;
use move_messages::Event;
use place_names::Places;
use std::alloc::{AllocError, Global};
use wagons_and_orders::WagonRow;

/// The bytes that some editors put before a text.
const BYTE_ORDER_MARK: [u8; 3] = [0xEF, 0xBB, 0xBF];

/// What is known before a line: the networks, the names of places, the wagons of the office, and the last two messages.
#[derive(Clone, Copy)]
pub(crate) struct Known<'a> {
    pub networks: &'a [Network],
    pub named: &'a Places,
    pub wagons: &'a [WagonRow],
    pub heard: &'a Heard,
}

/// The notes of a line, by what it was read as. `Err` too where it wasn't read for lack of memory.
pub(crate) fn line_notes(
    alloc: Global,
    line: u64,
    known: &Known<'_>,
    bytes: &[u8],
    read: &Result<Command, LineFault>,
) -> Result<String, AllocError>
    requires { Gives (λ command. command) read.now (command_of bytes.now) }
    ensures notes { IfOk result (λ text. AreLineNotes line (known_values known.now) bytes.now (string_bytes text)) }
    ensures is_read { OnOk result (read.now ≢ Err OutOfMemory) }
{
    let mut text = String::new(alloc);
    push_read_notes(alloc, &mut text, line, known, bytes, read)?;
    push_mark_note(&mut text, line, bytes)?;
    push_open_note(&mut text, line, bytes, read)?;
    Ok(text)
}

/// Adds the notes of a line that was read so: only a command has any. `Err` too where it wasn't read for lack of memory.
fn push_read_notes(
    alloc: Global,
    text: &mut String,
    line: u64,
    known: &Known<'_>,
    bytes: &[u8],
    read: &Result<Command, LineFault>,
) -> Result<(), AllocError>
    ensures notes { OnOk result (Adds (ReadNotes line (known_values known.now) read.now (object_of bytes.now)) (string_bytes text.old) (string_bytes text.new)) }
    ensures is_read { OnOk result (read.now ≢ Err OutOfMemory) }
{
    match read {
        Ok(command) => push_command_notes(alloc, text, line, known, command, bytes),
        Err(LineFault::OutOfMemory) => Err(AllocError),
        Err(_) => Ok(()),
    }
}

/// Adds the notes of a line that is a command.
fn push_command_notes(
    alloc: Global,
    text: &mut String,
    line: u64,
    known: &Known<'_>,
    command: &Command,
    bytes: &[u8],
) -> Result<(), AllocError>
    ensures { OnOk result (Adds (AreCommandNotes line (known_values known.now) command.now (object_of bytes.now)) (string_bytes text.old) (string_bytes text.new)) }
{
    push_notes_of_order(text, line, known, command)?;
    push_notes_of_members(alloc, text, line, command, bytes)?;
    push_note_of_message(text, line, known.heard, command)
}

/// Adds the notes of an order.
fn push_notes_of_order(
    text: &mut String,
    line: u64,
    known: &Known<'_>,
    command: &Command,
) -> Result<(), AllocError>
    ensures { OnOk result (Adds (OrderNotesOf line (known_values known.now) command.now) (string_bytes text.old) (string_bytes text.new)) }
{
    match command {
        Command::Event(Event::Place(order)) => {
            push_order_notes(text, line, known.networks, known.named, known.wagons, order)
        }
        _ => Ok(()),
    }
}

/// Adds the notes of members that the command doesn't have.
fn push_notes_of_members(
    alloc: Global,
    text: &mut String,
    line: u64,
    command: &Command,
    bytes: &[u8],
) -> Result<(), AllocError>
    ensures { OnOk result (string_bytes text.new ≡ string_bytes text.old ++ member_notes line (fields_of command.now) (object_of bytes.now)) }
{
    match object_of(alloc, bytes) {
        Ok(object) => push_member_notes(text, line, fields_of(command), &object),
        Err(LineFault::OutOfMemory) => Err(AllocError),
        Err(_) => Ok(()),
    }
}

/// Adds the note at a message that the message before it is ahead.
fn push_note_of_message(
    text: &mut String,
    line: u64,
    heard: &Heard,
    command: &Command,
) -> Result<(), AllocError>
    ensures { OnOk result (Adds (AheadNotesOf line heard.now command.now) (string_bytes text.old) (string_bytes text.new)) }
{
    match command {
        Command::Event(Event::Message(message)) => {
            push_ahead_note(text, line, heard, message.moment)
        }
        _ => Ok(()),
    }
}

/// Adds the note of a byte order mark.
fn push_mark_note(text: &mut String, line: u64, bytes: &[u8]) -> Result<(), AllocError>
    ensures { OnOk result (string_bytes text.new ≡ string_bytes text.old ++ mark_note line bytes.now) }
{
    if !is_marked(line, bytes) {
        return Ok(());
    }
    push_note(text, line, "mark")
}

/// Whether the first line begins with a byte order mark.
fn is_marked(line: u64, bytes: &[u8]) -> bool
    ensures { result ≡ is_marked line bytes.now }
{
    line == 1 && bytes.starts_with(&BYTE_ORDER_MARK)
}

/// Adds the note of a line that is no JSON value and ends where an object or a list is open.
fn push_open_note(
    text: &mut String,
    line: u64,
    bytes: &[u8],
    read: &Result<Command, LineFault>,
) -> Result<(), AllocError>
    ensures { OnOk result (string_bytes text.new ≡ string_bytes text.old ++ open_note line bytes.now read.now) }
{
    match read {
        Err(LineFault::NotJson) if is_left_open(bytes) => push_note(text, line, "open"),
        _ => Ok(()),
    }
}
