//! The notes of members that a command doesn't have. `Err` only when out of memory; part of the text may be there then.
ghost use Rattle.std.specs.Prelude.{◌≡◌, [], ◌∷◌, ◌++◌, OnOk, map, take, string_bytes};
ghost use Rattle.std.specs.Str.{IsAscii};
ghost use Rattle.reply_texts.specs.Words.{next_word};
ghost use Rattle.serde_json.specs.View.{members_view, view};
ghost use Rattle.office.specs.MemberNotes.{commit_fields, exception_fields, fields_of, fields_of_event, fields_of_kind, is_known, max_shown, member_names, member_note, message_fields, moment_fields, names_of, network_fields, notes_of_members, order_fields, sheet_fields, shown_byte, shown_name, withdraw_fields};

use crate::note_text::{end_note, push_head};
use line_fields::{Command, Field};
use move_messages::{Event, MessageKind};
use rail_codes::push_ascii;
use serde_json::{Map, Value};
use std::alloc::AllocError;

/// The most bytes of a name that are shown.
const MAX_SHOWN: usize = 60;

const MESSAGE: [Field; 6] = [
    Field::TypeName,
    Field::Company,
    Field::Number,
    Field::Wagon,
    Field::Place,
    Field::Moment,
];

const EXCEPTION: [Field; 7] = [
    Field::TypeName,
    Field::Company,
    Field::Number,
    Field::Wagon,
    Field::Place,
    Field::Moment,
    Field::Hold,
];

const ORDER: [Field; 8] = [
    Field::TypeName,
    Field::Order,
    Field::Place,
    Field::Classes,
    Field::Load,
    Field::Latest,
    Field::Penalty,
    Field::Wagons,
];

const WITHDRAW: [Field; 2] = [Field::TypeName, Field::Order];

const COMMIT: [Field; 6] = [
    Field::TypeName,
    Field::Version,
    Field::At,
    Field::Pairs,
    Field::WagonPrices,
    Field::OrderPrices,
];

const NETWORK: [Field; 2] = [Field::TypeName, Field::Revision];

const MOMENT: [Field; 2] = [Field::TypeName, Field::At];

const SHEET: [Field; 1] = [Field::TypeName];

/// The fields of a command's line.
pub(crate) fn fields_of(command: &Command) -> &'static [Field]
    ensures { result.now ≡ fields_of command.now }
{
    match command {
        Command::Event(event) => fields_of_event(event),
        Command::Begin(_) => &MOMENT,
        Command::Plan(_) => &MOMENT,
        Command::Sheet => &SHEET,
    }
}

fn fields_of_event(event: &Event) -> &'static [Field]
    ensures { result.now ≡ fields_of_event event.now }
{
    match event {
        Event::Message(message) => fields_of_kind(message.kind),
        Event::Place(_) => &ORDER,
        Event::Withdraw(_) => &WITHDRAW,
        Event::Commit(_) => &COMMIT,
        Event::Revise(_) => &NETWORK,
    }
}

fn fields_of_kind(kind: MessageKind) -> &'static [Field]
    ensures { result.now ≡ fields_of_kind kind }
{
    match kind {
        MessageKind::Exception(_) => &EXCEPTION,
        MessageKind::Release
        | MessageKind::Departure
        | MessageKind::YardArrival
        | MessageKind::YardDeparture
        | MessageKind::Arrival
        | MessageKind::Delivery => &MESSAGE,
    }
}

/// Adds the notes of an object's members whose names none of these fields has.
pub(crate) fn push_member_notes(
    text: &mut String,
    line: u64,
    fields: &[Field],
    object: &Value,
) -> Result<(), AllocError>
    ensures { OnOk result (string_bytes text.new ≡ string_bytes text.old ++ notes_of_members line fields.now (names_of (view object.now))) }
{
    match object.as_object() {
        Some(members) => push_notes_of(text, line, fields, members),
        None => Ok(()),
    }
}

/// The same of members.
fn push_notes_of(
    text: &mut String,
    line: u64,
    fields: &[Field],
    members: &Map<String, Value>,
) -> Result<(), AllocError>
    ensures { OnOk result (string_bytes text.new ≡ string_bytes text.old ++ notes_of_members line fields.now (member_names (members_view members.now.entries))) }
{
    for (name, _) in members.iter() {
        push_member_note(text, line, fields, name)?;
    }
    Ok(())
}

/// Adds the note of a member of this name, where none of the fields has it.
fn push_member_note(
    text: &mut String,
    line: u64,
    fields: &[Field],
    name: &str,
) -> Result<(), AllocError>
    ensures { OnOk result (string_bytes text.new ≡ string_bytes text.old ++ member_note line fields.now name.now) }
{
    if is_known(fields, name) {
        return Ok(());
    }
    push_head(text, line, "member")?;
    push_shown(text, name.as_bytes())?;
    end_note(text)
}

/// Adds a name that a sender chose, as a word.
fn push_shown(text: &mut String, name: &[u8]) -> Result<(), AllocError>
    ensures { OnOk result (string_bytes text.new ≡ string_bytes text.old ++ next_word (shown_name name.now)) }
{
    text.push_str(" \"")?;
    push_shown_bytes(text, shown_front(name))?;
    text.push_str("\"")
}

/// The part of a name that is shown: its first 60 bytes.
fn shown_front(name: &[u8]) -> &[u8]
    ensures { result.now ≡ take max_shown name.now }
{
    if name.len() <= MAX_SHOWN {
        return name;
    }
    &name[..MAX_SHOWN]
}

/// Adds each of these bytes as it is shown.
fn push_shown_bytes(text: &mut String, bytes: &[u8]) -> Result<(), AllocError>
    ensures { OnOk result (string_bytes text.new ≡ string_bytes text.old ++ map shown_byte bytes.now) }
{
    for byte in bytes {
        push_ascii(text, &[shown_byte(*byte)])?;
    }
    Ok(())
}

/// A byte as it is shown: printable ASCII but for the quotation mark and the backslash as it is, any other as `?`.
fn shown_byte(byte: u8) -> u8
    ensures value { result ≡ shown_byte byte }
    ensures ascii { IsAscii (result ∷ []) }
{
    if (b' '..=b'~').contains(&byte) && byte != b'"' && byte != b'\\' {
        byte
    } else {
        b'?'
    }
}

/// Whether one of the fields has this name.
fn is_known(fields: &[Field], name: &str) -> bool
    ensures { result ≡ is_known fields.now name.now }
{
    fields.iter().any(|field| field.name() == name)
}
