//! What is said of a file of which a line can't be read as any line of a checkpoint.
ghost use Rattle.std.specs.Prelude.{◌≡◌, ◌++◌, IfOk, string_bytes};
ghost use Rattle.fault_texts.specs.UnreadText.{at_member, is_text, member_complaint, unread_text, value_complaint};

use crate::roster_faults::complaint;
use crate::words::{at_line, push_words, said_of_line};
use fleet_rows::RosterField;
use line_fields::{Field, FieldFault, LineFault};
use std::alloc::{AllocError, Global};

/// What is said of the file at a path of which this line can't be read as any line of a checkpoint: the line, and what it
/// isn't, or its first member that is missing or wrong, with what was expected. `Err` only when out of memory.
pub fn unread_text(
    alloc: Global,
    path: &str,
    number: u64,
    fault: &LineFault,
) -> Result<String, AllocError>
    ensures { IfOk result (λ text. string_bytes text ≡ unread_text path.now number fault.now) }
{
    match fault {
        LineFault::OutOfMemory => String::from_str(alloc, "out of memory"),
        LineFault::NotJson => said_of_line(
            alloc,
            path,
            number,
            ": it is no JSON; each line must be a JSON object, as wagons save prints them",
        ),
        LineFault::NotAnObject => said_of_line(
            alloc,
            path,
            number,
            ": it is JSON, but no object; each line must be a JSON object, as wagons save prints them",
        ),
        LineFault::UnknownType => {
            let said = member_complaint(Field::TypeName);
            said_of_member(alloc, path, number, Field::TypeName, said)
        }
        LineFault::MissingField(field) => {
            said_of_member(alloc, path, number, *field, " is missing")
        }
        LineFault::BadField(field, fault) => {
            let said = value_complaint(*field, *fault);
            said_of_member(alloc, path, number, *field, said)
        }
    }
}

/// A file, a line of it and a member of that, and what is said of the member.
fn said_of_member(
    alloc: Global,
    path: &str,
    number: u64,
    field: Field,
    said: &str,
) -> Result<String, AllocError>
    ensures { IfOk result (λ text. string_bytes text ≡ at_member path.now number field ++ said.now) }
{
    let mut text = at_line(alloc, path, number)?;
    push_words(&mut text, ": member \"")?;
    push_words(&mut text, field.name())?;
    push_words(&mut text, "\"")?;
    push_words(&mut text, said)?;
    Ok(text)
}

/// What a wrong value isn't: no text, where one must stand, or not as its rule asks.
fn value_complaint(field: Field, fault: FieldFault) -> &'static str
    ensures { result.now ≡ value_complaint field fault }
{
    match fault {
        FieldFault::WrongKind if is_text(field) => " is no text in quotation marks",
        FieldFault::WrongKind | FieldFault::OutOfRange | FieldFault::Code(_) => {
            member_complaint(field)
        }
    }
}

/// Whether a member of a checkpoint's line is a text.
fn is_text(field: Field) -> bool
    ensures { result ≡ is_text field }
{
    matches!(
        field,
        Field::TypeName
            | Field::Wagon
            | Field::Class
            | Field::Status
            | Field::Place
            | Field::Ready
            | Field::Last
            | Field::Promise
            | Field::Order
            | Field::Latest
    )
}

/// What the value of a member isn't. The lines of a checkpoint have no other members.
fn member_complaint(field: Field) -> &'static str
    ensures { result.now ≡ member_complaint field }
{
    match field {
        Field::TypeName => " is none of checkpoint, wagon, order and end",
        Field::Format => " isn't 1, the only format that there is",
        Field::Network => " is no whole number from 1 to 8",
        Field::Wagon => complaint(RosterField::Wagon),
        Field::Class => complaint(RosterField::Class),
        Field::Load => complaint(RosterField::Load),
        Field::Status => complaint(RosterField::Status),
        Field::Place => complaint(RosterField::Place),
        Field::Ready | Field::Last | Field::Latest => complaint(RosterField::Moment),
        Field::Held => " is neither true nor false",
        Field::Promise | Field::Order => {
            " is no order's name: 1 to 16 characters A-Z, 0-9 and hyphen"
        }
        Field::Classes => " is no list of 1 to 8 classes, each of 1 to 12 letters A-Z and a-z",
        Field::Penalty => " is no whole number of km from 0 to 1,000,000,000",
        Field::Wagons => " is no whole number from 1 to 20",
        Field::Promised | Field::Filled => {
            " is no list of wagon numbers, each of twelve digits with its check digit"
        }
        Field::Lines => " is no whole number from 0 to 1,000,000",
        _ => " isn't as wagons save prints it",
    }
}
