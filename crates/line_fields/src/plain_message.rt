//! Messages as most senders write them: without spaces, and with the fields in the order of the manual. They are read
//! in one pass and without memory.

ghost use Rattle.std.specs.Prelude.{◌≡◌, Ok, IfSome, codes, true};
ghost use Rattle.line_fields.specs.Line.{object_of};
ghost use Rattle.line_fields.specs.Commands.{command_of};
ghost use Rattle.line_fields.specs.declared.command.Command.TheVariants as command;
ghost use Rattle.move_messages.specs.declared.event.Event.TheVariants as event;
ghost use Rattle.line_fields.specs.inner.PlainMessage.{IsKindOf, IsReadAs, IsTypeOf, plain_object};

use crate::line_type::LineType;
use crate::{number_after, quoted_after};
use move_messages::{Message, MessageKind};
use rail_codes::{Company, MessageId, Moment, Place, WagonNumber};

/// The fields of a message, as they stand in its line.
#[derive(Clone, Copy)]
pub(crate) struct PlainMessage<'a> {
    type_name: &'a str,
    company: &'a str,
    number: u32,
    wagon: &'a str,
    place: &'a str,
    moment: &'a str,
}

/// The message that a line is, where it has no spaces and its fields stand in the order `type`, `company`, `number`,
/// `wagon`, `place` and `moment`. `None` for any other line, and where a field is refused.
pub(crate) fn plain_message(line: &[u8]) -> Option<Message>
    ensures { IfSome result (λ message. command_of line.now ≡ Ok (command.Event (event.Message message))) }
{
    let fields = plain_fields(line)?;
    message_of(&fields)
}

/// The fields of such a line.
fn plain_fields(line: &[u8]) -> Option<PlainMessage<'_>>
    ensures { IfSome result (λ fields. object_of line.now ≡ Ok (plain_object fields)) }
{
    let Ok(text) = simdutf8::basic::from_utf8(line) else {
        return None;
    };
    let (type_name, rest) = quoted_after(text, "{\"type\":")?;
    let (company, rest) = quoted_after(rest, ",\"company\":")?;
    let (number, rest) = number_after(rest, ",\"number\":")?;
    let (wagon, rest) = quoted_after(rest, "\"wagon\":")?;
    let (place, rest) = quoted_after(rest, ",\"place\":")?;
    let (moment, rest) = quoted_after(rest, ",\"moment\":")?;
    let Ok(number) = u32::try_from(number) else {
        return None;
    };
    if !is_closing_brace(rest) {
        return None;
    }
    Some(PlainMessage {
        type_name,
        company,
        number,
        wagon,
        place,
        moment,
    })
}

/// Whether the brace that closes an object is all that is left.
fn is_closing_brace(rest: &str) -> bool
    ensures { result ≡ true → rest.now ≡ codes "}" }
{
    rest == "}"
}

/// The message of these fields, `None` where one of them is refused.
fn message_of(fields: &PlainMessage<'_>) -> Option<Message>
    ensures { IfSome result (IsReadAs fields.now) }
{
    let kind = kind_named(fields.type_name)?;
    let Ok(company) = Company::read(fields.company) else {
        return None;
    };
    let Ok(wagon) = WagonNumber::read(fields.wagon) else {
        return None;
    };
    let Ok(place) = Place::read(fields.place) else {
        return None;
    };
    let Ok(moment) = Moment::read(fields.moment) else {
        return None;
    };
    Some(Message {
        id: MessageId {
            company,
            number: fields.number,
        },
        kind,
        wagon,
        place,
        moment,
    })
}

/// What has happened by a message of the type of this name, `None` where a message of it has a field more or it is no
/// message.
fn kind_named(name: &str) -> Option<MessageKind>
    ensures { IfSome result (IsTypeOf name.now) }
{
    let Ok(line_type) = LineType::named(name) else {
        return None;
    };
    kind_of(line_type)
}

/// What has happened by a message of this type, `None` where a message of it has a field more or it is no message.
#[tactic(auto, unfolding(crate::specs::Commands::command_of_type))]
fn kind_of(line_type: LineType) -> Option<MessageKind>
    ensures { IfSome result (IsKindOf line_type) }
{
    match line_type {
        LineType::Release => Some(MessageKind::Release),
        LineType::Departure => Some(MessageKind::Departure),
        LineType::YardArrival => Some(MessageKind::YardArrival),
        LineType::YardDeparture => Some(MessageKind::YardDeparture),
        LineType::Arrival => Some(MessageKind::Arrival),
        LineType::Delivery => Some(MessageKind::Delivery),
        LineType::Exception
        | LineType::Order
        | LineType::Withdraw
        | LineType::Begin
        | LineType::Plan
        | LineType::Commit
        | LineType::Sheet
        | LineType::Network => None,
    }
}
