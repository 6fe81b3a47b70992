//! Command lines, read field by field.

ghost use Rattle.std.specs.Prelude.{◌≡◌};
ghost use Rattle.serde_json.specs.View.{view};
ghost use Rattle.line_fields.specs.Fields.{Gives};
ghost use Rattle.line_fields.specs.Commands as meaning;

use crate::class_reading::classes_at;
use crate::command::Command;
use crate::limits::{MAX_REVISION, MAX_VERSION};
use crate::line_type::LineType;
use crate::plain_message::plain_message;
use crate::{
    Field, LineFault, boolean_at, code_at, count_at, number_at, numbers_at, object_of,
    optional_count_at, pairs_at, text_at,
};
use move_messages::{
    CommitText, Event, MAX_LOAD, MAX_ORDER_WAGONS, MAX_PENALTY, Message, MessageKind, OrderText,
    Pairs, PriceList,
};
use rail_codes::MessageId;
use serde_json::Value;
use std::alloc::Global;

/// The command that a line gives.
///
/// The bytes are no JSON value (21), or no object (22); the `type` is missing (24), no text (25),
/// or none of those known (23); else the fields of its type are tried in their order, and the first
/// that is missing (24) or bad (25) is the answer. An order's `wagons` may be missing and is then 1.
/// `OutOfMemory` (1) may be the answer in place of any other.
#[tactic(auto, unfolding(crate::specs::Commands::command_of))]
pub fn read_line(alloc: Global, bytes: &[u8]) -> Result<Command, LineFault>
    ensures { Gives (λ command. command) result (meaning.command_of bytes.now) }
{
    if let Some(message) = plain_message(bytes) {
        return Ok(Command::Event(Event::Message(message)));
    }
    let object = object_of(alloc, bytes)?;
    let line_type = LineType::named(text_at(&object, Field::TypeName)?)?;
    command_at(alloc, line_type, &object)
}

/// The command of a line of this type.
#[tactic(auto, unfolding(crate::specs::Commands::command_of_type))]
fn command_at(alloc: Global, line_type: LineType, object: &Value) -> Result<Command, LineFault>
    ensures { Gives (λ command. command) result
        (meaning.command_of_type line_type (view object.now)) }
{
    let event = match line_type {
        LineType::Release => Event::Message(message_at(object, MessageKind::Release)?),
        LineType::Departure => Event::Message(message_at(object, MessageKind::Departure)?),
        LineType::YardArrival => Event::Message(message_at(object, MessageKind::YardArrival)?),
        LineType::YardDeparture => Event::Message(message_at(object, MessageKind::YardDeparture)?),
        LineType::Exception => Event::Message(exception_at(object)?),
        LineType::Arrival => Event::Message(message_at(object, MessageKind::Arrival)?),
        LineType::Delivery => Event::Message(message_at(object, MessageKind::Delivery)?),
        LineType::Order => Event::Place(order_at(object)?),
        LineType::Withdraw => Event::Withdraw(code_at(object, Field::Order)?),
        LineType::Commit => Event::Commit(commit_at(alloc, object)?),
        LineType::Network => Event::Revise(count_at(object, Field::Revision, 1, MAX_REVISION)?),
        LineType::Begin => return Ok(Command::Begin(code_at(object, Field::At)?)),
        LineType::Plan => return Ok(Command::Plan(code_at(object, Field::At)?)),
        LineType::Sheet => return Ok(Command::Sheet),
    };
    Ok(Command::Event(event))
}

/// A message of this kind.
#[tactic(auto, unfolding(crate::specs::Commands::message_of))]
fn message_at(object: &Value, kind: MessageKind) -> Result<Message, LineFault>
    ensures { result ≡ meaning.message_of kind (view object.now) }
{
    let company = code_at(object, Field::Company)?;
    let number = count_at(object, Field::Number, 0, u32::MAX)?;
    let wagon = code_at(object, Field::Wagon)?;
    let place = code_at(object, Field::Place)?;
    let moment = code_at(object, Field::Moment)?;
    Ok(Message {
        id: MessageId { company, number },
        kind,
        wagon,
        place,
        moment,
    })
}

/// An exception, which has a field more.
#[tactic(auto, unfolding(crate::specs::Commands::exception_of))]
fn exception_at(object: &Value) -> Result<Message, LineFault>
    ensures { result ≡ meaning.exception_of (view object.now) }
{
    let message = message_at(object, MessageKind::Exception(false))?;
    let hold = boolean_at(object, Field::Hold)?;
    Ok(Message {
        kind: MessageKind::Exception(hold),
        ..message
    })
}

/// An order, as a line of its type has it.
#[tactic(auto, unfolding(crate::specs::Commands::order_text_of))]
pub fn order_at(object: &Value) -> Result<OrderText, LineFault>
    ensures { result ≡ meaning.order_text_of (view object.now) }
{
    let id = code_at(object, Field::Order)?;
    let place = code_at(object, Field::Place)?;
    let classes = classes_at(object)?;
    let load = count_at(object, Field::Load, 0, MAX_LOAD)?;
    let latest = code_at(object, Field::Latest)?;
    let penalty = number_at(object, Field::Penalty, 0, MAX_PENALTY)?;
    let wagons = optional_count_at(object, Field::Wagons, 1, MAX_ORDER_WAGONS)?.unwrap_or(1);
    let order = OrderText::new(id, place, classes, load, latest, penalty, wagons);
    Ok(order.unwrap())
}

/// A commit.
#[tactic(auto, unfolding(crate::specs::Commands::commit_text_of))]
fn commit_at(alloc: Global, object: &Value) -> Result<CommitText, LineFault>
    ensures { Gives (λ commit. commit) result (meaning.commit_text_of (view object.now)) }
{
    let version = number_at(object, Field::Version, 0, MAX_VERSION)?;
    let at = code_at(object, Field::At)?;
    let pairs = pairs_at(alloc, object, Field::Pairs)?;
    let u = numbers_at(alloc, object, Field::WagonPrices, 0, u64::MAX)?;
    let v = numbers_at(alloc, object, Field::OrderPrices, 0, u64::MAX)?;
    Ok(CommitText {
        version,
        at,
        pairs: Pairs::from_vec(pairs),
        u: PriceList::from_vec(u),
        v: PriceList::from_vec(v),
    })
}
