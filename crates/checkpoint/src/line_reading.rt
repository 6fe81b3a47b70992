//! Lines of a checkpoint, read field by field.
ghost use Rattle.std.specs.Prelude.{◌≡◌};
ghost use Rattle.serde_json.specs.View.{view};
ghost use Rattle.line_fields.specs.Fields.{Gives};
ghost use Rattle.checkpoint.specs.LineReading as meaning;

use crate::limits::{LINE_FORMAT, MAX_LINES};
use crate::line::{CheckpointLine, OrderLine};
use line_fields::{
    Field, FieldFault, LineFault, MAX_REVISION, boolean_at, code_at, codes_at, count_at, number_at,
    object_of, optional_code_at, order_at, text_at,
};
use move_messages::MAX_LOAD;
use rail_codes::Moment;
use serde_json::Value;
use std::alloc::Global;
use wagons_and_orders::{Status, WagonRow};

/// The line of a checkpoint that some bytes are.
///
/// The bytes are no JSON value (21), or no object (22); the `type` is missing (24), no text (25), or none of those known
/// (23); else the fields of its type are tried in their order, and the first that is missing (24) or bad (25) is the
/// answer. `OutOfMemory` (1) may be the answer in place of any other.
#[tactic(auto, unfolding(crate::specs::LineReading::checkpoint_line_of))]
pub fn read_line(alloc: Global, bytes: &[u8]) -> Result<CheckpointLine, LineFault>
    ensures { Gives (λ line. line) result (meaning.checkpoint_line_of bytes.now) }
{
    let object = object_of(alloc, bytes)?;
    let name = text_at(&object, Field::TypeName)?;
    line_at(alloc, name, &object)
}

/// A line of the type of this name.
#[tactic(auto, unfolding(crate::specs::LineReading::line_of_type))]
fn line_at(alloc: Global, name: &str, object: &Value) -> Result<CheckpointLine, LineFault>
    ensures { Gives (λ line. line) result (meaning.line_of_type name.now (view object.now)) }
{
    if name == "checkpoint" {
        Ok(CheckpointLine::Head(head_at(object)?))
    } else if name == "wagon" {
        Ok(CheckpointLine::Wagon(wagon_at(object)?))
    } else if name == "order" {
        Ok(CheckpointLine::Order(order_line_at(alloc, object)?))
    } else if name == "end" {
        Ok(CheckpointLine::End(end_at(object)?))
    } else {
        Err(LineFault::UnknownType)
    }
}

/// The number of the network in force, behind that of the format.
#[tactic(auto, unfolding(crate::specs::LineReading::head_of))]
fn head_at(object: &Value) -> Result<u32, LineFault>
    ensures { result ≡ meaning.head_of (view object.now) }
{
    let _format = number_at(object, Field::Format, LINE_FORMAT, LINE_FORMAT)?;
    count_at(object, Field::Network, 1, MAX_REVISION)
}

/// A wagon.
#[tactic(auto, unfolding(crate::specs::LineReading::wagon_row_of))]
fn wagon_at(object: &Value) -> Result<WagonRow, LineFault>
    ensures { result ≡ meaning.wagon_row_of (view object.now) }
{
    let number = code_at(object, Field::Wagon)?;
    let class = code_at(object, Field::Class)?;
    let load_limit = count_at(object, Field::Load, 0, MAX_LOAD)?;
    let word = text_at(object, Field::Status)?;
    let place = code_at(object, Field::Place)?;
    let ready = ready_at(object, word)?;
    let last = code_at(object, Field::Last)?;
    let held = boolean_at(object, Field::Held)?;
    let promise = optional_code_at(object, Field::Promise)?;
    let status = known_status(Status::of_word(word.as_bytes(), place, ready.unwrap_or(last)))?;
    Ok(WagonRow {
        number,
        class,
        load_limit,
        status,
        held,
        last,
        promise,
    })
}

/// Since when a wagon with a status of this word has been ready, where it is empty.
#[tactic(auto, unfolding(crate::specs::LineReading::ready_of))]
fn ready_at(object: &Value, word: &str) -> Result<Option<Moment>, LineFault>
    ensures { result ≡ meaning.ready_of word.now (view object.now) }
{
    if word == "empty" {
        Ok(Some(code_at(object, Field::Ready)?))
    } else {
        Ok(None)
    }
}

/// A status that is known; another word is `OutOfRange` (20).
fn known_status(status: Option<Status>) -> Result<Status, LineFault>
    ensures { result ≡ meaning.known_status status }
{
    status.ok_or(LineFault::BadField(Field::Status, FieldFault::OutOfRange))
}

/// An order with its wagons.
#[tactic(auto, unfolding(crate::specs::LineReading::order_line_of))]
fn order_line_at(alloc: Global, object: &Value) -> Result<OrderLine, LineFault>
    ensures { Gives (λ line. line) result (meaning.order_line_of (view object.now)) }
{
    let text = order_at(object)?;
    let promised = codes_at(alloc, object, Field::Promised)?;
    let filled = codes_at(alloc, object, Field::Filled)?;
    Ok(OrderLine::new(text, promised, filled))
}

/// How many other lines there are.
#[tactic(auto, unfolding(crate::specs::LineReading::end_of))]
fn end_at(object: &Value) -> Result<u64, LineFault>
    ensures { result ≡ meaning.end_of (view object.now) }
{
    number_at(object, Field::Lines, 0, MAX_LINES)
}
