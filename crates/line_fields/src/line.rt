//! A line as one JSON object.

ghost use Rattle.std.specs.Prelude.{◌≡◌, Some, IfOk, IsUtf8};
ghost use Rattle.serde_json.specs.Read.{read};
ghost use Rattle.serde_json.specs.View.{view};
ghost use Rattle.line_fields.specs.Fields.{Gives};
ghost use Rattle.line_fields.specs.Line as meaning;

use crate::fault::LineFault;
use serde_json::Value;
use std::alloc::Global;

/// The JSON object that a line is. Bytes that `serde_json` does not read as one value are refused
/// with `NotJson` (21), and a value that is no object with `NotAnObject` (22). `OutOfMemory` (1)
/// may be the answer in place of any other.
pub fn object_of(alloc: Global, bytes: &[u8]) -> Result<Value, LineFault>
    ensures meaning { Gives view result (meaning.object_of bytes.now) }
    ensures spelled { IfOk result
        (λ object. IsUtf8 bytes.now × (read bytes.now ≡ Some (view object))) }
{
    let value = match Value::from_slice(alloc, bytes) {
        Ok(value) => value,
        Err(fault) if fault.is_memory() => return Err(LineFault::OutOfMemory),
        Err(_) => return Err(LineFault::NotJson),
    };
    if !value.is_object() {
        return Err(LineFault::NotAnObject);
    }
    Ok(value)
}
