//! What is said of an input that wasn't read to its end.
ghost use Rattle.std.specs.Prelude.{◌≡◌, ◌++◌, IfOk, codes, decimal, string_bytes};
ghost use Rattle.fault_texts.specs.LineText.{line_text};
ghost use Rattle.fault_texts.specs.Where.{at_line};

use crate::words::{at_line, push_number, push_words, said_of_line};
use line_engine::RunFault;
use std::alloc::{AllocError, Global};

/// What is said of an input, by its name, whose lines have at most so many bytes and weren't all read and replied to: the
/// line, and the limit. `Err` only when out of memory.
pub fn line_text(
    alloc: Global,
    input: &str,
    most: u32,
    fault: &RunFault,
) -> Result<String, AllocError>
    ensures { IfOk result (λ text. string_bytes text ≡ line_text input.now most fault.now) }
{
    match fault {
        RunFault::OutOfMemory => String::from_str(alloc, "out of memory"),
        RunFault::TooManyLines(line) => said_of_line(
            alloc,
            input,
            *line,
            ": at most 1,000,000 lines may be given",
        ),
        RunFault::LineTooLong(line) => too_long_text(alloc, input, *line, most),
        RunFault::ReadFailed(line) => said_of_line(alloc, input, *line, ": it couldn't be read"),
        RunFault::WriteFailed(line) => said_of_line(
            alloc,
            input,
            *line,
            ": the reply to it couldn't be written",
        ),
    }
}

/// A line with more bytes than a line may have.
fn too_long_text(alloc: Global, input: &str, line: u64, most: u32) -> Result<String, AllocError>
    ensures { IfOk result (λ text. string_bytes text ≡ at_line input.now line ++ codes ": it has over " ++ decimal most ++ codes " bytes") }
{
    let mut text = at_line(alloc, input, line)?;
    push_words(&mut text, ": it has over ")?;
    push_number(&mut text, u64::from(most))?;
    push_words(&mut text, " bytes")?;
    Ok(text)
}
