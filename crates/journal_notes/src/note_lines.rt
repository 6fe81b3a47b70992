//! The notes of a line, written as lines of JSON. `Err` only when out of memory; some lines may be there then.
ghost use Rattle.std.specs.Prelude.{◌≡◌, ◌⊎◌, [], IfOk, IsOk, None, OnOk, Some, length, nat_lt};
ghost use Rattle.line_engine.specs.Outcome.{is_refusal};
ghost use Rattle.reply_texts.specs.Lines.{Adds, AreLines};
ghost use Rattle.journal_notes.specs.NoteLines.{IsNoteLine, memory_line};

use crate::line_text::note_line;
use crate::note::Note;
use line_engine::{Outcome, ReplyText};
use std::alloc::{AllocError, Global};

/// Puts the lines of the notes of a line in place of what stood there; where memory was refused for them, the line that says so.
pub fn write_note_lines(
    alloc: Global,
    reply: &mut ReplyText,
    file: Option<u32>,
    line: u64,
    notes: Result<Vec<Note>, AllocError>,
)
    ensures { (IsOk notes × IfOk notes (λ some. AreLines (IsNoteLine file line) some.items reply.new)) ⊎ (reply.new ≡ memory_line file line) }
{
    reply.clear();
    match write_notes(alloc, reply, file, line, notes) {
        Ok(()) => {}
        Err(_) => write_memory_line(reply, file, line),
    }
}

/// Adds the lines of the notes of a line.
pub(crate) fn write_notes(
    alloc: Global,
    reply: &mut ReplyText,
    file: Option<u32>,
    line: u64,
    notes: Result<Vec<Note>, AllocError>,
) -> Result<(), AllocError>
    ensures lines { OnOk result (IfOk notes (λ some. Adds (AreLines (IsNoteLine file line) some.items) reply.old reply.new)) }
    ensures notes { OnOk result (IsOk notes) }
{
    let notes = notes?;
    push_lines(alloc, reply, file, line, &notes)
}

/// Adds a line for each note of this line of a file, or of the only file.
pub fn push_lines(
    alloc: Global,
    reply: &mut ReplyText,
    file: Option<u32>,
    line: u64,
    notes: &[Note],
) -> Result<(), AllocError>
    ensures { OnOk result (Adds (AreLines (IsNoteLine file line) notes.now) reply.old reply.new) }
{
    for note in notes {
        push_line(alloc, reply, file, line, note)?;
    }
    Ok(())
}

/// Adds the line of a note.
fn push_line(
    alloc: Global,
    reply: &mut ReplyText,
    file: Option<u32>,
    line: u64,
    note: &Note,
) -> Result<(), AllocError>
    ensures { OnOk result (Adds (IsNoteLine file line note.now) reply.old reply.new) }
{
    let object = note_line(alloc, file, line, note)?;
    reply.push_str(&object)?;
    reply.push_bytes(b"\n")
}

/// A line counts as refused where it has a note.
pub(crate) fn outcome_of(notes: &ReplyText) -> Outcome
    ensures { is_refusal result ≡ nat_lt 0 (length notes.now) }
{
    if notes.as_slice().is_empty() {
        Outcome::Answered
    } else {
        Outcome::Refused
    }
}

/// Puts the line of a line for whose notes memory was refused in place of what stood there. Takes no memory.
pub fn write_memory_line(reply: &mut ReplyText, file: Option<u32>, line: u64)
    ensures { reply.new ≡ memory_line file line }
{
    reply.clear();
    match file {
        None => push_memory_line(reply, line),
        Some(number) => push_memory_line_of_file(reply, number, line),
    }
}

/// Adds the line of memory that was refused.
#[tactic(auto, unfolding(json::specs::Print::escape_byte))]
fn push_memory_line(reply: &mut ReplyText, line: u64)
    requires { reply.old ≡ [] }
    ensures { reply.new ≡ memory_line None line }
{
    let _ = reply.push_bytes(b"{\"line\":");
    let _ = reply.push_number(u128::from(line));
    let _ = reply.push_bytes(b",\"note\":\"memory\"}\n");
}

/// Adds the line of memory that was refused, with the number of its file.
#[tactic(auto, unfolding(json::specs::Print::escape_byte))]
fn push_memory_line_of_file(reply: &mut ReplyText, file: u32, line: u64)
    requires { reply.old ≡ [] }
    ensures { reply.new ≡ memory_line (Some file) line }
{
    let _ = reply.push_bytes(b"{\"file\":");
    let _ = reply.push_number(u128::from(file));
    let _ = reply.push_bytes(b",\"line\":");
    let _ = reply.push_number(u128::from(line));
    let _ = reply.push_bytes(b",\"note\":\"memory\"}\n");
}
