//! The loop over the lines of an input, and why it may stop early.
ghost use Rattle.std.specs.Prelude.{◌≡◌, false, IfOk, OnOk, OnErr};
ghost use Rattle.std.specs.Io.KnownBytes.{Appends};
ghost use Rattle.line_engine.specs.Lines.{is_blank as is_blank_line};
ghost use Rattle.line_engine.specs.Replies.{Numbered};
ghost use Rattle.line_engine.specs.Runs.{RunsOver};
ghost use Rattle.line_engine.specs.inner.Serving.{IsServed, IsServedInPart, WritesPart};

use crate::device::{DeviceFailed, Sink, Source};
use crate::handler::{Handler, NumberedReplies, Responder};
use crate::line_buffer::LineBuffer;
use crate::line_limit::LineLimit;
use crate::reply_text::ReplyText;
use crate::window::{LineEnd, LineStop, Window};
use std::alloc::{AllocError, Global};
use thiserror::Error;

/// The most lines of an input.
pub const MAX_INPUT_LINES: u64 = 1_000_000;
/// The most inputs that are read side by side.
pub const MAX_FILES: usize = 16;

// No clause names it, since who feeds a book tests the number of files by it.
const _: () = prove!(MAX_FILES == 16);

/// How many lines a run has read, blank ones too, how many of its replies are refusals, and whether the last line has no
/// line feed.
#[derive(Clone, Copy, PartialEq, Eq)]
pub struct RunCount {
    pub lines: u64,
    pub refused: u64,
    pub unended: bool,
}

/// The count before the first line.
const NO_LINES: RunCount = RunCount {
    lines: 0,
    refused: 0,
    unended: false,
};

/// Why a run stopped before the end of its input, with the number of the line, counted from 1.
#[derive(Clone, Copy, Debug, PartialEq, Eq, Error)]
pub enum RunFault {
    /// Memory for the lines was refused, before any of them was read (1).
    #[error("OutOfMemory")]
    OutOfMemory,
    /// A byte of line 1,000,001 was read (91).
    #[error("TooManyLines")]
    TooManyLines(u64),
    /// The line has more bytes than the run's limit (92).
    #[error("LineTooLong")]
    LineTooLong(u64),
    /// The reader failed before this line's end (93).
    #[error("ReadFailed")]
    ReadFailed(u64),
    /// The writer failed in this line's reply (94).
    #[error("WriteFailed")]
    WriteFailed(u64),
}

impl RunFault {
    ghost use Rattle.line_engine.specs.RunFault.{number_of, line_of, fault_at};

    /// The refusal's number.
    pub fn number(self) -> u32
        ensures { result ≡ number_of self }
    {
        match self {
            RunFault::OutOfMemory => 1,
            RunFault::TooManyLines(_) => 91,
            RunFault::LineTooLong(_) => 92,
            RunFault::ReadFailed(_) => 93,
            RunFault::WriteFailed(_) => 94,
        }
    }

    /// The number of the line at which the run stopped; none where no line was begun.
    pub fn line(self) -> Option<u64>
        ensures { result ≡ line_of self }
    {
        match self {
            RunFault::OutOfMemory => None,
            RunFault::TooManyLines(line)
            | RunFault::LineTooLong(line)
            | RunFault::ReadFailed(line)
            | RunFault::WriteFailed(line) => Some(line),
        }
    }

    fn at_line(stop: LineStop, number: u64) -> RunFault
        ensures { result ≡ fault_at stop number }
    {
        match stop {
            LineStop::TooLong => RunFault::LineTooLong(number),
            LineStop::ReadFailed => RunFault::ReadFailed(number),
        }
    }
}

impl From<AllocError> for RunFault {
    ghost use Rattle.std.specs.Prelude.{◌≡◌};
    ghost use Rattle.line_engine.specs.declared.run.RunFault.TheVariants.{OutOfMemory};

    ghost from_gives = { λ _ e. e ≡ OutOfMemory };

    fn from(_e: AllocError) -> RunFault {
        RunFault::OutOfMemory
    }
}

/// Whether a line is spaces, tabs and carriage returns alone.
fn is_blank(line: &[u8]) -> bool
    ensures { result ≡ is_blank_line line.now }
{
    line.iter().all(|c| matches!(*c, b' ' | b'\t' | b'\r'))
}

/// Writes all the bytes.
fn write_all<W: Sink>(writer: &mut W, bytes: &[u8]) -> Result<(), DeviceFailed>
    ensures ok { OnOk result (Appends (W.contents writer.old) (W.contents writer.new) bytes.now) }
    ensures err { OnErr result (WritesPart W.Sink writer.old writer.new bytes.now) }
    ensures failure { OnOk result (W.has_failed writer.new ≡ W.has_failed writer.old) }
{
    let mut rest = bytes;
    while !rest.is_empty() {
        let count = writer.write(rest)?;
        let (_, unwritten) = rest.split_at(count);
        rest = unwritten;
    }
    Ok(())
}

/// Answers one line, in one write, and tells whether it was refused. A blank line gets no reply.
fn serve<W: Sink, H: Responder>(
    alloc: Global,
    responder: &H,
    state: &mut H::State,
    writer: &mut W,
    number: u64,
    line: &[u8],
    more: bool,
    reply: &mut ReplyText,
) -> Result<bool, DeviceFailed>
    ensures ok { IfOk result (IsServed H.replies W.Sink number line.now (writer.old, state.old) (writer.new, state.new)) }
    ensures err { OnErr result (IsServedInPart H.replies W.Sink number line.now (writer.old, state.old) (writer.new, state.new)) }
    ensures failure { OnOk result (W.has_failed writer.new ≡ W.has_failed writer.old) }
{
    if is_blank(line) {
        return Ok(false);
    }
    let outcome = responder.respond(alloc, state, number, line, more, reply);
    write_all(writer, reply.as_slice())?;
    Ok(outcome.is_refusal())
}

/// Replies to all lines of a reader, each by one write to a writer.
///
/// A line ends with a line feed or, where it isn't empty, at the end of the input; lines are numbered from 1. Blank
/// lines are skipped. Memory for the lines is allocated first (1). After that the run stops only where a byte of
/// line 1,000,001 was read (91), a line has over `limit` bytes (92), or the reader (93) or the writer (94) failed in
/// this call; the replies to the lines before are then written.
pub fn run_replies<R: Source, W: Sink, H: Responder>(
    alloc: Global,
    limit: LineLimit,
    reader: &mut R,
    writer: &mut W,
    responder: &H,
    state: &mut H::State,
) -> Result<RunCount, RunFault>
    requires reader { R.has_failed reader.old ≡ false }
    requires writer { W.has_failed writer.old ≡ false }
    ensures { RunsOver H.replies limit R.Source W.Sink (reader.old, writer.old, state.old) (reader.new, writer.new, state.new) result }
{
    let mut window = Window::new(alloc)?;
    let mut line = LineBuffer::new(alloc, limit)?;
    let mut reply = ReplyText::new(alloc)?;
    let mut count = NO_LINES;
    'lines: loop {
        let number = count.lines + 1;
        match window.fill(reader) {
            Ok(true) => {}
            Ok(false) => return Ok(count),
            Err(stop) => return Err(RunFault::at_line(stop, number)),
        }
        if number > MAX_INPUT_LINES {
            return Err(RunFault::TooManyLines(number));
        }
        let end = match window.read_line(reader, &mut line) {
            Ok(end) => end,
            Err(stop) => return Err(RunFault::at_line(stop, number)),
        };
        let text = line.as_slice();
        let more = window.has_line();
        let served = serve(
            alloc, responder, state, writer, number, text, more, &mut reply,
        );
        let refused = match served {
            Ok(refused) => refused,
            Err(_) => return Err(RunFault::WriteFailed(number)),
        };
        count.lines = number;
        count.refused += u64::from(refused);
        match end {
            LineEnd::Feed => {}
            LineEnd::Input => {
                count.unended = true;
                return Ok(count);
            }
        }
    }
}

/// The same with a handler's replies, each behind its line's number and a space.
pub fn run_lines<R: Source, W: Sink, H: Handler>(
    alloc: Global,
    limit: LineLimit,
    reader: &mut R,
    writer: &mut W,
    handler: &H,
    state: &mut H::State,
) -> Result<RunCount, RunFault>
    requires reader { R.has_failed reader.old ≡ false }
    requires writer { W.has_failed writer.old ≡ false }
    ensures { RunsOver (Numbered H.answers H.runs_out) limit R.Source W.Sink (reader.old, writer.old, state.old) (reader.new, writer.new, state.new) result }
{
    run_replies(
        alloc,
        limit,
        reader,
        writer,
        &NumberedReplies { handler },
        state,
    )
}
