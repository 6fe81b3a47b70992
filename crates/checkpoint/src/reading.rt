//! Reading a whole checkpoint.
ghost use Rattle.std.specs.Prelude.{◌≡◌, ◌≤◌, ◌+◌, Some, IfErr, IfOk, Ok, false};
ghost use Rattle.line_network.specs.NetworkCount.{max_networks};
ghost use Rattle.checkpoint.specs.OfficeOf.{closed};
ghost use Rattle.checkpoint.specs.Reads.{IsReadAs, IsRefused, bytes_read};
ghost use Rattle.checkpoint.specs.inner.IsParts.{IsParts};
ghost use Rattle.checkpoint.specs.inner.Runs.{AreAllRead, TakesLine};
ghost use Rattle.checkpoint.specs.inner.Steps.{IsFaultOf, TakesFrom};

use crate::parts::Parts;
use crate::read_fault::ReadFault;
use faults::CheckpointFault;
use fleet_rows::WagonRows;
use line_engine::{LineLimit, NoReplies, Outcome, ReplyText, Responder, Source, run_replies};
use operating_db::OfficeState;
use std::alloc::Global;

/// What the lines of a checkpoint say that were read so far, or the first fault.
#[derive(Drop)]
pub(crate) struct LinesSoFar {
    /// How many networks there are.
    pub(crate) networks: u32,
    pub(crate) parts: Result<Parts, ReadFault>,
}

/// Takes the lines of a checkpoint. It gives no replies.
#[derive(Clone, Copy)]
pub(crate) struct CheckpointLines;

impl Responder for CheckpointLines {
    type State = LinesSoFar;

    ghost replies = { TakesLine };

    fn respond(
        &self,
        alloc: Global,
        state: &mut LinesSoFar,
        number: u64,
        line: &[u8],
        _more: bool,
        reply: &mut ReplyText,
    ) -> Outcome {
        reply.clear();
        state.take(alloc, number, line);
        Outcome::Answered
    }
}

impl LinesSoFar {
    /// Takes a line, where no fault came before it.
    fn take(&mut self, alloc: Global, number: u64, line: &[u8])
        ensures networks { self.new.networks ≡ self.old.networks }
        ensures takes { TakesFrom self.old.networks number self.old.parts line.now self.new.parts }
    {
        let networks = self.networks;
        let taken = match &mut self.parts {
            Ok(parts) => parts.take(alloc, networks, number, line),
            Err(_) => return,
        };
        if let Err(fault) = taken {
            self.parts = Err(fault);
        }
    }
}

/// Reads a checkpoint to the reader's end: the state of its office, where there are so many networks, 1 to 8.
///
/// Lines are JSON objects, as `checkpoint_text` writes them; blank ones are skipped. Refused at the first line with a fault,
/// with its number: `Unread` (85) where it can't be read as any line of a checkpoint, with the line's first fault;
/// `BadCheckpointLine` (85) where it isn't what must stand there, `UnknownNetwork` (79), `DuplicateWagon` (51),
/// `TooLarge` (53), `DuplicateOrder` (52), `OrderFull` (87), `TooManyOpen` (75), `OneSidedPromise` (86) or `CheckpointCut` (88),
/// each where the definition of a line's taking says so. Before all others comes `Run` where the lines weren't read to their
/// end (91 to 93); `OutOfMemory` (1) may come in place of any answer.
pub fn read_checkpoint<R: Source>(
    alloc: Global,
    reader: &mut R,
    networks: u32,
) -> Result<OfficeState, ReadFault>
    requires reader { R.has_failed reader.old ≡ false }
    requires from_one { 1 ≤ networks }
    requires few { networks ≤ max_networks }
    ensures ok { IfOk result (IsReadAs (bytes_read R.remaining R.has_failed reader.old reader.new) networks) }
    ensures err { IfErr result (IsRefused (bytes_read R.remaining R.has_failed reader.old reader.new) networks) }
{
    match read_parts(alloc, reader, networks) {
        Ok((parts, lines)) => close(alloc, parts, networks, lines + 1),
        Err(fault) => Err(fault),
    }
}

/// What all lines of a reader say, and how many they are.
fn read_parts<R: Source>(
    alloc: Global,
    reader: &mut R,
    networks: u32,
) -> Result<(Parts, u64), ReadFault>
    requires { R.has_failed reader.old ≡ false }
    ensures ok { IfOk result (λ read. AreAllRead (bytes_read R.remaining R.has_failed reader.old reader.new) networks read.1 (Ok read.0)) }
    ensures err { IfErr result (IsRefused (bytes_read R.remaining R.has_failed reader.old reader.new) networks) }
{
    let mut state = LinesSoFar {
        networks,
        parts: Ok(Parts::new(alloc)),
    };
    let limit = LineLimit::standard();
    match run_replies(
        alloc,
        limit,
        reader,
        &mut NoReplies,
        &CheckpointLines,
        &mut state,
    ) {
        Ok(count) => match state.parts {
            Ok(parts) => Ok((parts, count.lines)),
            Err(fault) => Err(fault),
        },
        Err(fault) => Err(ReadFault::Run(fault)),
    }
}

/// The state of the office that the parts of a whole file say; else the file is cut off before this line.
fn close(alloc: Global, parts: Parts, networks: u32, number: u64) -> Result<OfficeState, ReadFault>
    requires parts { IsParts networks parts }
    requires few { networks ≤ max_networks }
    ensures done { IfOk result (λ state. (closed number parts parts.network parts.ended ≡ Ok state.office) × (state.networks ≡ networks)) }
    ensures refused { IfErr result (IsFaultOf (closed number parts parts.network parts.ended)) }
{
    let Parts {
        network,
        wagons,
        orders,
        ended,
    } = parts;
    match network {
        Some(network) if ended => {
            let wagons = WagonRows::from_rows(alloc, &wagons)?;
            Ok(OfficeState::from_rows(wagons, orders, network, networks))
        }
        _ => Err(ReadFault::Line(CheckpointFault::CheckpointCut(number))),
    }
}
