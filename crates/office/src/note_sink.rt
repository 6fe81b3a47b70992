//! Where the notes of a run go.
ghost use Rattle.std.specs.Prelude.{OnErr, OnOk};
ghost use Rattle.std.specs.Io.KnownBytes.{Appends};
ghost use Rattle.office.specs.NoteSinks.{IsWritten, WritesPart};

use line_engine::{DeviceFailed, Sink};

/// A sink of notes, and the line at whose notes it failed first. Nothing is written to it from then on.
#[derive(Drop)]
pub struct NoteSink<N> {
    pub sink: N,
    pub first_failure: Option<u64>,
}

impl<N: Sink> NoteSink<N> {
    /// Writes the notes of a line. A line without one writes nothing.
    pub(crate) fn write(&mut self, line: u64, notes: &[u8])
        ensures { IsWritten N.Sink line notes.now self.old self.new }
    {
        if self.first_failure.is_some() || notes.is_empty() {
            return;
        }
        match write_all(&mut self.sink, notes) {
            Ok(()) => {}
            Err(_) => self.first_failure = Some(line),
        }
    }
}

/// Writes all the bytes.
fn write_all<N: Sink>(sink: &mut N, bytes: &[u8]) -> Result<(), DeviceFailed>
    ensures ok { OnOk result (Appends (N.contents sink.old) (N.contents sink.new) bytes.now) }
    ensures err { OnErr result (WritesPart N.Sink sink.old sink.new bytes.now) }
{
    let mut rest = bytes;
    while !rest.is_empty() {
        let count = sink.write(rest)?;
        let (_, unwritten) = rest.split_at(count);
        rest = unwritten;
    }
    Ok(())
}
