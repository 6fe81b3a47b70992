//! Why no checkpoint was read.
ghost use Rattle.checkpoint.specs.declared.read_fault.ReadFault.TheVariants.{Line, Run};
ghost use Rattle.line_engine.specs.declared.run.RunFault.TheVariants.{OutOfMemory};
ghost use Rattle.std.specs.Prelude.{◌≡◌};

use faults::CheckpointFault;
use line_engine::RunFault;
use line_fields::LineFault;
use std::alloc::{AllocError, AllocFailed};
use thiserror::Error;

/// Why no checkpoint was read. The message is the fault's name.
#[derive(Clone, Copy, Debug, Error)]
pub enum ReadFault {
    /// The lines weren't read to their end (91 to 93), or memory was out (1).
    #[error("{0}")]
    Run(RunFault),
    /// The lines are no checkpoint (51 to 53, 75, 79, 85 to 88).
    #[error("{0}")]
    Line(CheckpointFault),
    /// The line of this number can't be read as any line of a checkpoint (85), and this is its first fault.
    #[error("BadCheckpointLine")]
    Unread(u64, LineFault),
}

impl ReadFault {
    ghost use Rattle.checkpoint.specs.ReadFault.{read_fault_line, read_fault_number};

    /// The refusal's number.
    pub fn number(self) -> u32
        ensures { result ≡ read_fault_number self }
    {
        match self {
            ReadFault::Run(fault) => fault.number(),
            ReadFault::Line(fault) => fault.number(),
            ReadFault::Unread(line, _) => CheckpointFault::BadCheckpointLine(line).number(),
        }
    }

    /// The number of the line, counted from 1; none where memory was out.
    pub fn line(self) -> Option<u64>
        ensures { result ≡ read_fault_line self }
    {
        match self {
            ReadFault::Run(fault) => fault.line(),
            ReadFault::Line(fault) => Some(fault.line()),
            ReadFault::Unread(line, _) => Some(line),
        }
    }
}

impl From<CheckpointFault> for ReadFault {
    ghost from_gives = { λ fault read_fault. read_fault ≡ Line fault };

    fn from(fault: CheckpointFault) -> ReadFault {
        ReadFault::Line(fault)
    }
}

impl From<RunFault> for ReadFault {
    ghost from_gives = { λ fault read_fault. read_fault ≡ Run fault };

    fn from(fault: RunFault) -> ReadFault {
        ReadFault::Run(fault)
    }
}

impl From<AllocError> for ReadFault {
    ghost from_gives = { λ _ fault. fault ≡ Run OutOfMemory };

    fn from(_error: AllocError) -> ReadFault {
        ReadFault::Run(RunFault::OutOfMemory)
    }
}

impl<T: Drop> From<AllocFailed<T>> for ReadFault {
    ghost from_gives = { λ _ fault. fault ≡ Run OutOfMemory };

    fn from(_error: AllocFailed<T>) -> ReadFault {
        ReadFault::Run(RunFault::OutOfMemory)
    }
}
