//! Why a line is refused.

ghost use Rattle.std.specs.Prelude.{◌≡◌};
ghost use Rattle.line_fields.specs.declared.fault.LineFault.TheVariants.{OutOfMemory};

use crate::field::Field;
use rail_codes::CodeFault;
use std::alloc::{AllocError, AllocFailed};
use thiserror::Error;

/// What is wrong with the value of a field. The message is the fault's name.
#[derive(Clone, Copy, Debug, Error)]
pub enum FieldFault {
    /// A text that is no code of its kind, 11 to 18.
    #[error("{0}")]
    Code(CodeFault),
    /// 19: null, or a value of another JSON kind.
    #[error("WrongKind")]
    WrongKind,
    /// 20: a number outside its limits, or a list of another count of items.
    #[error("OutOfRange")]
    OutOfRange,
}

/// Why a line is refused: the first fault that is met. The message is the fault's name.
#[derive(Clone, Copy, Debug, Error)]
pub enum LineFault {
    /// 1: out of memory.
    #[error("OutOfMemory")]
    OutOfMemory,
    /// 21: the bytes are no JSON value.
    #[error("NotJson")]
    NotJson,
    /// 22: the value is no object.
    #[error("NotAnObject")]
    NotAnObject,
    /// 23: the type is none of those known.
    #[error("UnknownType")]
    UnknownType,
    /// 24: the member is not there.
    #[error("MissingField")]
    MissingField(Field),
    /// 25: the member is there, and its value is refused.
    #[error("BadField")]
    BadField(Field, FieldFault),
}

impl FieldFault {
    ghost use Rattle.line_fields.specs.Faults.{field_fault_number};

    /// The number that stands for the fault in a reply, from 11 to 20.
    pub fn number(self) -> u32
        ensures { result ≡ field_fault_number self }
    {
        match self {
            FieldFault::Code(fault) => fault.number(),
            FieldFault::WrongKind => 19,
            FieldFault::OutOfRange => 20,
        }
    }
}

impl LineFault {
    ghost use Rattle.line_fields.specs.Faults.{line_fault_number};

    /// The number that stands for the fault in a reply.
    pub fn number(self) -> u32
        ensures { result ≡ line_fault_number self }
    {
        match self {
            LineFault::OutOfMemory => 1,
            LineFault::NotJson => 21,
            LineFault::NotAnObject => 22,
            LineFault::UnknownType => 23,
            LineFault::MissingField(_) => 24,
            LineFault::BadField(_, _) => 25,
        }
    }
}

impl From<AllocError> for LineFault {
    ghost from_gives = { λ _ e. e ≡ OutOfMemory };

    fn from(_refused: AllocError) -> LineFault {
        LineFault::OutOfMemory
    }
}

impl<T: Drop> From<AllocFailed<T>> for LineFault {
    ghost from_gives = { λ _ e. e ≡ OutOfMemory };

    fn from(_refused: AllocFailed<T>) -> LineFault {
        LineFault::OutOfMemory
    }
}
