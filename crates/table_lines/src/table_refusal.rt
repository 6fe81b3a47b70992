//! Why a table line is refused.
ghost use Rattle.std.specs.Prelude.{◌≡◌};
ghost use Rattle.table_lines.specs.TableRefusals.{refusal_of_check, refusal_of_line, refusal_of_table};
ghost use Rattle.table_lines.specs.declared.table_refusal.TableRefusal.TheVariants.{OutOfMemory};

use cost_table::TableFault;
use line_fields::LineFault;
use price_checker::NamedFault;
use std::alloc::{AllocError, AllocFailed};
use thiserror::Error;

/// Why a table line is refused. The message is the refusal's name.
#[derive(Clone, Copy, Debug, Error)]
pub enum TableRefusal {
    /// Out of memory (1).
    #[error("OutOfMemory")]
    OutOfMemory,
    /// The line is no table line (21, 22, 24 and 25).
    #[error("{0}")]
    Line(LineFault),
    /// Its names, rows, penalties and lacks are no table (51 to 54).
    #[error("{0}")]
    Table(TableFault),
    /// Its pairs and prices are no certificate of its table (61 to 66, and 84).
    #[error("{0}")]
    Check(NamedFault),
    /// With its plan it has more bytes than a line may have (92).
    #[error("LineTooLong")]
    PlanTooLong,
}

impl TableRefusal {
    ghost use Rattle.table_lines.specs.TableRefusals.{table_refusal_number};

    /// The number that stands for the refusal in a reply.
    pub fn number(self) -> u32
        ensures { result ≡ table_refusal_number self }
    {
        match self {
            TableRefusal::OutOfMemory => 1,
            TableRefusal::Line(fault) => fault.number(),
            TableRefusal::Table(fault) => fault.number(),
            TableRefusal::Check(fault) => fault.number(),
            TableRefusal::PlanTooLong => 92,
        }
    }
}

impl From<LineFault> for TableRefusal {
    ghost from_gives = { λ fault refusal. refusal ≡ refusal_of_line fault };

    fn from(fault: LineFault) -> TableRefusal {
        match fault {
            LineFault::OutOfMemory => TableRefusal::OutOfMemory,
            _ => TableRefusal::Line(fault),
        }
    }
}

impl From<TableFault> for TableRefusal {
    ghost from_gives = { λ fault refusal. refusal ≡ refusal_of_table fault };

    fn from(fault: TableFault) -> TableRefusal {
        match fault {
            TableFault::OutOfMemory => TableRefusal::OutOfMemory,
            _ => TableRefusal::Table(fault),
        }
    }
}

impl From<NamedFault> for TableRefusal {
    ghost from_gives = { λ fault refusal. refusal ≡ refusal_of_check fault };

    fn from(fault: NamedFault) -> TableRefusal {
        match fault {
            NamedFault::OutOfMemory => TableRefusal::OutOfMemory,
            _ => TableRefusal::Check(fault),
        }
    }
}

impl From<AllocError> for TableRefusal {
    ghost from_gives = { λ _ refusal. refusal ≡ OutOfMemory };

    fn from(_error: AllocError) -> TableRefusal {
        TableRefusal::OutOfMemory
    }
}

impl<T: Drop> From<AllocFailed<T>> for TableRefusal {
    ghost from_gives = { λ _ refusal. refusal ≡ OutOfMemory };

    fn from(_error: AllocFailed<T>) -> TableRefusal {
        TableRefusal::OutOfMemory
    }
}
