//! Why a file is no roster, with more than a reply says.
ghost use Rattle.std.specs.Prelude.{◌≡◌};
ghost use Rattle.faults.specs.ReadingFaults.{roster_fault_of};

use crate::RosterFault;
use csv_records::RecordFault;

/// Why a file is no roster.
#[derive(Clone, Copy)]
pub struct RosterRefusal {
    pub fault: RosterFault,
    /// Of a wagon that stands twice: the number of the record that names it first, the header being record 1.
    pub first: Option<u32>,
}

impl From<RecordFault> for RosterRefusal {
    ghost from_gives = { λ failure refusal. refusal.fault ≡ roster_fault_of failure };

    fn from(failure: RecordFault) -> RosterRefusal {
        RosterRefusal {
            fault: RosterFault::from(failure),
            first: None,
        }
    }
}
