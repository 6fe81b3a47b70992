//! Where the reading of a file stopped.
ghost use Rattle.std.specs.Prelude.{◌≡◌, []};
ghost use Rattle.csv.specs.Records.{fields_of};

use csv::ByteRecord;
use std::alloc::Global;

/// A record of a file.
#[derive(Drop)]
pub struct RecordAt {
    /// Its number, the header being record 1.
    pub number: u32,
    /// Its fields; none where the file has no record of this number.
    pub fields: ByteRecord,
}

impl RecordAt {
    /// Record 1, before it is read.
    pub(crate) fn first(alloc: Global) -> RecordAt
        ensures number { result.number ≡ 1 }
        ensures fields { fields_of result.fields ≡ [] }
    {
        RecordAt {
            number: 1,
            fields: ByteRecord::new(alloc),
        }
    }
}

/// Why a file is refused, and the record at which that was found.
#[derive(Drop)]
pub struct FaultAt<F> {
    pub fault: F,
    pub at: RecordAt,
}
