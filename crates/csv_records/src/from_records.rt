//! Values that are collected from the records of a file.
ghost use Rattle.std.specs.Prelude.{◌≡◌, ◌≤◌, ◌<◌, ◌+◌, ◌^◌, ◌∷◌, [], ℕ, IfErr, IfOk, List, length};
ghost use Rattle.csv.specs.Records.{fields_of};
ghost use Rattle.csv_records.specs.Fields.{Record};
ghost use Rattle.csv_records.specs.Refusing.{MakesNext, RefusesNext, RefusesPast};
ghost use Rattle.faults.specs.declared.faults.RecordFault.{RecordFault};
ghost use Rattle.faults.specs.declared.faults.RecordFault.TheVariants.{OutOfMemory, ReadFailed};

use crate::RecordFault;
use csv::ByteRecord;
use std::alloc::Global;

/// A value that is collected from a file's records: from the header first, and then from each record below it.
pub trait FromRecords: Drop {
    /// Why a file is refused.
    type Fault: From<RecordFault>;

    /// The most records that a file may have below its header.
    const MOST_RECORDS: u32;

    ghost MOST_RECORDS: { ℕ };

    // the value is that of these records, the header among them
    ghost made_of: { Self → List Record → Type 0 };

    // a file of these records is refused with this fault
    ghost refuses: { Self.Fault → List Record → Type 0 };

    /// The value of the header alone. Refused where the record is no header.
    fn of_header(alloc: Global, header: &ByteRecord) -> Result<Self, Self::Fault>
        ensures made { IfOk result (λ made. made_of made (fields_of header.now ∷ [])) }
        ensures refused { IfErr result (λ fault. (rest : List Record) → refuses fault (fields_of header.now ∷ rest)) }
        ensures no_reader { IfErr result (λ fault. Self.Fault.from_gives ReadFailed fault → ⊥) };

    /// The value with one more record. `number` is the record's, the header being record 1.
    fn with_record(self, number: u32, fields: &ByteRecord) -> Result<Self, Self::Fault>
        requires { (done : List Record) × made_of self done × (length done + 1 ≡ number) × (number ≤ MOST_RECORDS + 1) }
        ensures made { IfOk result (MakesNext made_of self number (fields_of fields.now)) }
        ensures refused { IfErr result (RefusesNext made_of refuses self number (fields_of fields.now)) }
        ensures no_reader { IfErr result (λ fault. Self.Fault.from_gives ReadFailed fault → ⊥) };

    /// Why a file with no record is refused.
    fn no_header() -> Self::Fault
        ensures refused { refuses result [] }
        ensures no_reader { Self.Fault.from_gives ReadFailed result → ⊥ };

    /// Why a file with a record past the most is refused.
    fn too_many() -> Self::Fault
        ensures refused { RefusesPast made_of refuses MOST_RECORDS result }
        ensures no_reader { Self.Fault.from_gives ReadFailed result → ⊥ };

    // records are counted in 32 bits
    ghost counted: { MOST_RECORDS + 2 < 2 ^ 32 };

    // a failure, of memory or of the reader, says nothing of the records
    ghost failures: { (failure : RecordFault) (fault : Self.Fault) (records : List Record) → Self.Fault.from_gives failure fault → refuses fault records };

    // no fault stands for both failures
    ghost told_apart: { (fault : Self.Fault) → Self.Fault.from_gives OutOfMemory fault → Self.Fault.from_gives ReadFailed fault → ⊥ };
}
