//! Reading a header and the records below it.
ghost use Rattle.std.specs.Prelude.{◌≡◌, ◌+◌, IfErr, IfOk, IsErrOf, IsTrue, true, OnOk, if◌then◌else◌, option_map};
ghost use Rattle.csv.specs.Reading.{ReadRecord, error_kind, has_failed, is_io, reader_state, source_of, stops_reader, strip_bom};
ghost use Rattle.csv.specs.Records.{fields_of};
ghost use Rattle.csv.specs.declared.parser.State.TheVariants as st;
ghost use Rattle.csv_records.specs.Requests.{AreLeft, AsksAtMost, IsRequest, IsSetUp};
ghost use Rattle.csv_records.specs.Stopping.{IsReadOff};

use crate::fault_at::{FaultAt, RecordAt};
use crate::{FromRecords, RecordFault};
use csv::{ByteRecord, Error, Reader, ReaderBuilder};
use std::alloc::Global;
use std::io::Read;

/// A reader whose records may have any number of fields, and whose first record is the header.
pub fn open_records<R: Read>(alloc: Global, reader: R) -> Reader<R>
    ensures set_up { IsSetUp result }
    ensures source { source_of R.remaining result ≡ option_map strip_bom (R.remaining reader) }
    ensures state { reader_state result ≡ st.StartRecord }
{
    ReaderBuilder::new()
        .has_headers(false)
        // The lengths of records are judged by those who read them.
        .flexible(true)
        .from_reader(alloc, reader)
}

/// Collects a value from a header and the records below it, which are numbered from 2; or says why the file is refused,
/// and at which record. At most two records more are asked for than a file may have below its header, so it returns
/// wherever `csv` answers each request for a record.
pub fn read_records<R: Read, T: FromRecords>(
    alloc: Global,
    reader: &mut Reader<R>,
) -> Result<T, FaultAt<T::Fault>>
    requires { IsSetUp reader.old }
    ensures meaning { IsReadOff T.Fault.from_gives T.made_of T.refuses (AreLeft R.remaining reader.old) (λ stop. stop.fault) (λ stop. stop.at) result }
    ensures stopped { IfErr result (λ stop. T.Fault.from_gives RecordFault.ReadFailed stop.fault → has_failed reader.new ≡ true) }
    ensures asked { AsksAtMost R.remaining reader.old (T.MOST_RECORDS + 2) reader.new }
{
    let mut at = RecordAt::first(alloc);
    match collect(alloc, reader, &mut at) {
        Ok(made) => Ok(made),
        Err(fault) => Err(FaultAt { fault, at }),
    }
}

/// The same, with the record at which it stopped in `at`, which is record 1 before.
fn collect<R: Read, T: FromRecords>(
    alloc: Global,
    reader: &mut Reader<R>,
    at: &mut RecordAt,
) -> Result<T, T::Fault>
    requires reader { IsSetUp reader.old }
    requires first { at.old.number ≡ 1 }
    ensures meaning { IsReadOff T.Fault.from_gives T.made_of T.refuses (AreLeft R.remaining reader.old) (λ fault. fault) (λ _. at.new) result }
    ensures stopped { IfErr result (λ fault. T.Fault.from_gives RecordFault.ReadFailed fault → has_failed reader.new ≡ true) }
    ensures asked { AsksAtMost R.remaining reader.old (T.MOST_RECORDS + 2) reader.new }
{
    if !next_record(reader, &mut at.fields)? {
        at.fields.clear();
        return Err(T::no_header());
    }
    let mut made = T::of_header(alloc, &at.fields)?;
    for number in 2..T::MOST_RECORDS + 2 {
        at.number = number;
        if !next_record(reader, &mut at.fields)? {
            return Ok(made);
        }
        made = made.with_record(number, &at.fields)?;
    }
    at.number = T::MOST_RECORDS + 2;
    if next_record(reader, &mut at.fields)? {
        return Err(T::too_many());
    }
    Ok(made)
}

/// Reads the next record, and answers whether there was one.
fn next_record<R: Read>(
    reader: &mut Reader<R>,
    fields: &mut ByteRecord,
) -> Result<bool, RecordFault>
    requires { IsSetUp reader.old }
    ensures reads { IfOk result (λ found. ReadRecord R.remaining reader.old reader.new found (fields_of fields.new)) }
    ensures still { OnOk result (IsSetUp reader.new) }
    ensures stopped { IsErrOf result RecordFault.ReadFailed → has_failed reader.new ≡ true }
    ensures asked { IsRequest R.remaining reader.old reader.new }
{
    match reader.read_byte_record(fields) {
        Ok(found) => Ok(found),
        Err(error) => Err(fault_of(&error)),
    }
}

/// Why the reader of records stopped: its reader failed, or it was out of memory.
fn fault_of(error: &Error) -> RecordFault
    requires { IsTrue (stops_reader (error_kind error.now)) }
    ensures { result ≡ (if is_io (error_kind error.now) then RecordFault.ReadFailed else RecordFault.OutOfMemory) }
{
    if error.is_io_error() {
        RecordFault::ReadFailed
    } else {
        RecordFault::OutOfMemory
    }
}
