//! Reading a network from CSV.
ghost use Rattle.std.specs.Prelude.{◌≡◌, ◌+◌, IfErr, true};
ghost use Rattle.csv.specs.Reading.{has_failed};
ghost use Rattle.csv_records.specs.Requests.{AreLeft, AsksAtMost, IsSetUp};
ghost use Rattle.line_network.specs.NetworkOf.{IsReadFrom};
ghost use Rattle.line_network.specs.Reading.{is_failure, max_line_records, network_of};
ghost use Rattle.line_network.specs.Stops.{IsReadTo};
ghost use Rattle.line_network.specs.inner.Reading.{IsReadOff};

use crate::limits::MAX_LINE_RECORDS;
use crate::line_record::{LineRecord, is_header};
use crate::{Network, NetworkFault};
use csv::{ByteRecord, Reader};
use csv_records::{FaultAt, FromRecords, open_records, read_records};
use std::alloc::Global;
use std::io::Read;

/// Reads a network from CSV, with the header `from,to,km,minutes,way`. `from` and `to` are places, `km` and
/// `minutes` whole numbers of 1 to 7 digits from 1 to 10,000, and `way` is `one` or `both`. A line from a place
/// to itself and several lines between two places are accepted.
///
/// Refused at the first record with a fault, in this order: `TooManyLines` (43) for a record past the 20,000th
/// below the header, `BadRow` (41) with its number for one that is not of this shape, the header being record 1,
/// `TooManyPlaces` (42) for one that names a place past the 2,000th. A file with no record is `BadRow(1)`.
/// `ReadFailed` (93) comes where the reader failed, and `OutOfMemory` (1) where the program was out of memory.
///
/// At most 20,002 records are asked for, so it returns wherever `csv` answers each request for a record.
pub fn read_lines<R: Read + Drop>(alloc: Global, reader: R) -> Result<Network, NetworkFault>
    ensures { IsReadFrom (R.remaining reader) result }
{
    match read_network(alloc, reader) {
        Ok(network) => Ok(network),
        Err(stop) => Err(stop.fault),
    }
}

/// Reads a network as `read_lines` does; a refusal comes with the record at which reading stopped. Where memory or the reader
/// failed, nothing is said of the record.
pub fn read_network<R: Read + Drop>(
    alloc: Global,
    reader: R,
) -> Result<Network, FaultAt<NetworkFault>>
    ensures { IsReadTo (R.remaining reader) result }
{
    let mut rows = open_records(alloc, reader);
    read_rows(alloc, &mut rows)
}

/// Reads the header and the records below it.
fn read_rows<R: Read>(alloc: Global, rows: &mut Reader<R>) -> Result<Network, FaultAt<NetworkFault>>
    requires { IsSetUp rows.old }
    ensures meaning { IsReadOff (AreLeft R.remaining rows.old) result }
    ensures stopped { IfErr result (λ stop. stop.fault ≡ NetworkFault.ReadFailed → has_failed rows.new ≡ true) }
    ensures asked { AsksAtMost R.remaining rows.old (max_line_records + 2) rows.new }
{
    read_records(alloc, rows)
}

impl FromRecords for Network {
    ghost use Rattle.csv_records.specs.Reading.{Stops};
    ghost use Rattle.line_network.specs.inner.Reading.{IsReadSoFar, stops_failure, told_apart};
    ghost use Rattle.std.proofs.Common.{lit<};

    type Fault = NetworkFault;

    const MOST_RECORDS: u32 = MAX_LINE_RECORDS;

    ghost MOST_RECORDS = { max_line_records };

    ghost made_of = { λ network records. IsReadSoFar network records };

    ghost refuses = { λ fault records. Stops is_failure fault (network_of records) };

    ghost counted = { lit< tt };

    ghost failures = { λ failure fault records gives. stops_failure failure fault (network_of records) gives };

    ghost told_apart = { λ fault memory reader. told_apart fault memory reader };

    fn of_header(alloc: Global, header: &ByteRecord) -> Result<Network, NetworkFault> {
        if !is_header(header) {
            return Err(NetworkFault::BadRow(1));
        }
        Ok(Network::empty(alloc))
    }

    fn with_record(self, number: u32, fields: &ByteRecord) -> Result<Network, NetworkFault> {
        let Some(read) = LineRecord::read(fields) else {
            return Err(NetworkFault::BadRow(number));
        };
        self.with_line_record(&read)
    }

    fn no_header() -> NetworkFault {
        NetworkFault::BadRow(1)
    }

    fn too_many() -> NetworkFault {
        NetworkFault::TooManyLines
    }
}
