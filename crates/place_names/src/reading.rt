//! Reading places from CSV.
ghost use Rattle.std.specs.Prelude.{◌≡◌, ◌+◌, IsErrOf, true, List};
ghost use Rattle.csv.specs.Reading.{has_failed};
ghost use Rattle.csv_records.specs.Fields.{Record};
ghost use Rattle.csv_records.specs.Reading.{Gives};
ghost use Rattle.csv_records.specs.Requests.{AreLeft, AsksAtMost, IsSetUp};
ghost use Rattle.place_names.specs.Limits.{max_named_places};
ghost use Rattle.place_names.specs.PlacesOf.{AreReadFrom};
ghost use Rattle.place_names.specs.Reading.{is_failure, places_of};

use crate::limits::MAX_NAMED_PLACES;
use crate::place_record::{is_header, read_place};
use crate::{Places, PlacesFault};
use csv::{ByteRecord, Reader};
use csv_records::{FromRecords, open_records, read_records};
use std::alloc::Global;
use std::io::Read;

impl Places {
    /// Reads places from CSV, with the header `place,name,x,y`. `place` is a place as in a network, `name` its name in
    /// UTF-8, of at most 60 bytes and without a control character, and `x` and `y` are decimal numbers as `13.369` or
    /// `-4`, of 1 to 7 digits and behind a point 1 to 6 more. The name may be empty, and so may both numbers together.
    ///
    /// Refused at the first record with a fault, in this order: `TooManyPlaces` (42) for a record past the 2,000th below
    /// the header, `BadRow` (41) with its number for one that is not of this shape, the header being record 1,
    /// `DuplicatePlace` (41) with its number for one whose place an earlier record names. A file with no record is
    /// `BadRow(1)`. `ReadFailed` (93) comes where the reader failed, and `OutOfMemory` (1) where the program was out of
    /// memory.
    ///
    /// At most 2,002 records are asked for, so it returns wherever `csv` answers each request for a record.
    pub fn read_names<R: Read + Drop>(alloc: Global, reader: R) -> Result<Places, PlacesFault>
        ensures { AreReadFrom (R.remaining reader) result }
    {
        let mut records = open_records(alloc, reader);
        read_all(alloc, &mut records)
    }
}

/// Reads the header and the records below it.
fn read_all<R: Read>(alloc: Global, records: &mut Reader<R>) -> Result<Places, PlacesFault>
    requires { IsSetUp records.old }
    ensures meaning { (all : List Record) × AreLeft R.remaining records.old all × Gives is_failure result (places_of all) }
    ensures stopped { IsErrOf result PlacesFault.ReadFailed → has_failed records.new ≡ true }
    ensures asked { AsksAtMost R.remaining records.old (max_named_places + 2) records.new }
{
    match read_records::<R, Places>(alloc, records) {
        Ok(places) => Ok(places),
        Err(stop) => Err(stop.fault),
    }
}

impl FromRecords for Places {
    ghost use Rattle.std.proofs.Common.{lit<};
    ghost use Rattle.csv_records.specs.Reading.{Stops};
    ghost use Rattle.place_names.specs.inner.Reading.{AreReadSoFar, stops_failure, told_apart};

    type Fault = PlacesFault;

    const MOST_RECORDS: u32 = MAX_NAMED_PLACES;

    ghost MOST_RECORDS = { max_named_places };

    ghost made_of = { λ places records. AreReadSoFar places records };

    ghost refuses = { λ fault records. Stops is_failure fault (places_of records) };

    ghost counted = { lit< tt };

    ghost failures = { λ failure fault records gives. stops_failure failure fault (places_of records) gives };

    ghost told_apart = { λ fault memory reader. told_apart fault memory reader };

    fn of_header(alloc: Global, header: &ByteRecord) -> Result<Places, PlacesFault> {
        if !is_header(header) {
            return Err(PlacesFault::BadRow(1));
        }
        Ok(Places::empty(alloc))
    }

    fn with_record(self, number: u32, fields: &ByteRecord) -> Result<Places, PlacesFault> {
        let Some(named) = read_place(self.allocator(), fields)? else {
            return Err(PlacesFault::BadRow(number));
        };
        if self.has(named.place) {
            return Err(PlacesFault::DuplicatePlace(number));
        }
        Ok(self.with_place(named)?)
    }

    fn no_header() -> PlacesFault {
        PlacesFault::BadRow(1)
    }

    fn too_many() -> PlacesFault {
        PlacesFault::TooManyPlaces
    }
}
