//! Rosters that are copied, and readers that fail.

use fleet_rows::{Roster, RosterFault};
use std::alloc::Global;
use std::test::Fail;
use test_samples::{FAR, MemoryReader, NEAR, ROSTER, class, moment, place, wagon};
use wagons_and_orders::{Status, WagonRow};

/// One of the sample's wagons.
fn empty_wagon(number: &str, at: &str) -> Result<WagonRow, Fail> {
    let last = moment("2026-03-01T00:00:00Z")?;
    Ok(WagonRow {
        number: wagon(number)?,
        class: class("Eanos")?,
        load_limit: 60_000,
        status: Status::Empty(place(at)?, last),
        held: false,
        last,
        promise: None,
    })
}

/// Whether the sample roster and its copy have the sample's wagons, ascending.
fn is_sample(alloc: Global) -> Result<bool, Fail> {
    let rows = [empty_wagon(NEAR, "DE00002")?, empty_wagon(FAR, "DE00001")?];
    let roster = Roster::read_rows(alloc, ROSTER.as_bytes())?;
    let copy = roster.copy(alloc)?;
    Ok(roster.rows() == rows.as_slice() && copy.rows() == rows.as_slice())
}

#[test]
fn a_copy_is_the_roster(rt: HostRuntime) -> Result<(), Fail> {
    assert!(rt; is_sample(rt.alloc())?);
    Ok(())
}

/// A reader that fails behind the sample, or in its midst and then goes on.
#[test]
fn a_reader_fails(rt: HostRuntime) {
    for (given, once) in [(ROSTER.len(), false), (60, false), (60, true)] {
        let reader = MemoryReader::failing(ROSTER.as_bytes(), given, once);
        let fault = Roster::read_rows(rt.alloc(), reader).err();
        assert_eq!(rt; fault, Some(RosterFault::ReadFailed), "{given}");
        assert_eq!(rt; fault.map(|fault| fault.number()), Some(93));
    }
}
