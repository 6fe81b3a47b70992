//! What the program says on standard error where it could not run or stopped, for what no script brings about: memory,
//! threads, devices that fail, and files that are too large for a script.

use checkpoint::ReadFault;
use faults::{CheckpointFault, FleetFault};
use fleet_rows::RosterFault;
use line_fields::LineFault;
use line_network::{NetworkFault, WorkFault};
use office::RunFault;
use office_files::Stop;
use sessions::FeedFault;
use std::test::Fail;
use test_samples::misnamed;

#[test]
fn stops_before_the_lines(rt: HostRuntime) -> Result<(), Fail> {
    let stops = [
        (Stop::OutOfMemory, "wagons: 1"),
        (Stop::Roster(RosterFault::OutOfMemory), "wagons: 1"),
        (
            Stop::Checkpoint(ReadFault::Run(RunFault::OutOfMemory)),
            "wagons: 1",
        ),
        (
            Stop::Checkpoint(ReadFault::Run(RunFault::ReadFailed(3))),
            "wagons: 93 3",
        ),
        (
            Stop::Checkpoint(ReadFault::Line(CheckpointFault::TooLarge(1002))),
            "wagons: 53 1002",
        ),
        (
            Stop::Checkpoint(ReadFault::Unread(3, LineFault::NotAnObject)),
            "wagons: 85 3",
        ),
        (Stop::Network(NetworkFault::OutOfMemory), "wagons: 1"),
        (
            Stop::Network(NetworkFault::BadRow(20_001)),
            "wagons: 41 20001",
        ),
        (Stop::Network(NetworkFault::TooManyLines), "wagons: 43"),
        (Stop::Tables(WorkFault::OutOfMemory), "wagons: 1"),
        (Stop::Tables(WorkFault::NoThread), "wagons: 46"),
    ];
    assert_eq!(rt; misnamed(rt.alloc(), &stops)?, None);
    Ok(())
}

#[test]
fn stops_at_work(rt: HostRuntime) -> Result<(), Fail> {
    let stops = [
        (Stop::WriteFailed, "wagons: 94"),
        (Stop::Run(RunFault::OutOfMemory), "wagons: 1"),
        (
            Stop::Run(RunFault::TooManyLines(1_000_001)),
            "wagons: 91 1000001",
        ),
        (Stop::Run(RunFault::ReadFailed(8)), "wagons: 93 8"),
        (Stop::Run(RunFault::WriteFailed(9)), "wagons: 94 9"),
        (Stop::Fleet(FleetFault::OutOfMemory), "wagons: 1"),
        (Stop::Fleet(FleetFault::TooLarge), "wagons: 53"),
        (Stop::Feed(FeedFault::OutOfMemory), "wagons: 1"),
        (Stop::Feed(FeedFault::NoThread), "wagons: 46"),
        (Stop::Feed(FeedFault::ReceiptLost(2, 17)), "wagons: 96 2 17"),
    ];
    assert_eq!(rt; misnamed(rt.alloc(), &stops)?, None);
    Ok(())
}
