//! Every fault with its name.

use checkpoint::ReadFault;
use commit_book::Refusal;
use cost_table::TableFault;
use csv_records::RecordFault;
use faults::{CheckpointFault, FleetFault};
use fleet_rows::RosterFault;
use line_fields::{Field, FieldFault, LineFault};
use line_network::{NetworkFault, NetworksFault, WorkFault};
use office::RunFault;
use operating_db::ApplyFault;
use price_checker::{CheckFault, NamedFault};
use rail_codes::CodeFault;
use sessions::FeedFault;
use std::test::Fail;
use table_lines::TableRefusal;
use test_samples::{FAR, misnamed, order_id, wagon};
use wagons_and_orders::StepFault;

/// Fails where one of these variants of an enum prints another text than its name.
macro_rules! assert_named {
    ($rt:ident, $faults:ident: $($name:ident $(($($part:expr),+))?),+) => {
        assert_eq!($rt;
            misnamed($rt.alloc(), &[$(($faults::$name $(($($part),+))?, stringify!($name))),+])?,
            None
        );
    };
}

#[test]
fn faults_of_lines(rt: HostRuntime) -> Result<(), Fail> {
    assert_named!(rt, CodeFault: NotTwelveDigits, CheckDigit, BadPlace, BadClass, BadCompany,
        BadOrderId, BadMoment, MomentOutOfRange);
    assert_named!(rt, FieldFault: WrongKind, OutOfRange);
    assert_named!(rt, LineFault: OutOfMemory, NotJson, NotAnObject, UnknownType,
        MissingField(Field::Wagon), BadField(Field::Wagon, FieldFault::WrongKind));
    Ok(())
}

#[test]
fn faults_of_networks(rt: HostRuntime) -> Result<(), Fail> {
    assert_named!(rt, NetworkFault: OutOfMemory, BadRow(2), TooManyPlaces, TooManyLines,
        ReadFailed);
    assert_named!(rt, WorkFault: OutOfMemory, BadWorkerCount, NoThread);
    assert_named!(rt, NetworksFault: BadNetworkCount);
    Ok(())
}

#[test]
fn faults_of_plans(rt: HostRuntime) -> Result<(), Fail> {
    let (far, first) = (wagon(FAR)?, order_id("O1")?);
    assert_named!(rt, TableFault: OutOfMemory, DuplicateWagon(far), DuplicateOrder(first),
        TooLarge, UnevenRows);
    assert_named!(rt, CheckFault: WrongLengths, NotAllowed(0, 0), UsedTwice(0, 0),
        PriceGap(0, 0), OverPenalty(0), SumsDiffer(1, 2));
    assert_named!(rt, NamedFault: OutOfMemory, WrongLengths, NotAllowed(far, first),
        UsedTwice(far, first), PriceGap(far, first), OverPenalty(first), SumsDiffer(1, 2),
        NotInProblem(far, first));
    Ok(())
}

#[test]
fn faults_of_an_office(rt: HostRuntime) -> Result<(), Fail> {
    let (far, first) = (wagon(FAR)?, order_id("O1")?);
    assert_named!(rt, RosterFault: OutOfMemory, DuplicateWagon(far), TooLarge, BadRosterRow(2),
        ReadFailed);
    assert_named!(rt, CheckpointFault: DuplicateWagon(3), DuplicateOrder(4), TooLarge(1002),
        TooManyOpen(5), UnknownNetwork(1), BadCheckpointLine(2), OneSidedPromise(6), OrderFull(7),
        CheckpointCut(8));
    assert_named!(rt, FleetFault: OutOfMemory, TooLarge, UnknownWagon(far), WagonPromised(far));
    assert_named!(rt, StepFault: Earlier, WrongStatus, WrongPlace);
    assert_named!(rt, ApplyFault: OutOfMemory, UnknownWagon, OrderKnown, TooManyOpen,
        UnknownOrder, OrderClosed, UnknownNetwork, SameNetwork);
    assert_named!(rt, Refusal: OutOfMemory, IdReused, BookFull, UnknownWagon, OrderKnown,
        TooManyOpen, UnknownOrder, OrderClosed, UnknownNetwork, SameNetwork, NotKept,
        WagonChanged(far), OrderChanged(first));
    Ok(())
}

#[test]
fn faults_of_runs(rt: HostRuntime) -> Result<(), Fail> {
    assert_named!(rt, TableRefusal: OutOfMemory);
    assert_named!(rt, RunFault: OutOfMemory, TooManyLines(1_000_001), LineTooLong(7),
        ReadFailed(8), WriteFailed(9));
    assert_named!(rt, FeedFault: OutOfMemory, NoThread, ReceiptLost(1, 2));
    assert_named!(rt, RecordFault: OutOfMemory, ReadFailed);
    Ok(())
}

#[test]
fn faults_around_another(rt: HostRuntime) -> Result<(), Fail> {
    let alloc = rt.alloc();
    let fields = [(FieldFault::Code(CodeFault::CheckDigit), "CheckDigit")];
    assert_eq!(rt; misnamed(alloc, &fields)?, None);
    let events = [(ApplyFault::Step(StepFault::WrongPlace), "WrongPlace")];
    assert_eq!(rt; misnamed(alloc, &events)?, None);
    let calls = [
        (Refusal::Step(StepFault::Earlier), "Earlier"),
        (Refusal::Check(NamedFault::WrongLengths), "WrongLengths"),
    ];
    assert_eq!(rt; misnamed(alloc, &calls)?, None);
    let checkpoints = [
        (ReadFault::Run(RunFault::LineTooLong(7)), "LineTooLong"),
        (ReadFault::Line(CheckpointFault::OrderFull(7)), "OrderFull"),
        (
            ReadFault::Unread(7, LineFault::NotJson),
            "BadCheckpointLine",
        ),
    ];
    assert_eq!(rt; misnamed(alloc, &checkpoints)?, None);
    let tables = [
        (TableRefusal::Line(LineFault::NotJson), "NotJson"),
        (TableRefusal::Table(TableFault::TooLarge), "TooLarge"),
        (
            TableRefusal::Check(NamedFault::SumsDiffer(1, 2)),
            "SumsDiffer",
        ),
        (TableRefusal::PlanTooLong, "LineTooLong"),
    ];
    assert_eq!(rt; misnamed(alloc, &tables)?, None);
    Ok(())
}
