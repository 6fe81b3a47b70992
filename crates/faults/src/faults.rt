//! Why calls of the libraries are refused: each type of fault above those of codes and of lines, with its numbers, in one place.
ghost use Rattle.std.specs.Prelude.{◌≡◌};
ghost use Rattle.faults.specs.Numbers.{step_fault_number, record_fault_number, network_fault_number, roster_fault_number, checkpoint_fault_number, checkpoint_fault_line, fleet_fault_number, work_fault_number, table_fault_number, check_fault_number, named_fault_number, apply_fault_number, refusal_number, plan_fault_number, feed_fault_number};
ghost use Rattle.faults.specs.ReadingFaults.{network_fault_of, roster_fault_of};
ghost use Rattle.faults.specs.Conversions.{refusal_of, refusal_of_fault};
ghost use Rattle.faults.specs.declared.faults.NetworkFault.TheVariants as network_fault;
ghost use Rattle.faults.specs.declared.faults.RosterFault.TheVariants as roster_fault;
ghost use Rattle.faults.specs.declared.faults.FleetFault.TheVariants as fleet_fault;
ghost use Rattle.faults.specs.declared.faults.WorkFault.TheVariants as work_fault;
ghost use Rattle.faults.specs.declared.faults.TableFault.TheVariants as table_fault;
ghost use Rattle.faults.specs.declared.faults.NamedFault.TheVariants as named_fault;
ghost use Rattle.faults.specs.declared.faults.ApplyFault.TheVariants as apply_fault;
ghost use Rattle.faults.specs.declared.faults.Refusal.TheVariants as refusal;
ghost use Rattle.faults.specs.declared.faults.PlanFault.TheVariants as plan_fault;

use rail_codes::{OrderId, WagonNumber};
use std::alloc::{AllocError, AllocFailed};
use thiserror::Error;

/// Why a movement message does not fit the row of its wagon. The message is the fault's name.
#[derive(Clone, Copy, Debug, PartialEq, Eq, Error)]
pub enum StepFault {
    /// The message is older than the last accepted one (31).
    #[error("Earlier")]
    Earlier,
    /// The status table has no line for this message and the wagon's status (32).
    #[error("WrongStatus")]
    WrongStatus,
    /// The line of the status table is for the wagon's own place, and the message names another (33).
    #[error("WrongPlace")]
    WrongPlace,
}

impl StepFault {
    /// The number that stands for the fault in a reply, from 31 to 33.
    pub fn number(self) -> u32
        ensures { result ≡ step_fault_number self }
    {
        match self {
            StepFault::Earlier => 31,
            StepFault::WrongStatus => 32,
            StepFault::WrongPlace => 33,
        }
    }
}

/// Why a reader of records gave no record. The message is the fault's name.
#[derive(Clone, Copy, Debug, Error)]
pub enum RecordFault {
    /// Out of memory (1).
    #[error("OutOfMemory")]
    OutOfMemory,
    /// The reader under it failed (93).
    #[error("ReadFailed")]
    ReadFailed,
}

impl RecordFault {
    /// The number that stands for the fault in a reply: 1 or 93.
    pub fn number(self) -> u32
        ensures { result ≡ record_fault_number self }
    {
        match self {
            RecordFault::OutOfMemory => 1,
            RecordFault::ReadFailed => 93,
        }
    }
}

/// Why no network was read. The message is the fault's name.
#[derive(Clone, Copy, Debug, PartialEq, Eq, Error)]
pub enum NetworkFault {
    /// Out of memory (1).
    #[error("OutOfMemory")]
    OutOfMemory,
    /// The record of this number is no header, or no line of a network (41). The header is record 1.
    #[error("BadRow")]
    BadRow(u32),
    /// A record names a place past the 2,000th (42).
    #[error("TooManyPlaces")]
    TooManyPlaces,
    /// There is a record past the 20,000th below the header (43).
    #[error("TooManyLines")]
    TooManyLines,
    /// The reader failed (93).
    #[error("ReadFailed")]
    ReadFailed,
}

impl NetworkFault {
    /// The number that stands for the fault in a reply: 1, 41 to 43 or 93.
    pub fn number(self) -> u32
        ensures { result ≡ network_fault_number self }
    {
        match self {
            NetworkFault::OutOfMemory => 1,
            NetworkFault::BadRow(_) => 41,
            NetworkFault::TooManyPlaces => 42,
            NetworkFault::TooManyLines => 43,
            NetworkFault::ReadFailed => 93,
        }
    }
}

impl From<AllocError> for NetworkFault {
    ghost from_gives = { λ _ fault. fault ≡ network_fault.OutOfMemory };

    fn from(_error: AllocError) -> NetworkFault {
        NetworkFault::OutOfMemory
    }
}

impl<T: Drop> From<AllocFailed<T>> for NetworkFault {
    ghost from_gives = { λ _ fault. fault ≡ network_fault.OutOfMemory };

    fn from(_error: AllocFailed<T>) -> NetworkFault {
        NetworkFault::OutOfMemory
    }
}

impl From<RecordFault> for NetworkFault {
    ghost from_gives = { λ failure fault. fault ≡ network_fault_of failure };

    fn from(failure: RecordFault) -> NetworkFault {
        match failure {
            RecordFault::OutOfMemory => NetworkFault::OutOfMemory,
            RecordFault::ReadFailed => NetworkFault::ReadFailed,
        }
    }
}

/// Why no roster was read. The message is the fault's name.
#[derive(Clone, Copy, Debug, PartialEq, Eq, Error)]
pub enum RosterFault {
    /// Out of memory (1).
    #[error("OutOfMemory")]
    OutOfMemory,
    /// A record names a wagon that an earlier one named (51).
    #[error("DuplicateWagon")]
    DuplicateWagon(WagonNumber),
    /// There is a record past the 1,000th below the header (53).
    #[error("TooLarge")]
    TooLarge,
    /// The record of this number is no header, or no wagon of a roster (78). The header is record 1.
    #[error("BadRosterRow")]
    BadRosterRow(u32),
    /// The reader failed (93).
    #[error("ReadFailed")]
    ReadFailed,
}

impl RosterFault {
    /// The number that stands for the fault in a reply: 1, 51, 53, 78 or 93.
    pub fn number(self) -> u32
        ensures { result ≡ roster_fault_number self }
    {
        match self {
            RosterFault::OutOfMemory => 1,
            RosterFault::DuplicateWagon(_) => 51,
            RosterFault::TooLarge => 53,
            RosterFault::BadRosterRow(_) => 78,
            RosterFault::ReadFailed => 93,
        }
    }
}

impl From<AllocError> for RosterFault {
    ghost from_gives = { λ _ fault. fault ≡ roster_fault.OutOfMemory };

    fn from(_error: AllocError) -> RosterFault {
        RosterFault::OutOfMemory
    }
}

impl<T: Drop> From<AllocFailed<T>> for RosterFault {
    ghost from_gives = { λ _ fault. fault ≡ roster_fault.OutOfMemory };

    fn from(_error: AllocFailed<T>) -> RosterFault {
        RosterFault::OutOfMemory
    }
}

impl From<RecordFault> for RosterFault {
    ghost from_gives = { λ failure fault. fault ≡ roster_fault_of failure };

    fn from(failure: RecordFault) -> RosterFault {
        match failure {
            RecordFault::OutOfMemory => RosterFault::OutOfMemory,
            RecordFault::ReadFailed => RosterFault::ReadFailed,
        }
    }
}

/// Why the lines of a checkpoint are none, each with the number of the line. The message is the fault's name.
#[derive(Clone, Copy, Debug, Error)]
pub enum CheckpointFault {
    /// An earlier line has this wagon (51).
    #[error("DuplicateWagon")]
    DuplicateWagon(u64),
    /// An earlier line has this order (52).
    #[error("DuplicateOrder")]
    DuplicateOrder(u64),
    /// It is the 1,001st wagon (53).
    #[error("TooLarge")]
    TooLarge(u64),
    /// With this one the open orders want over 500 wagons in all (75).
    #[error("TooManyOpen")]
    TooManyOpen(u64),
    /// The network in force is none of those that there are (79).
    #[error("UnknownNetwork")]
    UnknownNetwork(u64),
    /// The line isn't what must stand there (85).
    #[error("BadCheckpointLine")]
    BadCheckpointLine(u64),
    /// A promise stands with the wagon alone or with the order alone (86).
    #[error("OneSidedPromise")]
    OneSidedPromise(u64),
    /// The order has more wagons than it wants, or all were delivered (87).
    #[error("OrderFull")]
    OrderFull(u64),
    /// The last line is missing, or counts other lines than there are (88).
    #[error("CheckpointCut")]
    CheckpointCut(u64),
}

impl CheckpointFault {
    /// The number that stands for the fault: 51 to 53, 75, 79, or 85 to 88.
    pub fn number(self) -> u32
        ensures { result ≡ checkpoint_fault_number self }
    {
        match self {
            CheckpointFault::DuplicateWagon(_) => 51,
            CheckpointFault::DuplicateOrder(_) => 52,
            CheckpointFault::TooLarge(_) => 53,
            CheckpointFault::TooManyOpen(_) => 75,
            CheckpointFault::UnknownNetwork(_) => 79,
            CheckpointFault::BadCheckpointLine(_) => 85,
            CheckpointFault::OneSidedPromise(_) => 86,
            CheckpointFault::OrderFull(_) => 87,
            CheckpointFault::CheckpointCut(_) => 88,
        }
    }

    /// The number of the line, counted from 1.
    pub fn line(self) -> u64
        ensures { result ≡ checkpoint_fault_line self }
    {
        match self {
            CheckpointFault::DuplicateWagon(line)
            | CheckpointFault::DuplicateOrder(line)
            | CheckpointFault::TooLarge(line)
            | CheckpointFault::TooManyOpen(line)
            | CheckpointFault::UnknownNetwork(line)
            | CheckpointFault::BadCheckpointLine(line)
            | CheckpointFault::OneSidedPromise(line)
            | CheckpointFault::OrderFull(line)
            | CheckpointFault::CheckpointCut(line) => line,
        }
    }
}

/// Why a fleet isn't changed. The message is the fault's name.
#[derive(Clone, Copy, Debug, Error)]
pub enum FleetFault {
    /// Out of memory (1).
    #[error("OutOfMemory")]
    OutOfMemory,
    /// There would be over 1,000 wagons (53).
    #[error("TooLarge")]
    TooLarge,
    /// A wagon that is to leave isn't there (73).
    #[error("UnknownWagon")]
    UnknownWagon(WagonNumber),
    /// A wagon that is to leave or to be replaced is promised (89).
    #[error("WagonPromised")]
    WagonPromised(WagonNumber),
}

impl FleetFault {
    /// The number that stands for the fault: 1, 53, 73 or 89.
    pub fn number(self) -> u32
        ensures { result ≡ fleet_fault_number self }
    {
        match self {
            FleetFault::OutOfMemory => 1,
            FleetFault::TooLarge => 53,
            FleetFault::UnknownWagon(_) => 73,
            FleetFault::WagonPromised(_) => 89,
        }
    }
}

impl From<AllocError> for FleetFault {
    ghost from_gives = { λ _ fault. fault ≡ fleet_fault.OutOfMemory };

    fn from(_error: AllocError) -> FleetFault {
        FleetFault::OutOfMemory
    }
}

/// Why workers made no tables. The message is the fault's name.
#[derive(Clone, Copy, Debug, PartialEq, Eq, Error)]
pub enum WorkFault {
    /// Out of memory (1).
    #[error("OutOfMemory")]
    OutOfMemory,
    /// There is no worker, or there are more than 64 (45).
    #[error("BadWorkerCount")]
    BadWorkerCount,
    /// No thread could be started for a worker (46).
    #[error("NoThread")]
    NoThread,
}

impl WorkFault {
    /// The number that stands for the fault in a reply: 1, 45 or 46.
    pub fn number(self) -> u32
        ensures { result ≡ work_fault_number self }
    {
        match self {
            WorkFault::OutOfMemory => 1,
            WorkFault::BadWorkerCount => 45,
            WorkFault::NoThread => 46,
        }
    }
}

impl From<AllocError> for WorkFault {
    ghost from_gives = { λ _ fault. fault ≡ work_fault.OutOfMemory };

    fn from(_error: AllocError) -> WorkFault {
        WorkFault::OutOfMemory
    }
}

/// Why names or rows are no table. The message is the fault's name.
#[derive(Clone, Copy, Debug, PartialEq, Eq, Error)]
pub enum TableFault {
    /// Out of memory (1).
    #[error("OutOfMemory")]
    OutOfMemory,
    /// The wagon is listed twice (51).
    #[error("DuplicateWagon")]
    DuplicateWagon(WagonNumber),
    /// The order is listed twice (52).
    #[error("DuplicateOrder")]
    DuplicateOrder(OrderId),
    /// Over 1,000 wagons, over 500 orders, or over 500 lacking wagons in all (53).
    #[error("TooLarge")]
    TooLarge,
    /// Rows, penalties or lacks are of different lengths (54).
    #[error("UnevenRows")]
    UnevenRows,
}

impl TableFault {
    /// The number that stands for the fault in a reply: 1, or 51 to 54.
    pub fn number(self) -> u32
        ensures { result ≡ table_fault_number self }
    {
        match self {
            TableFault::OutOfMemory => 1,
            TableFault::DuplicateWagon(_) => 51,
            TableFault::DuplicateOrder(_) => 52,
            TableFault::TooLarge => 53,
            TableFault::UnevenRows => 54,
        }
    }
}

impl From<AllocError> for TableFault {
    ghost from_gives = { λ _ fault. fault ≡ table_fault.OutOfMemory };

    fn from(_error: AllocError) -> TableFault {
        TableFault::OutOfMemory
    }
}

impl<T: Drop> From<AllocFailed<T>> for TableFault {
    ghost from_gives = { λ _ fault. fault ≡ table_fault.OutOfMemory };

    fn from(_error: AllocFailed<T>) -> TableFault {
        TableFault::OutOfMemory
    }
}

/// Why pairs and prices are no certificate. The message is the fault's name.
#[derive(Clone, Copy, Debug, PartialEq, Eq, Error)]
pub enum CheckFault {
    /// There is not one price per wagon and one per order (61).
    #[error("WrongLengths")]
    WrongLengths,
    /// The wagon and the order of a pair that is out of range or has no cost (62).
    #[error("NotAllowed")]
    NotAllowed(usize, usize),
    /// The wagon and the order of a pair whose wagon is in an earlier pair, or whose order is in as many earlier
    /// pairs as it lacks wagons (63).
    #[error("UsedTwice")]
    UsedTwice(usize, usize),
    /// A wagon and an order whose price passes the pair's cost and the wagon's price (64).
    #[error("PriceGap")]
    PriceGap(usize, usize),
    /// An order whose price passes its penalty (65).
    #[error("OverPenalty")]
    OverPenalty(usize),
    /// The plan's cost with all wagons' prices, and what all orders pay (the price of an order for each wagon that it
    /// lacks), in kilometres, which differ (66).
    #[error("SumsDiffer")]
    SumsDiffer(u128, u128),
}

impl CheckFault {
    /// The number that stands for the fault in a reply, from 61 to 66.
    pub fn number(self) -> u32
        ensures { result ≡ check_fault_number self }
    {
        match self {
            CheckFault::WrongLengths => 61,
            CheckFault::NotAllowed(_, _) => 62,
            CheckFault::UsedTwice(_, _) => 63,
            CheckFault::PriceGap(_, _) => 64,
            CheckFault::OverPenalty(_) => 65,
            CheckFault::SumsDiffer(_, _) => 66,
        }
    }
}

/// Why pairs that are given by name, and prices, are no certificate of a table. The message is the fault's name.
#[derive(Clone, Copy, Debug, PartialEq, Eq, Error)]
pub enum NamedFault {
    /// Out of memory (1).
    #[error("OutOfMemory")]
    OutOfMemory,
    /// There is not one price per wagon and one per order (61).
    #[error("WrongLengths")]
    WrongLengths,
    /// A pair that the table doesn't allow (62).
    #[error("NotAllowed")]
    NotAllowed(WagonNumber, OrderId),
    /// A pair whose wagon is in an earlier pair, or whose order is in as many earlier pairs as it lacks wagons (63).
    #[error("UsedTwice")]
    UsedTwice(WagonNumber, OrderId),
    /// A wagon and an order whose price passes the pair's cost and the wagon's price (64).
    #[error("PriceGap")]
    PriceGap(WagonNumber, OrderId),
    /// An order whose price passes its penalty (65).
    #[error("OverPenalty")]
    OverPenalty(OrderId),
    /// The plan's cost with all wagons' prices, and the price of each wagon that an order lacks, in kilometres,
    /// which differ (66).
    #[error("SumsDiffer")]
    SumsDiffer(u128, u128),
    /// A pair whose wagon or order isn't named (84).
    #[error("NotInProblem")]
    NotInProblem(WagonNumber, OrderId),
}

impl NamedFault {
    /// The number that stands for the fault in a reply: 1, 61 to 66, or 84.
    pub fn number(self) -> u32
        ensures { result ≡ named_fault_number self }
    {
        match self {
            NamedFault::OutOfMemory => 1,
            NamedFault::WrongLengths => 61,
            NamedFault::NotAllowed(_, _) => 62,
            NamedFault::UsedTwice(_, _) => 63,
            NamedFault::PriceGap(_, _) => 64,
            NamedFault::OverPenalty(_) => 65,
            NamedFault::SumsDiffer(_, _) => 66,
            NamedFault::NotInProblem(_, _) => 84,
        }
    }
}

impl From<AllocError> for NamedFault {
    ghost from_gives = { λ _ fault. fault ≡ named_fault.OutOfMemory };

    fn from(_error: AllocError) -> NamedFault {
        NamedFault::OutOfMemory
    }
}

impl<T: Drop> From<AllocFailed<T>> for NamedFault {
    ghost from_gives = { λ _ fault. fault ≡ named_fault.OutOfMemory };

    fn from(_error: AllocFailed<T>) -> NamedFault {
        NamedFault::OutOfMemory
    }
}

/// Why an event is refused. The message is the refusal's name.
#[derive(Clone, Copy, Debug, Error)]
pub enum ApplyFault {
    /// Out of memory (1).
    #[error("OutOfMemory")]
    OutOfMemory,
    /// The office has no wagon of the message's number (73).
    #[error("UnknownWagon")]
    UnknownWagon,
    /// The message does not fit the row of its wagon (31 to 33).
    #[error("{0}")]
    Step(StepFault),
    /// The office has an order of this name (74).
    #[error("OrderKnown")]
    OrderKnown,
    /// The open orders and the new one want over 500 wagons in all (75).
    #[error("TooManyOpen")]
    TooManyOpen,
    /// The office has no order of this name (76).
    #[error("UnknownOrder")]
    UnknownOrder,
    /// The order is filled or withdrawn (77).
    #[error("OrderClosed")]
    OrderClosed,
    /// There is no network of this number (79).
    #[error("UnknownNetwork")]
    UnknownNetwork,
    /// The network is in force already (80).
    #[error("SameNetwork")]
    SameNetwork,
}

impl ApplyFault {
    /// The number that stands for the fault in a reply.
    pub fn number(self) -> u32
        ensures { result ≡ apply_fault_number self }
    {
        match self {
            ApplyFault::OutOfMemory => 1,
            ApplyFault::Step(fault) => fault.number(),
            ApplyFault::UnknownWagon => 73,
            ApplyFault::OrderKnown => 74,
            ApplyFault::TooManyOpen => 75,
            ApplyFault::UnknownOrder => 76,
            ApplyFault::OrderClosed => 77,
            ApplyFault::UnknownNetwork => 79,
            ApplyFault::SameNetwork => 80,
        }
    }
}

impl From<AllocError> for ApplyFault {
    ghost from_gives = { λ _ fault. fault ≡ apply_fault.OutOfMemory };

    fn from(_error: AllocError) -> ApplyFault {
        ApplyFault::OutOfMemory
    }
}

impl<T: Drop> From<AllocFailed<T>> for ApplyFault {
    ghost from_gives = { λ _ fault. fault ≡ apply_fault.OutOfMemory };

    fn from(_error: AllocFailed<T>) -> ApplyFault {
        ApplyFault::OutOfMemory
    }
}

/// Why a book refuses a call; nothing has changed then. The message is the refusal's name.
#[derive(Clone, Copy, Debug, PartialEq, Eq, Error)]
pub enum Refusal {
    /// Out of memory (1).
    #[error("OutOfMemory")]
    OutOfMemory,
    /// The status table has no such step for the message (31 to 33).
    #[error("{0}")]
    Step(StepFault),
    /// As the price checker says of the named pairs and the prices (61 to 66), or a pair isn't in the problem (84).
    #[error("{0}")]
    Check(NamedFault),
    /// Another message has the same id (71).
    #[error("IdReused")]
    IdReused,
    /// The book has as many entries as it may have (72).
    #[error("BookFull")]
    BookFull,
    /// The roster has no such wagon (73).
    #[error("UnknownWagon")]
    UnknownWagon,
    /// An order of this name was placed before (74).
    #[error("OrderKnown")]
    OrderKnown,
    /// The open orders and this one want over 500 wagons in all (75).
    #[error("TooManyOpen")]
    TooManyOpen,
    /// No order of this name was placed (76).
    #[error("UnknownOrder")]
    UnknownOrder,
    /// The order is filled or withdrawn (77).
    #[error("OrderClosed")]
    OrderClosed,
    /// There is no network of this number (79).
    #[error("UnknownNetwork")]
    UnknownNetwork,
    /// The network is in force already (80).
    #[error("SameNetwork")]
    SameNetwork,
    /// The problem of the version and moment that a commit names isn't kept (81).
    #[error("NotKept")]
    NotKept,
    /// A wagon that isn't free now as it was in the problem (82).
    #[error("WagonChanged")]
    WagonChanged(WagonNumber),
    /// An order that lacks fewer wagons now than the commit gives it (83).
    #[error("OrderChanged")]
    OrderChanged(OrderId),
}

impl Refusal {
    /// The number that stands for the refusal in a reply.
    pub fn number(self) -> u32
        ensures { result ≡ refusal_number self }
    {
        match self {
            Refusal::OutOfMemory => 1,
            Refusal::Step(fault) => fault.number(),
            Refusal::Check(fault) => fault.number(),
            Refusal::IdReused => 71,
            Refusal::BookFull => 72,
            Refusal::UnknownWagon => 73,
            Refusal::OrderKnown => 74,
            Refusal::TooManyOpen => 75,
            Refusal::UnknownOrder => 76,
            Refusal::OrderClosed => 77,
            Refusal::UnknownNetwork => 79,
            Refusal::SameNetwork => 80,
            Refusal::NotKept => 81,
            Refusal::WagonChanged(_) => 82,
            Refusal::OrderChanged(_) => 83,
        }
    }
}

impl From<AllocError> for Refusal {
    ghost from_gives = { λ _ why. why ≡ refusal.OutOfMemory };

    fn from(_error: AllocError) -> Refusal {
        Refusal::OutOfMemory
    }
}

impl<T: Drop> From<AllocFailed<T>> for Refusal {
    ghost from_gives = { λ _ why. why ≡ refusal.OutOfMemory };

    fn from(_error: AllocFailed<T>) -> Refusal {
        Refusal::OutOfMemory
    }
}

impl From<ApplyFault> for Refusal {
    ghost from_gives = { λ fault refusal. refusal ≡ refusal_of fault };

    fn from(fault: ApplyFault) -> Refusal {
        match fault {
            ApplyFault::OutOfMemory => Refusal::OutOfMemory,
            ApplyFault::Step(fault) => Refusal::Step(fault),
            ApplyFault::UnknownWagon => Refusal::UnknownWagon,
            ApplyFault::OrderKnown => Refusal::OrderKnown,
            ApplyFault::TooManyOpen => Refusal::TooManyOpen,
            ApplyFault::UnknownOrder => Refusal::UnknownOrder,
            ApplyFault::OrderClosed => Refusal::OrderClosed,
            ApplyFault::UnknownNetwork => Refusal::UnknownNetwork,
            ApplyFault::SameNetwork => Refusal::SameNetwork,
        }
    }
}

impl From<NamedFault> for Refusal {
    ghost from_gives = { λ fault refusal. refusal ≡ refusal_of_fault fault };

    fn from(fault: NamedFault) -> Refusal {
        match fault {
            NamedFault::OutOfMemory => Refusal::OutOfMemory,
            fault => Refusal::Check(fault),
        }
    }
}

/// Why no plan was made. The message is the fault's name.
#[derive(Clone, Copy, Debug, Error)]
pub enum PlanFault {
    /// Out of memory (1).
    #[error("OutOfMemory")]
    OutOfMemory,
    /// The snapshot's network is none of those that were given (79).
    #[error("UnknownNetwork")]
    UnknownNetwork,
}

impl PlanFault {
    /// The number that stands for the fault in a reply: 1 or 79.
    pub fn number(self) -> u32
        ensures { result ≡ plan_fault_number self }
    {
        match self {
            PlanFault::OutOfMemory => 1,
            PlanFault::UnknownNetwork => 79,
        }
    }
}

impl From<AllocError> for PlanFault {
    ghost from_gives = { λ _ fault. fault ≡ plan_fault.OutOfMemory };

    fn from(_error: AllocError) -> PlanFault {
        PlanFault::OutOfMemory
    }
}

/// Why files were not fed to a book. The message is the fault's name.
#[derive(Clone, Copy, Debug, Error)]
pub enum FeedFault {
    /// Out of memory before any thread was started (1).
    #[error("OutOfMemory")]
    OutOfMemory,
    /// No thread could be started for a file (46). The threads that ran have ended.
    #[error("NoThread")]
    NoThread,
    /// An entry of the book is not the event of a receipt (96): the seat's number and the entry's.
    #[error("ReceiptLost")]
    ReceiptLost(u32, u64),
}

impl FeedFault {
    /// The number that stands for the fault in a reply: 1, 46 or 96.
    pub fn number(self) -> u32
        ensures { result ≡ feed_fault_number self }
    {
        match self {
            FeedFault::OutOfMemory => 1,
            FeedFault::NoThread => 46,
            FeedFault::ReceiptLost(_, _) => 96,
        }
    }
}
