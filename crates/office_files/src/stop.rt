//! Why the program could not run or stopped, as it says it on standard error.
ghost use Rattle.std.specs.Prelude.{◌≡◌, ◌++◌, IfSome, Some, codes, option_map};
ghost use Rattle.std.specs.Fmt.{WritesOnOk};
ghost use Rattle.std.specs.Option.{ForSome};
ghost use Rattle.std.specs.Str.{IsAscii};
ghost use Rattle.office_files.specs.Stop.{stop_number};
ghost use Rattle.office_files.specs.StopText.{name_of, place_of, receipt_of, spaced_name, spaced_place, spaced_receipt, stop_text};

use checkpoint::ReadFault;
use faults::{FeedFault, FleetFault};
use fleet_rows::RosterFault;
use line_engine::RunFault;
use line_network::{NetworkFault, NetworksFault, WorkFault};
use place_names::PlacesFault;
use rail_codes::{OrderId, WagonNumber};
use std::alloc::{AllocError, AllocFailed};
use std::fmt;
use std::fmt::{Display, Formatter};

/// Why the program could not run or stopped. It prints as `wagons: CODE` and what the code's details are: the number of
/// the line at which the run stopped, of a file's record, a wagon, or a seat and an entry.
#[derive(Clone, Copy)]
pub enum Stop {
    /// Memory was refused before the run (1).
    OutOfMemory,
    /// More than 8 networks were given (47).
    Networks(NetworksFault),
    /// A file could not be opened, or has no time zone (93).
    OpenFailed,
    /// The roster could not be read (1, 51, 53, 78 or 93).
    Roster(RosterFault),
    /// The checkpoint could not be read (1, 51 to 53, 75, 79, 85 to 88, or 91 to 93).
    Checkpoint(ReadFault),
    /// The fleet could not be changed (1, 53, 73 or 89).
    Fleet(FleetFault),
    /// A network could not be read (1, 41 to 43 or 93).
    Network(NetworkFault),
    /// The names of places could not be read (1, 41, 42 or 93).
    Places(PlacesFault),
    /// The distances could not be worked out (1 or 46).
    Tables(WorkFault),
    /// No waiting order of the problem has this name (84).
    OrderNotInProblem(OrderId),
    /// No free wagon of the problem has this number (84).
    WagonNotInProblem(WagonNumber),
    /// No order that lacks wagons or has some promised has this name (84).
    OrderNotOnMap(OrderId),
    /// This line is no plan line, no begin, and no commit that is accepted (84).
    LineWithoutPlan(u64),
    /// Help or the version could not be written (94).
    WriteFailed,
    /// The notes could not be written, from those of this line on, where they are of a line (94).
    NotesFailed(Option<u64>),
    /// The run over the lines stopped (1, 91 to 94).
    Run(RunFault),
    /// The files could not be fed (1, 46 or 96).
    Feed(FeedFault),
}

impl Stop {
    /// The number that stands for the fault.
    pub fn number(self) -> u32
        ensures { result ≡ stop_number self }
    {
        match self {
            Stop::OutOfMemory => 1,
            Stop::Networks(fault) => fault.number(),
            Stop::OpenFailed => 93,
            Stop::Roster(fault) => fault.number(),
            Stop::Checkpoint(fault) => fault.number(),
            Stop::Fleet(fault) => fault.number(),
            Stop::Network(fault) => fault.number(),
            Stop::Places(fault) => fault.number(),
            Stop::Tables(fault) => fault.number(),
            Stop::OrderNotInProblem(_)
            | Stop::WagonNotInProblem(_)
            | Stop::OrderNotOnMap(_)
            | Stop::LineWithoutPlan(_) => 84,
            Stop::WriteFailed | Stop::NotesFailed(_) => 94,
            Stop::Run(fault) => fault.number(),
            Stop::Feed(fault) => fault.number(),
        }
    }

    /// The wagon or the order that it is about, in ASCII.
    fn name(&self) -> Option<&[u8]>
        ensures name { option_map (λ name. name.now) result ≡ name_of self.now }
        ensures ascii { IfSome result (λ name. IsAscii name.now) }
    {
        match self {
            Stop::Roster(RosterFault::DuplicateWagon(wagon)) => Some(wagon.as_bytes()),
            Stop::Fleet(FleetFault::UnknownWagon(wagon)) => Some(wagon.as_bytes()),
            Stop::Fleet(FleetFault::WagonPromised(wagon)) => Some(wagon.as_bytes()),
            Stop::WagonNotInProblem(wagon) => Some(wagon.as_bytes()),
            Stop::OrderNotInProblem(id) => Some(id.as_bytes()),
            Stop::OrderNotOnMap(id) => Some(id.as_bytes()),
            _ => None,
        }
    }

    /// The number of the file's record or of the line at which it stopped, counted from 1.
    fn place(self) -> Option<u64>
        ensures { result ≡ place_of self }
    {
        match self {
            Stop::Roster(RosterFault::BadRosterRow(record)) => Some(u64::from(record)),
            Stop::Network(NetworkFault::BadRow(record)) => Some(u64::from(record)),
            Stop::Places(PlacesFault::BadRow(record)) => Some(u64::from(record)),
            Stop::Places(PlacesFault::DuplicatePlace(record)) => Some(u64::from(record)),
            Stop::Checkpoint(fault) => fault.line(),
            Stop::Run(fault) => fault.line(),
            Stop::LineWithoutPlan(line) => Some(line),
            Stop::NotesFailed(line) => line,
            _ => None,
        }
    }

    /// The numbers of a seat and of an entry, where a receipt is lost.
    fn receipt(self) -> Option<(u32, u64)>
        ensures { result ≡ receipt_of self }
    {
        match self {
            Stop::Feed(FeedFault::ReceiptLost(seat, entry)) => Some((seat, entry)),
            _ => None,
        }
    }
}

impl Display for Stop {
    ghost output = { λ stop. Some (stop_text stop) };

    fn fmt<W: fmt::Write>(&self, f: &mut Formatter<W>) -> fmt::Result {
        write!(f, "wagons: {}", self.number())?;
        write_name(f, self.name())?;
        write_place(f, self.place())?;
        write_receipt(f, self.receipt())
    }
}

/// Writes a name in ASCII behind a space, where there is one.
fn write_name<W: fmt::Write>(f: &mut Formatter<W>, name: Option<&[u8]>) -> fmt::Result
    requires { ForSome name (λ name. IsAscii name.now) }
    ensures { WritesOnOk W.write_str_gives f.old result (spaced_name (option_map (λ name. name.now) name.entry)) f.new }
{
    match name {
        Some(name) => write_ascii(f, name),
        None => Ok(()),
    }
}

/// Writes ASCII characters behind a space.
fn write_ascii<W: fmt::Write>(f: &mut Formatter<W>, characters: &[u8]) -> fmt::Result
    requires { IsAscii characters.now }
    ensures { WritesOnOk W.write_str_gives f.old result (codes " " ++ characters.now) f.new }
{
    f.write_str(" ")?;
    f.write_str(str::from_utf8(characters).unwrap())
}

/// Writes a number behind a space, where there is one.
fn write_place<W: fmt::Write>(f: &mut Formatter<W>, place: Option<u64>) -> fmt::Result
    ensures { WritesOnOk W.write_str_gives f.old result (spaced_place place) f.new }
{
    match place {
        Some(place) => write!(f, " {place}"),
        None => Ok(()),
    }
}

/// Writes the numbers of a seat and of an entry, each behind a space, where there are such.
fn write_receipt<W: fmt::Write>(f: &mut Formatter<W>, receipt: Option<(u32, u64)>) -> fmt::Result
    ensures { WritesOnOk W.write_str_gives f.old result (spaced_receipt receipt) f.new }
{
    match receipt {
        Some((seat, entry)) => write!(f, " {seat} {entry}"),
        None => Ok(()),
    }
}

impl From<AllocError> for Stop {
    ghost use Rattle.std.specs.Prelude.{◌≡◌};
    ghost use Rattle.office_files.specs.declared.stop.Stop.TheVariants.{OutOfMemory};

    ghost from_gives = { λ _ stop. stop ≡ OutOfMemory };

    fn from(_error: AllocError) -> Stop {
        Stop::OutOfMemory
    }
}

impl<T: Drop> From<AllocFailed<T>> for Stop {
    ghost use Rattle.std.specs.Prelude.{◌≡◌};
    ghost use Rattle.office_files.specs.declared.stop.Stop.TheVariants.{OutOfMemory};

    ghost from_gives = { λ _ stop. stop ≡ OutOfMemory };

    fn from(_error: AllocFailed<T>) -> Stop {
        Stop::OutOfMemory
    }
}
