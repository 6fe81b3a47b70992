//! Why the program could not run or stopped, with what people are told of it.
ghost use Rattle.std.specs.Prelude.{◌≡◌, IfErr, IfOk, IfSome, Some, Ok, Err, codes};
ghost use Rattle.fault_texts.specs.LineText.{line_text};
ghost use Rattle.line_engine.specs.declared.run.RunFault.{RunFault};
ghost use Rattle.office_files.specs.StoppedText.{stopped_text};
ghost use Rattle.office_files.specs.Told.{IsToldAs, reason_of, words_of};
ghost use Rattle.office_files.specs.declared.stop.Stop.TheVariants as stop;

use crate::stop::Stop;
use fault_texts::line_text;
use faults::{FeedFault, FleetFault};
use line_engine::LineLimit;
use std::alloc::{AllocError, AllocFailed, Global};
use std::fmt;
use std::fmt::{Display, Formatter};

/// Standard input, as people are told of it.
const INPUT: &str = "standard input";

/// Of a thread that couldn't be started.
const NO_THREAD: &str =
    "no thread could be started: too many run already, or memory for one is short";

/// Why the program could not run or stopped. It prints as two lines: the first is for programs, as `Stop` prints it; the second
/// is for people.
#[derive(Drop)]
pub struct Stopped {
    pub stop: Stop,
    /// What people are told: the file, the record or line, and what was expected. Where it is missing, there is more to say than
    /// `Stop` knows, or memory for it was refused.
    pub told: Option<String>,
}

impl Stopped {
    /// A reason with the text that was made of it, or without where memory was refused.
    pub fn told(stop: Stop, text: Result<String, AllocError>) -> Stopped
        ensures stop { result.stop ≡ stop }
        ensures told { IfSome result.told (λ told. text ≡ Ok told) }
    {
        Stopped {
            stop,
            told: text.ok(),
        }
    }
}

/// What became of the lines of standard input, with what people are told where a run stopped.
pub fn told_of_lines(
    alloc: Global,
    limit: LineLimit,
    outcome: Result<u8, Stop>,
) -> Result<u8, Stopped>
    ensures ok { IfOk result (λ status. outcome ≡ Ok status) }
    ensures err { IfErr result (λ stopped. outcome ≡ Err stopped.stop) }
    ensures told { (fault : RunFault) → outcome ≡ Err (stop.Run fault) → IfErr result (λ stopped. IsToldAs (line_text (codes "standard input") limit fault) stopped.told) }
{
    match outcome {
        Ok(status) => Ok(status),
        Err(Stop::Run(fault)) => {
            let text = line_text(alloc, INPUT, limit.bytes(), &fault);
            Err(Stopped::told(Stop::Run(fault), text))
        }
        Err(stop) => Err(Stopped::from(stop)),
    }
}

impl Display for Stopped {
    ghost output = { λ stopped. Some (stopped_text stopped) };

    fn fmt<W: fmt::Write>(&self, f: &mut Formatter<W>) -> fmt::Result {
        match &self.told {
            Some(told) => write!(f, "{}\n{told}", self.stop),
            None => write!(f, "{}\n{}", self.stop, words_of(&self.stop)),
        }
    }
}

impl From<Stop> for Stopped {
    ghost from_gives = { λ reason stopped. stopped.stop ≡ reason };

    fn from(stop: Stop) -> Stopped {
        Stopped { stop, told: None }
    }
}

impl From<AllocError> for Stopped {
    ghost from_gives = { λ _ stopped. stopped.stop ≡ stop.OutOfMemory };

    fn from(_error: AllocError) -> Stopped {
        Stopped::from(Stop::OutOfMemory)
    }
}

impl<T: Drop> From<AllocFailed<T>> for Stopped {
    ghost from_gives = { λ _ stopped. stopped.stop ≡ stop.OutOfMemory };

    fn from(_error: AllocFailed<T>) -> Stopped {
        Stopped::from(Stop::OutOfMemory)
    }
}

/// What people are told of a reason of which nothing more is known.
fn words_of(stop: &Stop) -> &'static str
    ensures { result.now ≡ words_of stop.now }
{
    if stop.number() == 1 {
        "out of memory"
    } else {
        reason_of(stop)
    }
}

/// The same where memory isn't out.
fn reason_of(stop: &Stop) -> &'static str
    ensures { result.now ≡ reason_of stop.now }
{
    match stop {
        Stop::OutOfMemory => "out of memory",
        Stop::Networks(_) => "at most 8 networks may be given",
        Stop::OpenFailed => "a file couldn't be opened",
        Stop::Roster(_) => "the roster couldn't be read",
        Stop::Checkpoint(_) => "the checkpoint couldn't be read",
        Stop::Network(_) => "a network couldn't be read",
        Stop::Places(_) => "the names of places couldn't be read",
        Stop::Fleet(fault) => reason_of_fleet(fault),
        Stop::Tables(_) => NO_THREAD,
        Stop::OrderNotInProblem(_) => "no waiting order of the problem has this name",
        Stop::WagonNotInProblem(_) => "no free wagon of the problem has this number",
        Stop::OrderNotOnMap(_) => "no order that lacks wagons or has some promised has this name",
        Stop::LineWithoutPlan(_) => "this line is no plan line, no begin, and no accepted commit",
        Stop::WriteFailed => "standard output couldn't be written",
        Stop::NotesFailed(_) => "the notes couldn't be written",
        Stop::Run(_) => "a line couldn't be read or replied to",
        Stop::Feed(fault) => reason_of_feed(fault),
    }
}

/// Of a fleet that isn't changed.
fn reason_of_fleet(fault: &FleetFault) -> &'static str
    ensures { result.now ≡ reason_of (stop.Fleet fault.now) }
{
    match fault {
        FleetFault::OutOfMemory => "out of memory",
        FleetFault::TooLarge => "the fleet would have over 1,000 wagons, the most that it may have",
        FleetFault::UnknownWagon(_) => "the fleet has no wagon of this number",
        FleetFault::WagonPromised(_) => "this wagon is promised to an order",
    }
}

/// Of files that aren't fed.
fn reason_of_feed(fault: &FeedFault) -> &'static str
    ensures { result.now ≡ reason_of (stop.Feed fault.now) }
{
    match fault {
        FeedFault::OutOfMemory => "out of memory",
        FeedFault::NoThread => NO_THREAD,
        FeedFault::ReceiptLost(_, _) => {
            "an entry isn't what its sender's receipt says, which never happens unless the program is wrong"
        }
    }
}
