//! What is said of a file whose lines are no checkpoint.
ghost use Rattle.std.specs.Prelude.{◌≡◌, IfOk, string_bytes};
ghost use Rattle.fault_texts.specs.CheckpointText.{checkpoint_text, line_fault};

use crate::words::said_of_line;
use faults::CheckpointFault;
use std::alloc::{AllocError, Global};

/// What is said of the file at a path whose lines are no checkpoint: the line, and what was expected. `Err` only when out of
/// memory.
pub fn checkpoint_text(
    alloc: Global,
    path: &str,
    fault: &CheckpointFault,
) -> Result<String, AllocError>
    ensures { IfOk result (λ text. string_bytes text ≡ checkpoint_text path.now fault.now) }
{
    said_of_line(alloc, path, fault.line(), line_fault(*fault))
}

/// What is wrong with the line.
fn line_fault(fault: CheckpointFault) -> &'static str
    ensures { result.now ≡ line_fault fault }
{
    match fault {
        CheckpointFault::DuplicateWagon(_) => ": an earlier line has this wagon",
        CheckpointFault::DuplicateOrder(_) => ": an earlier line has this order",
        CheckpointFault::TooLarge(_) => ": a checkpoint has at most 1,000 wagons",
        CheckpointFault::TooManyOpen(_) => {
            ": with this order the open orders want over 500 wagons in all"
        }
        CheckpointFault::UnknownNetwork(_) => {
            ": its network in force is none of those that --network gives"
        }
        CheckpointFault::BadCheckpointLine(_) => {
            ": first a line of type checkpoint must stand, then wagons ascending by number, each as an office can have it, then orders, and last a line of type end, as wagons save prints them"
        }
        CheckpointFault::OneSidedPromise(_) => {
            ": a promise must stand both with the wagon and with the order, and stands with one of them alone"
        }
        CheckpointFault::OrderFull(_) => {
            ": the order has more wagons than it wants, or all were delivered"
        }
        CheckpointFault::CheckpointCut(_) => {
            ": a line of type end must be the last, and count the lines before it"
        }
    }
}
