//! Which numbers are refusals, what the first lines of an input are, and how `wagons run` ends. The functions do nothing: the
//! contract is the law.
ghost use Rattle.wagons_program.specs.FirstLines.{AreTheFirstLines};
ghost use Rattle.wagons_program.specs.Laws.{EachFaultIsListed, EachNumberIsAFaults};
ghost use Rattle.wagons_program.specs.Run.{RunsEndSo};

use std::sync::ledger::Ledger;

/// The number of each fault that a library of this project can answer is in the list.
pub fn each_fault_is_listed<L: Ledger>()
    ensures { EachFaultIsListed L }
{}

/// Each number of the list is that of some fault.
pub fn each_number_is_a_faults<L: Ledger>()
    ensures { EachNumberIsAFaults L }
{}

/// What `save --upto` reads has the first lines of the input, so many of them, and no other.
pub fn the_first_lines_are_taken()
    ensures { AreTheFirstLines }
{}

/// How `wagons run` ends, from its arguments and the bytes of its files and of its input to the bytes of its output and its status.
/// It follows from what `run_words` promises of any word.
pub fn a_run_ends_so<F>()
    ensures { RunsEndSo F }
{}
