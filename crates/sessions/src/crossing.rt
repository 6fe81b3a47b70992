//! Two files that move one wagon.
ghost use Rattle.std.specs.Prelude.{◌≡◌, ◌≤◌, ◌<◌, ℕ, IfNone, IfSome, length};
ghost use Rattle.std.specs.List.{list_any};
ghost use Rattle.line_engine.specs.Lines.{max_files};
ghost use Rattle.sessions.specs.Crossings.{is_moved_by};
ghost use Rattle.sessions.specs.FedLines.{wagon_of};
ghost use Rattle.sessions.specs.inner.Crossings.{IsFirstHeld, IsFirstOf, IsLeast, IsMovedAmong, IsMovedBut, IsMovedIn, least_of};

use crate::refused_wagons::RefusedWagons;
use crate::{BookLedger, Receipt, Seat};
use commit_book::EventView;
use rail_codes::WagonNumber;

/// A wagon a message of which was accepted from one file, and one was refused by the status table (31 to 33) from another. The
/// order of the lines of two files isn't kept, so messages of one wagon in two files refuse each other.
#[derive(Clone, Copy)]
pub struct Crossing {
    pub wagon: WagonNumber,
    /// The number of the file from which a message was accepted. Files are counted from 1.
    pub moved_in: u32,
    /// The number of the file from which a message was refused.
    pub refused_in: u32,
}

/// The first crossing by the refusing file's number and then by the wagon's: the wagons that each file noted are held against
/// the receipts of the others.
pub(crate) fn first_crossing<L: BookLedger>(
    seats: &[Seat<L>],
    refused: &[RefusedWagons],
) -> Option<Crossing>
    requires files { length refused.now ≤ max_files }
    requires seats { length seats.now ≤ max_files }
    ensures { IsFirstHeld seats.now refused.now result }
{
    for (index, wagons) in refused.iter().enumerate() {
        match crossing_of(seats, index, wagons) {
            None => {}
            Some(crossing) => return Some(crossing),
        }
    }
    None
}

/// The first crossing at the file of an index, which noted these wagons.
fn crossing_of<L: BookLedger>(
    seats: &[Seat<L>],
    index: usize,
    wagons: &RefusedWagons,
) -> Option<Crossing>
    requires file { index < max_files }
    requires seats { length seats.now ≤ max_files }
    ensures { IsFirstOf seats.now index wagons.now result }
{
    let wagon = least_elsewhere(seats, index, wagons)?;
    let moving = moving_file(seats, index, wagon)?;
    Some(Crossing {
        wagon,
        moved_in: moving as u32 + 1,
        refused_in: index as u32 + 1,
    })
}

/// The least of some wagons that a file moved, other than the file of an index.
fn least_elsewhere<L: BookLedger>(
    seats: &[Seat<L>],
    index: usize,
    wagons: &RefusedWagons,
) -> Option<WagonNumber>
    ensures { IsLeast (IsMovedBut seats.now index (length seats.now) wagons.now) result }
{
    if wagons.is_empty() {
        return None;
    }
    let mut least = None;
    for (file, seat) in seats.iter().enumerate() {
        if file != index {
            least = least_of(least, least_moved(seat.receipts(), wagons));
        }
    }
    least
}

/// The index of the first file that moved a wagon, other than the file of an index.
fn moving_file<L: BookLedger>(seats: &[Seat<L>], index: usize, wagon: WagonNumber) -> Option<usize>
    ensures some { IfSome result (λ file. IsMovedIn seats.now index file wagon) }
    ensures none { IfNone result ((file : ℕ) → IsMovedIn seats.now index file wagon → ⊥) }
{
    for (file, seat) in seats.iter().enumerate() {
        if file != index && has_moved(seat.receipts(), wagon) {
            return Some(file);
        }
    }
    None
}

/// Whether a receipt is of a message of a wagon.
fn has_moved(receipts: &[Receipt], wagon: WagonNumber) -> bool
    ensures { result ≡ list_any (is_moved_by wagon) receipts.now }
{
    receipts.iter().any(|receipt| is_moved_by(wagon, receipt))
}

/// Whether a receipt is of a message of this wagon.
fn is_moved_by(wagon: WagonNumber, receipt: &Receipt) -> bool
    ensures { result ≡ is_moved_by wagon receipt.now }
{
    match moved_wagon(receipt) {
        None => false,
        Some(number) => wagon == number,
    }
}

/// The wagon of a receipt's message.
fn moved_wagon(receipt: &Receipt) -> Option<WagonNumber>
    ensures { result ≡ wagon_of receipt.now.event }
{
    match receipt.event.view() {
        EventView::Message(message) => Some(message.wagon),
        EventView::Place(_)
        | EventView::Withdraw(_)
        | EventView::Commit(_)
        | EventView::Revise(_) => None,
    }
}

/// The least of some wagons of which one of the receipts is.
fn least_moved(receipts: &[Receipt], wagons: &RefusedWagons) -> Option<WagonNumber>
    ensures { IsLeast (IsMovedAmong receipts.now wagons.now) result }
{
    let mut least = None;
    for receipt in receipts {
        least = least_of(least, wagons.one_of(moved_wagon(receipt)));
    }
    least
}

/// The lesser of two wagons; the one that there is, where there is one.
fn least_of(one: Option<WagonNumber>, other: Option<WagonNumber>) -> Option<WagonNumber>
    ensures { result ≡ least_of one other }
{
    match one {
        None => other,
        Some(first) => match other {
            None => one,
            Some(second) => { if second < first { other } else { one } }
        },
    }
}
