//! A book's last version as a checkpoint.
ghost use Rattle.std.specs.Prelude.{◌≡◌, [], IfErr, IfOk, string_bytes};
ghost use Rattle.fleet_rows.specs.Roster.{IsRoster};
ghost use Rattle.last_texts.specs.SavedOfLast.{IsNotSaved, IsSaved, added_rows, last_state};
ghost use Rattle.office_files.specs.declared.stop.Stop.TheVariants.{OutOfMemory};

use checkpoint::checkpoint_text;
use commit_book::Book;
use fleet_rows::Roster;
use office_files::Stop;
use operating_db::OfficeState;
use rail_codes::WagonNumber;
use std::alloc::Global;
use wagons_and_orders::WagonRow;

/// The checkpoint of a book's last version, with the rows of a roster and without some wagons. Refused as
/// `OfficeState::with_fleet` says: `WagonPromised` (89), `UnknownWagon` (73), `TooLarge` (53) or `OutOfMemory` (1).
pub fn last_saved(
    alloc: Global,
    book: &Book,
    added: &Option<Roster>,
    leaving: &[WagonNumber],
) -> Result<String, Stop>
    ensures saved { IfOk result (λ text. IsSaved (last_state book.now.setting book.now.state.history) (added_rows added.now) leaving.now (string_bytes text)) }
    ensures not_saved { IfErr result (IsNotSaved (last_state book.now.setting book.now.state.history) (added_rows added.now) leaving.now) }
{
    saved_text(alloc, book.state(), added, leaving)
}

/// The checkpoint of an office, with the rows of a roster and without some wagons.
fn saved_text(
    alloc: Global,
    state: &OfficeState,
    added: &Option<Roster>,
    leaving: &[WagonNumber],
) -> Result<String, Stop>
    ensures saved { IfOk result (λ text. IsSaved state.now (added_rows added.now) leaving.now (string_bytes text)) }
    ensures not_saved { IfErr result (IsNotSaved state.now (added_rows added.now) leaving.now) }
{
    match added {
        Some(roster) => changed_text(alloc, state, roster.rows(), leaving),
        None if leaving.is_empty() => unchanged_text(alloc, state),
        None => changed_text(alloc, state, &[], leaving),
    }
}

/// The checkpoint of an office as it is.
fn unchanged_text(alloc: Global, state: &OfficeState) -> Result<String, Stop>
    ensures saved { IfOk result (λ text. IsSaved state.now [] [] (string_bytes text)) }
    ensures not_saved { IfErr result (λ why. why ≡ OutOfMemory) }
{
    state.for_the_prover();
    Ok(checkpoint_text(alloc, state)?)
}

/// The checkpoint of an office with these rows added, and without these wagons.
fn changed_text(
    alloc: Global,
    state: &OfficeState,
    added: &[WagonRow],
    leaving: &[WagonNumber],
) -> Result<String, Stop>
    requires { IsRoster added.now }
    ensures saved { IfOk result (λ text. IsSaved state.now added.now leaving.now (string_bytes text)) }
    ensures not_saved { IfErr result (IsNotSaved state.now added.now leaving.now) }
{
    match state.with_fleet(alloc, added, leaving) {
        Ok(changed) => Ok(checkpoint_text(alloc, &changed)?),
        Err(fault) => Err(Stop::Fleet(fault)),
    }
}
