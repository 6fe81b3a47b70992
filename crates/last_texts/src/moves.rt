//! The promised movements of a book's last version.
ghost use Rattle.std.specs.Prelude.{◌≡◌, IfErr, IfOk, Some, option_copied, option_map};
ghost use Rattle.std.specs.BTreeMap.{get};
ghost use Rattle.commit_book.specs.Books.{present_office};
ghost use Rattle.fleet_rows.specs.Kept.{compare_numbers};
ghost use Rattle.last_texts.specs.Fills.{fills_in};
ghost use Rattle.last_texts.specs.MovesOfLast.{AreMovesIn, AreMovesOf, IsMovesTextOfLast, choice_of};
ghost use Rattle.last_texts.specs.Movers.{wagons_moved_by};
ghost use Rattle.last_texts.specs.ZoneClock.{HasZoneFor, IsNoClock, IsReadFor, name_of};
ghost use Rattle.line_network.specs.Networks.{network_at};
ghost use Rattle.movements.specs.FormText.{IsFormText};
ghost use Rattle.office_files.specs.declared.stop.Stop.TheVariants.{OutOfMemory};

use crate::fills::{FilledJournal, LateFills};
use crate::movers::wagons_moved_by;
use crate::state::form_of;
use crate::zone::{ZoneFile, clock_of};
use command_line::MovesOptions;
use commit_book::Book;
use line_network::Tables;
use movements::{Choice, MovementList, list_of_movements, movements_text};
use office_files::Stop;
use place_names::Places;
use rail_codes::{Company, WagonNumber};
use std::alloc::{AllocError, Global};
use text_tables::{Clock, Form};

/// The promised movements of the last version of a journal's book at a moment, over the network in force, then its orders, then the wagons that
/// were not heard from, as far as they are asked for: as tables, as CSV or as JSON lines; with moments as they are shown in the time
/// zone that is asked for, which was read before. Refused only with `OutOfMemory` (1), or with `OpenFailed` (93) where that zone
/// can't be looked up.
pub fn last_moves(
    alloc: Global,
    journal: &FilledJournal,
    options: &MovesOptions<'_>,
    places: &Places,
    zone: &ZoneFile<'_>,
) -> Result<Vec<u8>, Stop>
    requires zone { IsReadFor (option_copied options.now.zone) zone.now }
    ensures moves { IfOk result (λ text. IsMovesTextOfLast journal.now.journal.book.setting journal.now.journal.book.state.history (fills_in journal.now) options.now places.now zone.now.bytes.items text.items) }
    ensures refused { IfErr result IsNoClock }
{
    let book = journal.journal.book();
    moves_of(alloc, book, &journal.late_fills, options, places, zone)
}

/// The same of a book, where it is handed in which orders were filled late.
fn moves_of(
    alloc: Global,
    book: &Book,
    late_fills: &LateFills,
    options: &MovesOptions<'_>,
    places: &Places,
    zone: &ZoneFile<'_>,
) -> Result<Vec<u8>, Stop>
    requires zone { IsReadFor (option_copied options.now.zone) zone.now }
    ensures moves { IfOk result (λ text. IsMovesTextOfLast book.now.setting book.now.state.history (get compare_numbers late_fills.now) options.now places.now zone.now.bytes.items text.items) }
    ensures refused { IfErr result IsNoClock }
{
    let list = last_list(alloc, book, late_fills, options)?;
    let form = form_of(options.csv, options.json);
    moves_in(alloc, form, places, zone, &list)
}

/// What is printed of a list, with moments as they are shown in a time zone.
fn moves_in(
    alloc: Global,
    form: Form,
    places: &Places,
    zone: &ZoneFile<'_>,
    list: &MovementList,
) -> Result<Vec<u8>, Stop>
    requires { HasZoneFor zone.now.database (name_of zone.now) zone.now.bytes.items }
    ensures text { IfOk result (λ text. AreMovesIn form places.now (name_of zone.now) zone.now.bytes.items list.now text.items) }
    ensures refused { IfErr result IsNoClock }
{
    match clock_of(zone) {
        Ok(clock) => moves_by(alloc, form, places, &clock, list),
        Err(stop) => Err(stop),
    }
}

/// What is printed of a list, with moments as a clock shows them.
fn moves_by(
    alloc: Global,
    form: Form,
    places: &Places,
    clock: &Clock<'_>,
    list: &MovementList,
) -> Result<Vec<u8>, Stop>
    ensures text { IfOk result (λ text. IsFormText places.now clock.now form list.now text.items) }
    ensures refused { IfErr result (λ why. why ≡ OutOfMemory) }
{
    Ok(movements_text(alloc, places, clock, form, list)?)
}

/// The movements that are asked for.
fn last_list(
    alloc: Global,
    book: &Book,
    late_fills: &LateFills,
    options: &MovesOptions<'_>,
) -> Result<MovementList, Stop>
    ensures moves { IfOk result (AreMovesOf book.now.setting book.now.state.history (get compare_numbers late_fills.now) options.now) }
    ensures refused { IfErr result (λ why. why ≡ OutOfMemory) }
{
    let tables = tables_in_force(book);
    let (state, at) = (book.state(), options.problem.at);
    let moved = wagons_of(alloc, book, options.company)?;
    let choice = choice_of(options, lent(&moved));
    Ok(list_of_movements(alloc, book.len(), state, tables, at, late_fills, &choice)?)
}

/// The distances of the network in force.
fn tables_in_force(book: &Book) -> &Tables
    ensures { network_at book.now.setting.networks (present_office book.now).office.network ≡ Some result.now }
{
    book.networks().get(book.state().network()).unwrap()
}

/// The wagons that a company moved last, where one is asked for.
fn wagons_of(
    alloc: Global,
    book: &Book,
    company: Option<Company>,
) -> Result<Option<Vec<WagonNumber>>, AllocError>
    ensures { IfOk result (λ wagons. option_map (λ some. some.items) wagons ≡ option_map (λ company. wagons_moved_by book.now.state.history company (present_office book.now).office.wagons) company) }
{
    match company {
        Some(company) => Ok(Some(wagons_moved_by(alloc, book, company)?)),
        None => Ok(None),
    }
}

/// Wagons, lent.
fn lent(wagons: &Option<Vec<WagonNumber>>) -> Option<&[WagonNumber]>
    ensures { option_map (λ some. some.now) result ≡ option_map (λ some. some.items) wagons.now }
{
    match wagons {
        Some(wagons) => Some(wagons.as_slice()),
        None => None,
    }
}

/// Which movements are asked for, where these wagons are listed alone.
fn choice_of<'a>(options: &MovesOptions<'_>, among: Option<&'a [WagonNumber]>) -> Choice<'a>
    ensures { result ≡ choice_of options.now among.entry }
{
    Choice {
        late: options.late,
        wagon: options.wagon,
        order: options.order,
        among,
        silent: options.silent,
    }
}
