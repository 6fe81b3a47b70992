//! The wagons and the orders of a book's last version, as tables.
ghost use Rattle.std.specs.Prelude.{◌≡◌, IfErr, IfOk, option_copied};
ghost use Rattle.fleet_tables.specs.OrderRows.{IsOrdersText};
ghost use Rattle.fleet_tables.specs.WagonRows.{IsFleetText};
ghost use Rattle.last_texts.specs.StateOfLast.{AreOrdersIn, AreOrdersOfLast, IsFleetIn, IsFleetOfLast, form_of};
ghost use Rattle.last_texts.specs.ZoneClock.{HasZoneFor, IsNoClock, IsReadFor, name_of};
ghost use Rattle.office_files.specs.declared.stop.Stop.TheVariants.{OutOfMemory};

use crate::zone::{ZoneFile, clock_of};
use command_line::StateOptions;
use commit_book::Book;
use fleet_tables::{fleet_text, orders_text};
use office_files::Stop;
use operating_db::OfficeState;
use place_names::Places;
use std::alloc::Global;
use text_tables::{Clock, Form};

/// The wagons of a book's last version, as a table, as CSV or as JSON lines; with moments as they are shown in the time zone that
/// is asked for, which was read before. Refused only with `OutOfMemory` (1), or with `OpenFailed` (93) where that zone can't be
/// looked up.
pub fn last_fleet(
    alloc: Global,
    book: &Book,
    options: &StateOptions<'_>,
    places: &Places,
    zone: &ZoneFile<'_>,
) -> Result<Vec<u8>, Stop>
    requires zone { IsReadFor (option_copied options.now.zone) zone.now }
    ensures fleet { IfOk result (λ text. IsFleetOfLast book.now.setting book.now.state.history options.now places.now zone.now.bytes.items text.items) }
    ensures refused { IfErr result IsNoClock }
{
    let form = form_of(options.csv, options.json);
    fleet_in(alloc, book.state(), form, places, zone)
}

/// The wagons of an office, with moments as they are shown in a time zone.
fn fleet_in(
    alloc: Global,
    state: &OfficeState,
    form: Form,
    places: &Places,
    zone: &ZoneFile<'_>,
) -> Result<Vec<u8>, Stop>
    requires { HasZoneFor zone.now.database (name_of zone.now) zone.now.bytes.items }
    ensures text { IfOk result (λ text. IsFleetIn form places.now (name_of zone.now) zone.now.bytes.items state.now.office text.items) }
    ensures refused { IfErr result IsNoClock }
{
    match clock_of(zone) {
        Ok(clock) => fleet_by(alloc, state, form, places, &clock),
        Err(stop) => Err(stop),
    }
}

/// The wagons of an office, with moments as a clock shows them.
fn fleet_by(
    alloc: Global,
    state: &OfficeState,
    form: Form,
    places: &Places,
    clock: &Clock<'_>,
) -> Result<Vec<u8>, Stop>
    ensures text { IfOk result (λ text. IsFleetText places.now clock.now form state.now.office.wagons text.items) }
    ensures refused { IfErr result (λ why. why ≡ OutOfMemory) }
{
    Ok(fleet_text(alloc, places, clock, form, state)?)
}

/// The orders of a book's last version, likewise.
pub fn last_orders(
    alloc: Global,
    book: &Book,
    options: &StateOptions<'_>,
    places: &Places,
    zone: &ZoneFile<'_>,
) -> Result<Vec<u8>, Stop>
    requires zone { IsReadFor (option_copied options.now.zone) zone.now }
    ensures orders { IfOk result (λ text. AreOrdersOfLast book.now.setting book.now.state.history options.now places.now zone.now.bytes.items text.items) }
    ensures refused { IfErr result IsNoClock }
{
    let form = form_of(options.csv, options.json);
    orders_in(alloc, book.state(), form, places, zone)
}

/// The orders of an office, with moments as they are shown in a time zone.
fn orders_in(
    alloc: Global,
    state: &OfficeState,
    form: Form,
    places: &Places,
    zone: &ZoneFile<'_>,
) -> Result<Vec<u8>, Stop>
    requires { HasZoneFor zone.now.database (name_of zone.now) zone.now.bytes.items }
    ensures text { IfOk result (λ text. AreOrdersIn form places.now (name_of zone.now) zone.now.bytes.items state.now.office text.items) }
    ensures refused { IfErr result IsNoClock }
{
    match clock_of(zone) {
        Ok(clock) => orders_by(alloc, state, form, places, &clock),
        Err(stop) => Err(stop),
    }
}

/// The orders of an office, with moments as a clock shows them.
fn orders_by(
    alloc: Global,
    state: &OfficeState,
    form: Form,
    places: &Places,
    clock: &Clock<'_>,
) -> Result<Vec<u8>, Stop>
    ensures text { IfOk result (λ text. IsOrdersText places.now clock.now form state.now.office.orders text.items) }
    ensures refused { IfErr result (λ why. why ≡ OutOfMemory) }
{
    Ok(orders_text(alloc, places, clock, form, state)?)
}

/// How rows are printed.
pub(crate) fn form_of(csv: bool, json: bool) -> Form
    ensures { result ≡ form_of csv json }
{
    if json {
        Form::Json
    } else if csv {
        Form::Csv
    } else {
        Form::Table
    }
}
