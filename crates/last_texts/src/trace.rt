//! The trace of a wagon or an order, as text.
ghost use Rattle.std.specs.Prelude.{◌≡◌, IfErr, IfOk, option_copied};
ghost use Rattle.last_texts.specs.TraceShown.{IsTraceIn, IsTraceShown};
ghost use Rattle.last_texts.specs.ZoneClock.{HasZoneFor, IsNoClock, IsReadFor, name_of};
ghost use Rattle.office_files.specs.declared.stop.Stop.TheVariants.{OutOfMemory};
ghost use Rattle.traces.specs.TraceText.{IsTraceText};

use crate::state::form_of;
use crate::zone::{ZoneFile, clock_of};
use command_line::StateOptions;
use office_files::Stop;
use place_names::Places;
use std::alloc::Global;
use text_tables::{Clock, Form};
use traces::{Trace, trace_text};

/// A trace as a table, as CSV or as JSON lines, by the options of `trace`; with moments as they are shown in the time zone that is
/// asked for, which was read before. Refused only with `OutOfMemory` (1), or with `OpenFailed` (93) where that zone can't be looked
/// up.
pub fn shown_trace(
    alloc: Global,
    trace: &Trace,
    options: &StateOptions<'_>,
    places: &Places,
    zone: &ZoneFile<'_>,
) -> Result<Vec<u8>, Stop>
    requires zone { IsReadFor (option_copied options.now.zone) zone.now }
    ensures trace { IfOk result (λ text. IsTraceShown trace.now options.now places.now zone.now.bytes.items text.items) }
    ensures refused { IfErr result IsNoClock }
{
    let form = form_of(options.csv, options.json);
    trace_in(alloc, trace, form, places, zone)
}

/// A trace, with moments as they are shown in a time zone.
fn trace_in(
    alloc: Global,
    trace: &Trace,
    form: Form,
    places: &Places,
    zone: &ZoneFile<'_>,
) -> Result<Vec<u8>, Stop>
    requires { HasZoneFor zone.now.database (name_of zone.now) zone.now.bytes.items }
    ensures text { IfOk result (λ text. IsTraceIn form places.now (name_of zone.now) zone.now.bytes.items trace.now text.items) }
    ensures refused { IfErr result IsNoClock }
{
    match clock_of(zone) {
        Ok(clock) => trace_by(alloc, trace, form, places, &clock),
        Err(stop) => Err(stop),
    }
}

/// A trace, with moments as a clock shows them.
fn trace_by(
    alloc: Global,
    trace: &Trace,
    form: Form,
    places: &Places,
    clock: &Clock<'_>,
) -> Result<Vec<u8>, Stop>
    ensures text { IfOk result (λ text. IsTraceText places.now clock.now form trace.now text.items) }
    ensures refused { IfErr result (λ why. why ≡ OutOfMemory) }
{
    Ok(trace_text(alloc, places, clock, form, trace)?)
}
