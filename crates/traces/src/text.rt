//! A trace as text.
ghost use Rattle.std.specs.Prelude.{IfOk};
ghost use Rattle.traces.specs.TraceText.{IsTraceText};

use crate::asked::Asked;
use crate::following::Trace;
use crate::order_steps::order_text;
use crate::wagon_steps::wagon_text;
use place_names::Places;
use std::alloc::{AllocError, Global};
use text_tables::{Clock, Form};

/// A trace in a form: a row for each step. `Err` only when out of memory.
///
/// Of a wagon the titles for people are `line`, `entry`, `refused`, `event`, `company`, `moment`, `version`, `was`, `from`,
/// `status`, `place`, `held` and `order`, and a place has its name behind it. For a program they are
/// `line,entry,refused,event,company,moment,version,was_status,was_place,was_place_name,was_held,was_order,status,place,place_name,ready,held,order`.
/// Of an order the titles for people are `line`, `entry`, `refused`, `event`, `wagon`, `company`, `moment`, `version`, `state`,
/// `missing`, `promised` and `filled`. For a program they are
/// `line,entry,refused,event,company,moment,version,wagon,was_state,was_promised,was_filled,state,missing,promised,filled`.
///
/// `line` is the number of the line. `entry` is the number of the entry, and `refused` that of the refusal: one of the two is
/// empty. `event` is the type of the line. `company` is that of a message, `moment` that of a message or of the problem that a
/// commit names, `version` that of this problem, and `wagon` that of a message. A moment stands as `2026-03-02T07:00:00Z`, or as
/// the clocks of a time zone show it. `was`, `from` and the members with `was_` in front are of the row before the line, the
/// others behind them of the row after it; all are empty where there was no row. `ready` is since when an empty wagon is ready,
/// `held` has the word `held` or nothing, and `order` is the order that the wagon is promised to. The state is `waiting`,
/// `promised`, `filled` or `withdrawn`; `missing` is how many wagons the order misses. `promised` has the wagons promised to it,
/// ascending by number, and `filled` those that filled it, as delivered; spaces part them. In JSON `line`, `entry`, `refused`,
/// `version` and `missing` are numbers, and each other member is a string; an empty cell is `null`.
pub fn trace_text(
    alloc: Global,
    places: &Places,
    clock: &Clock<'_>,
    form: Form,
    trace: &Trace,
) -> Result<Vec<u8>, AllocError>
    ensures { IfOk result (λ text. IsTraceText places.now clock.now form trace.now text.items) }
{
    match trace.asked() {
        Asked::Wagon(_) => wagon_text(alloc, places, clock, form, trace.steps()),
        Asked::Order(_) => order_text(alloc, clock, form, trace.steps()),
    }
}
