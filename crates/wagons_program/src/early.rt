//! A moment that is before the newest one of an office.

use operating_db::OfficeState;
use rail_codes::Moment;
use std::alloc::AllocError;
use wagons_and_orders::WagonRow;

/// Says on standard error that a moment lies before the newest message of an office's wagons, where it does: what is printed then
/// takes wagons for free that weren't at that moment.
pub(crate) fn tell_if_early<R: Eprint + AllocGlobal>(rt: &R, at: Moment, state: &OfficeState) {
    // Where memory or standard error fails, the text is printed all the same.
    let _ = say_if_early(rt, at, state);
}

/// The same. `Err` where memory for the moments is refused.
fn say_if_early<R: Eprint + AllocGlobal>(
    rt: &R,
    at: Moment,
    state: &OfficeState,
) -> Result<(), AllocError> {
    let Some(newest) = newest_after(at, state.wagon_rows()) else {
        return Ok(());
    };
    let at = at.text(rt.alloc())?;
    let newest = newest.text(rt.alloc())?;
    let _ = eprintln!(rt; "note: --at {at} is before the newest message, {newest}");
    Ok(())
}

/// The newest moment of these wagons, where it lies behind another one.
fn newest_after(at: Moment, rows: &[WagonRow]) -> Option<Moment> {
    let mut newest = at;
    for row in rows {
        if newest < row.last {
            newest = row.last;
        }
    }
    if at < newest { Some(newest) } else { None }
}
