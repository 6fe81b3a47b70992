//! How moments are shown.
ghost use Rattle.std.specs.Prelude.{◌≡◌, ◌*◌, IfOk, pos, string_bytes};
ghost use Rattle.text_tables.specs.Clock.{IsLocalText, IsShown, nanosecond_of};

use jiff::Timestamp;
use jiff::tz::TimeZone;
use rail_codes::Moment;
use std::alloc::{AllocError, Global};

/// How moments are shown: in UTC, or as the clocks of a time zone show them.
#[derive(Clone, Copy)]
pub struct Clock<'a> {
    /// The time zone; none for UTC in the form of a moment.
    pub zone: Option<TimeZone<'a>>,
}

/// The text of a moment.
pub fn shown(alloc: Global, clock: &Clock<'_>, moment: Moment) -> Result<String, AllocError>
    ensures { IfOk result (λ text. IsShown clock.now moment (string_bytes text)) }
{
    match &clock.zone {
        None => moment.text(alloc),
        Some(zone) => local_text(alloc, zone, moment),
    }
}

/// The text of a moment in a time zone.
fn local_text(alloc: Global, zone: &TimeZone<'_>, moment: Moment) -> Result<String, AllocError>
    ensures { IfOk result (λ text. IsLocalText zone.now moment (string_bytes text)) }
{
    let instant = instant_of(moment);
    let text = instant.display_with_offset(zone.to_offset(instant));
    String::from_str(alloc, text.as_str())
}

/// The instant of a moment.
fn instant_of(moment: Moment) -> Timestamp
    ensures { result.nanosecond ≡ nanosecond_of moment }
{
    Timestamp::from_second(moment.seconds() as i64).unwrap()
}
