//! Whether a wagon will be in time.
ghost use Rattle.std.specs.Prelude.{◌≡◌};
ghost use Rattle.movements.specs.Lateness.{outlook_at, outlook_by};

use crate::movement::Way;
use rail_codes::Moment;

/// Whether a wagon will be there in time, in whole minutes.
#[derive(Clone, Copy)]
pub enum Outlook {
    /// No way leads there.
    NoWay,
    /// It is there so many minutes after the latest moment, rounded up.
    Late(u64),
    /// It is there so many minutes before the latest moment, rounded down.
    InTime(u64),
}

/// Whether a wagon with this way will be there by a latest moment.
pub(crate) fn outlook_by(latest: Moment, way: Option<Way>) -> Outlook
    ensures { result ≡ outlook_by latest way }
{
    match way {
        None => Outlook::NoWay,
        Some(way) => outlook_at(latest.seconds(), way.arrival),
    }
}

/// Whether an arrival is by a latest moment, both in seconds since 1970.
fn outlook_at(latest: u64, arrival: u64) -> Outlook
    ensures { result ≡ outlook_at latest arrival }
{
    if latest < arrival {
        Outlook::Late((arrival - latest).div_ceil(60))
    } else {
        Outlook::InTime((latest - arrival) / 60)
    }
}
