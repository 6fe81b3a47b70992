//! Wagons that haven't been heard from.
ghost use Rattle.std.specs.Prelude.{◌≡◌};
ghost use Rattle.movements.specs.Silence.{is_silent, silent_of};

use rail_codes::{ClassCode, Moment, WagonNumber};
use wagons_and_orders::{Status, WagonRow};

/// A wagon that hasn't been heard from for some hours.
#[derive(Clone, Copy)]
pub struct SilentWagon {
    /// The wagon.
    pub wagon: WagonNumber,
    /// Its class.
    pub class: ClassCode,
    /// What it was doing when last heard of, and where.
    pub status: Status,
    /// The moment of its last message.
    pub since: Moment,
}

/// A wagon as one that hasn't been heard from.
pub(crate) fn silent_of(row: &WagonRow) -> SilentWagon
    ensures { result ≡ silent_of row.now }
{
    SilentWagon {
        wagon: row.number,
        class: row.class,
        status: row.status,
        since: row.last,
    }
}

/// Whether a wagon's last message is so many hours old, or older.
pub(crate) fn is_silent(at: Moment, hours: u64, row: &WagonRow) -> bool
    ensures { result ≡ is_silent at hours row.now }
{
    match at.seconds().checked_sub(row.last.seconds()) {
        None => false,
        Some(seconds) => hours <= seconds / 3600,
    }
}
