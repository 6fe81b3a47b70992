//! Moments.
ghost use Rattle.std.specs.Prelude.{◌≡◌, ◌*◌, ◌↔◌, ℕ, pos, Ok, IsOk, IfOk, OnOk, string_bytes};
ghost use Rattle.rail_codes.specs.Moment.{AddsMoment, IsMoment, IsMomentText, moment_of_seconds, moment_of};

use crate::CodeFault;
use jiff::Timestamp;
use jiff::tz::Offset;
use std::alloc::{AllocError, Global};
use std::fmt::Write;
use std::marker::Model;

/// 2000-01-01T00:00:00Z, in seconds since 1970-01-01T00:00:00Z.
const FIRST_SECOND: u64 = 946_684_800;

/// 2099-12-31T23:59:59Z, in seconds since 1970-01-01T00:00:00Z.
const LAST_SECOND: u64 = 4_102_444_799;

/// A moment: a whole second from the year 2000 to the year 2099, in UTC. A contract sees the
/// seconds since 1970-01-01T00:00:00Z.
#[derive(Clone, Copy, Debug, PartialEq, Eq, PartialOrd, Ord)]
pub struct Moment {
    seconds: u64,
}

impl Model for Moment {
    ghost use Rattle.std.specs.Prelude.{ℕ};
    ghost use Rattle.rail_codes.specs.Moment.{IsMoment};

    ghost Value = { ℕ };

    ghost view = { λ m. m.seconds };

    ghost invariant = { λ m. IsMoment m.seconds };

    ghost inverse = { λ n. record { seconds = n } };
}

impl Moment {
    /// Reads a moment as `jiff` reads an instant, and rounds it down to whole seconds.
    ///
    /// Refused with `BadMoment` (17) where no instant is read, else with `MomentOutOfRange` (18)
    /// where the second lies before 2000 or after 2099.
    pub fn read(text: &str) -> Result<Moment, CodeFault>
        ensures { result ≡ moment_of text.now }
    {
        let Ok(instant) = text.parse::<Timestamp>() else {
            return Err(CodeFault::BadMoment);
        };
        match u64::try_from(instant.as_second()) {
            Ok(seconds) => Moment::from_seconds(seconds),
            Err(_) => Err(CodeFault::MomentOutOfRange),
        }
    }

    /// The moment so many seconds after 1970-01-01T00:00:00Z.
    ///
    /// Refused with `MomentOutOfRange` (18) before 946684800 and after 4102444799.
    pub fn from_seconds(seconds: u64) -> Result<Moment, CodeFault>
        ensures meaning { result ≡ moment_of_seconds seconds }
        ensures accepts { IsOk result ↔ IsMoment seconds }
        ensures kept { IfOk result (λ moment. moment ≡ seconds) }
    {
        if !(FIRST_SECOND..=LAST_SECOND).contains(&seconds) {
            return Err(CodeFault::MomentOutOfRange);
        }
        Ok(Moment { seconds })
    }

    /// The seconds since 1970-01-01T00:00:00Z.
    pub fn seconds(self) -> u64
        ensures value { result ≡ self }
        ensures valid { IsMoment result }
    {
        self.seconds
    }

    /// Does nothing: for the prover alone, it says what holds of every moment.
    pub fn for_the_prover(self)
        ensures { IsMoment self }
    {}

    /// The moment as text: `YYYY-MM-DDThh:mm:ssZ`.
    pub fn text(self, alloc: Global) -> Result<String, AllocError>
        ensures printed { IfOk result (λ s. IsMomentText self (string_bytes s)) }
        ensures reads_back { IfOk result (λ s. moment_of (string_bytes s) ≡ Ok self) }
    {
        let mut text = String::new(alloc);
        self.push_text(&mut text)?;
        Ok(text)
    }

    /// Adds the moment's text at the end of another.
    pub fn push_text(self, text: &mut String) -> Result<(), AllocError>
        ensures { OnOk result (AddsMoment self (string_bytes text.old) (string_bytes text.new)) }
    {
        let shown = Offset::UTC.to_datetime(instant(self));
        write!(text, "{shown}Z")
    }
}

/// The instant of a moment.
fn instant(moment: Moment) -> Timestamp
    ensures nanosecond { result.nanosecond ≡ pos (moment * 1_000_000_000) }
    ensures valid { IsMoment moment }
{
    Timestamp::from_second(moment.seconds as i64).unwrap()
}
