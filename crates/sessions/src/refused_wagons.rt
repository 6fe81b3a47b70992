//! The wagons of a file's messages that the status table refused.
ghost use Rattle.std.specs.Prelude.{◌≡◌, ℕ, false, IsTrue, List};
ghost use Rattle.std.specs.List.{list_any};
ghost use Rattle.sessions.specs.inner.Crossings.{one_of};
ghost use Rattle.sessions.specs.inner.RefusedWagons.{IsNotedBehind, has_wagon, no_wagon};

use rail_codes::WagonNumber;
use std::alloc::Global;
use std::collections::BTreeSet;
use std::marker::Model;

/// Wagons messages of which the status table refused. Where memory was refused for one, not all of them are there.
// Senders choose the numbers, so the set is an ordered one: a look-up is short for all of them.
#[derive(Drop)]
pub(crate) struct RefusedWagons {
    wagons: BTreeSet<WagonNumber>,
    is_lost: bool,
}

impl Model for RefusedWagons {
    ghost use Rattle.sessions.specs.inner.RefusedWagons.{RefusedWagonsValue};

    ghost Value = { RefusedWagonsValue };

    ghost view = { λ refused. record { wagons = refused.wagons.keys; is_lost = refused.is_lost } };
}

impl RefusedWagons {
    /// No wagon.
    pub(crate) fn none(alloc: Global) -> RefusedWagons
        ensures { result ≡ no_wagon }
    {
        RefusedWagons {
            wagons: BTreeSet::new(alloc),
            is_lost: false,
        }
    }

    /// Notes a wagon, where memory is to be had.
    pub(crate) fn note(&mut self, wagon: WagonNumber)
        ensures { IsNotedBehind wagon self.old self.new }
    {
        match self.wagons.insert(wagon) {
            Ok(_) => {}
            Err(_) => self.is_lost = true,
        }
    }

    /// Whether a wagon is there.
    fn has(&self, wagon: WagonNumber) -> bool
        ensures { result ≡ has_wagon wagon self.now }
    {
        self.wagons.contains(&wagon)
    }

    /// A wagon where it is there.
    pub(crate) fn one_of(&self, wagon: Option<WagonNumber>) -> Option<WagonNumber>
        ensures { result ≡ one_of self.now wagon }
    {
        let number = wagon?;
        if self.has(number) { Some(number) } else { None }
    }

    /// Whether no wagon is there.
    pub(crate) fn is_empty(&self) -> bool
        ensures { IsTrue result → (wagon : List ℕ) → has_wagon wagon self.now ≡ false }
    {
        self.wagons.is_empty()
    }

    /// Whether memory was refused for a wagon.
    pub(crate) fn is_lost(&self) -> bool
        ensures { result ≡ self.now.is_lost }
    {
        self.is_lost
    }
}

/// Whether memory was refused for a wagon of some file.
pub(crate) fn are_some_lost(files: &[RefusedWagons]) -> bool
    ensures { result ≡ list_any (λ wagons. wagons.is_lost) files.now }
{
    files.iter().any(|wagons| wagons.is_lost())
}
