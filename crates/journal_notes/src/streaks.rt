//! How many messages of each wagon the status table refused in a row.
ghost use Rattle.std.specs.Prelude.{◌≡◌, [], IfOk, None, OnOk, Some};
ghost use Rattle.journal_notes.specs.Streaks.{IsWithStreak, one_more, streak_of};

use rail_codes::{Moment, WagonNumber};
use std::alloc::{AllocError, Global};
use std::collections::BTreeMap;
use std::marker::Model;

/// Messages of a wagon that were refused in a row: how many, and the moment of the first.
#[derive(Clone, Copy)]
pub struct Streak {
    pub times: u64,
    pub since: Moment,
}

/// The streak of each wagon whose last message was refused by the status table. A contract sees them by the wagons' numbers.
// Senders choose the numbers, so the map is an ordered one: a look-up is short for all of them.
#[derive(Drop)]
pub struct Streaks {
    by_wagon: BTreeMap<WagonNumber, Streak>,
}

impl Model for Streaks {
    ghost use Rattle.journal_notes.specs.Streaks.{StreaksValue};

    ghost Value = { StreaksValue };

    ghost view = { λ streaks. streaks.by_wagon.entries };
}

impl Streaks {
    /// No streak.
    pub(crate) fn none(alloc: Global) -> Streaks
        ensures { result ≡ [] }
    {
        Streaks {
            by_wagon: BTreeMap::new(alloc),
        }
    }

    /// A message of the wagon was refused: its streak with this one.
    pub(crate) fn lengthen(
        &mut self,
        number: WagonNumber,
        moment: Moment,
    ) -> Result<Streak, AllocError>
        ensures value { IfOk result (λ streak. streak ≡ one_more (streak_of self.old number) moment) }
        ensures streaks { IfOk result (λ streak. IsWithStreak number (Some streak) self.old self.new) }
    {
        let streak = one_more(self.streak_of(number), moment);
        self.put(number, &streak)?;
        Ok(streak)
    }

    /// Gives a wagon a streak.
    fn put(&mut self, number: WagonNumber, streak: &Streak) -> Result<(), AllocError>
        ensures { OnOk result (IsWithStreak number (Some streak.now) self.old self.new) }
    {
        self.by_wagon.insert(number, *streak)?;
        Ok(())
    }

    /// A message of the wagon was accepted: it has no streak. Takes no memory.
    pub(crate) fn end(&mut self, number: WagonNumber)
        ensures { IsWithStreak number None self.old self.new }
    {
        let _ = self.by_wagon.remove(&number);
    }

    /// The streak of a wagon.
    fn streak_of(&self, number: WagonNumber) -> Option<Streak>
        ensures { result ≡ streak_of self.now number }
    {
        self.by_wagon.get(&number).copied()
    }
}

/// A streak with one message more.
fn one_more(streak: Option<Streak>, moment: Moment) -> Streak
    ensures { result ≡ one_more streak moment }
{
    match streak {
        None => Streak {
            times: 1,
            since: moment,
        },
        Some(streak) => Streak {
            times: streak.times.saturating_add(1),
            since: streak.since,
        },
    }
}
