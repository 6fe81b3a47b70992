//! How large a book may grow.
ghost use Rattle.std.specs.Prelude.{◌≡◌};

use std::marker::Model;

/// The most entries that a book may have.
pub const MAX_ENTRIES: u64 = 1_000_000;
/// The most problems that a book may keep.
pub const MAX_KEPT_PROBLEMS: u32 = 64;

/// How many entries a book may have, 1 to 1,000,000, and how many problems it keeps, 1 to 64.
#[derive(Clone, Copy)]
pub struct Limits {
    entries: u64,
    kept: u32,
}

impl Model for Limits {
    ghost use Rattle.price_checker.specs.Limits.{LimitNumbers, AreLimits};

    ghost Value = { LimitNumbers };

    ghost view = { λ limits. record { entries = limits.entries; kept = limits.kept } };

    ghost invariant = { λ limits. AreLimits limits.entries limits.kept };

    ghost inverse = { λ limits. record { entries = limits.entries; kept = limits.kept } };
}

impl Limits {
    ghost use Rattle.price_checker.specs.Limits.{AreLimits, limits_of};

    /// These limits; none where the entries are not 1 to 1,000,000 or the kept problems not 1 to 64. Takes no memory.
    pub fn new(entries: u64, kept: u32) -> Option<Limits>
        ensures { result ≡ limits_of entries kept }
    {
        if entries < 1 || MAX_ENTRIES < entries || kept < 1 || MAX_KEPT_PROBLEMS < kept {
            return None;
        }
        Some(Limits { entries, kept })
    }

    /// Does nothing: for the prover alone, it says between which bounds limits are.
    pub fn for_the_prover(&self)
        ensures { AreLimits self.now.entries self.now.kept }
    {
        let _ = &self.entries;
    }

    /// The most entries, 1 to 1,000,000.
    pub fn entries(&self) -> u64
        ensures value { result ≡ self.now.entries }
        ensures range { AreLimits self.now.entries self.now.kept }
    {
        self.entries
    }

    /// The most kept problems, 1 to 64.
    pub fn kept(&self) -> u32
        ensures value { result ≡ self.now.kept }
        ensures range { AreLimits self.now.entries self.now.kept }
    {
        self.kept
    }
}
