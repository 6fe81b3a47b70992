//! The answer of a check that passed.
ghost use Rattle.std.specs.Prelude.{◌≡◌};

use std::marker::Model;

/// A plan was checked: no plan of its table costs less. A contract sees its cost.
#[derive(Clone, Copy)]
pub struct Certified {
    cost: u128,
}

impl Model for Certified {
    ghost use Rattle.std.specs.Prelude.{ℕ};

    ghost Value = { ℕ };

    ghost view = { λ certified. certified.cost };

    ghost inverse = { λ n. record { cost = n } };
}

impl Certified {
    pub(crate) fn of(cost: u128) -> Certified
        ensures { result ≡ cost }
    {
        Certified { cost }
    }

    /// The cost of the plan in kilometres.
    pub fn cost(&self) -> u128
        ensures { result ≡ self.now }
    {
        self.cost
    }
}
