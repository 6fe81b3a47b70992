//! Plans: which wagon goes to which order.
ghost use Rattle.std.specs.Prelude.{◌≡◌};
ghost use Rattle.cost_table.specs.PlanList.{IsPlanList};

use std::marker::Model;

/// Pairs of a wagon's and an order's position, ascending by order, then by wagon; no wagon is there twice.
#[derive(Drop)]
pub struct Plan {
    pairs: Vec<(usize, usize)>,
}

impl Model for Plan {
    ghost use Rattle.std.specs.Prelude.{List, ℕ};
    ghost use Rattle.cost_table.specs.PlanList.{IsPlanList};

    ghost Value = { List (ℕ × ℕ) };

    ghost view = { λ plan. plan.pairs.items };

    ghost invariant = { λ plan. IsPlanList plan.pairs.items };
}

impl Plan {
    /// The plan of these pairs.
    pub fn new(pairs: Vec<(usize, usize)>) -> Plan
        requires { IsPlanList pairs.items }
        ensures { result ≡ pairs.items }
    {
        Plan { pairs }
    }

    /// The pairs, ascending by order, then by wagon.
    pub fn pairs(&self) -> &[(usize, usize)]
        ensures pairs { result.now ≡ self.now }
        ensures kept { IsPlanList self.now }
    {
        &self.pairs
    }
}
