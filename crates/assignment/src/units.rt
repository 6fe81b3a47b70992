//! Where the wagons of each order are looked for first.
ghost use Rattle.std.specs.Prelude.{◌≤◌};

use std::alloc::{AllocError, Global};

/// The most units of an order.
const UNITS: usize = 20;

/// Hints at the wagons of each order, so that they are found without a pass over all. Nothing rests on them: whoever takes
/// one looks at the wagon's order.
#[derive(Drop)]
pub(crate) struct Units {
    /// A wagon of each unit, order by order.
    wagons: Vec<usize>,
    /// The unit of each wagon.
    unit_of: Vec<usize>,
}

impl Units {
    /// No unit has a wagon.
    pub(crate) fn new(alloc: Global, wagons: usize, orders: usize) -> Result<Units, AllocError>
        requires { orders ≤ 500 }
    {
        Ok(Units {
            wagons: Vec::from_elem(alloc, usize::MAX, orders * UNITS)?,
            unit_of: Vec::from_elem(alloc, usize::MAX, wagons)?,
        })
    }

    /// The wagon of a unit of order `j`, if it is known.
    pub(crate) fn wagon(&self, j: usize, unit: usize) -> Option<usize> {
        let index = j.wrapping_mul(UNITS).wrapping_add(unit);
        if index < self.wagons.len() {
            Some(self.wagons[index])
        } else {
            None
        }
    }

    /// A unit of order `j` has this wagon.
    pub(crate) fn give(&mut self, j: usize, unit: usize, wagon: usize) {
        self.set(j.wrapping_mul(UNITS).wrapping_add(unit), wagon);
    }

    /// The unit that has one wagon has another in its place.
    pub(crate) fn replace(&mut self, wagon: usize, other: usize) {
        if wagon < self.unit_of.len() {
            let index = self.unit_of[wagon];
            self.set(index, other);
        }
    }

    fn set(&mut self, index: usize, wagon: usize) {
        if index < self.wagons.len() && wagon < self.unit_of.len() {
            self.wagons[index] = wagon;
            self.unit_of[wagon] = index;
        }
    }
}
