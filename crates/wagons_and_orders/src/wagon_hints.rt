//! Hints at where wagons stand in a list.

use std::alloc::{AllocError, Global};

/// Which wagon of a list was noted last under a number. They are hints, on which nothing rests: a wagon that they name is
/// looked at before it is used.
#[derive(Drop)]
pub struct WagonHints {
    slots: Vec<u16>,
}

impl WagonHints {
    /// None yet, with so many slots, a power of two: numbers whose last bits are the same share one.
    pub fn none(alloc: Global, slots: usize) -> Result<WagonHints, AllocError> {
        Ok(WagonHints {
            slots: Vec::from_elem(alloc, u16::MAX, slots)?,
        })
    }

    /// The index of the wagon that was noted last in the slot of a number; 65,535 where none was.
    pub fn at(&self, number: usize) -> usize {
        let wagon = self.slots.get(self.slot(number));
        usize::from(wagon.copied().unwrap_or(u16::MAX))
    }

    /// Notes the index of a wagon under a number.
    pub fn note(&mut self, number: usize, wagon: usize) {
        let slot = self.slot(number);
        if let Some(at) = self.slots.get_mut(slot) {
            *at = u16::try_from(wagon).unwrap_or(u16::MAX);
        }
    }

    /// The slot of a number.
    fn slot(&self, number: usize) -> usize {
        number & self.slots.len().wrapping_sub(1)
    }
}
