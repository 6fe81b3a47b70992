//! What the office knows of an order.
ghost use Rattle.std.specs.Prelude.{◌≡◌, ◌<◌, ◌↔◌, IsTrue, true, [], ◌∷◌, ◌++◌, IfOk};
ghost use Rattle.std.specs.List.{Contains};
ghost use Rattle.wagons_and_orders.specs.RowParts.{row_of_parts};

use crate::OrderState;
use crate::numbers::{are_ascending, count_below, take_off};
use move_messages::OrderText;
use rail_codes::WagonNumber;
use std::alloc::{AllocError, Global};
use std::marker::Model;

/// What the office knows of an order: what it asks for, the wagons promised to it, ascending by
/// number, and those that filled it, as delivered. Together these are never more than it wants.
/// There is room for all of them from the beginning on, so that only `new` allocates. A withdrawn
/// order has no promised wagon.
/// A contract sees a row of the definitions.
#[derive(Drop)]
pub struct OrderRow {
    text: OrderText,
    promised: Vec<WagonNumber>,
    filled: Vec<WagonNumber>,
    withdrawn: bool,
}

impl Model for OrderRow {
    ghost use Rattle.std.specs.Prelude.{◌≤◌, vec_capacity};
    ghost use Rattle.wagons_and_orders.specs.OrderRow.{OrderRowValue, IsOrderRow};

    ghost Value = { OrderRowValue };

    ghost view = { λ row. record { text = row.text; promised = row.promised.items; filled = row.filled.items; withdrawn = row.withdrawn } };

    ghost invariant = { λ row. IsOrderRow (record { text = row.text; promised = row.promised.items; filled = row.filled.items; withdrawn = row.withdrawn }) × (row.text.wagons ≤ vec_capacity row.promised) × (row.text.wagons ≤ vec_capacity row.filled) };
}

impl OrderRow {
    ghost use Rattle.wagons_and_orders.specs.OrderRow.{placed_row, IsOrderRow};
    ghost use Rattle.wagons_and_orders.specs.Lack.{lack_of, is_open, is_waiting};
    ghost use Rattle.wagons_and_orders.specs.States.{is_open_state, state_of};
    ghost use Rattle.wagons_and_orders.specs.Numbers.{with_number, without_number};
    ghost use Rattle.wagons_and_orders.specs.NumberChanges.{HasOneMore, HasAllBut};

    /// The row of an order just placed: it waits for all its wagons.
    pub fn new(alloc: Global, text: OrderText) -> Result<OrderRow, AllocError>
        ensures { IfOk result (λ row. row ≡ placed_row text) }
    {
        let room = text.wagons() as usize;
        Ok(OrderRow {
            text,
            promised: Vec::with_capacity(alloc, room)?,
            filled: Vec::with_capacity(alloc, room)?,
            withdrawn: false,
        })
    }

    /// The row of an order with these wagons promised to it, and these that filled it, as delivered; none where they are
    /// more than it wants, or the promised ones don't ascend by number.
    pub fn from_parts(
        alloc: Global,
        text: OrderText,
        promised: &[WagonNumber],
        filled: &[WagonNumber],
    ) -> Result<Option<OrderRow>, AllocError>
        ensures { IfOk result (λ row. row ≡ row_of_parts text promised.now filled.now) }
    {
        let room = text.wagons() as usize;
        if room < promised.len()
            || room - promised.len() < filled.len()
            || !are_ascending(promised)
        {
            return Ok(None);
        }
        let mut row = OrderRow::new(alloc, text)?;
        row.promised.extend_from_slice(promised)?;
        row.filled.extend_from_slice(filled)?;
        Ok(Some(row))
    }

    /// The same row once more.
    pub fn copy(&self, alloc: Global) -> Result<OrderRow, AllocError>
        ensures { IfOk result (λ row. row ≡ self.now) }
    {
        let mut row = OrderRow::new(alloc, self.text)?;
        row.promised.extend_from_slice(&self.promised)?;
        row.filled.extend_from_slice(&self.filled)?;
        row.withdrawn = self.withdrawn;
        Ok(row)
    }

    /// What the order asks for.
    pub fn text(&self) -> &OrderText
        ensures { result.now ≡ self.now.text }
    {
        &self.text
    }

    /// The wagons promised to it, ascending by number.
    pub fn promised(&self) -> &[WagonNumber]
        ensures value { result.now ≡ self.now.promised }
        ensures valid { IsOrderRow self.now }
    {
        &self.promised
    }

    /// The wagons that filled it, as delivered; one may stand several times.
    pub fn filled(&self) -> &[WagonNumber]
        ensures value { result.now ≡ self.now.filled }
        ensures valid { IsOrderRow self.now }
    {
        &self.filled
    }

    /// The state of the order.
    pub fn state(&self) -> OrderState
        ensures { result ≡ state_of self.now }
    {
        if self.withdrawn {
            OrderState::Withdrawn
        } else if self.filled.len() == self.text.wagons() as usize {
            OrderState::Filled
        } else if self.is_waiting() {
            OrderState::Waiting
        } else {
            OrderState::Promised
        }
    }

    /// How many wagons it lacks: those that it wants less those promised and those delivered; a
    /// withdrawn order lacks none.
    pub fn lack(&self) -> u32
        ensures value { result ≡ lack_of self.now }
        ensures valid { IsOrderRow self.now }
    {
        if self.withdrawn {
            return 0;
        }
        self.text.wagons() - (self.promised.len() + self.filled.len()) as u32
    }

    /// Whether it is neither filled nor withdrawn.
    pub fn is_open(&self) -> bool
        ensures value { result ≡ is_open self.now }
        ensures by_state { result ≡ is_open_state (state_of self.now) }
    {
        !self.withdrawn && self.filled.len() < self.text.wagons() as usize
    }

    /// Whether it lacks a wagon.
    pub fn is_waiting(&self) -> bool
        ensures value { result ≡ is_waiting self.now }
        ensures valid { IsOrderRow self.now }
        ensures by_state { IsTrue result ↔ (state_of self.now ≡ OrderState.Waiting) }
    {
        self.lack() > 0
    }

    /// Promises a wagon to an order that lacks one. Takes no memory.
    pub fn promise(&mut self, number: WagonNumber)
        requires lacking { 0 < lack_of self.old }
        requires unpromised { ¬ Contains self.old.promised number }
        ensures row { self.new ≡ record self.old { promised = with_number number self.old.promised } }
        ensures promised { HasOneMore number self.old.promised self.new.promised }
    {
        let place = count_below(&self.promised, number);
        self.promised.insert(place, number).unwrap();
    }

    /// A wagon promised to the order is delivered: it goes from the promised ones to those that
    /// filled it. Takes no memory.
    pub fn fill(&mut self, number: WagonNumber)
        requires { Contains self.old.promised number }
        ensures row { self.new ≡ record self.old { promised = without_number number self.old.promised; filled = self.old.filled ++ number ∷ [] } }
        ensures promised { HasAllBut number self.old.promised self.new.promised }
    {
        take_off(&mut self.promised, number);
        self.filled.push(number).unwrap();
    }

    /// Ends the promise of a wagon, where there is one. Takes no memory.
    pub fn end_promise(&mut self, number: WagonNumber)
        ensures row { self.new ≡ record self.old { promised = without_number number self.old.promised } }
        ensures promised { HasAllBut number self.old.promised self.new.promised }
    {
        take_off(&mut self.promised, number);
    }

    /// Takes the order back and ends all its promises; the wagons that filled it stay. Takes no
    /// memory.
    pub fn withdraw(&mut self)
        ensures { self.new ≡ record self.old { promised = []; withdrawn = true } }
    {
        self.promised.clear();
        self.withdrawn = true;
    }
}
