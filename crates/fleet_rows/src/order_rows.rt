//! The rows of the orders.
ghost use Rattle.std.specs.Prelude.{◌≡◌, ◌+◌, ◌<◌, ◌≤◌, ◌++◌, ◌∷◌, [], IfErr, IfOk, IfSome, IsSome, None, OnErr, OnOk, count_by, length, nat_lt, option_map, position, slice_get, vec_capacity, Some};
ghost use Rattle.std.specs.List.{Contains};
ghost use Rattle.wagons_and_orders.specs.Lack.{lack_of};
ghost use Rattle.wagons_and_orders.specs.OrderRow.{placed_row};
ghost use Rattle.fleet_rows.specs.Rows.{at_order, filled_by, freed_of, is_order, max_open_wagons, open_wagons, order_in, promised_to, taken_back, wanted_open};
ghost use Rattle.fleet_rows.specs.WaitingOrders.{waiting_from};
ghost use Rattle.fleet_rows.specs.inner.Indexed.{noted, without_index};

use crate::limits::MAX_OPEN_WAGONS;
use move_messages::OrderText;
use rail_codes::{OrderId, WagonNumber};
use std::alloc::{AllocError, Global};
use std::collections::BTreeMap;
use std::marker::Model;
use wagons_and_orders::OrderRow;

/// What an office knows of its orders, in the order in which they were placed. No two have one
/// name, and the open ones want at most 500 wagons in all. A contract sees the rows.
pub struct OrderRows {
    rows: Vec<OrderRow>,
    // The index of each row by the name of its order. Customers choose the names, so the map is an
    // ordered one: a look-up in it is short for all names.
    indexes: BTreeMap<OrderId, usize>,
    // How many wagons the open orders want in all.
    open_wagons: u32,
    // The indexes of the rows that wait, ascending. Each of them wants a wagon, so they are at most as many as the
    // open orders may want; the room for them is there before the first row, so that an order that waits again wants
    // no memory.
    waiting: Vec<usize>,
}

// Written out, it is proved here once; a derived one, in each crate that drops a value.
impl Drop for OrderRows {
    fn drop(self) {
        let OrderRows {
            rows: _,
            indexes: _,
            open_wagons: _,
            waiting: _,
        } = self;
    }
}

impl Model for OrderRows {
    ghost use Rattle.std.specs.Prelude.{List, vec_capacity};
    ghost use Rattle.wagons_and_orders.specs.OrderRow.{OrderRowValue};
    ghost use Rattle.std.specs.BTreeMap.{get};
    ghost use Rattle.std.specs.Cmp.Lexicographic.{slice_cmp};
    ghost use Rattle.std.specs.Ordering.{nat_cmp};
    ghost use Rattle.fleet_rows.specs.inner.Indexed.{IsStored};

    ghost Value = { List OrderRowValue };

    ghost view = { λ o. o.rows.items };

    ghost invariant = { λ o. IsStored o.rows.items (get (slice_cmp nat_cmp) o.indexes) o.open_wagons o.waiting.items (vec_capacity o.waiting) };
}

impl OrderRows {
    ghost use Rattle.fleet_rows.specs.KeptOrders.{IsOrderRows};

    /// No order.
    pub fn new(alloc: Global) -> OrderRows
        ensures { result ≡ [] }
    {
        OrderRows {
            rows: Vec::new(alloc),
            indexes: BTreeMap::new(alloc),
            open_wagons: 0,
            waiting: Vec::new(alloc),
        }
    }

    /// The rows, as placed.
    pub fn as_slice(&self) -> &[OrderRow]
        ensures rows { result.now ≡ self.now }
        ensures valid { IsOrderRows self.now }
    {
        &self.rows
    }

    /// Does nothing: for the prover alone, it says what the rows keep.
    pub fn for_the_prover(&self)
        ensures { IsOrderRows self.now }
    {
        let _ = &self.rows;
    }

    /// The indexes of the orders that wait, ascending.
    pub fn waiting(&self) -> &[usize]
        ensures { result.now ≡ waiting_from 0 self.now }
    {
        &self.waiting
    }

    /// The row of an order, where the office has it.
    pub fn get(&self, id: OrderId) -> Option<&OrderRow>
        ensures { option_map (λ row. row.now) result ≡ order_in self.now id }
    {
        let (_index, row) = self.find(id)?;
        Some(row)
    }

    /// The row of an order and its index, where the office has it.
    pub fn find(&self, id: OrderId) -> Option<(usize, &OrderRow)>
        ensures row { option_map (λ found. found.1.now) result ≡ order_in self.now id }
        ensures index { IfSome result (λ found. slice_get self.now found.0 ≡ Some found.1.now) }
    {
        let index = self.index_of(id)?;
        let row = self.rows.get(index)?;
        Some((index, row))
    }

    /// Where the row of an order stands, where there is one.
    fn index_of(&self, id: OrderId) -> Option<usize>
        ensures { result ≡ position (is_order id) self.now }
    {
        self.indexes.get(&id).copied()
    }

    /// How many wagons the open orders want in all, at most 500.
    pub fn open_wagons(&self) -> u32
        ensures value { result ≡ open_wagons self.now }
        ensures few { result ≤ max_open_wagons }
    {
        self.open_wagons
    }

    /// Adds the row of an order just placed. Where memory is out, nothing changes.
    pub fn push(&mut self, alloc: Global, text: OrderText) -> Result<(), AllocError>
        requires new { order_in self.old text.id ≡ None }
        requires few_open { open_wagons self.old + text.wagons ≤ max_open_wagons }
        ensures added { OnOk result (self.new ≡ self.old ++ placed_row text ∷ []) }
        ensures refused { OnErr result (self.new ≡ self.old) }
    {
        let row = OrderRow::new(alloc, text)?;
        self.push_row(alloc, row)
    }

    /// Adds a row. Where memory is out, nothing changes.
    pub fn push_row(&mut self, alloc: Global, row: OrderRow) -> Result<(), AllocError>
        requires new { order_in self.old row.text.id ≡ None }
        requires few_open { open_wagons self.old + wanted_open row ≤ max_open_wagons }
        ensures added { OnOk result (self.new ≡ self.old ++ row ∷ []) }
        ensures refused { OnErr result (self.new ≡ self.old) }
    {
        self.rows.reserve(1)?;
        self.waiting.reserve(MAX_OPEN_WAGONS as usize + 1)?;
        let index = self.rows.len();
        self.indexes.insert(row.text().id(), index)?;
        note(&mut self.waiting, index, row.is_waiting());
        self.open_wagons += wanted_open(&row);
        self.rows.push(row).unwrap();
        Ok(())
    }

    /// The same rows once more.
    pub fn copy(&self, alloc: Global) -> Result<OrderRows, AllocError>
        ensures { IfOk result (λ orders. orders ≡ self.now) }
    {
        let mut copy = OrderRows::new(alloc);
        for row in &self.rows {
            copy.push_row(alloc, row.copy(alloc)?)?;
        }
        Ok(copy)
    }

    /// Promises a wagon to an order that lacks one. Takes no memory.
    pub fn promise(&mut self, id: OrderId, number: WagonNumber)
        requires known { IsSome (order_in self.old id) }
        requires lacking { IfSome (order_in self.old id) (λ row. 0 < lack_of row) }
        requires unpromised { IfSome (order_in self.old id) (λ row. ¬ Contains row.promised number) }
        ensures { self.new ≡ at_order id (promised_to number) self.old }
    {
        let index = self.index_of(id).unwrap();
        let row = &mut self.rows[index];
        row.promise(number);
        note(&mut self.waiting, index, row.is_waiting());
    }

    /// A wagon promised to an order fills it. Takes no memory.
    pub fn fill(&mut self, id: OrderId, number: WagonNumber)
        requires known { IsSome (order_in self.old id) }
        requires promised { IfSome (order_in self.old id) (λ row. Contains row.promised number) }
        ensures { self.new ≡ at_order id (filled_by number) self.old }
    {
        let index = self.index_of(id).unwrap();
        let row = &mut self.rows[index];
        let before = wanted_open(row);
        row.fill(number);
        let after = wanted_open(row);
        self.open_wagons -= before - after;
        note(&mut self.waiting, index, row.is_waiting());
    }

    /// Ends the promise of a wagon to an order, where there is one. Takes no memory.
    pub fn end_promise(&mut self, id: OrderId, number: WagonNumber)
        requires { IsSome (order_in self.old id) }
        ensures { self.new ≡ at_order id (freed_of number) self.old }
    {
        let index = self.index_of(id).unwrap();
        let row = &mut self.rows[index];
        row.end_promise(number);
        note(&mut self.waiting, index, row.is_waiting());
    }

    /// Takes the order at an index back, with all its promises. Takes no memory.
    pub fn withdraw(&mut self, index: usize)
        requires { index < length self.old }
        ensures { IfSome (slice_get self.old index) (λ row. self.new ≡ at_order row.text.id taken_back self.old) }
    {
        let row = &mut self.rows[index];
        self.open_wagons -= wanted_open(row);
        row.withdraw();
        note(&mut self.waiting, index, row.is_waiting());
    }
}

/// How many wagons an order wants while it is open.
fn wanted_open(row: &OrderRow) -> u32
    ensures { result ≡ wanted_open row.now }
{
    if row.is_open() {
        row.text().wagons()
    } else {
        0
    }
}

/// Notes whether the row at an index waits. Takes no memory.
fn note(waiting: &mut Vec<usize>, index: usize, waits: bool)
    requires { length waiting.old.items < vec_capacity waiting.old }
    ensures items { waiting.new.items ≡ noted index waits waiting.old.items }
    ensures room { vec_capacity waiting.new ≡ vec_capacity waiting.old }
{
    take_off(waiting, index);
    if waits {
        let before = count_below(waiting, index);
        waiting.insert(before, index).unwrap();
    }
}

/// Takes an index off a list. Takes no memory.
fn take_off(indexes: &mut Vec<usize>, index: usize)
    ensures items { indexes.new.items ≡ without_index index indexes.old.items }
    ensures fewer { length indexes.new.items ≤ length indexes.old.items }
    ensures room { vec_capacity indexes.new ≡ vec_capacity indexes.old }
{
    indexes.retain(|other| *other != index);
}

/// How many of the indexes are below one.
fn count_below(indexes: &[usize], index: usize) -> usize
    ensures { result ≡ count_by (λ other. nat_lt other index) indexes.now }
{
    indexes.iter().filter(|other| **other < index).count()
}
