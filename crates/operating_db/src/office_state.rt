//! The state of an office.
ghost use Rattle.std.specs.Prelude.{◌≡◌, ◌≤◌, ◌↔◌, IsTrue, Ok, Err, IfOk, IfErr, IsOk, OnErr, OnOk, option_copied, option_map};
ghost use Rattle.std.specs.List.{list_all};
ghost use Rattle.fleet_rows.specs.Kept.{IsWagonRows};
ghost use Rattle.fleet_rows.specs.KeptOrders.{IsOrderRows};
ghost use Rattle.fleet_rows.specs.Rows.{order_in, wagon_in};
ghost use Rattle.operating_db.specs.After.{after_call, after_message, after_order, after_revision, order_place, withdrawn_from};
ghost use Rattle.operating_db.specs.inner.EventParts.{IsNext, is_promisable};
ghost use Rattle.operating_db.specs.MessageChange.{IsChangeOf};
ghost use Rattle.operating_db.specs.ApplyFault.{IsRefusal, IsRefusalOf, MayRunOutOfMemory};
ghost use Rattle.operating_db.specs.Commits.{CanPromise, is_free_row, lack_in, promise_all, promise_pair};
ghost use Rattle.operating_db.specs.RosterOffice.{first_office};
ghost use Rattle.operating_db.specs.FreeCount.{free_count};
ghost use Rattle.operating_db.specs.Problem.{problem_of};
ghost use Rattle.operating_db.specs.Promises.{PromisesAgree};
ghost use Rattle.line_network.specs.NetworkCount.{max_networks};
ghost use Rattle.operating_db.specs.FirstOffice.{IsFirstOffice};
ghost use Rattle.operating_db.specs.State.{IsState, state_of};
ghost use Rattle.move_messages.specs.declared.event.Event.TheVariants as event;
ghost use Rattle.operating_db.specs.Steps.{IsPossible, IsPromised};

use crate::ApplyFault;
use crate::lists::{free_wagons, waiting_orders};
use crate::message_change::MessageChange;
use crate::pair_counts::{times_of_order, times_of_wagon};
use crate::promises::{end_promises, settle};
use cost_table::Problem;
use fleet_rows::{MAX_OPEN_WAGONS, OrderRows, Roster, WagonRows};
use move_messages::{Event, Message, OrderText};
use rail_codes::{ClassCode, Moment, OrderId, Place, WagonNumber};
use std::alloc::{AllocError, Global};
use std::marker::Model;
use std::sync::Arc;
use wagons_and_orders::{OrderRow, WagonRow, free, step};

/// The rows of the wagons and of the orders, and the network in force. A wagon is promised to an order exactly where
/// the order has it among its promised wagons; no two orders have one name; and each order has every promised wagon
/// once, together with those that filled it at most as many as it wants. A contract sees the office of the definitions,
/// and how many networks there are.
pub struct OfficeState {
    wagons: WagonRows,
    orders: OrderRows,
    network: u32,
    networks: u32,
}

// Written out, it is proved here once; a derived one, in each crate that drops a value.
impl Drop for OfficeState {
    fn drop(self) {
        let OfficeState {
            wagons: _,
            orders: _,
            network: _,
            networks: _,
        } = self;
    }
}

impl Model for OfficeState {
    ghost use Rattle.operating_db.specs.State.{StateValue, IsState, state_of};

    ghost Value = { StateValue };

    ghost view = { λ state. state_of state.wagons state.orders state.network state.networks };

    ghost invariant = { λ state. IsState (state_of state.wagons state.orders state.network state.networks) };
}

impl OfficeState {
    /// The office of a roster, where there are so many networks: no order, and the first network is in force.
    pub fn new(alloc: Global, roster: &Roster, networks: u32) -> Result<OfficeState, AllocError>
        requires from_one { 1 ≤ networks }
        requires few { networks ≤ max_networks }
        ensures { IfOk result (λ state. state ≡ record { office = first_office roster.now; networks = networks }) }
    {
        Ok(OfficeState {
            wagons: WagonRows::from_rows(alloc, roster.rows())?,
            orders: OrderRows::new(alloc),
            network: 1,
            networks,
        })
    }

    /// The office of these rows, with a network in force, where there are so many networks. The promises of the wagons and
    /// those of the orders must agree.
    pub fn from_rows(
        wagons: WagonRows,
        orders: OrderRows,
        network: u32,
        networks: u32,
    ) -> OfficeState
        requires { IsState (state_of wagons orders network networks) }
        ensures { result ≡ state_of wagons orders network networks }
    {
        OfficeState {
            wagons,
            orders,
            network,
            networks,
        }
    }

    /// The same office once more.
    pub fn copy(&self, alloc: Global) -> Result<OfficeState, AllocError>
        ensures { IfOk result (λ state. state ≡ self.now) }
    {
        Ok(OfficeState {
            wagons: WagonRows::from_rows(alloc, self.wagons.as_slice())?,
            orders: self.orders.copy(alloc)?,
            network: self.network,
            networks: self.networks,
        })
    }

    /// The office with these rows of wagons in place of its own. The promises must still agree.
    pub(crate) fn with_wagons(
        &self,
        alloc: Global,
        rows: &[WagonRow],
    ) -> Result<OfficeState, AllocError>
        requires valid { IsWagonRows rows.now }
        requires agree { PromisesAgree (record self.now.office { wagons = rows.now }) }
        ensures { IfOk result (λ state. state ≡ record self.now { office = record self.now.office { wagons = rows.now } }) }
    {
        Ok(OfficeState {
            wagons: WagonRows::from_rows(alloc, rows)?,
            orders: self.orders.copy(alloc)?,
            network: self.network,
            networks: self.networks,
        })
    }

    /// The row of a wagon. Takes no memory.
    pub fn wagon(&self, number: WagonNumber) -> Option<&WagonRow>
        ensures { option_copied result ≡ wagon_in self.now.office.wagons number }
    {
        self.wagons.get(number)
    }

    /// The row of an order. Takes no memory.
    pub fn order(&self, id: OrderId) -> Option<&OrderRow>
        ensures { option_map (λ row. row.now) result ≡ order_in self.now.office.orders id }
    {
        self.orders.get(id)
    }

    /// The rows of all wagons, ascending by number. Takes no memory.
    pub fn wagon_rows(&self) -> &[WagonRow]
        ensures rows { result.now ≡ self.now.office.wagons }
        ensures valid { IsWagonRows self.now.office.wagons }
        ensures agree { PromisesAgree self.now.office }
    {
        self.wagons.as_slice()
    }

    /// The rows of all orders, as placed. Takes no memory.
    pub fn order_rows(&self) -> &[OrderRow]
        ensures rows { result.now ≡ self.now.office.orders }
        ensures valid { IsOrderRows self.now.office.orders }
    {
        self.orders.as_slice()
    }

    /// The network in force, counted from 1. Takes no memory.
    pub fn network(&self) -> u32
        ensures value { result ≡ self.now.office.network }
        ensures valid { IsState self.now }
    {
        self.network
    }

    /// Does nothing: for the prover alone, it says what every office keeps.
    pub fn for_the_prover(&self)
        ensures wagons { IsWagonRows self.now.office.wagons }
        ensures orders { IsOrderRows self.now.office.orders }
        ensures valid { IsState self.now }
        ensures first { IsFirstOffice self.now.networks self.now.office }
    {
        self.wagons.for_the_prover();
        self.orders.for_the_prover();
    }

    /// How many networks there are, 1 to 8. Takes no memory.
    pub fn networks(&self) -> u32
        ensures value { result ≡ self.now.networks }
        ensures valid { IsState self.now }
    {
        self.networks
    }

    /// What is to be distributed at a moment: every free wagon, ascending by number, and every waiting order, as
    /// placed, with how many wagons it lacks.
    pub fn problem(&self, alloc: Global, at: Moment) -> Result<Problem, AllocError>
        ensures { IfOk result (λ problem. problem ≡ problem_of self.now.office at) }
    {
        // No name stands twice among the orders, and the open ones want at most 500 wagons.
        self.orders.for_the_prover();
        let free = free_wagons(alloc, self.wagons.as_slice(), self.wagons.are_free())?;
        let waiting = waiting_orders(alloc, &self.orders)?;
        let wagons = Arc::new(alloc, free)?;
        let orders = Arc::new(alloc, waiting)?;
        Ok(Problem::of_distinct(at, wagons, orders))
    }

    /// How many free wagons of a class stand at a place. Takes no memory.
    pub fn free_count(&self, class: ClassCode, place: Place) -> usize
        ensures { result ≡ free_count self.now.office.wagons class place }
    {
        self.wagons.free_count(class, place)
    }

    /// Whether these pairs can be promised together: no wagon stands twice, each is free now, and each order lacks as
    /// many wagons now as it is given. Takes no memory.
    pub fn can_promise(&self, pairs: &[(WagonNumber, OrderId)]) -> bool
        ensures { IsTrue result ↔ CanPromise self.now.office pairs.now }
    {
        self.are_promisable(pairs)
    }

    /// Whether each pair of a commit can be promised.
    fn are_promisable(&self, pairs: &[(WagonNumber, OrderId)]) -> bool
        ensures { result ≡ list_all (is_promisable self.now.office pairs.now) pairs.now }
    {
        pairs.iter().all(|pair| self.is_promisable(pairs, pair))
    }

    /// Whether a pair of a commit can be promised.
    fn is_promisable(&self, pairs: &[(WagonNumber, OrderId)], pair: &(WagonNumber, OrderId)) -> bool
        ensures { result ≡ is_promisable self.now.office pairs.now pair.now }
    {
        let (number, id) = *pair;
        times_of_wagon(number, pairs) <= 1
            && self.is_free(number)
            && times_of_order(id, pairs) <= self.lack(id) as usize
    }

    /// Whether the office has this wagon, and it is free.
    fn is_free(&self, number: WagonNumber) -> bool
        ensures { result ≡ is_free_row (wagon_in self.now.office.wagons number) }
    {
        match self.wagons.get(number) {
            Some(row) => free(row).is_some(),
            None => false,
        }
    }

    /// How many wagons an order lacks; an unknown one lacks none. Takes no memory.
    pub fn lack(&self, id: OrderId) -> u32
        ensures { result ≡ lack_in (order_in self.now.office.orders id) }
    {
        match self.orders.get(id) {
            Some(row) => row.lack(),
            None => 0,
        }
    }

    /// What `apply` would answer to an event, were there memory enough. Takes no memory.
    #[tactic(auto, unfolding(crate::specs::After::after_call))]
    pub fn possible(&self, event: &Event) -> Result<(), ApplyFault>
        requires { IsPromised self.now.office event.now }
        ensures possible { OnOk result (IsPossible self.now.networks self.now.office event.now) }
        ensures refused { IfErr result (λ fault. after_call self.now.networks self.now.office event.now ≡ Err fault) }
    {
        match event {
            Event::Message(message) => match self.change_by(message, None) {
                Ok(_) => Ok(()),
                Err(fault) => Err(fault),
            },
            Event::Place(text) => self.placeable(text),
            Event::Withdraw(id) => self.withdrawable(*id),
            Event::Commit(_) => Ok(()),
            Event::Revise(network) => self.revisable(*network),
        }
    }

    /// Lets an event happen: the office is then that of the definitions. A commit promises its pairs, which must be
    /// possible together (`can_promise`).
    ///
    /// Refused, with the office unchanged: a message with `UnknownWagon` (73), else as the status table says (31 to
    /// 33); an order with `OrderKnown` (74), else with `TooManyOpen` (75) where the open orders and this one want over
    /// 500 wagons in all, else with `OutOfMemory` (1); a withdrawal with `UnknownOrder` (76), else with `OrderClosed`
    /// (77); a revision with `UnknownNetwork` (79), else with `SameNetwork` (80).
    #[tactic(auto, unfolding(crate::specs::After::after_call))]
    pub fn apply(&mut self, alloc: Global, event: &Event) -> Result<(), ApplyFault>
        requires { IsPromised self.old.office event.now }
        ensures done { OnOk result (after_call self.old.networks self.old.office event.now ≡ Ok self.new.office) }
        ensures refused { IfErr result (λ fault. IsRefusal (after_call self.old.networks self.old.office event.now) fault) }
        ensures by_event { IfErr result (λ fault. IsRefusalOf event.now (after_call self.old.networks self.old.office event.now) fault) }
        ensures memory { IfErr result (λ fault. fault ≡ ApplyFault.OutOfMemory → MayRunOutOfMemory event.now) }
        ensures unchanged { OnErr result (self.new ≡ self.old) }
        ensures networks { self.new.networks ≡ self.old.networks }
    {
        match event {
            Event::Message(message) => self.accept(message),
            Event::Place(text) => self.place(alloc, text),
            Event::Withdraw(id) => self.withdraw(*id),
            Event::Commit(commit) => {
                self.commit(commit.pairs.as_slice());
                Ok(())
            }
            Event::Revise(network) => self.revise(*network),
        }
    }

    /// What a message changes, which `accept_change` lets happen; refused as by `possible`. Takes no memory.
    #[tactic(auto, unfolding(crate::specs::After::after_call))]
    pub fn change_by(
        &self,
        message: &Message,
        index: Option<usize>,
    ) -> Result<MessageChange, ApplyFault>
        ensures change { IfOk result (IsChangeOf self.now.office message.now) }
        ensures possible { OnOk result (IsOk (after_call self.now.networks self.now.office (event.Message message.now))) }
        ensures refused { IfErr result (λ fault. after_call self.now.networks self.now.office (event.Message message.now) ≡ Err fault) }
        ensures memory { IfErr result (λ fault. ¬ (fault ≡ ApplyFault.OutOfMemory)) }
    {
        // No wagon carries over 200,000 kg.
        self.wagons.for_the_prover();
        let Some((index, row)) = self.wagons.find_near(message.wagon, index) else {
            return Err(ApplyFault::UnknownWagon);
        };
        match step(row, message, self.order_place(row.promise)) {
            Ok(change) => Ok(MessageChange {
                index,
                change,
                promise: row.promise,
            }),
            Err(fault) => Err(ApplyFault::Step(fault)),
        }
    }

    /// Where the order of a promise wants its wagons.
    fn order_place(&self, promise: Option<OrderId>) -> Option<Place>
        ensures { result ≡ order_place self.now.office.orders promise }
    {
        let row = self.orders.get(promise?)?;
        Some(row.text().place())
    }

    /// Takes a message in.
    #[tactic(auto, unfolding(crate::specs::After::after_call))]
    fn accept(&mut self, message: &Message) -> Result<(), ApplyFault>
        ensures done { OnOk result (after_message self.old.office message.now ≡ Ok self.new.office) }
        ensures refused { IfErr result (λ fault. after_message self.old.office message.now ≡ Err fault) }
        ensures memory { IfErr result (λ fault. ¬ (fault ≡ ApplyFault.OutOfMemory)) }
        ensures unchanged { OnErr result (self.new ≡ self.old) }
        ensures networks { self.new.networks ≡ self.old.networks }
    {
        let found = match self.change_by(message, None) {
            Ok(found) => found,
            Err(fault) => return Err(fault),
        };
        self.accept_change(message, &found);
        Ok(())
    }

    /// Lets a message happen, by what `change_by` found in this office. Takes no memory.
    #[tactic(auto, unfolding(crate::specs::After::after_call))]
    pub fn accept_change(&mut self, message: &Message, found: &MessageChange)
        requires { IsChangeOf self.old.office message.now found.now }
        ensures done { after_call self.old.networks self.old.office (event.Message message.now) ≡ Ok self.new.office }
        ensures networks { self.new.networks ≡ self.old.networks }
    {
        // The row that the message finds is one that an office can have.
        self.wagons.for_the_prover();
        self.wagons.put(found.index, &found.change.row);
        let effect = found.change.effect;
        settle(&mut self.orders, effect, found.promise, message.wagon);
    }

    /// Whether an order may be placed.
    fn placeable(&self, text: &OrderText) -> Result<(), ApplyFault>
        ensures possible { OnOk result (IsOk (after_order self.now.office text.now)) }
        ensures refused { IfErr result (λ fault. after_order self.now.office text.now ≡ Err fault) }
    {
        if self.orders.get(text.id()).is_some() {
            return Err(ApplyFault::OrderKnown);
        }
        if self.orders.open_wagons() + text.wagons() > MAX_OPEN_WAGONS {
            return Err(ApplyFault::TooManyOpen);
        }
        Ok(())
    }

    /// Places an order.
    fn place(&mut self, alloc: Global, text: &OrderText) -> Result<(), ApplyFault>
        ensures done { OnOk result (after_order self.old.office text.now ≡ Ok self.new.office) }
        ensures refused { IfErr result (λ fault. IsRefusal (after_order self.old.office text.now) fault) }
        ensures unchanged { OnErr result (self.new ≡ self.old) }
        ensures networks { self.new.networks ≡ self.old.networks }
    {
        if let Err(fault) = self.placeable(text) {
            return Err(fault);
        }
        match self.orders.push(alloc, *text) {
            Ok(()) => Ok(()),
            Err(_) => Err(ApplyFault::OutOfMemory),
        }
    }

    /// Whether an order may be withdrawn.
    fn withdrawable(&self, id: OrderId) -> Result<(), ApplyFault>
        ensures possible { OnOk result (IsOk (withdrawn_from self.now.office id (order_in self.now.office.orders id))) }
        ensures refused { IfErr result (λ fault. withdrawn_from self.now.office id (order_in self.now.office.orders id) ≡ Err fault) }
    {
        match self.orders.get(id) {
            None => Err(ApplyFault::UnknownOrder),
            Some(row) if row.is_open() => Ok(()),
            Some(_) => Err(ApplyFault::OrderClosed),
        }
    }

    /// Withdraws an order, and ends the promises to it.
    fn withdraw(&mut self, id: OrderId) -> Result<(), ApplyFault>
        ensures done { OnOk result (withdrawn_from self.old.office id (order_in self.old.office.orders id) ≡ Ok self.new.office) }
        ensures refused { IfErr result (λ fault. withdrawn_from self.old.office id (order_in self.old.office.orders id) ≡ Err fault) }
        ensures memory { IfErr result (λ fault. ¬ (fault ≡ ApplyFault.OutOfMemory)) }
        ensures unchanged { OnErr result (self.new ≡ self.old) }
        ensures networks { self.new.networks ≡ self.old.networks }
    {
        let Some((index, row)) = self.orders.find(id) else {
            return Err(ApplyFault::UnknownOrder);
        };
        if !row.is_open() {
            return Err(ApplyFault::OrderClosed);
        }
        // No number stands twice among the wagons.
        self.wagons.for_the_prover();
        end_promises(&mut self.wagons, row.promised());
        self.orders.withdraw(index);
        Ok(())
    }

    /// Promises pairs that can be promised together.
    fn commit(&mut self, pairs: &[(WagonNumber, OrderId)])
        requires { CanPromise self.old.office pairs.now }
        ensures { self.new ≡ record self.old { office = promise_all self.old.office pairs.now } }
    {
        for (number, id) in pairs {
            self.promise(*number, *id);
        }
    }

    /// Promises a free wagon to an order that lacks one.
    fn promise(&mut self, number: WagonNumber, id: OrderId)
        requires { IsNext self.old.office (number, id) }
        ensures { self.new ≡ record self.old { office = promise_pair self.old.office (number, id) } }
    {
        self.wagons.promise(number, id);
        self.orders.promise(id, number);
    }

    /// Whether a network may be put in force.
    fn revisable(&self, network: u32) -> Result<(), ApplyFault>
        ensures possible { OnOk result (IsOk (after_revision self.now.networks self.now.office network)) }
        ensures refused { IfErr result (λ fault. after_revision self.now.networks self.now.office network ≡ Err fault) }
        ensures memory { IfErr result (λ fault. ¬ (fault ≡ ApplyFault.OutOfMemory)) }
    {
        if network == 0 || self.networks < network {
            return Err(ApplyFault::UnknownNetwork);
        }
        if network == self.network {
            return Err(ApplyFault::SameNetwork);
        }
        Ok(())
    }

    /// Puts a network in force.
    fn revise(&mut self, network: u32) -> Result<(), ApplyFault>
        ensures done { OnOk result (after_revision self.old.networks self.old.office network ≡ Ok self.new.office) }
        ensures refused { IfErr result (λ fault. after_revision self.old.networks self.old.office network ≡ Err fault) }
        ensures memory { IfErr result (λ fault. ¬ (fault ≡ ApplyFault.OutOfMemory)) }
        ensures unchanged { OnErr result (self.new ≡ self.old) }
        ensures networks { self.new.networks ≡ self.old.networks }
    {
        if let Err(fault) = self.revisable(network) {
            return Err(fault);
        }
        self.network = network;
        Ok(())
    }
}
