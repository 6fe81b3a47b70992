//! What one line makes of the parts of a checkpoint.
ghost use Rattle.std.specs.Prelude.{◌≡◌, IfErr, None, Ok, OnOk, Some, option_copied, true};
ghost use Rattle.std.specs.List.{list_all};
ghost use Rattle.checkpoint.specs.Taking.{has_wagon_of, is_above_last, is_full, is_kept_by, is_promised_by, may_follow, take_end, take_head, take_line, take_next, take_order, take_wagon, with_order};
ghost use Rattle.checkpoint.specs.inner.Steps.{IsFaultOf};
ghost use Rattle.fleet_rows.specs.Rows.{order_in, wagon_in};
ghost use Rattle.operating_db.specs.Promises.{is_among, is_promise_to};
ghost use Rattle.fleet_rows.specs.SameWagons.{has_wagon};
ghost use Rattle.wagons_and_orders.specs.Lack.{is_open};

use crate::parts::Parts;
use crate::read_fault::ReadFault;
use crate::{CheckpointLine, OrderLine, read_line};
use faults::CheckpointFault;
use fleet_rows::{MAX_OPEN_WAGONS, MAX_ROSTER_WAGONS, OrderRows};
use line_engine::RunFault;
use line_fields::LineFault;
use move_messages::MAX_LOAD;
use rail_codes::{OrderId, WagonNumber};
use std::alloc::Global;
use wagons_and_orders::{OrderRow, WagonRow, is_possible};

impl Parts {
    /// Takes a line that isn't blank, number `number` of its file. After a refusal the parts are of no use.
    #[tactic(auto, unfolding(crate::specs::Taking::take_line))]
    pub(crate) fn take(
        &mut self,
        alloc: Global,
        networks: u32,
        number: u64,
        line: &[u8],
    ) -> Result<(), ReadFault>
        ensures done { OnOk result (take_line networks number self.old line.now ≡ Ok self.new) }
        ensures refused { IfErr result (IsFaultOf (take_line networks number self.old line.now)) }
    {
        match read_line(alloc, line) {
            Ok(said) => self.take_next(alloc, networks, number, said),
            Err(LineFault::OutOfMemory) => Err(ReadFault::Run(RunFault::OutOfMemory)),
            Err(fault) => Err(ReadFault::Unread(number, fault)),
        }
    }

    /// Takes what a line says. Nothing comes behind the last line, and the head comes first and once.
    fn take_next(
        &mut self,
        alloc: Global,
        networks: u32,
        number: u64,
        said: CheckpointLine,
    ) -> Result<(), ReadFault>
        ensures done { OnOk result (take_next networks number self.old self.old.ended said ≡ Ok self.new) }
        ensures refused { IfErr result (IsFaultOf (take_next networks number self.old self.old.ended said)) }
    {
        if self.ended {
            return Err(ReadFault::Line(CheckpointFault::BadCheckpointLine(number)));
        }
        match (self.network.is_some(), said) {
            (false, CheckpointLine::Head(network)) => self.take_head(networks, number, network),
            (true, CheckpointLine::Wagon(row)) => self.take_wagon(number, row),
            (true, CheckpointLine::Order(order)) => self.take_order(alloc, number, order),
            (true, CheckpointLine::End(lines)) => self.take_end(number, lines),
            _ => Err(ReadFault::Line(CheckpointFault::BadCheckpointLine(number))),
        }
    }

    /// Takes the head.
    fn take_head(&mut self, networks: u32, number: u64, network: u32) -> Result<(), ReadFault>
        ensures done { OnOk result (take_head networks number self.old network ≡ Ok self.new) }
        ensures refused { IfErr result (IsFaultOf (take_head networks number self.old network)) }
    {
        if network == 0 || networks < network {
            return Err(ReadFault::Line(CheckpointFault::UnknownNetwork(number)));
        }
        self.network = Some(network);
        Ok(())
    }

    /// Takes the row of a wagon.
    #[tactic(auto, unfolding(crate::specs::Taking::take_wagon))]
    fn take_wagon(&mut self, number: u64, row: WagonRow) -> Result<(), ReadFault>
        ensures done { OnOk result (take_wagon number self.old row ≡ Ok self.new) }
        ensures refused { IfErr result (IsFaultOf (take_wagon number self.old row)) }
    {
        if !may_follow(self.orders.as_slice(), &row) {
            return Err(ReadFault::Line(CheckpointFault::BadCheckpointLine(number)));
        }
        if self.wagons.len() >= MAX_ROSTER_WAGONS as usize {
            return Err(ReadFault::Line(CheckpointFault::TooLarge(number)));
        }
        if is_above_last(&self.wagons, row.number) {
            self.wagons.push(row)?;
            return Ok(());
        }
        if has_wagon(&self.wagons, row.number) {
            return Err(ReadFault::Line(CheckpointFault::DuplicateWagon(number)));
        }
        Err(ReadFault::Line(CheckpointFault::BadCheckpointLine(number)))
    }

    /// Takes an order.
    #[tactic(auto, unfolding(crate::specs::Taking::take_order))]
    fn take_order(&mut self, alloc: Global, number: u64, order: OrderLine) -> Result<(), ReadFault>
        ensures done { OnOk result (take_order number self.old order ≡ Ok self.new) }
        ensures refused { IfErr result (IsFaultOf (take_order number self.old order)) }
    {
        if self.orders.get(order.text().id()).is_some() {
            return Err(ReadFault::Line(CheckpointFault::DuplicateOrder(number)));
        }
        if is_full(&order) {
            return Err(ReadFault::Line(CheckpointFault::OrderFull(number)));
        }
        let Some(row) = OrderRow::from_parts(
            alloc,
            *order.text(),
            order.promised(),
            order.filled(),
        )?
        else {
            return Err(ReadFault::Line(CheckpointFault::BadCheckpointLine(number)));
        };
        self.take_row(alloc, number, row)
    }

    /// Takes the row of an order that is new and isn't full.
    fn take_row(&mut self, alloc: Global, number: u64, row: OrderRow) -> Result<(), ReadFault>
        requires new { order_in self.old.orders row.text.id ≡ None }
        requires open { is_open row ≡ true }
        ensures done { OnOk result (with_order number self.old (Some row) ≡ Ok self.new) }
        ensures refused { IfErr result (IsFaultOf (with_order number self.old (Some row))) }
    {
        if self.orders.open_wagons() + row.text().wagons() > MAX_OPEN_WAGONS {
            return Err(ReadFault::Line(CheckpointFault::TooManyOpen(number)));
        }
        if !are_promised_by(&self.wagons, row.text().id(), row.promised()) {
            return Err(ReadFault::Line(CheckpointFault::OneSidedPromise(number)));
        }
        self.orders.push_row(alloc, row)?;
        Ok(())
    }

    /// Takes the last line, which counts those before it.
    #[tactic(auto, unfolding(crate::specs::Taking::take_end))]
    fn take_end(&mut self, number: u64, lines: u64) -> Result<(), ReadFault>
        ensures done { OnOk result (take_end number self.old lines ≡ Ok self.new) }
        ensures refused { IfErr result (IsFaultOf (take_end number self.old lines)) }
    {
        let before = 1 + self.wagons.len() + self.orders.as_slice().len();
        if lines != before as u64 {
            return Err(ReadFault::Line(CheckpointFault::CheckpointCut(number)));
        }
        if !are_kept_by(&self.orders, &self.wagons) {
            return Err(ReadFault::Line(CheckpointFault::OneSidedPromise(number)));
        }
        self.ended = true;
        Ok(())
    }
}

/// Whether a wagon's row may follow these orders: there is none, and the row carries no more than a wagon may, and is one that
/// an office can have.
fn may_follow(orders: &[OrderRow], row: &WagonRow) -> bool
    ensures { result ≡ may_follow orders.now row.now }
{
    match orders {
        [] => row.load_limit <= MAX_LOAD && is_possible(row),
        [_, ..] => false,
    }
}

/// Whether a wagon's number is above that of the last row, where there is one.
fn is_above_last(rows: &[WagonRow], number: WagonNumber) -> bool
    ensures { result ≡ is_above_last rows.now number }
{
    match rows.last() {
        None => true,
        Some(row) => row.number.cmp(&number).is_lt(),
    }
}

/// Whether one of the rows is that of this wagon.
fn has_wagon(rows: &[WagonRow], number: WagonNumber) -> bool
    ensures { result ≡ has_wagon rows.now number }
{
    rows.iter().any(|row| number == row.number)
}

/// Whether an order has more wagons than it wants, or all that it wants were delivered.
fn is_full(order: &OrderLine) -> bool
    ensures { result ≡ is_full order.now }
{
    let wanted = order.text().wagons() as usize;
    wanted < order.promised().len() + order.filled().len() || wanted <= order.filled().len()
}

/// Whether each of these wagons is promised to an order by its own row. An order has at most 20.
fn are_promised_by(wagons: &[WagonRow], id: OrderId, numbers: &[WagonNumber]) -> bool
    ensures { result ≡ list_all (is_promised_by wagons.now id) numbers.now }
{
    numbers
        .iter()
        .all(|number| is_promised_by(wagons, id, *number))
}

/// Whether a wagon is promised to an order by its own row.
fn is_promised_by(wagons: &[WagonRow], id: OrderId, number: WagonNumber) -> bool
    ensures { result ≡ is_promised_by wagons.now id number }
{
    match wagon_in(wagons, number) {
        None => false,
        Some(row) => is_promise_to(row.promise, id),
    }
}

/// The row of a wagon, where there is one.
fn wagon_in(rows: &[WagonRow], number: WagonNumber) -> Option<&WagonRow>
    ensures { option_copied result ≡ wagon_in rows.now number }
{
    rows.iter().find(|row| number == row.number)
}

/// Whether a promise is one to this order.
fn is_promise_to(promise: Option<OrderId>, id: OrderId) -> bool
    ensures { result ≡ is_promise_to promise id }
{
    match promise {
        None => false,
        Some(order) => id == order,
    }
}

/// Whether the promise of each wagon is known to its order.
fn are_kept_by(orders: &OrderRows, wagons: &[WagonRow]) -> bool
    ensures { result ≡ list_all (is_kept_by orders.now) wagons.now }
{
    wagons
        .iter()
        .all(|row| has_wagon_of(orders, row.number, row.promise))
}

/// Whether the order that a wagon is promised to, if any, has it among its promised wagons.
fn has_wagon_of(orders: &OrderRows, number: WagonNumber, promise: Option<OrderId>) -> bool
    ensures { result ≡ has_wagon_of orders.now number promise }
{
    match promise {
        None => true,
        Some(id) => match orders.get(id) {
            None => false,
            Some(row) => is_among(number, row.promised()),
        },
    }
}

/// Whether a number is among these.
fn is_among(number: WagonNumber, numbers: &[WagonNumber]) -> bool
    ensures { result ≡ is_among number numbers.now }
{
    numbers.iter().any(|other| number == *other)
}
