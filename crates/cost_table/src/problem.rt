//! What is to be distributed.
ghost use Rattle.std.specs.Prelude.{◌≡◌, ◌≤◌, Some, IfOk, IfSome, length, position, slice_get, sum};
ghost use Rattle.std.specs.List.{list_any};
ghost use Rattle.cost_table.specs.Names.{both, is_name, pair_of};
ghost use Rattle.cost_table.specs.NamesFound.{IsFoundWhere, StandAt};
ghost use Rattle.cost_table.specs.DistinctNames.{first_repeated};
ghost use Rattle.cost_table.specs.TableLimits.{max_table_orders};
ghost use Rattle.cost_table.specs.ProblemLimits.{problem_or_fault, is_too_much, IsProblem};
ghost use Rattle.cost_table.specs.Problem.{wagon_names, order_names, lacks_of, names_of_problem};

use crate::limits::{MAX_TABLE_LACK, MAX_TABLE_ORDERS, MAX_TABLE_WAGONS};
use crate::pair_names::PairNames;
use faults::TableFault;
use rail_codes::{Moment, OrderId, WagonNumber};
use std::alloc::AllocError;
use std::marker::Model;
use std::sync::Arc;
use wagons_and_orders::{FreeWagon, Wanted};

/// Free wagons and waiting orders at a moment: at most 1,000 wagons, 500 orders, and 500 lacking wagons in all;
/// no wagon and no order is listed twice. A contract sees the moment and the two lists, which copies share.
pub struct Problem {
    at: Moment,
    wagons: Arc<Vec<FreeWagon>>,
    orders: Arc<Vec<Wanted>>,
}

// Written out, it is proved here once; a derived one, in each crate that drops a value.
impl Drop for Problem {
    fn drop(self) {
        let Problem {
            at: _,
            wagons: _,
            orders: _,
        } = self;
    }
}

impl Model for Problem {
    ghost use Rattle.cost_table.specs.Problem.{ProblemValue};
    ghost use Rattle.cost_table.specs.ProblemLimits.{IsProblem};

    ghost Value = { ProblemValue };

    ghost view = { λ p. record { at = p.at; wagons = p.wagons.value.items; orders = p.orders.value.items } };

    ghost invariant = { λ p. IsProblem (record { at = p.at; wagons = p.wagons.value.items; orders = p.orders.value.items }) };
}

impl Problem {
    /// The problem of these wagons and orders at a moment. They are dropped where they are refused: with `TooLarge`
    /// (53) for over 1,000 wagons, over 500 orders or over 500 lacking wagons in all, else `DuplicateWagon` (51)
    /// with the first wagon that repeats an earlier one, else `DuplicateOrder` (52) likewise. Allocates nothing.
    pub fn new(
        at: Moment,
        wagons: Arc<Vec<FreeWagon>>,
        orders: Arc<Vec<Wanted>>,
    ) -> Result<Problem, TableFault>
        ensures { result ≡ problem_or_fault at wagons.value.items orders.value.items }
    {
        if wagons.len() > MAX_TABLE_WAGONS || lack_too_much(&orders) {
            return Err(TableFault::TooLarge);
        }
        if let Some(number) = repeated_wagon(&wagons) {
            return Err(TableFault::DuplicateWagon(number));
        }
        if let Some(id) = repeated_order(&orders) {
            return Err(TableFault::DuplicateOrder(id));
        }
        Ok(Problem { at, wagons, orders })
    }

    /// The problem of wagons and orders that are known to make one, as an office's rows do: no list is searched for
    /// names that stand twice. Allocates nothing.
    pub fn of_distinct(at: Moment, wagons: Arc<Vec<FreeWagon>>, orders: Arc<Vec<Wanted>>) -> Problem
        requires { IsProblem (record { at = at; wagons = wagons.value.items; orders = orders.value.items }) }
        ensures { result ≡ record { at = at; wagons = wagons.value.items; orders = orders.value.items } }
    {
        Problem { at, wagons, orders }
    }

    /// The same problem once more, which shares the lists. Takes no memory.
    pub fn copy(&self) -> Result<Problem, AllocError>
        ensures { IfOk result (λ problem. problem ≡ self.now) }
    {
        self.copy_at(self.at)
    }

    /// The same wagons and orders at another moment. Takes no memory.
    pub fn copy_at(&self, at: Moment) -> Result<Problem, AllocError>
        ensures { IfOk result (λ problem. problem ≡ record self.now { at = at }) }
    {
        let wagons = Arc::try_clone(&self.wagons)?;
        let orders = Arc::try_clone(&self.orders)?;
        Ok(Problem::of_distinct(at, wagons, orders))
    }

    /// The moment.
    pub fn at(&self) -> Moment
        ensures { result ≡ self.now.at }
    {
        self.at
    }

    /// The wagons.
    pub fn wagons(&self) -> &[FreeWagon]
        ensures wagons { result.now ≡ self.now.wagons }
        ensures problem { IsProblem self.now }
    {
        &self.wagons
    }

    /// The orders, each with how many wagons it lacks.
    pub fn orders(&self) -> &[Wanted]
        ensures orders { result.now ≡ self.now.orders }
        ensures problem { IsProblem self.now }
    {
        &self.orders
    }

    /// Does nothing: for the prover alone, it says between which limits a problem is.
    pub fn for_the_prover(&self)
        ensures { IsProblem self.now }
    {
        let _ = &self.at;
    }

    /// Where a wagon and an order stand, `None` where one of them is not there.
    pub fn pair_of(&self, number: WagonNumber, id: OrderId) -> Option<(usize, usize)>
        ensures value { result ≡ pair_of (names_of_problem self.now) number id }
        ensures found { IfSome result (StandAt (names_of_problem self.now) number id) }
        ensures held { IsFoundWhere (names_of_problem self.now) number id result }
    {
        positions(&self.wagons, &self.orders, number, id)
    }
}

impl PairNames for Problem {
    ghost use Rattle.cost_table.specs.Problem.{names_of_problem};

    ghost names = { names_of_problem };

    fn pair_of(&self, number: WagonNumber, id: OrderId) -> Option<(usize, usize)> {
        Problem::pair_of(self, number, id)
    }

    fn wagon_at(&self, i: usize) -> Option<WagonNumber> {
        number_at(&self.wagons, i)
    }

    fn order_at(&self, j: usize) -> Option<OrderId> {
        id_at(&self.orders, j)
    }
}

/// The wagon at a position, `None` past the end.
fn number_at(wagons: &[FreeWagon], i: usize) -> Option<WagonNumber>
    ensures { result ≡ slice_get (wagon_names wagons.now) i }
{
    wagons.get(i).map(|wagon| wagon.number)
}

/// The order at a position, `None` past the end.
fn id_at(orders: &[Wanted], j: usize) -> Option<OrderId>
    ensures { result ≡ slice_get (order_names orders.now) j }
{
    orders.get(j).map(|wanted| wanted.order().id())
}

/// Where a wagon and an order first stand.
fn positions(
    wagons: &[FreeWagon],
    orders: &[Wanted],
    number: WagonNumber,
    id: OrderId,
) -> Option<(usize, usize)>
    ensures { result ≡ both (position (λ wagon. is_name number wagon.number) wagons.now) (position (λ wanted. is_name id wanted.order.id) orders.now) }
{
    let i = position_of_wagon(wagons, number)?;
    let j = position_of_order(orders, id)?;
    Some((i, j))
}

/// Whether there are too many orders, or they lack too many wagons.
fn lack_too_much(orders: &[Wanted]) -> bool
    ensures { result ≡ is_too_much orders.now }
{
    orders.len() > MAX_TABLE_ORDERS || total_lack(orders) > MAX_TABLE_LACK
}

/// How many wagons a short list of orders lacks in all.
fn total_lack(orders: &[Wanted]) -> u64
    requires { length orders.now ≤ max_table_orders }
    ensures { result ≡ sum (lacks_of orders.now) }
{
    orders.iter().map(|wanted| u64::from(wanted.lack())).sum()
}

/// The first wagon that repeats an earlier one.
fn repeated_wagon(wagons: &[FreeWagon]) -> Option<WagonNumber>
    ensures { result ≡ first_repeated (wagon_names wagons.now) }
{
    for (k, wagon) in wagons.iter().enumerate() {
        if is_wagon_among(&wagons[..k], wagon.number) {
            return Some(wagon.number);
        }
    }
    None
}

fn is_wagon_among(wagons: &[FreeWagon], number: WagonNumber) -> bool
    ensures { result ≡ list_any (λ wagon. is_name number wagon.number) wagons.now }
{
    wagons.iter().any(|wagon| wagon.number == number)
}

/// The first order that repeats an earlier one.
fn repeated_order(orders: &[Wanted]) -> Option<OrderId>
    ensures { result ≡ first_repeated (order_names orders.now) }
{
    for (k, wanted) in orders.iter().enumerate() {
        let id = wanted.order().id();
        if is_order_among(&orders[..k], id) {
            return Some(id);
        }
    }
    None
}

fn is_order_among(orders: &[Wanted], id: OrderId) -> bool
    ensures { result ≡ list_any (λ wanted. is_name id wanted.order.id) orders.now }
{
    orders.iter().any(|wanted| wanted.order().id() == id)
}

/// Where a wagon first stands.
fn position_of_wagon(wagons: &[FreeWagon], number: WagonNumber) -> Option<usize>
    ensures { result ≡ position (λ wagon. is_name number wagon.number) wagons.now }
{
    wagons.iter().position(|wagon| wagon.number == number)
}

/// Where an order first stands.
fn position_of_order(orders: &[Wanted], id: OrderId) -> Option<usize>
    ensures { result ≡ position (λ wanted. is_name id wanted.order.id) orders.now }
{
    orders.iter().position(|wanted| wanted.order().id() == id)
}
