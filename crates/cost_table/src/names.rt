//! The names of a table's wagons and orders.
ghost use Rattle.std.specs.Prelude.{◌≡◌, [], Some, IfSome, position, slice_get};
ghost use Rattle.cost_table.specs.Names.{is_name, pair_of};
ghost use Rattle.cost_table.specs.NamesFound.{IsFoundWhere, StandAt};
ghost use Rattle.cost_table.specs.DistinctNames.{names_or_fault, repeated_from};

use crate::limits::{MAX_TABLE_ORDERS, MAX_TABLE_WAGONS};
use crate::pair_names::PairNames;
use faults::TableFault;
use rail_codes::{OrderId, WagonNumber};
use std::marker::Model;

/// The names of a table's wagons and orders, in the table's order. A contract sees them as two lists of texts.
#[derive(Drop)]
pub struct Names {
    wagons: Vec<WagonNumber>,
    orders: Vec<OrderId>,
}

impl Model for Names {
    ghost use Rattle.std.specs.Prelude.{◌≡◌, None};
    ghost use Rattle.cost_table.specs.Names.{NameLists};
    ghost use Rattle.cost_table.specs.DistinctNames.{first_repeated};

    ghost Value = { NameLists };

    ghost view = { λ names. record { wagons = names.wagons.items; orders = names.orders.items } };

    ghost invariant = { λ names. (first_repeated names.wagons.items ≡ None) × (first_repeated names.orders.items ≡ None) };
}

impl Names {
    /// The names of a table. They are dropped where they are refused: with `TooLarge` (53) for over 1,000 wagons
    /// or over 500 orders, else `DuplicateWagon` (51) with the first wagon that repeats an earlier one, else
    /// `DuplicateOrder` (52) likewise.
    pub fn new(wagons: Vec<WagonNumber>, orders: Vec<OrderId>) -> Result<Names, TableFault>
        ensures { result ≡ names_or_fault wagons.items orders.items }
    {
        if wagons.len() > MAX_TABLE_WAGONS || orders.len() > MAX_TABLE_ORDERS {
            return Err(TableFault::TooLarge);
        }
        if let Some(number) = repeated(&wagons) {
            return Err(TableFault::DuplicateWagon(number));
        }
        if let Some(id) = repeated(&orders) {
            return Err(TableFault::DuplicateOrder(id));
        }
        Ok(Names { wagons, orders })
    }

    /// The wagon at a position, `None` past the end.
    pub fn wagon_at(&self, i: usize) -> Option<WagonNumber>
        ensures { result ≡ slice_get self.now.wagons i }
    {
        self.wagons.get(i).copied()
    }

    /// The order at a position, `None` past the end.
    pub fn order_at(&self, j: usize) -> Option<OrderId>
        ensures { result ≡ slice_get self.now.orders j }
    {
        self.orders.get(j).copied()
    }

    /// Where a wagon and an order stand, `None` where one of them is not named.
    pub fn pair_of(&self, number: WagonNumber, id: OrderId) -> Option<(usize, usize)>
        ensures value { result ≡ pair_of self.now number id }
        ensures found { IfSome result (StandAt self.now number id) }
        ensures held { IsFoundWhere self.now number id result }
    {
        let i = position_of_wagon(&self.wagons, number)?;
        let j = position_of_order(&self.orders, id)?;
        Some((i, j))
    }
}

impl PairNames for Names {
    ghost names = { λ names. names };

    fn pair_of(&self, number: WagonNumber, id: OrderId) -> Option<(usize, usize)> {
        Names::pair_of(self, number, id)
    }

    fn wagon_at(&self, i: usize) -> Option<WagonNumber> {
        Names::wagon_at(self, i)
    }

    fn order_at(&self, j: usize) -> Option<OrderId> {
        Names::order_at(self, j)
    }
}

/// The first value that equals an earlier one.
fn repeated<T: Copy + PartialEq>(values: &[T]) -> Option<T>
    ensures { result ≡ repeated_from T.eq [] values.now }
{
    for (k, value) in values.iter().enumerate() {
        if values[..k].contains(value) {
            return Some(*value);
        }
    }
    None
}

/// Where a wagon first stands.
fn position_of_wagon(wagons: &[WagonNumber], number: WagonNumber) -> Option<usize>
    ensures { result ≡ position (is_name number) wagons.now }
{
    wagons.iter().position(|wagon| *wagon == number)
}

/// Where an order first stands.
fn position_of_order(orders: &[OrderId], id: OrderId) -> Option<usize>
    ensures { result ≡ position (is_name id) orders.now }
{
    orders.iter().position(|order| *order == id)
}
