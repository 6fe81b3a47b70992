//! The planner: successive shortest paths over groups of wagons that have the same row.
//!
//! - **Search**: each unit that an order lacks is taken in by a search for the shortest path from that order (Dijkstra's,
//!   over reduced costs). It ends where an order gets a wagon without an order, or refuses a unit. The wagons on the path
//!   are handed on.
//! - **Prices**: then each order and group nearer than that end is priced up by how much nearer it is.
//! - **Kept**: no order's price is above a cell's cost and its group's price together, nor above the penalty. A wagon and
//!   its order have exactly that cost. A group with a wagon without an order has no price. The order of a refused unit is
//!   priced at its penalty. So the prices are a certificate at the end.
//! - **Cost**: units times orders times groups at most. For each order on its way a search passes over the groups that have
//!   no wagon without an order; of the others an order has a lower bound, found again only where it would end the search.
//! - **Memory**: one number for each order and group.
ghost use Rattle.std.specs.Prelude.{◌≡◌, ◌<◌, ◌≤◌, IfOk};
ghost use Rattle.cost_table.specs.Table.{order_count, lack_at};
ghost use Rattle.cost_table.specs.Plan.{IsOptimal, cost_of};
ghost use Rattle.price_checker.specs.Certificate.{IsCertificate};
ghost use Rattle.assignment.specs.inner.State.{IsState, kept};
ghost use Rattle.assignment.specs.inner.Taken.{HasTaken};
ghost use Rattle.assignment.specs.inner.Search.{HasRoom};

use crate::pair_list::write_pairs;
use crate::passes::{raise, spread, widen};
use crate::path::{count_unit, walk_back};
use crate::search::Search;
use crate::sequence::dearest_first;
use crate::state::State;
use crate::units::Units;
use cost_table::{Cells, Plan};
use price_checker::{Certified, Prices, check};
use std::alloc::{AllocError, Global};
use std::marker::Model;

/// A planner for one table, with all the memory that planning needs. A contract sees the table.
#[derive(Drop)]
pub struct Planner<'a> {
    state: State<'a>,
    search: Search,
    units: Units,
    sequence: Vec<(u32, usize)>,
    prices: Prices,
    pairs: Vec<(usize, usize)>,
}

impl<'a> Model for Planner<'a> {
    ghost use Rattle.cost_table.specs.Table.{Table};

    ghost Value = { Table };

    ghost use Rattle.assignment.specs.inner.Planner.{IsReady};

    ghost view = { λ p. p.state.cells.now };

    ghost invariant = { IsReady };
}

impl<'a> Planner<'a> {
    /// A planner for this table. `Err` only when out of memory.
    pub fn new(alloc: Global, cells: &'a Cells) -> Result<Planner<'a>, AllocError>
        ensures { IfOk result (λ planner. planner ≡ cells.now) }
    {
        let state = State::new(alloc, cells)?;
        let search = Search::new(alloc, state.groups.first.len(), cells.orders())?;
        let units = Units::new(alloc, cells.wagons(), cells.orders())?;
        let sequence = dearest_first(alloc, &state.v)?;
        let prices = Prices {
            u: Vec::from_elem(alloc, 0, cells.wagons())?,
            v: Vec::from_elem(alloc, 0, cells.orders())?,
        };
        let pairs = Vec::from_elem(alloc, (0, 0), cells.wagons())?;
        Ok(Planner {
            state,
            search,
            units,
            sequence,
            prices,
            pairs,
        })
    }

    /// A plan of the table at the lowest total cost, and prices in kilometres that are a certificate of it. Allocates
    /// nothing.
    pub fn plan(self) -> (Plan, Prices)
        ensures certificate { IsCertificate self.entry result.0 result.1.u.items result.1.v.items }
        ensures optimal { IsOptimal self.entry result.0 }
    {
        let Planner {
            mut state,
            mut search,
            mut units,
            sequence,
            mut prices,
            mut pairs,
        } = self;
        'orders: for entry in &sequence {
            serve_order(&mut state, &mut search, &mut units, entry.1);
        }
        let count = write_pairs(&mut pairs, &mut state);
        pairs.truncate(count);
        spread(&mut prices.u, &state.groups.of, &state.u);
        widen(&mut prices.v, &state.v);
        (Plan::new(pairs), prices)
    }
}

/// A plan of a table at the lowest total cost, and prices in kilometres that are a certificate of it. `Err` only when
/// out of memory.
pub fn plan(alloc: Global, cells: &Cells) -> Result<(Plan, Prices), AllocError>
    ensures certificate { IfOk result (λ r. IsCertificate cells.now r.0 r.1.u.items r.1.v.items) }
    ensures optimal { IfOk result (λ r. IsOptimal cells.now r.0) }
{
    Ok(Planner::new(alloc, cells)?.plan())
}

/// Takes in the units of order `j` one at a time.
fn serve_order(state: &mut State, search: &mut Search, units: &mut Units, j: usize)
    requires state { IsState state.old }
    requires room { HasRoom (kept state.old) search.old }
    requires order { j < order_count state.old.cells.now }
    ensures taken { HasTaken state.old state.new j (lack_at state.old.cells.now j) }
    ensures room { HasRoom (kept state.new) search.new }
{
    let served = serve_at_hand(state, units, j);
    'units: for _unit in served..state.cells.lack(j) {
        serve_unit(state, search, units, j);
    }
}

/// Serves units of order `j` by wagons without an order whose cost is the order's price, since no path is shorter, and
/// says how many.
fn serve_at_hand(state: &mut State, units: &mut Units, j: usize) -> u32
    requires state { IsState state.old }
    requires order { j < order_count state.old.cells.now }
    ensures taken { HasTaken state.old state.new j result }
    ensures limit { result ≤ lack_at state.old.cells.now j }
{
    let lack = state.cells.lack(j);
    let mut served = 0;
    'units: while served < lack {
        let Some(wagon) = state.at_hand(j) else {
            return served;
        };
        state.order_of[wagon] = j as u32;
        state.served[j] += 1;
        state.take(Some(wagon));
        units.give(j, served as usize, wagon);
        served += 1;
    }
    served
}

/// Takes in one more unit of order `j`: a wagon more serves it, or a unit is refused.
fn serve_unit(state: &mut State, search: &mut Search, units: &mut Units, j: usize)
    requires state { IsState state.old }
    requires room { HasRoom (kept state.old) search.old }
    requires order { j < order_count state.old.cells.now }
    ensures taken { HasTaken state.old state.new j 1 }
    ensures room { HasRoom (kept state.new) search.new }
{
    search.run(state, units, j);
    walk_back(state, units, search);
    raise(&mut state.v, &search.order_distance, search.end.distance);
    raise(&mut state.u, &search.closed_at, search.end.distance);
    count_unit(&mut state.served, search);
    state.take(search.end.wagon);
}

/// A plan of a table at the lowest total cost, prices in kilometres that are a certificate of it, and what the checker
/// answers, which tells the cost: the checker accepts every answer of the planner. `Err` only when out of memory.
pub fn certified_plan(alloc: Global, cells: &Cells) -> Result<(Plan, Prices, Certified), AllocError>
    ensures certificate { IfOk result (λ r. IsCertificate cells.now r.0 r.1.u.items r.1.v.items) }
    ensures optimal { IfOk result (λ r. IsOptimal cells.now r.0) }
    ensures cost { IfOk result (λ r. r.2 ≡ cost_of cells.now r.0) }
{
    let (plan, prices) = plan(alloc, cells)?;
    match check(cells, plan.pairs(), &prices) {
        Ok(certified) => Ok((plan, prices, certified)),
        Err(_) => unreachable!(),
    }
}
