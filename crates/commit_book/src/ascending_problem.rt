//! Problems whose wagons are found by number without a walk.
ghost use Rattle.std.specs.Prelude.{◌≡◌, IfOk, None, option_copied, position, slice_get};
ghost use Rattle.cost_table.specs.DistinctNames.{first_repeated};
ghost use Rattle.cost_table.specs.Names.{is_name, pair_of};
ghost use Rattle.cost_table.specs.Problem.{names_of_problem, wagon_names};
ghost use Rattle.commit_book.specs.Commits.{wagon_of};
ghost use Rattle.commit_book.specs.inner.Ascending.{Ascend};

use cost_table::{PairNames, Problem};
use rail_codes::{Moment, OrderId, WagonNumber};
use std::alloc::AllocError;
use std::marker::Model;
use wagons_and_orders::{FreeWagon, Wanted};

/// A problem whose wagons ascend by number, so that one is found by halves. A contract sees the problem.
#[derive(Drop)]
pub(crate) struct AscendingProblem {
    problem: Problem,
}

impl Model for AscendingProblem {
    ghost use Rattle.cost_table.specs.Problem.{ProblemValue};
    ghost use Rattle.commit_book.specs.inner.Ascending.{Ascend};

    ghost Value = { ProblemValue };

    ghost view = { λ ascending. ascending.problem };

    ghost invariant = { λ ascending. Ascend ascending.problem.wagons };
}

impl AscendingProblem {
    /// A problem whose wagons ascend by number.
    pub fn of(problem: Problem) -> AscendingProblem
        requires { Ascend problem.wagons }
        ensures { result ≡ problem }
    {
        AscendingProblem { problem }
    }

    /// The problem.
    pub fn problem(&self) -> &Problem
        ensures { result.now ≡ self.now }
    {
        &self.problem
    }

    /// The moment.
    pub fn at(&self) -> Moment
        ensures { result ≡ self.now.at }
    {
        self.problem.at()
    }

    /// The same wagons and orders at another moment.
    pub fn copy_at(&self, at: Moment) -> Result<Problem, AllocError>
        ensures { IfOk result (λ problem. problem ≡ record self.now { at = at }) }
    {
        self.problem.copy_at(at)
    }

    /// The wagon of a number, where the problem has it.
    pub fn wagon(&self, number: WagonNumber) -> Option<&FreeWagon>
        ensures { option_copied result ≡ wagon_of self.now number }
    {
        let wagons = self.problem.wagons();
        let index = position_of_wagon(wagons, number)?;
        wagons.get(index)
    }

    /// Where a wagon and an order stand, `None` where one of them is not there.
    fn positions(&self, number: WagonNumber, id: OrderId) -> Option<(usize, usize)>
        ensures { result ≡ pair_of (names_of_problem self.now) number id }
    {
        let i = position_of_wagon(self.problem.wagons(), number)?;
        let j = position_of_order(self.problem.orders(), id)?;
        Some((i, j))
    }
}

impl PairNames for AscendingProblem {
    ghost use Rattle.cost_table.specs.Problem.{names_of_problem};

    ghost names = { names_of_problem };

    fn pair_of(&self, number: WagonNumber, id: OrderId) -> Option<(usize, usize)> {
        self.positions(number, id)
    }

    fn wagon_at(&self, i: usize) -> Option<WagonNumber> {
        PairNames::wagon_at(&self.problem, i)
    }

    fn order_at(&self, j: usize) -> Option<OrderId> {
        PairNames::order_at(&self.problem, j)
    }
}

/// Where the wagon of a number stands among ascending ones.
fn position_of_wagon(wagons: &[FreeWagon], number: WagonNumber) -> Option<usize>
    requires ascending { Ascend wagons.now }
    requires distinct { first_repeated (wagon_names wagons.now) ≡ None }
    ensures { result ≡ position (is_name number) (wagon_names wagons.now) }
{
    wagons
        .binary_search_by_key(&number, |wagon| wagon.number)
        .ok()
}

/// Where an order first stands.
fn position_of_order(orders: &[Wanted], id: OrderId) -> Option<usize>
    ensures { result ≡ position (λ wanted. is_name id wanted.order.id) orders.now }
{
    orders.iter().position(|wanted| wanted.order().id() == id)
}
