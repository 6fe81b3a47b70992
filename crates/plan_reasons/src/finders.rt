//! Where an order or a wagon of some name stands.
ghost use Rattle.std.specs.Prelude.{◌≡◌, ℕ, IfSome, Some, position, slice_get};
ghost use Rattle.cost_table.specs.Names.{is_name};
ghost use Rattle.cost_table.specs.Problem.{order_names, wagon_names};

use cost_table::Problem;
use rail_codes::{OrderId, WagonNumber};
use wagons_and_orders::{FreeWagon, Wanted};

/// Where the waiting order of this name stands; `None` where no order has it.
pub fn find_order(problem: &Problem, name: &OrderId) -> Option<usize>
    ensures found { IfSome result (λ j. slice_get (order_names problem.now.orders) j ≡ Some name.now) }
    ensures held { (j : ℕ) → slice_get (order_names problem.now.orders) j ≡ Some name.now → result ≡ Some j }
{
    order_at(problem.orders(), *name)
}

/// Where the free wagon of this number stands; `None` where no wagon has it.
pub fn find_wagon(problem: &Problem, number: &WagonNumber) -> Option<usize>
    ensures found { IfSome result (λ i. slice_get (wagon_names problem.now.wagons) i ≡ Some number.now) }
    ensures held { (i : ℕ) → slice_get (wagon_names problem.now.wagons) i ≡ Some number.now → result ≡ Some i }
{
    wagon_at(problem.wagons(), *number)
}

/// Where an order first stands.
fn order_at(orders: &[Wanted], name: OrderId) -> Option<usize>
    ensures { result ≡ position (λ wanted. is_name name wanted.order.id) orders.now }
{
    orders.iter().position(|wanted| wanted.order().id() == name)
}

/// Where a wagon first stands.
fn wagon_at(wagons: &[FreeWagon], number: WagonNumber) -> Option<usize>
    ensures { result ≡ position (λ wagon. is_name number wagon.number) wagons.now }
{
    wagons.iter().position(|wagon| wagon.number == number)
}
