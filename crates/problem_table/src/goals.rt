//! What a wagon's way to an order depends on, found once for each class of wagons.
ghost use Rattle.std.specs.Prelude.{◌≡◌, ◌+◌, ◌<◌, ◌≤◌, All, IfOk, OnOk, length, position, slice_index_or};
ghost use Rattle.cost_table.specs.Names.{is_name};
ghost use Rattle.cost_table.specs.TableLimits.{max_table_orders};
ghost use Rattle.problem_table.specs.declared.goals.ClassGoals.{ClassGoals};
ghost use Rattle.problem_table.specs.inner.Goals.{AreGoalsOf, goal_of, goals_from};

use line_network::Network;
use rail_codes::{ClassCode, Moment};
use std::alloc::{AllocError, Global};
use wagons_and_orders::{Wanted, accepts};

/// An order that wants wagons of a class: where, how much each loads, and by when.
#[derive(Clone, Copy)]
pub(crate) struct Goal {
    /// The order's position in the problem.
    pub(crate) order: u32,
    /// The number of its place in the network.
    pub(crate) place: usize,
    /// In kg.
    pub(crate) load: u32,
    pub(crate) latest: Moment,
}

/// The goals for the wagons of one class, ascending by order: one for each order that lists the class and whose
/// place the network has.
#[derive(Drop)]
pub(crate) struct ClassGoals {
    pub(crate) class: ClassCode,
    pub(crate) goals: Vec<Goal>,
}

/// Where the goals of a class stand among those found so far; they go behind them where they aren't there yet. The first
/// of these orders has a position in the problem, and the others follow.
pub(crate) fn class_position(
    alloc: Global,
    found: &mut Vec<ClassGoals>,
    class: ClassCode,
    network: &Network,
    first: usize,
    orders: &[Wanted],
) -> Result<usize, AllocError>
    requires few { first + length orders.now ≤ max_table_orders }
    requires found { All (AreGoalsOf network.now first orders.now) found.old.items }
    ensures found { OnOk result (All (AreGoalsOf network.now first orders.now) found.new.items) }
    ensures within { IfOk result (λ k. k < length found.new.items) }
    ensures class { IfOk result (λ k. (d : ClassGoals) → (slice_index_or found.new.items k d).class ≡ class) }
{
    if let Some(k) = position_of_class(found, class) {
        return Ok(k);
    }
    let goals = goals(alloc, class, network, first, orders)?;
    found.push(ClassGoals { class, goals })?;
    Ok(found.len() - 1)
}

/// Where the goals of a class stand.
fn position_of_class(found: &[ClassGoals], class: ClassCode) -> Option<usize>
    ensures { result ≡ position (λ one. is_name class one.class) found.now }
{
    found.iter().position(|one| one.class == class)
}

/// The goals for the wagons of a class. The list grows with them: an order without a goal takes no memory.
fn goals(
    alloc: Global,
    class: ClassCode,
    network: &Network,
    first: usize,
    orders: &[Wanted],
) -> Result<Vec<Goal>, AllocError>
    requires { first + length orders.now ≤ max_table_orders }
    ensures { IfOk result (λ goals. goals.items ≡ goals_from network.now class first orders.now) }
{
    let mut goals = Vec::new(alloc);
    for (j, wanted) in orders.iter().enumerate() {
        if let Some(goal) = goal_of(class, network, (first + j) as u32, wanted) {
            goals.push(goal)?;
        }
    }
    Ok(goals)
}

/// The goal of order j for the wagons of a class.
fn goal_of(class: ClassCode, network: &Network, j: u32, wanted: &Wanted) -> Option<Goal>
    ensures { result ≡ goal_of network.now class j wanted.now }
{
    let order = wanted.order();
    if !accepts(order, class) {
        return None;
    }
    let place = network.index_of(order.place())?;
    Some(Goal {
        order: j,
        place,
        load: order.load(),
        latest: order.latest(),
    })
}
