//! Free wagons as the tests of class, load and way see them.
ghost use Rattle.std.specs.Prelude.{◌≡◌, ◌<◌, ℕ, IfOk, IfSome, OnOk, List, Some, length, map, position, slice_get};
ghost use Rattle.std.specs.List.{count_by};
ghost use Rattle.wagons_and_orders.specs.Listed.{is_listed};
ghost use Rattle.line_network.specs.DistanceAnswers.{IsAnswered};
ghost use Rattle.line_network.specs.Network.{place_index};
ghost use Rattle.cost_table.specs.Names.{is_name};
ghost use Rattle.plan_reasons.specs.Reasons.{HasWay, IsCount};
ghost use Rattle.plan_reasons.specs.inner.Tallied.{AreSeen, AreTested, KeepsClasses, has_load, is_of_class};

use crate::certified_plan::CertifiedPlan;
use cost_table::Problem;
use line_network::{Network, Tables};
use move_messages::OrderText;
use rail_codes::ClassCode;
use std::alloc::{AllocError, Global};
use wagons_and_orders::accepts;

/// A free wagon as these tests see it.
#[derive(Clone, Copy)]
pub(crate) struct TestedWagon {
    /// Where its class stands among the classes.
    pub(crate) class: usize,
    /// The most that it carries, in kg.
    pub(crate) load_limit: u32,
    /// The number of its place in the network.
    pub(crate) place: Option<usize>,
}

/// The free wagons of a problem, and their classes, each once.
#[derive(Drop)]
pub(crate) struct TestedWagons {
    pub(crate) classes: Vec<ClassCode>,
    pub(crate) wagons: Vec<TestedWagon>,
}

/// The free wagons of a problem over a network.
pub(crate) fn tested_wagons(
    alloc: Global,
    problem: &Problem,
    network: &Network,
) -> Result<TestedWagons, AllocError>
    ensures { IfOk result (λ tested. AreTested network.now problem.now.wagons tested.classes.items tested.wagons.items) }
{
    let mut classes = Vec::new(alloc);
    let mut wagons = Vec::with_capacity(alloc, problem.wagons().len())?;
    for wagon in problem.wagons() {
        let class = class_position(&mut classes, wagon.class)?;
        let place = network.index_of(wagon.place);
        let load_limit = wagon.load_limit;
        wagons.push(TestedWagon {
            class,
            load_limit,
            place,
        })?;
    }
    Ok(TestedWagons { classes, wagons })
}

/// Where a class stands among classes; it goes behind them where it isn't there yet.
fn class_position(classes: &mut Vec<ClassCode>, class: ClassCode) -> Result<usize, AllocError>
    ensures there { IfOk result (λ k. slice_get classes.new.items k ≡ Some class) }
    ensures kept { OnOk result (KeepsClasses classes.old.items classes.new.items) }
{
    if let Some(k) = position_of(classes, class) {
        return Ok(k);
    }
    classes.push(class)?;
    Ok(classes.len() - 1)
}

/// Where a class first stands.
fn position_of(classes: &[ClassCode], class: ClassCode) -> Option<usize>
    ensures { result ≡ position (is_name class) classes.now }
{
    classes.iter().position(|one| *one == class)
}

/// Which of the classes an order lists.
pub(crate) fn listed_classes(
    alloc: Global,
    classes: &[ClassCode],
    order: &OrderText,
) -> Result<Vec<bool>, AllocError>
    ensures { IfOk result (λ listed. listed.items ≡ map (is_listed order.now.classes) classes.now) }
{
    let mut listed = Vec::with_capacity(alloc, classes.len())?;
    for k in 0..classes.len() {
        listed.push(accepts(order, classes[k]))?;
    }
    Ok(listed)
}

/// How many wagons suit an order.
#[derive(Clone, Copy)]
pub(crate) struct Suited {
    /// They are of a class that the order lists.
    pub(crate) class: u64,
    /// They carry its load, too.
    pub(crate) load: u64,
}

/// How many wagons are of a listed class, and how many of these carry a load.
pub(crate) fn count_suited(wagons: &[TestedWagon], listed: &[bool], load: u32) -> Suited
    ensures class { result.class ≡ count_by (is_of_class listed.now) wagons.now }
    ensures load { result.load ≡ count_by (has_load listed.now load) wagons.now }
{
    let mut counts = Suited { class: 0, load: 0 };
    for wagon in wagons {
        counts.class += u64::from(is_of_class(listed, wagon));
        counts.load += u64::from(has_load(listed, load, wagon));
    }
    counts
}

/// From how many of these a way leads to the order's place.
pub(crate) fn with_way(
    planned: &CertifiedPlan,
    wagons: &[TestedWagon],
    listed: &[bool],
    order: &OrderText,
) -> u64
    requires { AreSeen planned.now.network planned.now.problem.wagons order.now listed.now wagons.now }
    ensures { IsCount (λ wagon. HasWay planned.now.network wagon order.now) planned.now.problem.wagons result }
{
    let tables = planned.tables();
    let to = tables.network().index_of(order.place());
    let load = order.load();
    let mut count = 0;
    for wagon in wagons {
        let has_way = has_load(listed, load, wagon) && way(tables, wagon.place, to).is_some();
        count += u64::from(has_way);
    }
    count
}

/// The kilometres and minutes of the way between the places of these numbers.
fn way(tables: &Tables, from: Option<usize>, to: Option<usize>) -> Option<(u32, u32)>
    requires from { IfSome from (λ k. k < length tables.now.places) }
    requires to { IfSome to (λ k. k < length tables.now.places) }
    ensures { (a b : List ℕ) → place_index tables.now.places a ≡ from → place_index tables.now.places b ≡ to → IsAnswered tables.now a b result }
{
    tables.between_numbers(from?, to?)
}

/// Whether a wagon is of a listed class.
fn is_of_class(listed: &[bool], wagon: &TestedWagon) -> bool
    ensures { result ≡ is_of_class listed.now wagon.now }
{
    listed.get(wagon.class).copied().unwrap_or(false)
}

/// Whether it carries a load too.
fn has_load(listed: &[bool], load: u32, wagon: &TestedWagon) -> bool
    ensures { result ≡ has_load listed.now load wagon.now }
{
    is_of_class(listed, wagon) && load <= wagon.load_limit
}
