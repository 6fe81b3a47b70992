//! Laws of certificates. Their functions do nothing: the contract is the law.
ghost use Rattle.plan_bounds.specs.Laws.{
  IdleWagonsCostTheirPrice,
  ItsTwinSavesItsPrice,
  LacksCostThePrice,
  LeastPlansHaveNoSlack,
  MissesCostTheirSlack,
  MoreWagonsCostASlack,
  OneLessSavesThePrice,
  OneMoreCostsThePrice,
  OneWagonMoreSavesItsGain,
  PairsCostTheirSlack,
  SlacksAreTheDifference,
  SlacksAreWhole,
  WithoutAWagonCostsItsPrice,
};

/// A plan of the table costs what the certified one does, and the slacks of its pairs, the prices of its idle wagons and
/// the slacks of the wagons that its orders miss. No slack is cut off at 0. A plan that costs as little has none.
pub fn slacks_are_the_difference()
    ensures identity { SlacksAreTheDifference }
    ensures whole { SlacksAreWhole }
    ensures least { LeastPlansHaveNoSlack }
{}

/// What each plan of the table costs more, at least, that has a pair, leaves a wagon idle, refuses an order wagons, or gives
/// it more than the certified plan does.
pub fn prices_bound_other_plans()
    ensures pairs { PairsCostTheirSlack }
    ensures idle { IdleWagonsCostTheirPrice }
    ensures misses { MissesCostTheirSlack }
    ensures more { MoreWagonsCostASlack }
{}

/// What the plans of a table cost more at least, or save at most, in which an order lacks more or fewer wagons, or which has
/// one wagon more or less.
pub fn prices_bound_other_tables()
    ensures lacks { LacksCostThePrice }
    ensures one_more { OneMoreCostsThePrice }
    ensures one_less { OneLessSavesThePrice }
    ensures wagon_less { WithoutAWagonCostsItsPrice }
    ensures wagon_more { OneWagonMoreSavesItsGain }
    ensures twin { ItsTwinSavesItsPrice }
{}
