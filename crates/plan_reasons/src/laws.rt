//! Laws of the text. Their functions do nothing: the contract is the law.
ghost use Rattle.plan_reasons.specs.Laws.{
  CountsAreSettled,
  FitsAreCheaper,
  InTimeAreAllowed,
  NumbersOfOrdersBound,
  NumbersOfPairsBound,
  NumbersOfWagonsBound,
  OrderTextsAreJson,
  TestsNarrow,
  WagonTextsAreJson,
  WhyTextsAreJson,
};

/// How many wagons pass the tests for an order is settled, and each test is passed by no more than the one before it.
pub fn tests_narrow()
    ensures settled { CountsAreSettled }
    ensures narrow { TestsNarrow }
{}

/// The wagons that are counted as there in time are those that may serve the order.
pub fn in_time_are_allowed()
    ensures { InTimeAreAllowed }
{}

/// The pairs with lines of their cost are those that fail no test.
pub fn fits_are_cheaper()
    ensures { FitsAreCheaper }
{}

/// What the prices and the slacks of a text say of other plans.
pub fn numbers_are_bounds()
    ensures orders { NumbersOfOrdersBound }
    ensures wagons { NumbersOfWagonsBound }
    ensures pairs { NumbersOfPairsBound }
{}

/// Each line of a text as JSON is an object of JSON, and no line feed stands inside it.
pub fn texts_are_lines_of_json()
    ensures whole { WhyTextsAreJson }
    ensures orders { OrderTextsAreJson }
    ensures wagons { WagonTextsAreJson }
{}
