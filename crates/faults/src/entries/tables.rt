//! Entries of tables, plans and prices.

pub(crate) const DUPLICATE_WAGON: &str = "## 51 DuplicateWagon

A wagon stands twice. The reply names it.

- Where: table lines: `check`, `solve`. For a roster on standard error, as
  `wagons: 51 338447961008`: `run`, `feed`; for a checkpoint with the number of
  its line, as `wagons: 51 17`.
- Cause: the same number in two spellings (spaces and hyphens don't count), or
  lists or files that were joined.
- Remedy: take one of the two out.
";

pub(crate) const DUPLICATE_ORDER: &str = "## 52 DuplicateOrder

An order stands twice. The reply names it.

- Where: table lines: `check`, `solve`. For a checkpoint on standard error with
  the number of its line, as `wagons: 52 17`.
- Cause: lists that were joined, or an order for several wagons that was written
  once for each.
- Remedy: take one of the two out. An order for several wagons stands once, with
  their number in `lacks`.
";

pub(crate) const TOO_LARGE: &str = "## 53 TooLarge

A table has over 1,000 wagons, over 500 orders, or orders that lack over 500
wagons in all; or a roster or a checkpoint has over 1,000 wagons.

- Where: table lines: `check`, `solve`. For a roster on standard error, as
  `wagons: 53`: `run`, `feed`, `save`; for a checkpoint with the number of its
  line, as `wagons: 53 1003`.
- Cause: a fleet larger than the office is made for.
- Remedy: split the fleet by what doesn't exchange wagons anyway, as by class.
";

pub(crate) const UNEVEN_ROWS: &str = "## 54 UnevenRows

The lists of a table don't fit its names: `cells` must have a row for each
wagon, each row a cell for each order, and `penalties` and `lacks` an item for
each order.

- Where: table lines: `check`, `solve`.
- Cause: a wagon or an order was added or taken out in one list and not in the
  others.
- Remedy: make the lists of one length. `null` is the cell of a pair that isn't
  allowed.
";

pub(crate) const WRONG_LENGTHS: &str = "## 61 WrongLengths

There isn't one price `u` for each wagon and one price `v` for each order.

- Where: table lines: `check`. `commit` lines: `run`, `feed`.
- Cause: prices of another table or version, or prices of the paired wagons
  alone.
- Remedy: give each wagon and each order a price, also those without a pair. For
  a commit send the certificate as it was printed.
";

pub(crate) const NOT_ALLOWED: &str = "## 62 NotAllowed

A pair has no cell: the wagon doesn't suit the order, or doesn't reach it in
time. The reply names the wagon and the order.

- Where: table lines: `check`. `commit` lines: `run`, `feed`.
- Cause: a pair that was made by hand, or planned with other distances.
- Remedy: take the pair out and plan again. Class, load limit, distance and
  latest moment of the order decide which pairs are allowed.
";

pub(crate) const USED_TWICE: &str = "## 63 UsedTwice

A pair's wagon stands in an earlier pair, or earlier pairs give its order all
the wagons that it lacks. The reply names the wagon and the order.

- Where: table lines: `check`. `commit` lines: `run`, `feed`.
- Cause: pairs of two plans that were joined.
- Remedy: take the pair out and plan again.
";

pub(crate) const PRICE_GAP: &str = "## 64 PriceGap

The order's price is above the cost of the pair and the wagon's price together,
so the prices don't prove the plan least. The reply names the wagon and the
order.

- Where: table lines: `check`. `commit` lines: `run`, `feed`.
- Cause: prices that were changed, rounded or cut, prices of another table, or a
  planner that is wrong.
- Remedy: let the planner make plan and prices together, and send both as
  printed.
";

pub(crate) const OVER_PENALTY: &str = "## 65 OverPenalty

The order's price is above its penalty, so the prices don't prove the plan
least. The reply names the order.

- Where: table lines: `check`. `commit` lines: `run`, `feed`.
- Cause: as for 64; also a planner that leaves the penalties out.
- Remedy: as for 64.
";

pub(crate) const SUMS_DIFFER: &str = "## 66 SumsDiffer

The plan's cost with all `u` isn't the sum of each `v` times what its order
lacks. The reply has the two sums, in kilometres. The plan costs more than the
prices prove needed.

- Where: table lines: `check`. `commit` lines: `run`, `feed`.
- Cause: a plan that isn't the least, a pair that was taken out or changed, or
  prices of another plan.
- Remedy: plan again, and send plan and prices as printed.
";
