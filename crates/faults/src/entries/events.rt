//! Entries of events and commits, and of rosters.

pub(crate) const ID_REUSED: &str = "## 71 IdReused

Another message has this company and number, and the two differ.

- Where: movement messages: `run`, `feed`.
- Cause: the sender counts from the beginning again, two systems of one company
  share numbers, or a message was changed and sent under its old number.
- Remedy: give it a number that the company hasn't used in this journal. The
  same message sent again does no harm: it is answered `repeated`.
";

pub(crate) const BOOK_FULL: &str = "## 72 BookFull

The book has as many entries as `--entries` allows.

- Where: messages, `order`, `withdraw`, `commit`, `network`: `run`, `feed`.
- Cause: a day that was longer than planned.
- Remedy: save a checkpoint of the journal (`wagons save`) and begin a new
  journal with it, or start again with the same lines and more `--entries` (at
  most 1,000,000).
";

pub(crate) const UNKNOWN_WAGON: &str = "## 73 UnknownWagon

The fleet has no wagon of this number.

- Where: movement messages: `run`, `feed`. For a wagon after `--without` on
  standard error, as `wagons: 73 338447961008`: `save`.
- Cause: a wagon of another keeper, or one that joined the fleet since.
- Remedy: leave such messages out, or save a checkpoint `--with` a roster of the
  new wagons, and begin a new journal with it.
";

pub(crate) const ORDER_KNOWN: &str = "## 74 OrderKnown

An order of this name was placed before. It counts also if it is filled or
withdrawn.

- Where: `order` lines: `run`, `feed`.
- Cause: the line was sent twice, or names are used again from day to day.
- Remedy: for the same order do nothing; another one needs another name.
";

pub(crate) const TOO_MANY_OPEN: &str = "## 75 TooManyOpen

The open orders and this one want over 500 wagons in all.

- Where: `order` lines: `run`, `feed`. For a checkpoint on standard error with
  the number of its line, as `wagons: 75 17`.
- Cause: orders that nobody wants any more are still open.
- Remedy: withdraw those, or place the order once others are filled.
";

pub(crate) const UNKNOWN_ORDER: &str = "## 76 UnknownOrder

No order of this name was placed.

- Where: `withdraw` lines: `run`, `feed`.
- Cause: a misspelled name, or the order's own line was refused.
- Remedy: look the name up in the sheet.
";

pub(crate) const ORDER_CLOSED: &str = "## 77 OrderClosed

The order is filled or withdrawn already.

- Where: `withdraw` lines: `run`, `feed`.
- Cause: the withdrawal was sent twice, or came after the last wagon.
- Remedy: nothing. What was delivered can't be withdrawn.
";

pub(crate) const BAD_ROSTER_ROW: &str = "## 78 BadRosterRow

A record of a roster isn't as its rule asks. The number after it is the
record's; the header is record 1.

- Where: on standard error, as `wagons: 78 17`: `run`, `feed`.
- Cause: for record 1 a missing or other header, or an empty file; else
  semicolons in place of commas, a wrong wagon number, class, place or moment, a
  load limit over 200,000 kg or with a fraction, or a status that isn't in the
  manual's list.
- Remedy: correct the record. In a text editor it is the line of that number,
  unless the file has empty lines or line breaks in quotes.
";

pub(crate) const UNKNOWN_NETWORK: &str = "## 79 UnknownNetwork

There is no network of this number.

- Where: `network` lines: `run`, `feed`. For a checkpoint on standard error with
  the number of its line, as `wagons: 79 1`. Also in the library call `work`,
  if its networks aren't those of the book.
- Cause: fewer `--network` files were given than the lines or the checkpoint
  count with. They are numbered from 1, in the order in which they are given.
- Remedy: start again with all networks. A new one goes after the others: save
  a checkpoint, and begin a new journal with it and with all networks.
";

pub(crate) const SAME_NETWORK: &str = "## 80 SameNetwork

This network is in force already.

- Where: `network` lines: `run`, `feed`.
- Cause: the line was sent twice. Network 1 is in force at the beginning.
- Remedy: nothing.
";

pub(crate) const NOT_KEPT: &str = "## 81 NotKept

The problem of this version and moment isn't kept.

- Where: `commit` lines: `run`, `feed`.
- Cause: it was never begun, the moment differs, or newer problems took its
  place: 8 are kept, or as many as `--kept` says; a new one goes last, and the
  first is dropped. One that is kept already stays where it is when it is begun
  again, so the certificate of a repeated `plan` line may be dropped sooner than
  its own line says.
- Remedy: plan again and send that certificate. Where many plan at once, give
  more `--kept`.
";

pub(crate) const WAGON_CHANGED: &str = "## 82 WagonChanged

A wagon of the commit isn't free now as it was in the problem. The reply names
it.

- Where: `commit` lines: `run`, `feed`.
- Cause: since the problem was begun the wagon was promised, held or moved, or
  it is free again at another place or from another moment.
- Remedy: plan again. The commit did nothing, also for its other pairs.
";

pub(crate) const ORDER_CHANGED: &str = "## 83 OrderChanged

An order lacks fewer wagons now than the commit gives it. The reply names it.

- Where: `commit` lines: `run`, `feed`.
- Cause: since the problem was begun another commit promised wagons to it, or it
  was withdrawn.
- Remedy: plan again. The commit did nothing, also for its other pairs.
";

pub(crate) const NOT_IN_PROBLEM: &str = "## 84 NotInProblem

A pair names a wagon or an order that the table or the problem doesn't have. The
reply names both.

- Where: table lines: `check`. `commit` lines: `run`, `feed`. On standard error,
  as `wagons: 84 SALT-1`, if `why` is asked about one of them or about a line
  without a plan, or `map` about an order that is on no map.
- Cause: a misspelled number or name, a wagon that wasn't free or an order that
  wasn't waiting in that version, or a wrong version.
- Remedy: send the certificate as it was printed, with its own version and
  moment.
";
