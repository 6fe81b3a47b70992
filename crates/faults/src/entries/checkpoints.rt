//! Entries of checkpoints.

pub(crate) const BAD_CHECKPOINT_LINE: &str = "## 85 BadCheckpointLine

A line of a checkpoint isn't what must stand there. The number after it is the
line's.

- Where: on standard error, as `wagons: 85 17`: a file after `--from`.
- Cause: a file of another kind or of a later program, a line that was changed
  by hand, a value past its limit, or lines in another order: the head, the
  wagons ascending by number, the open orders, the last line.
- Remedy: save the checkpoint again from its journal.
";

pub(crate) const ONE_SIDED_PROMISE: &str = "## 86 OneSidedPromise

A wagon is promised to an order that doesn't have it among its promised wagons,
or the other way round. The number after it is the order's line, or the last
one if no order has the wagon.

- Where: on standard error, as `wagons: 86 17`: a file after `--from`.
- Cause: a line that was changed or taken out by hand.
- Remedy: save the checkpoint again from its journal.
";

pub(crate) const ORDER_FULL: &str = "## 87 OrderFull

An order of a checkpoint has more wagons, promised and delivered, than it wants,
or all of them were delivered. The number after it is the order's line.

- Where: on standard error, as `wagons: 87 17`: a file after `--from`.
- Cause: a line that was changed by hand: an order that is filled isn't saved.
- Remedy: save the checkpoint again from its journal.
";

pub(crate) const CHECKPOINT_CUT: &str = "## 88 CheckpointCut

A checkpoint has no last line, or its last line counts other lines than there
are. The number after it is the line's.

- Where: on standard error, as `wagons: 88 17`: a file after `--from`.
- Cause: a file that was cut while it was written or copied, or a line that was
  added or taken out.
- Remedy: copy the file again, or save the checkpoint again from its journal.
";

pub(crate) const WAGON_PROMISED: &str = "## 89 WagonPromised

A wagon that is to leave the fleet, or whose row is to be replaced, is promised
to an order. The number after it is the wagon's.

- Where: on standard error, as `wagons: 89 338447961008`: `save` with `--with`
  or `--without`.
- Cause: the wagon is on its way to the order, or about to be.
- Remedy: wait until it is delivered, hold it by an `exception` line, or
  withdraw the order; then save again.
";
