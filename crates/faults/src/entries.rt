//! The entries of the manual: one table, of which an entry's text stands in the file of its subject.
ghost use Rattle.std.specs.Prelude.{◌≡◌, true};
ghost use Rattle.faults.specs.RefusalNumbers.{refusals};
ghost use Rattle.faults.specs.inner.Entries.{are_entries};

mod checkpoints;
mod codes;
mod events;
mod lines;
mod movements;
mod networks;
mod runs;
mod tables;

/// How many refusals there are.
const COUNT: usize = 60;

/// The number and the entry of each refusal, ascending by number.
const ENTRIES: [(u32, &str); COUNT] = [
    (1, lines::OUT_OF_MEMORY),
    (11, codes::NOT_TWELVE_DIGITS),
    (12, codes::CHECK_DIGIT),
    (13, codes::BAD_PLACE),
    (14, codes::BAD_CLASS),
    (15, codes::BAD_COMPANY),
    (16, codes::BAD_ORDER_ID),
    (17, codes::BAD_MOMENT),
    (18, codes::MOMENT_OUT_OF_RANGE),
    (19, codes::WRONG_KIND),
    (20, codes::OUT_OF_RANGE),
    (21, lines::NOT_JSON),
    (22, lines::NOT_AN_OBJECT),
    (23, lines::UNKNOWN_TYPE),
    (24, lines::MISSING_FIELD),
    (25, lines::BAD_FIELD),
    (31, movements::EARLIER),
    (32, movements::WRONG_STATUS),
    (33, movements::WRONG_PLACE),
    (41, networks::BAD_ROW),
    (42, networks::TOO_MANY_PLACES),
    (43, networks::TOO_MANY_RECORDS),
    (45, networks::BAD_WORKER_COUNT),
    (46, networks::NO_THREAD),
    (47, networks::BAD_NETWORK_COUNT),
    (51, tables::DUPLICATE_WAGON),
    (52, tables::DUPLICATE_ORDER),
    (53, tables::TOO_LARGE),
    (54, tables::UNEVEN_ROWS),
    (61, tables::WRONG_LENGTHS),
    (62, tables::NOT_ALLOWED),
    (63, tables::USED_TWICE),
    (64, tables::PRICE_GAP),
    (65, tables::OVER_PENALTY),
    (66, tables::SUMS_DIFFER),
    (71, events::ID_REUSED),
    (72, events::BOOK_FULL),
    (73, events::UNKNOWN_WAGON),
    (74, events::ORDER_KNOWN),
    (75, events::TOO_MANY_OPEN),
    (76, events::UNKNOWN_ORDER),
    (77, events::ORDER_CLOSED),
    (78, events::BAD_ROSTER_ROW),
    (79, events::UNKNOWN_NETWORK),
    (80, events::SAME_NETWORK),
    (81, events::NOT_KEPT),
    (82, events::WAGON_CHANGED),
    (83, events::ORDER_CHANGED),
    (84, events::NOT_IN_PROBLEM),
    (85, checkpoints::BAD_CHECKPOINT_LINE),
    (86, checkpoints::ONE_SIDED_PROMISE),
    (87, checkpoints::ORDER_FULL),
    (88, checkpoints::CHECKPOINT_CUT),
    (89, checkpoints::WAGON_PROMISED),
    (91, runs::TOO_MANY_INPUT_LINES),
    (92, runs::LINE_TOO_LONG),
    (93, runs::READ_FAILED),
    (94, runs::WRITE_FAILED),
    (95, runs::SEATS_MISSING),
    (96, runs::RECEIPT_LOST),
];

/// The table. A proof goes over its texts here, and nowhere else.
pub(crate) fn entries() -> [(u32, &'static str); COUNT]
    ensures { are_entries refusals result ≡ true }
{
    ENTRIES
}
