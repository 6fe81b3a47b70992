//! Which problems are kept for seats: each begin keeps its own, and no other call keeps one.

use super::turns::{Case, Told, Turn, play};
use std::test::Fail;
use test_samples::Line::{Begin, Commit, Order, Text, Withdraw};
use test_samples::{
    BEGIN, BOTH, COMMIT, DEPARTURE, Line, ORDER, OTHER_PLACE, REVISION, SAMPLE, Start,
};

/// The sample, with room for two problems.
const TWO_KEPT: Start<'static> = Start { kept: 2, ..SAMPLE };

/// What a seat is told when it begins version 1 at one o'clock, at two and at three.
const AT_ONE: Told = (BEGIN, "begun 1 network 1");

const AT_TWO: Told = (Begin("02:00:00"), "begun 1 network 1");

const AT_THREE: Told = (Begin("03:00:00"), "begun 1 network 1");

/// The sample's commit, of the problem at two o'clock: the nearest wagon comes at three.
const COMMIT_AT_TWO: Line<'static> = Text(
    r#"{"type":"commit","version":1,"at":"2026-03-01T02:00:00Z","pairs":[["218124712173","O1"]],"u":[0,0],"v":[50]}"#,
);

/// Begins of two seats.
const BEGINS: &[Case] = &[
    // Where two are kept, the third drops the first. What is kept already stays where it is.
    (
        "the first of three problems is dropped",
        TWO_KEPT,
        &[
            Turn(1, &[(ORDER, "accepted 1"), AT_ONE], 1),
            Turn(2, &[AT_TWO, AT_THREE, AT_THREE, (COMMIT, "refused 81")], 0),
            Turn(1, &[(COMMIT_AT_TWO, "accepted 2")], 2),
        ],
    ),
    (
        "two problems are kept",
        TWO_KEPT,
        &[
            Turn(1, &[(ORDER, "accepted 1"), AT_ONE], 1),
            Turn(2, &[AT_TWO, AT_TWO, (COMMIT, "accepted 2")], 1),
        ],
    ),
];

/// The sample's order, where it costs less to leave it than to serve it.
const CHEAP: Line<'static> = Order("O1", "04:00:00", 10, 1);

/// Its least plan as version 1 has it, which promises no wagon: it is accepted as long as that problem is kept.
const LEFT: Line<'static> = Commit(1, &[], &[0, 0], &[10]);

const OTHER: Line<'static> = Order("O2", "04:00:00", 10, 1);

/// Where one problem is kept, any other that is kept drops it.
const OTHER_CALLS: &[Case] = &[(
    "no other call keeps a problem",
    Start { kept: 1, ..BOTH },
    &[
        Turn(1, &[(CHEAP, "accepted 1"), AT_ONE], 1),
        Turn(
            2,
            &[
                (DEPARTURE, "accepted 2"),
                (DEPARTURE, "repeated 2"),
                (OTHER_PLACE, "refused 71"),
                (LEFT, "accepted 3"),
                (OTHER, "accepted 4"),
                (OTHER, "refused 74"),
                (LEFT, "accepted 5"),
                (Withdraw("O2"), "accepted 6"),
                (Withdraw("O2"), "refused 77"),
                (LEFT, "accepted 7"),
                (REVISION, "accepted 8"),
                (REVISION, "refused 80"),
                (LEFT, "accepted 9"),
                (Commit(9, &[], &[0, 0], &[10]), "refused 81"),
                (Commit(1, &[], &[0], &[10]), "refused 61"),
                (LEFT, "accepted 10"),
            ],
            9,
        ),
    ],
)];

#[test]
fn begins(rt: HostRuntime) -> Result<(), Fail> {
    play(&rt, rt.alloc(), BEGINS)
}

#[test]
fn other_calls(rt: HostRuntime) -> Result<(), Fail> {
    play(&rt, rt.alloc(), OTHER_CALLS)
}
