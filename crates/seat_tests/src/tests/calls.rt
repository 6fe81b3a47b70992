//! What seats call, and each reason why a call is refused.

use super::turns::{Case, Told, Turn, play};
use std::test::Fail;
use test_samples::Line::{Commit, Hold, Revise, Tell, Text, Withdraw};
use test_samples::{
    BEGIN, BOTH, COMMIT, DEPARTURE, FAR, FARTHER, Line, NEAR, NEAREST, ONE_ENTRY, ORDER,
    OTHER_PLACE, REVISION, SAMPLE, Start, UNKNOWN, WITHDRAWAL,
};

/// The farther wagon is loading at the order's place.
const LOADING: Start<'static> = Start {
    roster: "wagon,class,load,status,place,moment\n338447961008,Eanos,60000,loading,DE00003,2026-03-01T06:00:00Z\n",
    ..SAMPLE
};

const HELD: Line<'static> = Hold(1, NEAR, "DE00002", "00:00:00", true);

const LET_GO: Line<'static> = Hold(2, NEAR, "DE00002", "00:00:00", false);

/// A wagon that the roster doesn't have departs.
const STRANGER: Line<'static> = Text(
    r#"{"type":"departure","company":"0081","number":2,"wagon":"338447961040","place":"DE00001","moment":"2026-03-01T03:00:00Z"}"#,
);

/// What a seat is told when it begins at version 1, and at version 2, in the first network.
const BEGUN: Told = (BEGIN, "begun 1 network 1");

const BEGUN_LATER: Told = (BEGIN, "begun 2 network 1");

/// The first seat places the sample's order and begins.
const PLACED: Turn = Turn(1, &[(ORDER, "accepted 1"), BEGUN], 1);

/// The first seat sends the sample's departure twice.
const SENT_TWICE: Turn = Turn(
    1,
    &[(DEPARTURE, "accepted 1"), (DEPARTURE, "repeated 1")],
    1,
);

/// Each wagon and each order is promised once.
const PROMISES: &[Case] = &[
    // Two seats plan the same problem.
    (
        "a wagon is promised twice",
        SAMPLE,
        &[
            PLACED,
            Turn(2, &[BEGUN, (COMMIT, "accepted 2")], 1),
            Turn(1, &[(COMMIT, "refused 82 218124712173")], 1),
        ],
    ),
    // Where one problem is kept, the second drops the first.
    (
        "a problem is dropped",
        Start { kept: 1, ..SAMPLE },
        &[
            PLACED,
            Turn(1, &[(DEPARTURE, "accepted 2"), BEGUN_LATER], 2),
            Turn(1, &[(COMMIT, "refused 81")], 2),
        ],
    ),
    // The wagon is free again as it was; its order waits no more.
    (
        "an order is promised already",
        SAMPLE,
        &[
            PLACED,
            Turn(2, &[(HELD, "accepted 2"), BEGUN_LATER], 1),
            Turn(2, &[(Commit(2, FARTHER, &[0], &[150]), "accepted 3")], 2),
            Turn(2, &[(LET_GO, "accepted 4")], 3),
            Turn(1, &[(COMMIT, "refused 83 O1")], 1),
        ],
    ),
];

/// Events that are refused, or come again.
const EVENTS: &[Case] = &[
    (
        "a full book",
        ONE_ENTRY,
        &[Turn(
            1,
            &[
                (ORDER, "accepted 1"),
                BEGUN,
                (WITHDRAWAL, "refused 72"),
                (ORDER, "refused 72"),
                (DEPARTURE, "refused 72"),
                (REVISION, "refused 72"),
                (COMMIT, "refused 72"),
            ],
            1,
        )],
    ),
    (
        "an order comes and goes",
        SAMPLE,
        &[
            Turn(1, &[(ORDER, "accepted 1"), (ORDER, "refused 74")], 1),
            Turn(
                1,
                &[(WITHDRAWAL, "accepted 2"), (WITHDRAWAL, "refused 77")],
                2,
            ),
            Turn(1, &[(Withdraw("O9"), "refused 76")], 2),
        ],
    ),
    (
        "a message comes again",
        SAMPLE,
        &[
            SENT_TWICE,
            Turn(
                2,
                &[(DEPARTURE, "repeated 1"), (OTHER_PLACE, "refused 71")],
                0,
            ),
            Turn(2, &[(STRANGER, "refused 73")], 0),
        ],
    ),
    (
        "messages that the status table refuses",
        LOADING,
        &[Turn(
            1,
            &[
                (Tell("release", 1, FAR, "DE00003", "05:00:00"), "refused 31"),
                (
                    Tell("departure", 1, FAR, "DE00003", "06:00:00"),
                    "refused 32",
                ),
                (Tell("release", 1, FAR, "DE00002", "06:00:00"), "refused 33"),
                (Tell("release", 1, FAR, "DE00003", "06:00:00"), "accepted 1"),
            ],
            1,
        )],
    ),
];

/// Commits that are refused.
const COMMITS: &[Case] = &[
    // Commits of the sample's first problem that are no certificate, or name what isn't in the problem.
    (
        "no certificates",
        SAMPLE,
        &[
            PLACED,
            Turn(
                1,
                &[
                    (Commit(1, NEAREST, &[0], &[50]), "refused 61"),
                    (
                        Commit(1, &[(NEAR, "O1"), (FAR, "O1")], &[0, 0], &[50]),
                        "refused 63",
                    ),
                    (Commit(1, NEAREST, &[0, 0], &[51]), "refused 64"),
                    (Commit(1, NEAREST, &[951, 951], &[1001]), "refused 65"),
                    (Commit(1, NEAREST, &[0, 0], &[40]), "refused 66"),
                    (Commit(1, &[(UNKNOWN, "O1")], &[0, 0], &[50]), "refused 84"),
                    (COMMIT, "accepted 2"),
                ],
                2,
            ),
        ],
    ),
    // In the second network the farther wagon comes late.
    (
        "a second network",
        BOTH,
        &[
            Turn(1, &[(REVISION, "accepted 1"), (REVISION, "refused 80")], 1),
            Turn(
                1,
                &[(Revise(3), "refused 79"), (BEGIN, "begun 1 network 2")],
                1,
            ),
            Turn(1, &[(ORDER, "accepted 2"), (BEGIN, "begun 2 network 2")], 2),
            Turn(1, &[(Commit(2, FARTHER, &[0, 0], &[70]), "refused 62")], 2),
        ],
    ),
];

/// Seats that have no receipt.
const SEATS: &[Case] = &[
    (
        "one of two seats begins",
        SAMPLE,
        &[PLACED, Turn(2, &[], 0)],
    ),
    (
        "one of two seats repeats",
        SAMPLE,
        &[SENT_TWICE, Turn(2, &[], 0)],
    ),
];

#[test]
fn promises(rt: HostRuntime) -> Result<(), Fail> {
    play(&rt, rt.alloc(), PROMISES)
}

#[test]
fn events(rt: HostRuntime) -> Result<(), Fail> {
    play(&rt, rt.alloc(), EVENTS)
}

#[test]
fn commits(rt: HostRuntime) -> Result<(), Fail> {
    play(&rt, rt.alloc(), COMMITS)
}

#[test]
fn seats(rt: HostRuntime) -> Result<(), Fail> {
    play(&rt, rt.alloc(), SEATS)
}
