//! The copy of a commit, which no reply of the program shows, and its lists taken out of it, which no word of the program does.

use line_fields::{Command, read_line};
use move_messages::{CommitText, Event, Pairs, PriceList};
use std::alloc::Global;
use std::test::Fail;
use test_samples::{NEAR, moment, order_id, wagon};

/// The commit that a line gives.
fn commit(alloc: Global, line: &str) -> Result<Option<CommitText>, Fail> {
    match read_line(alloc, line.as_bytes())? {
        Command::Event(Event::Commit(commit)) => Ok(Some(commit)),
        _ => Ok(None),
    }
}

/// Whether a commit is the first version's at one o'clock, with the nearer wagon for order O1.
fn is_sample(alloc: Global, commit: &CommitText) -> Result<bool, Fail> {
    let pair = (wagon(NEAR)?, order_id("O1")?);
    let wanted = CommitText {
        version: 1,
        at: moment("2026-03-01T01:00:00Z")?,
        pairs: Pairs::from_vec(vec![in alloc; pair]?),
        u: PriceList::from_vec(vec![in alloc; 0, 7]?),
        v: PriceList::from_vec(vec![in alloc; 50]?),
    };
    Ok(*commit == wanted && commit.pairs.as_slice() == [pair].as_slice())
}

/// Whether the copy of a commit is that commit.
fn copy_is_sample(alloc: Global, commit: &CommitText) -> Result<bool, Fail> {
    let copy = commit.copy(alloc)?;
    is_sample(alloc, &copy)
}

/// Whether a commit has one pair and the prices of that commit, as lists of its own.
fn has_prices(commit: CommitText) -> bool {
    let CommitText { pairs, u, v, .. } = commit;
    pairs.into_vec().len() == 1
        && u.into_vec().as_slice() == [0, 7].as_slice()
        && v.as_slice() == [50].as_slice()
}

const SAMPLE_COMMIT: &str =
    r#"{"type":"commit","version":1,"at":"2026-03-01T01:00:00Z","pairs":[["218124712173","O1"]],"u":[0,7],"v":[50]}"#;

#[test]
fn commits(rt: HostRuntime) -> Result<(), Fail> {
    let alloc = rt.alloc();
    let commit = commit(alloc, SAMPLE_COMMIT)?.ok_or("a commit")?;
    assert!(rt; is_sample(alloc, &commit)?);
    assert!(rt; copy_is_sample(alloc, &commit)?);
    assert!(rt; has_prices(commit));
    Ok(())
}
