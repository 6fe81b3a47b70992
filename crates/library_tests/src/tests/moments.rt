//! The seconds of moments, which no reply of the program shows.

use rail_codes::{CodeFault, Moment};
use std::alloc::Global;
use std::test::Fail;
use test_samples::moment;

/// The seconds of a moment that is printed so.
fn seconds(alloc: Global, text: &str, printed: &str) -> Result<Option<u64>, Fail> {
    let moment = moment(text)?;
    if moment.text(alloc)?.as_str() != printed {
        return Ok(None);
    }
    Ok(Some(moment.seconds()))
}

/// The first and the last second, and one that is rounded down: 20,513 days and an hour after 1970-01-01.
#[test]
fn moments(rt: HostRuntime) -> Result<(), Fail> {
    for (text, printed, wanted) in [
        ("2000-01-01T00:00:00Z", "2000-01-01T00:00:00Z", 946_684_800),
        (
            "2099-12-31T23:59:59Z",
            "2099-12-31T23:59:59Z",
            4_102_444_799,
        ),
        (
            "2026-03-01T01:00:00.9Z",
            "2026-03-01T01:00:00Z",
            1_772_326_800,
        ),
    ] {
        assert_eq!(rt; seconds(rt.alloc(), text, printed)?, Some(wanted), "{text}");
    }
    Ok(())
}

/// The second before the first one.
#[test]
fn a_moment_before_the_first(rt: HostRuntime) {
    let early = Moment::from_seconds(946_684_799);
    assert_eq!(rt; early, Err(CodeFault::MomentOutOfRange));
}
