//! Files with the same lines: which file's line is taken is open, but not how many are.

use super::feeds::{fed_texts, totals};
use sessions::{FeedReport, report_text};
use std::alloc::Global;
use std::test::Fail;
use test_samples::ORDER_TEXT;

/// A departure and an arrival of one wagon.
pub(crate) const FIRST: &str =
    r#"{"type":"departure","company":"0080","number":1,"wagon":"338447961008","place":"DE00001","moment":"2026-03-01T02:00:00Z"}
{"type":"arrival","company":"0080","number":2,"wagon":"338447961008","place":"DE00003","moment":"2026-03-01T05:00:00Z"}
"#;

/// A hold of the other wagon, and a departure of one that the roster doesn't have.
pub(crate) const SECOND: &str =
    r#"{"type":"exception","company":"0081","number":1,"wagon":"218124712173","place":"DE00002","moment":"2026-03-01T03:00:00Z","hold":true}
{"type":"departure","company":"0081","number":2,"wagon":"338447961040","place":"DE00001","moment":"2026-03-01T03:00:00Z"}
"#;

/// The report of both.
pub(crate) const REPORT: &str = "file 1 accepted 2 repeated 0 refused 0
file 2 accepted 1 repeated 0 refused 1
sheet 3
wagon 218124712173 Eanos 60000 empty DE00002 2026-03-01T03:00:00Z held -
wagon 338447961008 Eanos 60000 arrived_empty DE00003 2026-03-01T05:00:00Z - -
";

/// Whether this is a report's text.
pub(crate) fn is_text_of<R>(
    alloc: Global,
    report: &FeedReport<R>,
    wanted: &str,
) -> Result<bool, Fail> {
    Ok(report_text(alloc, report)?.as_str() == wanted)
}

/// The same file twice: each message is accepted once and repeated once.
#[test]
fn twice(rt: HostRuntime) -> Result<(), Fail> {
    let report = fed_texts(&rt, rt.alloc(), &[FIRST, FIRST])?;
    assert_eq!(rt; totals(&report), (2, 2, 0));
    assert_eq!(rt; report.book.len(), 2);
    Ok(())
}

/// The same order in sixteen files: it is placed once.
#[test]
fn sixteen(rt: HostRuntime) -> Result<(), Fail> {
    let report = fed_texts(&rt, rt.alloc(), &[ORDER_TEXT; 16])?;
    assert_eq!(rt; totals(&report), (1, 0, 15));
    assert_eq!(rt; report.book.len(), 1);
    Ok(())
}
