//! Files that plan for one order.

use super::feeds::{fed_texts, totals};
use sessions::report_text;
use std::alloc::Global;
use std::sync::Wait;
use std::test::Fail;
use std::thread::Threads;

/// The sample's order, and a plan.
const PLAN: &str =
    r#"{"type":"order","order":"O1","place":"DE00003","classes":["Eanos"],"load":50000,"latest":"2026-03-01T04:00:00Z","penalty":1000}
{"type":"plan","at":"2026-03-01T01:00:00Z"}
"#;

/// The sheet behind its first line: the nearer wagon is promised, and no other.
const PROMISED: &str = "
wagon 218124712173 Eanos 60000 empty DE00002 2026-03-01T00:00:00Z - O1
wagon 338447961008 Eanos 60000 empty DE00001 2026-03-01T00:00:00Z - -
order O1 DE00003 2026-03-01T04:00:00Z 1000 promised 1 218124712173
";

/// Whether one of two orders is accepted where both files place the order and plan it at once. The second plan is refused, or
/// it began behind the first commit and has nothing left to promise. The wagon is promised once.
fn is_promised_once<T: Threads + Wait + Sync>(rt: &T, alloc: Global) -> Result<bool, Fail> {
    let report = fed_texts(rt, alloc, &[PLAN, PLAN])?;
    let (accepted, repeated, refused) = totals(&report);
    let are_counted = repeated == 0 && accepted.saturating_add(refused) == 4;
    let are_entries = (accepted == 2 || accepted == 3) && report.book.len() == accepted;
    let text = report_text(alloc, &report)?;
    Ok(are_counted && are_entries && text.as_str().ends_with(PROMISED))
}

#[test]
fn one_order(rt: HostRuntime) -> Result<(), Fail> {
    for turn in 0..200u32 {
        assert!(rt; is_promised_once(&rt, rt.alloc())?, "turn {turn}");
    }
    Ok(())
}
