//! A script for devices that fail, and one that plans and commits where there is ample memory.

use super::runs::is_answered;
use std::test::Fail;
use test_samples::{NETWORK, ROSTER_HEADER, Start};

/// A departure, the same again, and its id with another place.
pub(crate) const DEPARTURES: &str =
    r#"{"type":"departure","company":"0080","number":1,"wagon":"338447961008","place":"DE00001","moment":"2026-03-01T02:00:00Z"}
{"type":"departure","company":"0080","number":1,"wagon":"338447961008","place":"DE00001","moment":"2026-03-01T02:00:00Z"}
{"type":"departure","company":"0080","number":1,"wagon":"338447961008","place":"DE00002","moment":"2026-03-01T02:00:00Z"}
"#;

pub(crate) const DEPARTURES_REPLIES: &str = "1 accepted 1\n2 repeated 1\n3 refused 71\n";

/// The plan of an order that no wagon can serve, sent back.
const CERTIFICATE: &str =
    r#"{"type":"order","order":"O1","place":"DE00003","classes":["Eanos"],"load":50000,"latest":"2026-03-01T04:00:00Z","penalty":900}
{"type":"plan","at":"2026-03-01T01:00:00Z"}
{"at":"2026-03-01T01:00:00Z","pairs":[],"type":"commit","u":[],"v":[900],"version":1}
"#;

/// What is replied to it.
const CERTIFICATE_REPLIES: &str =
    "1 accepted 1\n2 plan 1 0 1 900\nrefuse O1 900\n{\"at\":\"2026-03-01T01:00:00Z\",\"pairs\":[],\"type\":\"commit\",\"u\":[],\"v\":[900],\"version\":1}\n3 accepted 2\n";

/// No wagon.
const NOBODY: Start<'static> = Start {
    roster: ROSTER_HEADER,
    networks: &[NETWORK],
    entries: 100_000,
    kept: 8,
};

/// An order is placed, planned and committed.
#[test]
fn certificate(rt: HostRuntime) -> Result<(), Fail> {
    let (input, output) = (CERTIFICATE.as_bytes(), CERTIFICATE_REPLIES.as_bytes());
    let answered = is_answered(rt.alloc(), NOBODY, input, output, 0)?;
    assert!(rt; answered);
    Ok(())
}
