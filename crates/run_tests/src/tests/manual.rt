//! The manual of refusals.

use faults::manual_text;
use std::test::Fail;

#[test]
fn lines_have_80_columns(rt: HostRuntime) -> Result<(), Fail> {
    let text = manual_text(rt.alloc())?;
    let long = text.as_str().lines().find(|line| line.len() > 80);
    assert_eq!(rt; long, None);
    Ok(())
}
