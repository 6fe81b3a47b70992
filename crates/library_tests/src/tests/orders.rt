//! Orders and how many wagons they lack.

use std::test::Fail;
use test_samples::order_text;
use wagons_and_orders::Wanted;

/// The lack of a wanted order, `None` where none lacks so many wagons.
fn lack_of(lack: u32) -> Result<Option<u32>, Fail> {
    let text = order_text("O1", 2, "2026-03-01T04:00:00Z")?;
    Ok(Wanted::new(text, lack).map(|wanted| wanted.lack()))
}

#[test]
fn wanted_orders(rt: HostRuntime) -> Result<(), Fail> {
    for (lack, wanted) in [(0, None), (1, Some(1)), (20, Some(20)), (21, None)] {
        assert_eq!(rt; lack_of(lack)?, wanted, "{lack}");
    }
    Ok(())
}
