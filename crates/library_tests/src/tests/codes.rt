//! The texts of codes, of which the program prints few.

use std::test::Fail;
use test_samples::{class, company, order_id, place};

#[test]
fn texts_of_codes(rt: HostRuntime) -> Result<(), Fail> {
    let alloc = rt.alloc();
    assert_eq!(rt; place("DE00001")?.text(alloc)?.as_str(), "DE00001");
    assert_eq!(rt; class("Eanos")?.text(alloc)?.as_str(), "Eanos");
    assert_eq!(rt; company("0080")?.text(alloc)?.as_str(), "0080");
    assert_eq!(rt; order_id("O1")?.text(alloc)?.as_str(), "O1");
    Ok(())
}
