//! Faults: their numbers, and the messages that they print.

use sessions::PlanFault;
use std::test::Fail;
use test_samples::misnamed;

#[test]
fn faults(rt: HostRuntime) -> Result<(), Fail> {
    let named = [
        (PlanFault::OutOfMemory, "OutOfMemory"),
        (PlanFault::UnknownNetwork, "UnknownNetwork"),
    ];
    assert_eq!(rt; misnamed(rt.alloc(), &named)?, None);
    assert_eq!(rt; PlanFault::OutOfMemory.number(), 1);
    assert_eq!(rt; PlanFault::UnknownNetwork.number(), 79);
    Ok(())
}
