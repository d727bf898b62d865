//! Level pins: causes, remote IRR, masks and falls.

use crate::boots::harness::are_traced;
use mptab_cases::boots::levels::rows;
use std::test::Fail;

#[test]
fn level_pins_are_sent_by_their_causes(rt: HostRuntime) -> Result<(), Fail> {
    are_traced(&rt, rt.alloc(), rows())
}
