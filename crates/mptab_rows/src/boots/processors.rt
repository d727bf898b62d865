//! Starts of processors, broadcasts, and the classes of vectors.

use crate::boots::harness::are_traced;
use mptab_cases::boots::processors::rows;
use std::test::Fail;

#[test]
fn processors_start_hear_and_take(rt: HostRuntime) -> Result<(), Fail> {
    are_traced(&rt, rt.alloc(), rows())
}
