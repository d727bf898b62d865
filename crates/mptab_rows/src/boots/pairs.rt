//! Two causes that stand together: the one that is told.

use crate::boots::harness::are_answered;
use mptab_cases::boots::BOTH;
use mptab_cases::boots::pairs::{pairs_of_ids, pairs_of_presence};
use std::test::Fail;

#[test]
fn first_of_two_causes(rt: HostRuntime) -> Result<(), Fail> {
    are_answered(&rt, rt.alloc(), BOTH, "ids", pairs_of_ids())?;
    are_answered(&rt, rt.alloc(), BOTH, "presence", pairs_of_presence())
}
