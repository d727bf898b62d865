//! Boot programs: of each default configuration, of boards whose reports were worked out whole, and of a
//! usual board.

use crate::boots::harness::are_answered;
use mptab_cases::boots::BOTH;
use mptab_cases::boots::programs::{defaults, of_usual, written};
use std::test::Fail;

#[test]
fn boot_programs(rt: HostRuntime) -> Result<(), Fail> {
    let defaults = defaults();
    are_answered(&rt, rt.alloc(), BOTH, "default configurations", defaults)?;
    are_answered(&rt, rt.alloc(), BOTH, "whole reports", written())?;
    are_answered(&rt, rt.alloc(), BOTH, "the usual board", of_usual())
}
