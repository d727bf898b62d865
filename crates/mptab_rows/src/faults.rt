//! The sixteen faults, one image for each and more, and which of two faults is named.

use crate::harness::are_shown;
use mptab_cases::images::faults::{defaults, pairs, reasons};
use std::test::Fail;

#[test]
fn each_reason(rt: HostRuntime) -> Result<(), Fail> {
    are_shown(&rt, rt.alloc(), reasons())
}

#[test]
fn the_first_of_two_faults(rt: HostRuntime) -> Result<(), Fail> {
    are_shown(&rt, rt.alloc(), pairs())
}

#[test]
fn default_numbers(rt: HostRuntime) -> Result<(), Fail> {
    are_shown(&rt, rt.alloc(), defaults())
}
