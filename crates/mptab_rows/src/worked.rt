//! Whole images and their answers: the worked rows of the format, and hostile images.

use crate::harness::are_shown;
use mptab_cases::images::worked::{hostile, worked};
use std::test::Fail;

#[test]
fn worked_rows(rt: HostRuntime) -> Result<(), Fail> {
    are_shown(&rt, rt.alloc(), worked())
}

#[test]
fn hostile_images(rt: HostRuntime) -> Result<(), Fail> {
    are_shown(&rt, rt.alloc(), hostile())
}
