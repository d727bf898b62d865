//! Whole reports that were worked out by hand: processors that start or don't, an edge pin that three devices
//! pulse, a level pin that is sent again, messages to logical destinations and of lowest priority.

use crate::boots::harness::{are_answered, boots_so};
use crate::harness::same;
use mptab_cases::boots::BOTH;
use mptab_cases::boots::worked::{by_both, by_turns, by_turns_to_logical_ids};
use std::test::Fail;

#[test]
fn reports(rt: HostRuntime) -> Result<(), Fail> {
    let both = by_both();
    are_answered(&rt, rt.alloc(), BOTH, "reports of both commands", both)?;
    let trace = &["trace"];
    are_answered(
        &rt,
        rt.alloc(),
        trace,
        "pins by the round robin",
        by_turns(),
    )?;
    let logical = by_turns_to_logical_ids();
    are_answered(
        &rt,
        rt.alloc(),
        trace,
        "messages by the round robin",
        logical,
    )
}

#[test]
fn boots_of_one_agent(rt: HostRuntime) -> Result<(), Fail> {
    for row in by_both() {
        let right = boots_so(&rt, rt.alloc(), row)?;
        same(&rt, row.name, right, true);
    }
    Ok(())
}
