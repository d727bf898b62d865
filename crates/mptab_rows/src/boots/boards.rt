//! Boards that tables and a script don't describe, each cause alone, beside the nearest that they do; how many
//! processors and I/O APICs a board has, at each limit on both sides.

use crate::boots::harness::are_answered;
use mptab_cases::boots::BOTH;
use mptab_cases::boots::boards::{io_apic_ids, limits, places, present, processor_ids, wide_ids};
use std::test::Fail;

#[test]
fn causes_alone(rt: HostRuntime) -> Result<(), Fail> {
    are_answered(&rt, rt.alloc(), BOTH, "ids of processors", processor_ids())?;
    are_answered(&rt, rt.alloc(), BOTH, "ids of I/O APICs", io_apic_ids())?;
    are_answered(&rt, rt.alloc(), BOTH, "wide ids", wide_ids())?;
    are_answered(&rt, rt.alloc(), BOTH, "present processors", present())?;
    are_answered(&rt, rt.alloc(), BOTH, "places", places())?;
    are_answered(&rt, rt.alloc(), BOTH, "limits", limits())
}
