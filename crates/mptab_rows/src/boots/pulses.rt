//! Pulses, registers, and the turns of an I/O APIC.

use crate::boots::harness::are_traced;
use mptab_cases::boots::pulses::rows;
use std::test::Fail;

#[test]
fn pulses_and_registers_are_as_written(rt: HostRuntime) -> Result<(), Fail> {
    are_traced(&rt, rt.alloc(), rows())
}
