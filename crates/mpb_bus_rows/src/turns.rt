//! Worked boards by the turns of one thread.

ghost use Rattle.mpb_bus.specs.Seats.{AreSeatsOf};

use crate::harness::{goes_on, is_at, is_idle, is_quiet, makes, opened, same};
use mpb_board::{Agent, Op};
use mpb_bus::{Bus, BusSeat};
use mpb_cases::{three_pulses, two_processors};
use std::process::Abort;
use std::sync::Wait;
use std::test::Fail;

/// Asserts that the first device waits until processor 0 has made the four ops of the boot program.
fn device_waits<R: Wait + Abort>(rt: &R, bus: &Bus, seats: &mut Vec<BusSeat>)
    requires { AreSeatsOf bus.now seats.old.items }
    ensures { AreSeatsOf bus.now seats.new.items }
{
    let boot = Agent::Cpu(0);
    is_idle(rt, bus, seats, 2);
    makes(rt, bus, seats, 0, boot, Op::IoSel(0, 0x13));
    makes(rt, bus, seats, 0, boot, Op::IoWin(0, 0));
    makes(rt, bus, seats, 0, boot, Op::IoSel(0, 0x12));
    makes(rt, bus, seats, 0, boot, Op::IoWin(0, 0x21));
    makes(rt, bus, seats, 2, Agent::Dev(0), Op::Begin);
}

#[test]
fn device_begins_behind_the_boot_program(rt: HostRuntime) -> Result<(), Fail> {
    let (bus, mut seats) = opened(rt.alloc(), three_pulses(rt.alloc())?)?;
    // Processor 0, the I/O APIC, and three devices
    same(&rt, "seats", seats.len(), 5);
    device_waits(&rt, &bus, &mut seats);
    is_at(&rt, &bus.close(seats), 5, false);
    Ok(())
}

/// Asserts that processor 0 makes seven turns, and that its next finds that no agent may step.
fn seven_turns<R: Wait + Abort>(rt: &R, bus: &Bus, seats: &mut Vec<BusSeat>)
    requires { AreSeatsOf bus.now seats.old.items }
    ensures { AreSeatsOf bus.now seats.new.items }
{
    goes_on(rt, bus, seats, 0);
    goes_on(rt, bus, seats, 0);
    goes_on(rt, bus, seats, 0);
    goes_on(rt, bus, seats, 0);
    goes_on(rt, bus, seats, 0);
    goes_on(rt, bus, seats, 0);
    goes_on(rt, bus, seats, 0);
    is_quiet(rt, bus, seats, 0);
}

#[test]
fn eighth_turn_is_quiet(rt: HostRuntime) -> Result<(), Fail> {
    let (bus, mut seats) = opened(rt.alloc(), two_processors(rt.alloc(), &[])?)?;
    same(&rt, "seats", seats.len(), 2);
    seven_turns(&rt, &bus, &mut seats);
    is_at(&rt, &bus.close(seats), 7, true);
    Ok(())
}
