//! The worker of an I/O APIC.

ghost use Rattle.std.specs.Prelude.{◌≡◌, ◌≢◌, ◌<◌, true, length};
ghost use Rattle.mpb_spec.specs.Configs.{IsConfig};
ghost use Rattle.mpb_crew.specs.Workers.{IsSame, IsAtRest, IsCollecting, HasCollected, WasTurn};

use crate::answer::Answer;
use crate::gate::Gate;
use crate::turns::step;
use mpb_bus::{Bus, BusSeat};
use mpb_latch::{ColSeat, Latch};
use mpb_spec::{Agent, Offer};
use std::sync::Wait;

// the message of the least due pin is sent
#[tactic(auto, using(crate::proofs::Collecting::sent))]
fn send<R: Wait>(rt: &R, bus: &Bus, seat: &mut BusSeat, col: &ColSeat) -> Answer
    requires bus { seat.old.bus ≡ bus.now.bus }
    requires account { IsCollecting 0 seat.old col.now }
    ensures { WasTurn 0 seat.old result seat.new col.now }
{
    step(rt, bus, seat, Offer::Next)
}

// it sweeps, once the collector is dry
#[tactic(auto, using(crate::proofs::Collecting::swept))]
fn sweep<R: Wait>(rt: &R, bus: &Bus, seat: &mut BusSeat, col: &ColSeat) -> Answer
    requires bus { seat.old.bus ≡ bus.now.bus }
    requires dry { col.now.dry ≡ true }
    requires account { IsCollecting 0 seat.old col.now }
    ensures { WasTurn 0 seat.old result seat.new col.now }
{
    step(rt, bus, seat, Offer::Sweep)
}

// a message where one is due; else, behind the gate once more, a sweep, where the collector is dry
fn send_or_sweep<R: Wait, G: Gate>(
    rt: &R,
    gate: &G,
    agent: Agent,
    bus: &Bus,
    seat: &mut BusSeat,
    col: &ColSeat,
    dry: bool,
) -> Answer
    requires bus { seat.old.bus ≡ bus.now.bus }
    requires dry { dry ≡ true → col.now.dry ≡ true }
    requires account { IsCollecting 0 seat.old col.now }
    ensures { WasTurn 0 seat.old result seat.new col.now }
{
    match send(rt, bus, seat, col) {
        Answer::Idle => {
            if dry {
                gate.pass(agent);
                sweep(rt, bus, seat, col)
            } else {
                Answer::Idle
            }
        }
        answer => answer,
    }
}

// the pins that are held are offered, and held until their collection is made
#[tactic(auto, using(crate::proofs::Collecting::collected))]
fn collect<R: Wait>(rt: &R, bus: &Bus, seat: &mut BusSeat, col: &ColSeat, held: &mut u32) -> Answer
    requires bus { seat.old.bus ≡ bus.now.bus }
    requires account { IsCollecting held.old seat.old col.now }
    ensures { WasTurn held.new seat.old result seat.new col.now }
{
    match step(rt, bus, seat, Offer::Collect(*held)) {
        Answer::Made => {
            *held = 0;
            Answer::Made
        }
        answer => answer,
    }
}

// looks whether all devices have ended, and then takes the pins that are latched: which they are, and whether the collector is dry
fn take(latch: &Latch, seat: &BusSeat, col: &mut ColSeat) -> (u32, bool)
    requires latch { col.old.latch ≡ latch.now.latch }
    requires account { IsCollecting 0 seat.now col.old }
    ensures col { (col.new.latch ≡ col.old.latch) × (col.new.io ≡ col.old.io) }
    ensures account { IsCollecting result.0 seat.now col.new }
    ensures dry { result.1 ≡ true → col.new.dry ≡ true }
{
    let ended = latch.ended(col);
    let pins = latch.collect(col);
    (pins, ended && pins == 0)
}

// pins that are held are offered again; else the latch is looked at, and pins that were latched are collected
fn turn<R: Wait, G: Gate>(
    rt: &R,
    gate: &G,
    agent: Agent,
    bus: &Bus,
    latch: &Latch,
    seat: &mut BusSeat,
    col: &mut ColSeat,
    held: &mut u32,
) -> Answer
    requires bus { seat.old.bus ≡ bus.now.bus }
    requires latch { col.old.latch ≡ latch.now.latch }
    requires account { IsCollecting held.old seat.old col.old }
    ensures col { (col.new.latch ≡ col.old.latch) × (col.new.io ≡ col.old.io) }
    ensures turn { WasTurn held.new seat.old result seat.new col.new }
{
    if *held != 0 {
        return collect(rt, bus, seat, col, held);
    }
    let (pins, dry) = take(latch, seat, col);
    if pins == 0 {
        return send_or_sweep(rt, gate, agent, bus, seat, col, dry);
    }
    *held = pins;
    collect(rt, bus, seat, col, held)
}

/// An I/O APIC collects, sends and sweeps, until no agent may step.
pub(crate) fn run_io<R: Wait, G: Gate>(
    rt: &R,
    gate: &G,
    agent: Agent,
    bus: &Bus,
    latch: &Latch,
    seat: &mut BusSeat,
    col: &mut ColSeat,
)
    requires bus { seat.old.bus ≡ bus.now.bus }
    requires latch { col.old.latch ≡ latch.now.latch }
    requires config { IsConfig seat.old.plan }
    requires there { col.old.io < length seat.old.plan.ios }
    requires account { IsCollecting 0 seat.old col.old }
    ensures col { (col.new.latch ≡ col.old.latch) × (col.new.io ≡ col.old.io) }
    ensures end { IsSame seat.old seat.new × IsAtRest seat.new × HasCollected seat.new col.new }
{
    let mut held = 0;
    for _ in rt.forever() {
        gate.pass(agent);
        if let Answer::Quiet = turn(rt, gate, agent, bus, latch, seat, col, &mut held) {
            return;
        }
    }
    unreachable!()
}
