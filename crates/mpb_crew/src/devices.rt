//! The worker of a device.

ghost use Rattle.std.specs.Prelude.{◌≡◌, ◌<◌, ◌+◌, [], true, length, slice_get, Some};
ghost use Rattle.mpb_spec.specs.Configs.{IsConfig};
ghost use Rattle.mpb_spec.specs.Plan.{device_program};
ghost use Rattle.mpb_latch.specs.Seats.{fresh_device_seat};
ghost use Rattle.mpb_spec.specs.Pulses.{pulses_in};
ghost use Rattle.mpb_crew.specs.Workers.{IsSame, IsAtRest, IsDevice, IsMaking};

use crate::answer::Answer;
use crate::gate::Gate;
use crate::turns::{run_through, step};
use mpb_bus::{Bus, BusSeat};
use mpb_latch::{DevSeat, Latch};
use mpb_spec::{Agent, DevWord, Offer, Pulse};
use std::sync::Wait;

// the device's next op, offered until it is made; the gate was passed before the first offer
fn offer_next<R: Wait, G: Gate>(
    rt: &R,
    gate: &G,
    device: u8,
    bus: &Bus,
    words: &[DevWord],
    seat: &mut BusSeat,
)
    requires bus { seat.old.bus ≡ bus.now.bus }
    requires config { IsConfig seat.old.plan }
    requires device { IsDevice device words.now seat.old }
    requires left { length seat.old.mine < length (device_program words.now) }
    ensures { IsSame seat.old seat.new × (length seat.new.mine ≡ length seat.old.mine + 1) }
{
    for _ in rt.forever() {
        match step(rt, bus, seat, Offer::Next) {
            Answer::Made => return,
            Answer::Idle => gate.pass(Agent::Dev(device)),
            Answer::Quiet => unreachable!(),
        }
    }
    unreachable!()
}

// an op before its End
fn make_op<R: Wait, G: Gate>(
    rt: &R,
    gate: &G,
    device: u8,
    bus: &Bus,
    words: &[DevWord],
    seat: &mut BusSeat,
)
    requires bus { seat.old.bus ≡ bus.now.bus }
    requires config { IsConfig seat.old.plan }
    requires device { IsDevice device words.now seat.old }
    requires before { length seat.old.mine + 1 < length (device_program words.now) }
    ensures { IsSame seat.old seat.new × (length seat.new.mine ≡ length seat.old.mine + 1) }
{
    offer_next(rt, gate, device, bus, words, seat);
}

// its End, which it makes once it has ended on the latch
fn make_end<R: Wait, G: Gate>(
    rt: &R,
    gate: &G,
    device: u8,
    bus: &Bus,
    words: &[DevWord],
    seat: &mut BusSeat,
    dev: &DevSeat,
)
    requires bus { seat.old.bus ≡ bus.now.bus }
    requires config { IsConfig seat.old.plan }
    requires device { IsDevice device words.now seat.old }
    requires left { length seat.old.mine < length (device_program words.now) }
    requires ended { dev.now.ended ≡ true }
    ensures { IsSame seat.old seat.new }
{
    offer_next(rt, gate, device, bus, words, seat);
}

// the word at a place: a pulse on the latch, or a step
fn make_word<R: Wait, G: Gate>(
    rt: &R,
    gate: &G,
    device: u8,
    bus: &Bus,
    latch: &Latch,
    words: &[DevWord],
    at: usize,
    seat: &mut BusSeat,
    dev: &mut DevSeat,
)
    requires bus { seat.old.bus ≡ bus.now.bus }
    requires latch { dev.old.latch ≡ latch.now.latch }
    requires config { IsConfig seat.old.plan }
    requires device { IsDevice device words.now seat.old }
    requires there { at < length words.now }
    requires making { IsMaking words.now at seat.old dev.old }
    ensures latch { dev.new.latch ≡ dev.old.latch }
    ensures made { IsSame seat.old seat.new × IsMaking words.now (at + 1) seat.new dev.new }
{
    gate.pass(Agent::Dev(device));
    match words[at] {
        DevWord::Pulse(io, pin) => {
            latch.pulse(dev, Pulse { io, pin });
        }
        DevWord::High(_, _) => make_op(rt, gate, device, bus, words, seat),
        DevWord::Low(_, _) => make_op(rt, gate, device, bus, words, seat),
    }
}

// all its words in order
fn make_words<R: Wait, G: Gate>(
    rt: &R,
    gate: &G,
    device: u8,
    bus: &Bus,
    latch: &Latch,
    words: &[DevWord],
    seat: &mut BusSeat,
    dev: &mut DevSeat,
)
    requires bus { seat.old.bus ≡ bus.now.bus }
    requires latch { dev.old.latch ≡ latch.now.latch }
    requires config { IsConfig seat.old.plan }
    requires device { IsDevice device words.now seat.old }
    requires making { IsMaking words.now 0 seat.old dev.old }
    ensures latch { dev.new.latch ≡ dev.old.latch }
    ensures made { IsSame seat.old seat.new × IsMaking words.now (length words.now) seat.new dev.new }
{
    for at in 0..words.len() {
        make_word(rt, gate, device, bus, latch, words, at, seat, dev);
    }
}

// its Begin, and then all its words
#[tactic(auto, using(crate::proofs::Makings::first_left))]
fn begin_and_make<R: Wait, G: Gate>(
    rt: &R,
    gate: &G,
    device: u8,
    bus: &Bus,
    latch: &Latch,
    words: &[DevWord],
    seat: &mut BusSeat,
    dev: &mut DevSeat,
)
    requires bus { seat.old.bus ≡ bus.now.bus }
    requires config { IsConfig seat.old.plan }
    requires device { IsDevice device words.now seat.old }
    requires fresh { (seat.old.mine ≡ []) × (dev.old ≡ fresh_device_seat latch.now.latch (pulses_in words.now)) }
    ensures latch { dev.new.latch ≡ latch.now.latch }
    ensures made { IsSame seat.old seat.new × IsMaking words.now (length words.now) seat.new dev.new }
{
    gate.pass(Agent::Dev(device));
    make_op(rt, gate, device, bus, words, seat);
    make_words(rt, gate, device, bus, latch, words, seat, dev);
}

// it ends on the latch, and then on the board
#[tactic(auto, using(crate::proofs::Makings::op_left))]
fn end<R: Wait, G: Gate>(
    rt: &R,
    gate: &G,
    device: u8,
    bus: &Bus,
    latch: &Latch,
    words: &[DevWord],
    seat: &mut BusSeat,
    dev: &mut DevSeat,
)
    requires bus { seat.old.bus ≡ bus.now.bus }
    requires latch { dev.old.latch ≡ latch.now.latch }
    requires config { IsConfig seat.old.plan }
    requires device { IsDevice device words.now seat.old }
    requires making { IsMaking words.now (length words.now) seat.old dev.old }
    ensures latch { dev.new.latch ≡ dev.old.latch }
    ensures plan { dev.new.plan ≡ dev.old.plan }
    ensures ended { dev.new.ended ≡ true }
    ensures made { IsSame seat.old seat.new }
{
    gate.pass(Agent::Dev(device));
    latch.end(dev);
    make_end(rt, gate, device, bus, words, seat, dev);
}

/// A device begins, makes its words in order, ends on the latch and then on the board, and waits until
/// no agent may step.
pub(crate) fn run_device<R: Wait, G: Gate>(
    rt: &R,
    gate: &G,
    device: u8,
    bus: &Bus,
    latch: &Latch,
    words: &[DevWord],
    seat: &mut BusSeat,
    dev: &mut DevSeat,
)
    requires bus { seat.old.bus ≡ bus.now.bus }
    requires config { IsConfig seat.old.plan }
    requires device { IsDevice device words.now seat.old }
    requires fresh { (seat.old.mine ≡ []) × (dev.old ≡ fresh_device_seat latch.now.latch (pulses_in words.now)) }
    ensures { IsSame seat.old seat.new × IsAtRest seat.new × (dev.new.latch ≡ latch.now.latch) × (dev.new.plan ≡ pulses_in words.now) × (dev.new.ended ≡ true) }
{
    begin_and_make(rt, gate, device, bus, latch, words, seat, dev);
    end(rt, gate, device, bus, latch, words, seat, dev);
    run_through(rt, gate, Agent::Dev(device), bus, seat);
}
