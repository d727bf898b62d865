//! Turns of agents.

ghost use Rattle.std.specs.Prelude.{◌≡◌, ◌≢◌, ◌<◌, ◌+◌, ◌^◌, [], ℕ, Some, length, slice_index, slice_index_or};
ghost use Rattle.std.specs.Int.{bit_at};
ghost use Rattle.mpb_spec.specs.declared.agent.Agent.TheVariants.{Io, Dev};
ghost use Rattle.mpb_spec.specs.declared.agent.Offer.TheVariants.{Next};
ghost use Rattle.mpb_spec.specs.PlainLatch.{pins_at};
ghost use Rattle.mpb_robin.specs.declared.act.Act.TheVariants.{Begin, End};
ghost use Rattle.mpb_robin.specs.RoundRobin.{with_step, with_made, with_pulse, with_taken, with_collected, send_or_sweep, io_turn, next_act, act_turn, device_turn, turn, round};
ghost use Rattle.mpb_spec.specs.Agents.{agents_of};
ghost use Rattle.mpb_robin.specs.Rest.{IsRun, IsAgentOf};

use crate::run::Run;
use mpb_robin::Act;
use mpb_spec::{Agent, DevWord, Offer, Pulse};

// the least due pin is sent; where none is due and all devices have ended, the I/O APIC sweeps
#[tactic(auto, using(crate::proofs::TurnLemmas::sends, crate::proofs::TurnLemmas::sweeps, crate::proofs::TurnLemmas::waits))]
fn send_or_sweep(run: &mut Run, place: u8)
    ensures { run.new ≡ send_or_sweep place run.old }
{
    let agent = Agent::Io(place);
    if run.advance(agent, Offer::Next) {
        return;
    }
    if run.all_ended() {
        run.advance(agent, Offer::Sweep);
    }
}

// the pins, which were taken from the latch, are collected
#[tactic(auto, using(crate::proofs::TurnLemmas::counts_stay))]
fn collect(run: &mut Run, place: u8, pins: u32)
    requires there { place < length run.old.counts }
    requires wide { length (slice_index_or run.old.counts place []) ≡ 24 }
    requires low { (pin : ℕ) → pin < 24 → slice_index (slice_index_or run.old.counts place []) pin + bit_at pins pin < 2 ^ 32 }
    ensures { run.new ≡ with_collected place pins run.old }
{
    run.advance(Agent::Io(place), Offer::Collect(pins));
    run.count(place, pins);
}

// an I/O APIC's turn
#[tactic(auto, using(crate::proofs::TurnLemmas::low))]
fn io_turn(run: &mut Run, place: u8)
    requires run { IsRun run.old }
    requires there { place < length run.old.plan.ios }
    ensures { run.new ≡ io_turn place run.old }
{
    let pins = run.take(place);
    if pins == 0 {
        send_or_sweep(run, place);
    } else {
        collect(run, place, pins);
    }
}

// a pulse, which goes to the latch
fn pulse(run: &mut Run, device: u8, pulse: Pulse)
    requires there { device < length run.old.made }
    requires log { device < length run.old.logs }
    requires room { length (slice_index_or run.old.logs device []) < length (slice_index_or run.old.plan.devices device []) }
    requires low { slice_index run.old.made device + 1 < 2 ^ 64 }
    requires io { pulse.io < length run.old.latch.pins }
    requires pin { pulse.pin < 24 }
    ensures { run.new ≡ with_made device (with_pulse device pulse run.old) }
{
    run.pulse(device, pulse);
    run.made(device);
}

// one step of a device, where it may make it, and one thing more that it has done
fn step_and_count(run: &mut Run, device: u8)
    requires there { device < length run.old.made }
    requires low { slice_index run.old.made device + 1 < 2 ^ 64 }
    ensures { run.new ≡ with_made device (with_step (Dev device) Next run.old) }
{
    run.advance(Agent::Dev(device), Offer::Next);
    run.made(device);
}

// a device's Begin, where it may begin
#[tactic(auto, using(crate::proofs::TurnLemmas::stays, crate::proofs::TurnLemmas::begins))]
fn begin(run: &mut Run, device: u8)
    requires there { device < length run.old.made }
    requires low { slice_index run.old.made device + 1 < 2 ^ 64 }
    ensures { run.new ≡ act_turn device (Some Begin) run.old }
{
    if run.advance(Agent::Dev(device), Offer::Next) {
        run.made(device);
    }
}

// a device's end, on the board and on the latch
fn end(run: &mut Run, device: u8)
    requires there { device < length run.old.made }
    requires low { slice_index run.old.made device + 1 < 2 ^ 64 }
    requires going { run.old.latch.ended < run.old.latch.devices }
    ensures { run.new ≡ act_turn device (Some End) run.old }
{
    run.advance(Agent::Dev(device), Offer::Next);
    run.end();
    run.made(device);
}

// what a device does next
#[tactic(auto, using(crate::proofs::TurnLemmas::made_low, crate::proofs::TurnLemmas::pulse_in, crate::proofs::TurnLemmas::log_in, crate::proofs::TurnLemmas::ends_below))]
fn act_turn(run: &mut Run, device: u8, act: Option<Act>)
    requires run { IsRun run.old }
    requires there { device < length run.old.plan.devices }
    requires act { act ≡ next_act device run.old }
    ensures { run.new ≡ act_turn device act run.old }
{
    match act {
        None => {}
        Some(Act::Begin) => begin(run, device),
        Some(Act::Word(DevWord::Pulse(io, pin))) => pulse(run, device, Pulse { io, pin }),
        Some(Act::Word(_)) => step_and_count(run, device),
        Some(Act::End) => end(run, device),
    }
}

/// One turn of an agent.
pub(crate) fn turn(run: &mut Run, agent: Agent)
    requires run { IsRun run.old }
    requires agent { IsAgentOf run.old.plan agent }
    ensures { run.new ≡ turn agent run.old }
{
    match agent {
        Agent::Cpu(_) => {
            run.advance(agent, Offer::Next);
        }
        Agent::Io(place) => io_turn(run, place),
        Agent::Dev(device) => {
            let act = run.next_act(device);
            act_turn(run, device, act)
        }
    }
}
