//! Turns of an agent on the bus.

ghost use Rattle.std.specs.Prelude.{◌≡◌};
ghost use Rattle.mpb_crew.specs.Workers.{IsSame, IsAtRest, Took};

use crate::answer::Answer;
use crate::gate::Gate;
use mpb_bus::{Bus, BusSeat, Turn};
use mpb_spec::{Agent, Offer};
use std::sync::Wait;
use std::thread;

/// A turn with an offer.
pub(crate) fn step<R: Wait>(rt: &R, bus: &Bus, seat: &mut BusSeat, offer: Offer) -> Answer
    requires { seat.old.bus ≡ bus.now.bus }
    ensures { Took seat.old offer result seat.new }
{
    match bus.turn(rt, seat, offer) {
        Turn::Done(_) => Answer::Made,
        Turn::Idle => {
            thread::yield_now();
            Answer::Idle
        }
        Turn::Quiet => Answer::Quiet,
    }
}

/// The agent makes the ops of its program where it may, until no agent may step.
pub(crate) fn run_through<R: Wait, G: Gate>(
    rt: &R,
    gate: &G,
    agent: Agent,
    bus: &Bus,
    seat: &mut BusSeat,
)
    requires { seat.old.bus ≡ bus.now.bus }
    ensures { IsSame seat.old seat.new × IsAtRest seat.new }
{
    for _ in rt.forever() {
        gate.pass(agent);
        if let Answer::Quiet = step(rt, bus, seat, Offer::Next) {
            return;
        }
    }
    unreachable!()
}
