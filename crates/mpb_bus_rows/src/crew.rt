//! Workers, each with a seat and in a thread of its own.

ghost use Rattle.std.specs.Prelude.{◌≡◌, ◌<◌, ℕ, length, All, slice_index_or};
ghost use Rattle.mpb_bus.specs.Seats.{AreSeatsOf};

use mpb_board::Offer;
use mpb_bus::{Bus, BusSeat, Turn};
use std::sync::Wait;
use std::thread;
use std::thread::Threads;

/// Whether the agent's work is over: no agent may step with any offer.
fn is_over<R: Wait>(rt: &R, bus: &Bus, seat: &mut BusSeat, offer: Offer) -> bool
    requires { seat.old.bus ≡ bus.now.bus }
    ensures { (seat.new.bus ≡ seat.old.bus) × (seat.new.agent ≡ seat.old.agent) }
{
    match bus.turn(rt, seat, offer) {
        Turn::Quiet => true,
        Turn::Done(_) | Turn::Idle => false,
    }
}

/// Takes the turn again and again, and offers the agent its next op, a collection of pin 1, and a sweep,
/// until no agent may step.
fn work<R: Wait>(rt: &R, bus: &Bus, seat: &mut BusSeat)
    requires { seat.old.bus ≡ bus.now.bus }
    ensures { (seat.new.bus ≡ seat.old.bus) × (seat.new.agent ≡ seat.old.agent) }
{
    for _ in rt.forever() {
        if is_over(rt, bus, seat, Offer::Next)
            || is_over(rt, bus, seat, Offer::Collect(2))
            || is_over(rt, bus, seat, Offer::Sweep)
        {
            return;
        }
    }
    unreachable!()
}

/// Runs a worker for each seat.
fn work_each<R: Threads + Wait + Sync>(rt: &R, bus: &Bus, seats: &mut [BusSeat])
    requires { All (λ s. s.bus ≡ bus.now.bus) seats.old }
    ensures bus { All (λ s. s.bus ≡ bus.now.bus) seats.new }
    ensures agents { (i : ℕ) (d : _) → i < length seats.old → (slice_index_or seats.new i d).agent ≡ (slice_index_or seats.old i d).agent }
{
    thread::for_each_mut(rt, seats, 16, &|_, seat| work(rt, bus, seat));
}

/// Runs a worker for each seat of a bus.
pub(crate) fn work_all<R: Threads + Wait + Sync>(rt: &R, bus: &Bus, seats: &mut Vec<BusSeat>)
    requires { AreSeatsOf bus.now seats.old.items }
    ensures { AreSeatsOf bus.now seats.new.items }
{
    work_each(rt, bus, seats.as_mut_slice());
}
