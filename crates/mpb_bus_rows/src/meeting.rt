//! What a meeting tells.

ghost use Rattle.std.specs.Prelude.{◌≡◌, ◌∷◌, ◌++◌, [], All, IfSome};
ghost use Rattle.mpb_spec.specs.Agents.{IsPrefix, entries_of};

use crate::harness::opened;
use mpb_board::{Entry, Offer, Op};
use mpb_bus::{Bus, BusSeat, Turn};
use mpb_cases::two_processors;
use std::process::Abort;
use std::sync::Wait;
use std::test::Fail;

/// The entry of a turn that is made.
fn entry_of<R: Wait>(rt: &R, bus: &Bus, seat: &mut BusSeat) -> Option<Entry>
    requires { seat.old.bus ≡ bus.now.bus }
    ensures seat { (seat.new.bus ≡ bus.now.bus) × (seat.new.agent ≡ seat.old.agent) }
    ensures mine { IfSome result (λ x. seat.new.mine ≡ seat.old.mine ++ x ∷ []) }
    ensures seen { seat.new.mine ≡ entries_of seat.new.agent seat.new.seen }
{
    match bus.turn(rt, seat, Offer::Next) {
        Turn::Done(entry) => Some(entry),
        Turn::Idle | Turn::Quiet => None,
    }
}

/// Three turns of `one`, each of which is made, and then a meeting: what `two` has seen holds the three
/// entries, behind what the agent of `one` had done before.
fn three_turns_and_a_meeting<R: Wait>(
    rt: &R,
    bus: &Bus,
    one: &mut BusSeat,
    two: &mut BusSeat,
) -> Option<(Entry, Entry, Entry)>
    requires { (one.old.bus ≡ bus.now.bus) × (two.old.bus ≡ bus.now.bus) }
    ensures two { two.new.bus ≡ bus.now.bus }
    ensures told { IfSome result (λ x. IsPrefix (one.old.mine ++ x.0 ∷ x.1 ∷ x.2 ∷ []) (entries_of one.old.agent two.new.seen)) }
{
    let first = entry_of(rt, bus, one)?;
    let second = entry_of(rt, bus, one)?;
    let third = entry_of(rt, bus, one)?;
    bus.meet(rt, one, two);
    Some((first, second, third))
}

/// Asserts the op of an entry.
fn has_op(rt: &impl Abort, entry: &Entry, want: Op) {
    let got = entry.op;
    assert!(rt; got == want, "another op");
}

/// Asserts the ops of three turns of `one`, and of a turn of `two` behind their meeting.
fn tells<R: Wait + Abort>(rt: &R, bus: &Bus, one: &mut BusSeat, two: &mut BusSeat)
    requires { (one.old.bus ≡ bus.now.bus) × (two.old.bus ≡ bus.now.bus) }
{
    let Some((first, second, third)) = three_turns_and_a_meeting(rt, bus, one, two) else {
        panic!(rt; "no three entries");
    };
    has_op(rt, &first, Op::Init(1));
    has_op(rt, &second, Op::Pause(10_000));
    has_op(rt, &third, Op::Startup(1, 0x9F));
    let Some(fourth) = entry_of(rt, bus, two) else {
        panic!(rt; "no fourth entry");
    };
    has_op(rt, &fourth, Op::Pause(1));
}

/// The same of two seats.
fn two_tell<R: Wait + Abort>(rt: &R, bus: &Bus, seats: &mut [BusSeat])
    requires { All (λ s. s.bus ≡ bus.now.bus) seats.old }
{
    match seats {
        [one, two] => tells(rt, bus, one, two),
        _ => panic!(rt; "no two seats"),
    }
}

#[test]
fn meeting_tells_three_entries(rt: HostRuntime) -> Result<(), Fail> {
    // Two processors, of which the second makes a pause
    let config = two_processors(rt.alloc(), &[Op::Pause(1)])?;
    let (bus, mut seats) = opened(rt.alloc(), config)?;
    two_tell(&rt, &bus, seats.as_mut_slice());
    Ok(())
}
