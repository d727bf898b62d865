//! A bus over a config, and turns of its seats.

ghost use Rattle.std.specs.Prelude.{◌<◌, ◌^◌, IfOk, IfSome};
ghost use Rattle.mpb_spec.specs.Plan.{plan_size};
ghost use Rattle.mpb_bus.specs.Seats.{AreSeatsOf};

use mpb_board::{Agent, Board, Config, Offer, Op};
use mpb_bus::{Bus, BusSeat, Turn};
use std::alloc::Global;
use std::fmt::Debug;
use std::process::Abort;
use std::sync::Wait;
use std::test::Fail;

/// A bus over the board of the config, and all its seats.
pub(crate) fn opened(alloc: Global, config: Option<Config>) -> Result<(Bus, Vec<BusSeat>), Fail>
    requires { IfSome config (λ c. plan_size c < 2 ^ 32) }
    ensures { IfOk result (λ made. AreSeatsOf made.0 made.1.items) }
{
    let config = config.ok_or("no config")?;
    let board = Board::new(alloc, config)?;
    Ok(Bus::new(alloc, board)?)
}

/// A turn of the seat at a place, where there is one.
pub(crate) fn turn_of<R: Wait>(
    rt: &R,
    bus: &Bus,
    seats: &mut Vec<BusSeat>,
    place: usize,
    offer: Offer,
) -> Option<Turn>
    requires { AreSeatsOf bus.now seats.old.items }
    ensures { AreSeatsOf bus.now seats.new.items }
{
    let seat = seats.get_mut(place)?;
    Some(bus.turn(rt, seat, offer))
}

/// Asserts that a turn of the seat at a place is made by this agent, with this op.
pub(crate) fn makes<R: Wait + Abort>(
    rt: &R,
    bus: &Bus,
    seats: &mut Vec<BusSeat>,
    place: usize,
    agent: Agent,
    op: Op,
)
    requires { AreSeatsOf bus.now seats.old.items }
    ensures { AreSeatsOf bus.now seats.new.items }
{
    let turn = turn_of(rt, bus, seats, place, Offer::Next);
    same(rt, "whether the op was made", made(&turn, agent, op), true);
}

/// Whether the turn was made by this agent, with this op.
fn made(turn: &Option<Turn>, agent: Agent, op: Op) -> bool {
    match turn {
        Some(Turn::Done(entry)) => entry.agent == agent && entry.op == op,
        _ => false,
    }
}

/// Asserts that a turn of the seat at a place is made.
pub(crate) fn goes_on<R: Wait + Abort>(rt: &R, bus: &Bus, seats: &mut Vec<BusSeat>, place: usize)
    requires { AreSeatsOf bus.now seats.old.items }
    ensures { AreSeatsOf bus.now seats.new.items }
{
    let turn = turn_of(rt, bus, seats, place, Offer::Next);
    same(rt, "whether the turn was made", is_made(&turn), true);
}

fn is_made(turn: &Option<Turn>) -> bool {
    matches!(turn, Some(Turn::Done(_)))
}

/// Asserts that the agent of the seat at a place may not step yet.
pub(crate) fn is_idle<R: Wait + Abort>(rt: &R, bus: &Bus, seats: &mut Vec<BusSeat>, place: usize)
    requires { AreSeatsOf bus.now seats.old.items }
    ensures { AreSeatsOf bus.now seats.new.items }
{
    let turn = turn_of(rt, bus, seats, place, Offer::Next);
    assert!(rt; matches!(turn, Some(Turn::Idle)), "not idle");
}

/// Asserts that a turn of the seat at a place finds that no agent may step.
pub(crate) fn is_quiet<R: Wait + Abort>(rt: &R, bus: &Bus, seats: &mut Vec<BusSeat>, place: usize)
    requires { AreSeatsOf bus.now seats.old.items }
    ensures { AreSeatsOf bus.now seats.new.items }
{
    let turn = turn_of(rt, bus, seats, place, Offer::Next);
    assert!(rt; matches!(turn, Some(Turn::Quiet)), "not quiet");
}

/// Asserts that a call gave what was wanted.
pub(crate) fn same<T: PartialEq + Debug + Drop>(rt: &impl Abort, name: &str, got: T, want: T) {
    assert_eq!(rt; got, want, "{name}");
}

/// Asserts how many entries the journal has, and whether no agent may step.
pub(crate) fn is_at(rt: &impl Abort, board: &Board, entries: usize, quiet: bool) {
    same(rt, "entries", board.journal().len(), entries);
    same(rt, "whether the board is quiet", board.quiet(), quiet);
}
