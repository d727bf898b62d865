//! A journal by a walk of a second board.

ghost use Rattle.std.specs.Prelude.{◌<◌, ◌^◌, IfSome};
ghost use Rattle.mpb_spec.specs.Plan.{plan_size};

use crate::harness::same;
use mpb_board::{Board, Config, Entry, Offer, Op};
use mpt_base::NoMemory;
use std::alloc::Global;
use std::process::Abort;

/// The offer with which an op is made.
fn offer_of(op: Op) -> Offer {
    match op {
        Op::Collect(pins) => Offer::Collect(pins),
        Op::Sweep => Offer::Sweep,
        _ => Offer::Next,
    }
}

/// Whether two entries are the same.
fn are_same(one: &Entry, two: &Entry) -> bool {
    one.agent == two.agent && one.op == two.op && one.outcomes.as_slice() == two.outcomes.as_slice()
}

/// Whether the board makes this entry next.
fn makes(board: &mut Board, entry: &Entry) -> bool {
    let offer = offer_of(entry.op);
    if !board.can_step(entry.agent, offer) {
        return false;
    }
    let made = board.step(entry.agent, offer);
    are_same(&made, entry)
}

/// Whether the board makes these entries, one after the other, and is then at its end.
fn makes_all(board: &mut Board, journal: &[Entry]) -> bool {
    for entry in journal {
        if !makes(board, entry) {
            return false;
        }
    }
    board.quiet()
}

/// Whether a new board of the config makes these entries, one after the other, and is then at its end.
fn is_walked(alloc: Global, config: Config, journal: &[Entry]) -> Result<bool, NoMemory>
    requires { plan_size config < 2 ^ 32 }
{
    let mut board = Board::new(alloc, config)?;
    Ok(makes_all(&mut board, journal))
}

/// Asserts that there is a config, and that a new board of it makes these entries.
pub(crate) fn walks(rt: &impl Abort, alloc: Global, config: Option<Config>, journal: &[Entry])
    requires { IfSome config (λ c. plan_size c < 2 ^ 32) }
{
    match config {
        Some(config) => same(rt, "the walk", is_walked(alloc, config, journal), Ok(true)),
        None => panic!(rt; "no config"),
    }
}
