//! A wiring on each way, and the text that calls have on it.

ghost use Rattle.std.specs.Prelude.{◌<◌, ◌^◌, IfOk, length};
ghost use Rattle.mpb_spec.specs.Plan.{plan_size};

use crate::boards::{Entries, OPS, bare, platform, two_chips};
use mpb_board::{Agent, Board, Config, Offer};
use mpf_pic::{Path, PicFault, Wiring, parse_pic, play};
use mpt_spec::IntEntry;
use std::alloc::{AllocError, Global};
use std::process::Abort;

/// What leads INTR to the boot processor where the APICs are connected.
#[derive(Clone, Copy)]
pub enum Wired {
    /// A local interrupt, and these entries of two I/O APICs.
    By(IntEntry, Entries),
    /// Nothing.
    Nothing,
}

/// A text of calls on a wiring, and what it gives.
#[derive(Clone, Copy)]
pub struct Row {
    pub name: &'static str,
    pub imcr: bool,
    pub wired: Wired,
    pub calls: &'static [u8],
    pub text: &'static [u8],
}

/// A wiring without calls, and its way.
#[derive(Clone, Copy)]
pub struct WayRow {
    pub name: &'static str,
    pub imcr: bool,
    pub wired: Wired,
    pub way: Path,
}

fn opened(rt: &impl Abort, alloc: Global, made: Result<Config, AllocError>) -> Board
    requires { IfOk made (λ c. plan_size c < 2 ^ 32) }
{
    match made {
        Ok(config) => opened_as(rt, alloc, config),
        Err(_) => panic!(rt; "out of memory"),
    }
}

fn opened_as(rt: &impl Abort, alloc: Global, config: Config) -> Board
    requires { plan_size config < 2 ^ 32 }
{
    match Board::new(alloc, config) {
        Ok(board) => board,
        Err(_) => panic!(rt; "out of memory"),
    }
}

fn step(rt: &impl Abort, board: &mut Board) {
    if !board.can_step(Agent::Cpu(0), Offer::Next) {
        panic!(rt; "no step");
    }
    let _ = board.step(Agent::Cpu(0), Offer::Next);
}

fn booted(rt: &impl Abort, alloc: Global, imcr: bool, entries: Entries) -> Board {
    let mut board = opened(rt, alloc, two_chips(alloc, imcr, entries));
    for _ in 0..OPS {
        step(rt, &mut board);
    }
    board
}

fn wiring_to(rt: &impl Abort, alloc: Global, board: &Board, lints: &[IntEntry]) -> Wiring {
    match platform(alloc, lints) {
        Ok(platform) => Wiring::of(board, &platform),
        Err(_) => panic!(rt; "out of memory"),
    }
}

fn wiring(rt: &impl Abort, alloc: Global, imcr: bool, wired: Wired) -> Wiring {
    match wired {
        Wired::By(lint, entries) => {
            let board = booted(rt, alloc, imcr, entries);
            wiring_to(rt, alloc, &board, &[lint])
        }
        Wired::Nothing => {
            let board = opened(rt, alloc, bare(alloc, imcr));
            wiring_to(rt, alloc, &board, &[])
        }
    }
}

/// Asserts the way of the row's wiring.
pub fn has_way(rt: &impl Abort, alloc: Global, row: &WayRow) {
    let w = wiring(rt, alloc, row.imcr, row.wired);
    let right = w.path() == row.way;
    assert_eq!(rt; right, true, "{}", row.name);
}

fn played(rt: &impl Abort, alloc: Global, w: Wiring, calls: &[u8]) -> Vec<u8>
    requires { length calls.now < 2 ^ 32 }
{
    match parse_pic(alloc, calls) {
        Ok(ops) => match play(alloc, w, ops.as_slice()) {
            Ok(text) => text,
            Err(_) => panic!(rt; "out of memory"),
        },
        Err(fault) => panic!(rt; "{fault:?}"),
    }
}

/// Asserts that the row's calls have the row's text.
pub fn has_text(rt: &impl Abort, alloc: Global, row: &Row) {
    if row.calls.len() > 4096 {
        panic!(rt; "a long row");
    }
    let w = wiring(rt, alloc, row.imcr, row.wired);
    let text = played(rt, alloc, w, row.calls);
    let right = text.as_slice() == row.text;
    assert_eq!(rt; right, true, "{}", row.name);
}

/// Asserts that the text of calls is refused at a line.
pub fn is_refused(rt: &impl Abort, alloc: Global, calls: &str, want: u32) {
    if calls.len() > 4096 {
        panic!(rt; "a long row");
    }
    match parse_pic(alloc, calls.as_bytes()) {
        Ok(_) => panic!(rt; "no fault in {calls}"),
        Err(PicFault::Line { line }) => assert_eq!(rt; line, want, "{calls}"),
        Err(PicFault::NoMemory) => panic!(rt; "out of memory"),
    }
}
