//! Offers with which an agent may not step.

use crate::harness::{
    makes, makes_all, may_step, opened, refuses, refuses_all, refuses_collections,
};
use crate::rows::{Line, row_of};
use mpb_board::{Agent, Board, Offer, Op, What};
use mpb_cases::three_pulses;
use std::process::Abort;

const BOOT: Agent = Agent::Cpu(0);

const IO: Agent = Agent::Io(0);

// before the boot program is through: no Begin, no collection, no sweep, and no agents of other names
fn early_offers() -> &'static [(Agent, Offer)] {
    &[
        (Agent::Dev(0), Offer::Next),
        (IO, Offer::Next),
        (IO, Offer::Collect(2)),
        (IO, Offer::Sweep),
        (BOOT, Offer::Sweep),
        (BOOT, Offer::Collect(2)),
        (Agent::Cpu(1), Offer::Next),
        (Agent::Dev(3), Offer::Next),
        (Agent::Io(1), Offer::Sweep),
    ]
}

// the boot program, a Begin, and a collection of each of the three pulses
fn collected_lines() -> &'static [Line] {
    &[
        (BOOT, Op::IoSel(0, 0x13), 0, What::Done),
        (BOOT, Op::IoWin(0, 0), 0, What::Plain),
        (BOOT, Op::IoSel(0, 0x12), 0, What::Done),
        (BOOT, Op::IoWin(0, 0x21), 0, What::Plain),
        (Agent::Dev(0), Op::Begin, 0, What::Done),
        (IO, Op::Collect(2), 0, What::Pins(2, 0)),
        (IO, Op::Collect(2), 0, What::Pins(0, 2)),
        (IO, Op::Collect(2), 0, What::Pins(0, 2)),
    ]
}

// the rest of the devices' ops
const TO_THE_LAST_END: &[(Agent, Op)] = &[
    (Agent::Dev(0), Op::End),
    (Agent::Dev(1), Op::Begin),
    (Agent::Dev(1), Op::End),
    (Agent::Dev(2), Op::Begin),
    (Agent::Dev(2), Op::End),
];

// asserts that the I/O APIC may sweep behind the last End, once, and not before
fn sweeps_behind_the_last_end(rt: &impl Abort, board: &mut Board) {
    for (agent, op) in TO_THE_LAST_END {
        refuses(rt, board, IO, Offer::Sweep);
        makes(rt, board, row_of((*agent, *op, 0, What::Done)));
    }
    makes(rt, board, row_of((IO, Op::Sweep, 0, What::Done)));
    refuses(rt, board, IO, Offer::Sweep);
}

#[test]
fn offers_wait_for_their_time(rt: HostRuntime) {
    let mut board = opened(&rt, rt.alloc(), three_pulses(rt.alloc()));
    refuses_all(&rt, &board, early_offers());
    makes_all(&rt, &mut board, collected_lines());
    // three pulses are planned on pin 1, and none elsewhere; an empty collection is none
    refuses_collections(&rt, &board, IO, &[0, 1, 2, 3, 4, 1 << 24, u32::MAX]);
    // a processor waits at a take, and a sweep for the last End
    may_step(&rt, &board, BOOT, false);
    sweeps_behind_the_last_end(&rt, &mut board);
    may_step(&rt, &board, IO, true);
}
