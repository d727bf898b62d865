//! Worked boards through their whole journals, entry by entry.

use crate::boards::one_level;
use crate::harness::{
    all_go_on, has_clear_pins, has_clear_vector, has_entries, has_imcr, has_life, has_processors,
    has_room, is_quiet, is_without, makes_all, may_step, opened,
};
use crate::rows::Line;
use mpb_board::{Agent, Board, Imcr, Life, Op, What};
use mpb_cases::{one_absent, three_pulses, two_processors};
use std::process::Abort;

const BOOT: Agent = Agent::Cpu(0);

const IO: Agent = Agent::Io(0);

const DEVICE: Agent = Agent::Dev(0);

// the entries of two processors' start
fn two_processors_lines() -> &'static [Line] {
    &[
        (BOOT, Op::Init(1), 1, What::Waiting),
        (BOOT, Op::Pause(10_000), 0, What::Done),
        (BOOT, Op::Startup(1, 0x9F), 1, What::Started(0x9F)),
        (BOOT, Op::Pause(200), 0, What::Done),
        (BOOT, Op::Startup(1, 0x9F), 1, What::Ignored),
        (BOOT, Op::Pause(200), 0, What::Done),
        (BOOT, Op::Check(1), 1, What::Runs(0x9F)),
    ]
}

// asserts the lives of the two, and that there is nothing else
fn two_run_alone(rt: &impl Abort, board: &Board) {
    has_life(rt, board, 0, Some(Life::First));
    has_life(rt, board, 1, Some(Life::Started(0x9F)));
    is_without(rt, board, 2, 0);
    has_imcr(rt, board, Imcr::Absent);
    has_processors(rt, board, 2);
}

#[test]
fn two_processors_start(rt: HostRuntime) {
    let mut board = opened(&rt, rt.alloc(), two_processors(rt.alloc(), &[]));
    has_room(&rt, &board, 7);
    all_go_on(&rt, &mut board, BOOT, two_processors_lines());
    is_done(&rt, &board, 7);
    may_step(&rt, &board, BOOT, false);
    two_run_alone(&rt, &board);
}

// asserts that no agent may step, behind so many entries
fn is_done(rt: &impl Abort, board: &Board, entries: usize) {
    is_quiet(rt, board, true);
    has_entries(rt, board, entries);
}

// the entries of three pulses on one pin
fn three_pulses_lines() -> &'static [Line] {
    &[
        (BOOT, Op::IoSel(0, 0x13), 0, What::Done),
        (BOOT, Op::IoWin(0, 0), 0, What::Plain),
        (BOOT, Op::IoSel(0, 0x12), 0, What::Done),
        (BOOT, Op::IoWin(0, 0x21), 0, What::Plain),
        (DEVICE, Op::Begin, 0, What::Done),
        (Agent::Dev(1), Op::Begin, 0, What::Done),
        (Agent::Dev(2), Op::Begin, 0, What::Done),
        (IO, Op::Collect(2), 0, What::Pins(2, 0)),
        (DEVICE, Op::End, 0, What::Done),
        (Agent::Dev(1), Op::End, 0, What::Done),
        (Agent::Dev(2), Op::End, 0, What::Done),
        (IO, Op::Send(1), 0, What::Set),
        (BOOT, Op::Take, 0, What::Taken(0x21)),
        (IO, Op::Sweep, 0, What::Done),
        (BOOT, Op::Eoi, 0, What::Ended(0x21, false)),
    ]
}

#[test]
fn three_devices_pulse_one_pin(rt: HostRuntime) {
    let mut board = opened(&rt, rt.alloc(), three_pulses(rt.alloc()));
    has_room(&rt, &board, 45);
    makes_all(&rt, &mut board, three_pulses_lines());
    is_done(&rt, &board, 15);
    has_clear_vector(&rt, &board, 0, 0x21);
    has_clear_pins(&rt, &board, 0);
}

// the entries of one level pin
fn one_level_lines() -> &'static [Line] {
    &[
        (BOOT, Op::IoSel(0, 0x31), 0, What::Done),
        (BOOT, Op::IoWin(0, 0), 0, What::Plain),
        (BOOT, Op::IoSel(0, 0x30), 0, What::Done),
        (BOOT, Op::IoWin(0, 0xA030), 0, What::Plain),
        (DEVICE, Op::Begin, 0, What::Done),
        (DEVICE, Op::High(0, 16), 0, What::Due),
        (IO, Op::Send(16), 0, What::Set),
        (DEVICE, Op::End, 0, What::Done),
        (BOOT, Op::Take, 0, What::Taken(0x30)),
        (IO, Op::Sweep, 0, What::Done),
        (BOOT, Op::Eoi, 0, What::Ended(0x30, true)),
        (IO, Op::Send(16), 0, What::Set),
    ]
}

#[test]
fn level_pin_is_sent_again(rt: HostRuntime) {
    let mut board = opened(&rt, rt.alloc(), one_level(rt.alloc()));
    makes_all(&rt, &mut board, one_level_lines());
    is_done(&rt, &board, 12);
}

// the entries of a start by the warm-reset vector, and of one that isn't there
fn one_absent_lines() -> &'static [Line] {
    &[
        (BOOT, Op::Warm(0x9F), 0, What::Done),
        (BOOT, Op::Init(1), 1, What::Started(0x9F)),
        (BOOT, Op::Pause(10_000), 0, What::Done),
        (BOOT, Op::Check(1), 1, What::Runs(0x9F)),
        (BOOT, Op::Init(2), 2, What::Absent),
        (BOOT, Op::Pause(10_000), 0, What::Done),
        (BOOT, Op::Startup(2, 0x9F), 2, What::Absent),
        (BOOT, Op::Pause(200), 0, What::Done),
        (BOOT, Op::Startup(2, 0x9F), 2, What::Absent),
        (BOOT, Op::Pause(200), 0, What::Done),
        (BOOT, Op::Check(2), 2, What::Absent),
    ]
}

#[test]
fn old_processor_starts_by_warm_reset(rt: HostRuntime) {
    let mut board = opened(&rt, rt.alloc(), one_absent(rt.alloc(), true));
    makes_all(&rt, &mut board, one_absent_lines());
    is_quiet(&rt, &board, true);
    has_imcr(&rt, &board, Imcr::Pic);
}
