//! What no run of the round robin shows: starts that no boot program makes, messages to a processor that
//! sleeps, and offers before, beyond and after their time.

use crate::boards::{early_pulses, one_asleep, starts};
use crate::harness::{has_life, is_quiet, opened, same};
use crate::rows::{Row, at, is_made, is_told};
use mpb_board::{Agent, Board, Life, Offer, Op, Outcome, What};
use std::process::Abort;

const BOOT: Agent = Agent::Cpu(0);

const IO: Agent = Agent::Io(0);

const DEVICE: Agent = Agent::Dev(0);

// Asserts that a step of the board is the wanted one, by its number.
fn holds(rt: &impl Abort, number: usize, right: bool) {
    same(
        rt,
        "a step, and whether it is right",
        (number, right),
        (number, true),
    );
}

/// The boot processor's ops, and the outcome of each: processor 1 has a STARTUP and is new, 2 is old.
const STARTS: &[(Op, u8, What)] = &[
    (Op::Startup(1, 0x9F), 1, What::Ignored),
    (Op::Check(1), 1, What::Asleep),
    (Op::Init(2), 2, What::Ignored),
    (Op::Check(2), 2, What::Asleep),
    (Op::Init(1), 1, What::Waiting),
    (Op::Check(1), 1, What::Waiting),
    (Op::Init(1), 1, What::Waiting),
    (Op::Startup(1, 0x9F), 1, What::Started(0x9F)),
    (Op::Init(1), 1, What::Ignored),
    (Op::Check(1), 1, What::Runs(0x9F)),
    (Op::Warm(0x9F), 0, What::Done),
    (Op::Startup(2, 0x9F), 2, What::Ignored),
    (Op::Init(2), 2, What::Started(0x9F)),
    (Op::Init(2), 2, What::Ignored),
    (Op::Check(2), 2, What::Runs(0x9F)),
    (Op::Check(3), 3, What::Absent),
];

// Asserts that the boot processor's ops have these outcomes.
fn starts_are_right(rt: &impl Abort, board: &mut Board) {
    for (number, (op, target, what)) in STARTS.iter().enumerate() {
        let right = is_made(board, at(BOOT, *op, *target, *what));
        holds(rt, number, right);
    }
}

// Asserts that no agent may step, and that the two processors are started.
fn both_are_started(rt: &impl Abort, board: &Board) {
    is_quiet(rt, board, true);
    has_life(rt, board, 1, Some(Life::Started(0x9F)));
    has_life(rt, board, 2, Some(Life::Started(0x9F)));
}

#[test]
fn processors_start_by_their_rules(rt: HostRuntime) {
    let mut board = opened(&rt, rt.alloc(), starts(rt.alloc()));
    starts_are_right(&rt, &mut board);
    both_are_started(&rt, &board);
}

// The board's agents up to its sends: the boot program, a device that pulses pins 0 to 3, each collected alone.
const BEFORE: &[(Agent, Offer)] = &[
    (DEVICE, Offer::Next),
    (IO, Offer::Collect(15)),
    (DEVICE, Offer::Next),
];

/// The sends of four pins to every processor, of which processor 1 sleeps.
const SENDS: &[(u8, What)] = &[
    (0, What::Set),
    (1, What::Passed),
    (2, What::Nmi),
    (3, What::Passed),
];

fn steps(board: &mut Board, agent: Agent, offer: Offer) -> bool {
    if !board.can_step(agent, offer) {
        return false;
    }
    let _ = board.step(agent, offer);
    true
}

// Whether the I/O APIC sends this pin, the boot processor has this outcome, and processor 1 sleeps.
fn is_sent(board: &mut Board, pin: u8, what: What) -> bool {
    let asleep = Outcome {
        at: 1,
        what: What::Asleep,
    };
    is_told(
        board,
        IO,
        Offer::Next,
        Op::Send(pin),
        &[Outcome { at: 0, what }, asleep],
    )
}

// Asserts that the boot program runs, and finds processor 1 asleep.
fn boots(rt: &impl Abort, board: &mut Board) {
    for number in 0..16usize {
        let right = steps(board, BOOT, Offer::Next);
        holds(rt, number, right);
    }
    let asleep = is_made(board, at(BOOT, Op::Check(1), 1, What::Asleep));
    holds(rt, 16, asleep);
}

// Asserts that the device's pulses are collected.
fn collects(rt: &impl Abort, board: &mut Board) {
    for (agent, offer) in BEFORE {
        let right = steps(board, *agent, *offer);
        holds(rt, 17, right);
    }
}

// Asserts the outcomes of the sends.
fn sends(rt: &impl Abort, board: &mut Board) {
    for (pin, what) in SENDS {
        let right = is_sent(board, *pin, *what);
        holds(rt, 18, right);
    }
}

#[test]
fn no_message_reaches_one_that_sleeps(rt: HostRuntime) {
    let mut board = opened(&rt, rt.alloc(), one_asleep(rt.alloc()));
    boots(&rt, &mut board);
    collects(&rt, &mut board);
    sends(&rt, &mut board);
    has_life(&rt, &board, 1, Some(Life::Asleep));
}

/// An offer of an agent, and the op and the outcome of the step, or that it may not step so.
struct Call {
    agent: Agent,
    offer: Offer,
    made: Option<(Op, What)>,
}

fn is_answered(board: &mut Board, call: &Call) -> bool {
    match call.made {
        Some((op, what)) => {
            let outcome = Outcome { at: 0, what };
            let row = Row {
                agent: call.agent,
                offer: call.offer,
                op,
                outcome,
            };
            is_made(board, row)
        }
        None => !board.can_step(call.agent, call.offer),
    }
}

/// Two pulses are planned on pin 1 and one on pin 2; pin 1 alone is unmasked.
const OFFERS: &[Call] = &[
    Call {
        agent: DEVICE,
        offer: Offer::Next,
        made: None,
    },
    Call {
        agent: IO,
        offer: Offer::Collect(2),
        made: None,
    },
    Call {
        agent: IO,
        offer: Offer::Sweep,
        made: None,
    },
    Call {
        agent: BOOT,
        offer: Offer::Next,
        made: Some((Op::IoSel(0, 0x12), What::Done)),
    },
    Call {
        agent: DEVICE,
        offer: Offer::Next,
        made: None,
    },
    Call {
        agent: IO,
        offer: Offer::Collect(2),
        made: None,
    },
    Call {
        agent: BOOT,
        offer: Offer::Next,
        made: Some((Op::IoWin(0, 0x21), What::Plain)),
    },
    Call {
        agent: BOOT,
        offer: Offer::Next,
        made: None,
    },
    Call {
        agent: IO,
        offer: Offer::Collect(0),
        made: None,
    },
    Call {
        agent: IO,
        offer: Offer::Collect(8),
        made: None,
    },
    Call {
        agent: IO,
        offer: Offer::Collect(0x0A),
        made: None,
    },
    Call {
        agent: IO,
        offer: Offer::Collect(0x100_0000),
        made: None,
    },
    Call {
        agent: IO,
        offer: Offer::Sweep,
        made: None,
    },
    Call {
        agent: IO,
        offer: Offer::Collect(2),
        made: Some((Op::Collect(2), What::Pins(2, 0))),
    },
    Call {
        agent: IO,
        offer: Offer::Collect(2),
        made: Some((Op::Collect(2), What::Pins(0, 2))),
    },
    Call {
        agent: IO,
        offer: Offer::Collect(2),
        made: None,
    },
    Call {
        agent: IO,
        offer: Offer::Collect(6),
        made: None,
    },
    Call {
        agent: DEVICE,
        offer: Offer::Next,
        made: Some((Op::Begin, What::Done)),
    },
    Call {
        agent: IO,
        offer: Offer::Sweep,
        made: None,
    },
    Call {
        agent: DEVICE,
        offer: Offer::Next,
        made: Some((Op::End, What::Done)),
    },
    Call {
        agent: DEVICE,
        offer: Offer::Next,
        made: None,
    },
    Call {
        agent: IO,
        offer: Offer::Sweep,
        made: Some((Op::Sweep, What::Done)),
    },
    Call {
        agent: IO,
        offer: Offer::Sweep,
        made: None,
    },
    Call {
        agent: IO,
        offer: Offer::Collect(4),
        made: None,
    },
    Call {
        agent: IO,
        offer: Offer::Next,
        made: Some((Op::Send(1), What::Set)),
    },
    Call {
        agent: IO,
        offer: Offer::Next,
        made: None,
    },
];

// Asserts the answers to these calls.
fn are_answered(rt: &impl Abort, board: &mut Board, calls: &[Call]) {
    for (number, call) in calls.iter().enumerate() {
        let right = is_answered(board, call);
        holds(rt, number, right);
    }
}

#[test]
fn offers_are_answered_by_their_time(rt: HostRuntime) {
    let mut board = opened(&rt, rt.alloc(), early_pulses(rt.alloc()));
    are_answered(&rt, &mut board, OFFERS);
    is_quiet(&rt, &board, true);
}
