//! A board that is stepped, and the report of it.

use crate::harness::same;
use mpb_board::{Agent, Board, Offer};
use mpb_report::report_text;
use mpb_spec::{Account, Hit, Pulse};
use std::alloc::{AllocError, Global};
use std::process::Abort;

/// Steps the board by each of these agents and offers, each of which has to be able to step.
pub(crate) fn steps(rt: &impl Abort, board: &mut Board, turns: &[(Agent, Offer)]) {
    for (agent, offer) in turns {
        step(rt, board, *agent, *offer);
    }
}

fn step(rt: &impl Abort, board: &mut Board, agent: Agent, offer: Offer) {
    let number = board.journal().len();
    if !board.can_step(agent, offer) {
        panic!(rt; "no step for entry {number}");
    }
    board.step(agent, offer);
}

/// An account of these logs, each of one pulse at a pin of the first I/O APIC.
pub(crate) fn account_of(alloc: Global, logs: &[(u8, Hit)]) -> Result<Account, AllocError> {
    let mut all = Vec::new(alloc);
    for (pin, hit) in logs {
        let pulse = Pulse { io: 0, pin: *pin };
        all.push([(pulse, *hit)].to_vec(alloc)?)?;
    }
    Ok(Account {
        logs: all,
        collected: Vec::new(alloc),
    })
}

/// An account of one log, which is empty.
pub(crate) fn silent_account(alloc: Global) -> Result<Account, AllocError> {
    let mut logs = Vec::new(alloc);
    logs.push(Vec::new(alloc))?;
    Ok(Account {
        logs,
        collected: Vec::new(alloc),
    })
}

/// Asserts that this is the report of the board and an account that was made.
pub(crate) fn has_report(
    rt: &impl Abort,
    alloc: Global,
    board: &Board,
    made: Result<Account, AllocError>,
    want: &[u8],
) {
    match made {
        Ok(account) => has_report_of(rt, alloc, board, &account, want),
        Err(_) => panic!(rt; "out of memory"),
    }
}

fn has_report_of(rt: &impl Abort, alloc: Global, board: &Board, account: &Account, want: &[u8]) {
    match report_text(alloc, board, account) {
        Ok(text) => same(
            rt,
            "whether it is the report",
            text.as_slice() == want,
            true,
        ),
        Err(_) => panic!(rt; "out of memory"),
    }
}
