//! Three devices pulse one pin, by threads: how many pulses a collection gathers depends on the schedule,
//! so what is asked holds in all of them.

use crate::harness::{ran, same};
use mpb_board::{Board, Op};
use mpb_cases::three_pulses;
use mpb_crew::{Gate, NoGate};
use mpb_spec::{Account, Agent, Hit, What};
use std::process::Abort;
use std::sync::atomic::{AtomicU64, Ordering};
use std::test::Fail;

/// How many entries have this op.
fn ops_of(board: &Board, op: Op) -> usize {
    board.journal().iter().filter(|x| x.op == op).count()
}

/// How many entries are the agent's.
fn entries_of(board: &Board, agent: Agent) -> u64 {
    board.journal().iter().filter(|x| x.agent == agent).count() as u64
}

/// How many entries have an outcome Set.
fn sets_of(board: &Board) -> usize {
    board
        .journal()
        .iter()
        .filter(|x| x.outcomes.as_slice().iter().any(|o| o.what == What::Set))
        .count()
}

/// How many hits there are in all, and how many are New.
fn hits_of(account: &Account) -> (usize, usize) {
    let mut hits = 0usize;
    let mut news = 0usize;
    for log in &account.logs {
        for (_, hit) in log {
            hits = hits.wrapping_add(1);
            if matches!(hit, Hit::New) {
                news = news.wrapping_add(1);
            }
        }
    }
    (hits, news)
}

/// How often pin 1 of the first I/O APIC was collected.
fn collected_of(account: &Account) -> usize {
    let Some(counts) = account.collected.get(0) else {
        return 0;
    };
    let Some(count) = counts.get(1) else {
        return 0;
    };
    *count as usize
}

/// Asserts that the account is of three pulses, and that as many of them are New as pin 1 was collected.
fn is_balanced(rt: &impl Abort, account: &Account) {
    let (hits, news) = hits_of(account);
    same(rt, "pulses", hits, 3);
    same(rt, "logs", account.logs.len(), 3);
    let collected = collected_of(account);
    same(rt, "New hits, and collections of pin 1", news, collected);
}

/// Asserts that the board is at its end, and has so many collections, one sweep, and an outcome Set.
fn is_collected(rt: &impl Abort, board: &Board, collected: usize) {
    same(rt, "whether the board is quiet", board.quiet(), true);
    let collections = ops_of(board, Op::Collect(2));
    same(rt, "collections", collections, collected);
    same(rt, "sweeps", ops_of(board, Op::Sweep), 1);
    assert!(rt; sets_of(board) > 0, "no outcome Set");
}

#[test]
fn three_devices_by_threads(rt: HostRuntime) -> Result<(), Fail> {
    let ran = ran(&rt, rt.alloc(), three_pulses(rt.alloc())?, &NoGate)?;
    is_balanced(&rt, &ran.account);
    is_collected(&rt, &ran.board, collected_of(&ran.account));
    Ok(())
}

/// Counts the passes of each agent of the board.
#[derive(Drop)]
struct CountGate {
    cpu: AtomicU64,
    io: AtomicU64,
    devices: [AtomicU64; 3],
    others: AtomicU64,
}

impl CountGate {
    fn new() -> CountGate {
        CountGate {
            cpu: AtomicU64::new(0),
            io: AtomicU64::new(0),
            devices: [AtomicU64::new(0), AtomicU64::new(0), AtomicU64::new(0)],
            others: AtomicU64::new(0),
        }
    }

    fn of(&self, agent: Agent) -> &AtomicU64 {
        match agent {
            Agent::Cpu(0) => &self.cpu,
            Agent::Io(0) => &self.io,
            Agent::Dev(device) => self
                .devices
                .get(usize::from(device))
                .unwrap_or(&self.others),
            _ => &self.others,
        }
    }

    fn passes(&self, agent: Agent) -> u64 {
        self.of(agent).load(Ordering::SeqCst)
    }
}

impl Gate for CountGate {
    fn pass(&self, agent: Agent) {
        self.of(agent).fetch_add(1, Ordering::SeqCst);
    }
}

/// Asserts that the agent, which makes so many pulses, passes before each turn.
fn passes_each_turn(rt: &impl Abort, gate: &CountGate, board: &Board, agent: Agent, pulses: u64) {
    let turns = entries_of(board, agent).saturating_add(pulses);
    assert!(rt;
        gate.passes(agent) > turns,
        "{agent:?} passes before each turn"
    );
}

/// Asserts that each agent of the board passes before each turn, and nobody else.
fn all_pass(rt: &impl Abort, gate: &CountGate, board: &Board) {
    passes_each_turn(rt, gate, board, Agent::Cpu(0), 0);
    passes_each_turn(rt, gate, board, Agent::Io(0), 0);
    passes_each_turn(rt, gate, board, Agent::Dev(0), 1);
    passes_each_turn(rt, gate, board, Agent::Dev(1), 1);
    passes_each_turn(rt, gate, board, Agent::Dev(2), 1);
    let others = gate.others.load(Ordering::SeqCst);
    same(rt, "passes of nobody", others, 0);
}

/// Each turn is one entry or one pulse at most, and in the last one no agent may step.
#[test]
fn passes_are_counted(rt: HostRuntime) -> Result<(), Fail> {
    let gate = CountGate::new();
    let ran = ran(&rt, rt.alloc(), three_pulses(rt.alloc())?, &gate)?;
    all_pass(&rt, &gate, &ran.board);
    Ok(())
}
