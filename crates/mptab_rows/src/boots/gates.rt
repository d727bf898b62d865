//! Boots by threads through a gate: each agent has a thread of its own, and what is printed is the history of
//! the threads. It holds what no clause says.

use crate::boots::harness::shelf_of;
use crate::harness::{Answer, same, sink_of, words_of};
use mpb_spec::Agent;
use mpt_base::MemShelf;
use mptab_calls::{Gate, run_with};
use mptab_cases::boots::three_pulses::{ONE_PIN, THREE_PULSES_SCRIPT};
use mptab_cases::boots::{IMAGE, SCRIPT};
use std::alloc::Global;
use std::sync::Wait;
use std::sync::atomic::{AtomicU64, Ordering};
use std::test::Fail;
use std::thread::Threads;

/// How often a gate looks before it goes on and marks the test as failed: some seconds, so that a thread that gets
/// no processor for a while is waited for.
const LOOKS: u64 = 5_000_000_000;

/// Whether the count came to its goal, before so many looks.
fn comes_to(count: &AtomicU64, goal: u64) -> bool {
    for _ in 0..LOOKS {
        if count.load(Ordering::SeqCst) >= goal {
            return true;
        }
    }
    false
}

/// One more of these. The count may have been another's in the meantime.
fn one_more(count: &AtomicU64) -> u64 {
    count.fetch_add(1, Ordering::SeqCst)
}

/// Two agents that wait for each other at their first pass.
#[derive(Drop)]
struct TwoGate {
    /// How often processor 0 passed.
    cpu: AtomicU64,
    /// How often device 0 passed.
    dev: AtomicU64,
    /// How often one of them looked in vain.
    missed: AtomicU64,
}

impl TwoGate {
    fn new() -> TwoGate {
        TwoGate {
            cpu: AtomicU64::new(0),
            dev: AtomicU64::new(0),
            missed: AtomicU64::new(0),
        }
    }

    /// The agent that counts here passes; at its first pass it looks for the other.
    fn pass_beside(&self, own: &AtomicU64, other: &AtomicU64) {
        if one_more(own) == 0 && !comes_to(other, 1) {
            one_more(&self.missed);
        }
    }
}

impl Gate for TwoGate {
    fn pass(&self, agent: Agent) {
        match agent {
            Agent::Cpu(0) => self.pass_beside(&self.cpu, &self.dev),
            Agent::Dev(0) => self.pass_beside(&self.dev, &self.cpu),
            _ => {}
        }
    }
}

/// Devices that wait at their first pass until processor 0 has passed five times, behind its boot program; one of
/// them is held there until each of the two others has passed twice, the second time behind its Begin.
#[derive(Drop)]
struct LateGate {
    /// The device that is held.
    held: u8,
    /// How often the device passed.
    own: AtomicU64,
    /// How often processor 0 passed.
    cpu: AtomicU64,
    /// How often each other device passed.
    others: [AtomicU64; 3],
    /// How often one of them looked in vain.
    missed: AtomicU64,
}

impl LateGate {
    fn new(held: u8) -> LateGate {
        LateGate {
            held,
            own: AtomicU64::new(0),
            cpu: AtomicU64::new(0),
            others: [AtomicU64::new(0), AtomicU64::new(0), AtomicU64::new(0)],
            missed: AtomicU64::new(0),
        }
    }

    /// Whether each other device passed twice.
    fn others_pass(&self) -> bool {
        for (device, count) in self.others.iter().enumerate() {
            if device != usize::from(self.held) && !comes_to(count, 2) {
                return false;
            }
        }
        true
    }

    /// The held device passes.
    fn pass_late(&self) {
        if one_more(&self.own) == 0 && !(comes_to(&self.cpu, 5) && self.others_pass()) {
            one_more(&self.missed);
        }
    }

    /// A device waits until processor 0 has passed five times.
    fn await_boot(&self) {
        if !comes_to(&self.cpu, 5) {
            one_more(&self.missed);
        }
    }

    /// Another device passes.
    fn pass_other(&self, device: u8) {
        self.await_boot();
        if let Some(count) = self.others.get(usize::from(device)) {
            one_more(count);
        }
    }
}

impl Gate for LateGate {
    fn pass(&self, agent: Agent) {
        match agent {
            Agent::Cpu(0) => {
                one_more(&self.cpu);
            }
            Agent::Dev(device) if device == self.held => self.pass_late(),
            Agent::Dev(device) => self.pass_other(device),
            _ => {}
        }
    }
}

/// The answer of `boot` to three pulses, through a gate.
fn booted<R: Threads + Wait + Sync, G: Gate + Sync>(
    rt: &R,
    alloc: Global,
    gate: &G,
) -> Result<Answer, Fail> {
    let mut shelf = shelf_of(alloc, &ONE_PIN, THREE_PULSES_SCRIPT)?;
    booted_over(rt, alloc, &mut shelf, gate)
}

/// The same where the image and the script are on this shelf.
fn booted_over<R: Threads + Wait + Sync, G: Gate + Sync>(
    rt: &R,
    alloc: Global,
    shelf: &mut MemShelf,
    gate: &G,
) -> Result<Answer, Fail> {
    let words = words_of(alloc, &["boot", IMAGE, SCRIPT])?;
    let mut sink = sink_of(alloc, 0)?;
    let status = run_with(rt, alloc, words.as_slice(), shelf, &mut sink, gate);
    Answer::with(alloc, status, &sink)
}

/// Where a line that ends with this text begins, counted in lines.
fn line_of(text: &str, end: &str) -> Option<usize> {
    text.split('\n').position(|line| line.ends_with(end))
}

/// Whether the device's Begin stands behind those of the two others.
fn begins_last(text: &str, held: usize) -> bool {
    let begins = [
        line_of(text, " dev 0 begin : done"),
        line_of(text, " dev 1 begin : done"),
        line_of(text, " dev 2 begin : done"),
    ];
    let Some(last) = begins.get(held) else {
        return false;
    };
    last.is_some() && begins.iter().all(|at| at.is_some() && at <= last)
}

#[test]
fn gate_two(rt: HostRuntime) -> Result<(), Fail> {
    let gate = TwoGate::new();
    let answer = booted(&rt, rt.alloc(), &gate)?;
    same(&rt, "status", answer.status, 0);
    same(&rt, "looks in vain", gate.missed.load(Ordering::SeqCst), 0);
    assert!(rt; gate.cpu.load(Ordering::SeqCst) > 0, "the processor passed");
    assert!(rt; gate.dev.load(Ordering::SeqCst) > 0, "the device passed");
    Ok(())
}

/// The status of a boot where this device is held, how often it looked in vain, and whether it begins last.
fn late<R: Threads + Wait + Sync>(
    rt: &R,
    alloc: Global,
    held: u8,
) -> Result<(u8, u64, bool), Fail> {
    let gate = LateGate::new(held);
    let answer = booted(rt, alloc, &gate)?;
    let text = str::from_utf8(answer.text.as_slice()).unwrap_or("");
    let last = begins_last(text, usize::from(held));
    Ok((answer.status, gate.missed.load(Ordering::SeqCst), last))
}

#[test]
fn gate_late(rt: HostRuntime) -> Result<(), Fail> {
    for held in [0u8, 1, 2] {
        let got = late(&rt, rt.alloc(), held)?;
        let name = "a device, the status, how often it looked in vain, and whether it begins last";
        same(&rt, name, (held, got), (held, (0, 0, true)));
    }
    Ok(())
}
