//! Each op and each outcome once in a line of a report, and a line with eight outcomes.

use crate::harness::same;
use arrayvec::ArrayVec;
use mpb_board::{Agent, Entry, Op, Outcome, What};
use mpb_report::push_entry_line;
use std::alloc::{AllocError, Global};
use std::process::Abort;

// the line of an entry with this number
fn line_of(alloc: Global, number: u64, entry: &Entry) -> Result<Vec<u8>, AllocError> {
    let mut out = Vec::new(alloc);
    push_entry_line(&mut out, number, entry)?;
    Ok(out)
}

// asserts that an entry with this number has this line
fn has_line(rt: &impl Abort, alloc: Global, number: u64, entry: &Entry, line: &str) {
    match line_of(alloc, number, entry) {
        Ok(out) => same(rt, line, out.as_slice() == line.as_bytes(), true),
        Err(_) => panic!(rt; "out of memory"),
    }
}

// an entry of one outcome
fn entry_of(agent: Agent, op: Op, outcome: Outcome) -> Entry {
    let mut outcomes = ArrayVec::new();
    outcomes.push(outcome);
    Entry {
        agent,
        op,
        outcomes,
    }
}

// asserts how an op stands in a line
fn shows_op(rt: &impl Abort, alloc: Global, op: Op, line: &str) {
    let outcome = Outcome {
        at: 0,
        what: What::Done,
    };
    has_line(rt, alloc, 9, &entry_of(Agent::Dev(3), op, outcome), line);
}

// asserts how an outcome stands in a line
fn shows_outcome(rt: &impl Abort, alloc: Global, what: What, line: &str) {
    let outcome = Outcome { at: 0xAB, what };
    has_line(
        rt,
        alloc,
        10,
        &entry_of(Agent::Io(2), Op::Sweep, outcome),
        line,
    );
}

const OPS: &[(Op, &str)] = &[
    (Op::Imcr, "9 dev 3 imcr : done\n"),
    (Op::Warm(0x9F), "9 dev 3 warm 9F : done\n"),
    (Op::Init(10), "9 dev 3 init 0A : done\n"),
    (Op::Startup(254, 1), "9 dev 3 startup FE 01 : done\n"),
    (Op::Check(16), "9 dev 3 check 10 : done\n"),
    (Op::Ipi(255, 0x80), "9 dev 3 ipi FF 80 : done\n"),
    (Op::Nmi(255), "9 dev 3 nmi FF : done\n"),
    (Op::Take, "9 dev 3 take : done\n"),
    (Op::Poll, "9 dev 3 poll : done\n"),
    (Op::Eoi, "9 dev 3 eoi : done\n"),
    (Op::Tpr(0xC0), "9 dev 3 tpr C0 : done\n"),
    (Op::Ldr(0x80), "9 dev 3 ldr 80 : done\n"),
    (Op::Dfr(15), "9 dev 3 dfr 0F : done\n"),
    (Op::Ipl(0x13, 0x40), "9 dev 3 ipl 13 40 : done\n"),
    (Op::IoSel(3, 0x3F), "9 dev 3 iosel 3 3F : done\n"),
    (
        Op::IoWin(1, 0xDEAD_BEEF),
        "9 dev 3 iowin 1 DEADBEEF : done\n",
    ),
    (Op::IoRead(2), "9 dev 3 ioread 2 : done\n"),
    (Op::Pause(1_000_000), "9 dev 3 pause 1000000 : done\n"),
    (Op::Begin, "9 dev 3 begin : done\n"),
    (Op::High(0, 23), "9 dev 3 high 0 23 : done\n"),
    (Op::Low(3, 7), "9 dev 3 low 3 7 : done\n"),
    (Op::End, "9 dev 3 end : done\n"),
    (Op::Collect(0x80_0001), "9 dev 3 collect 800001 : done\n"),
    (Op::Send(12), "9 dev 3 send 12 : done\n"),
    (Op::Sweep, "9 dev 3 sweep : done\n"),
];

const OUTCOMES: &[(What, &str)] = &[
    (What::Done, "10 io 2 sweep : done\n"),
    (What::Set, "10 io 2 sweep : AB=set\n"),
    (What::Merged, "10 io 2 sweep : AB=merged\n"),
    (What::Illegal, "10 io 2 sweep : AB=illegal\n"),
    (What::Asleep, "10 io 2 sweep : AB=asleep\n"),
    (What::Absent, "10 io 2 sweep : AB=absent\n"),
    (What::Waiting, "10 io 2 sweep : AB=waiting\n"),
    (What::Started(0x9F), "10 io 2 sweep : AB=started.9F\n"),
    (What::Ignored, "10 io 2 sweep : AB=ignored\n"),
    (What::Nmi, "10 io 2 sweep : AB=nmi\n"),
    (What::Passed, "10 io 2 sweep : AB=passed\n"),
    (What::Unheard, "10 io 2 sweep : unheard\n"),
    (What::Runs(0x0C), "10 io 2 sweep : AB=runs.0C\n"),
    (What::RunsFirst, "10 io 2 sweep : AB=runs.first\n"),
    (What::Taken(0x2A), "10 io 2 sweep : taken.2A\n"),
    (What::Nothing, "10 io 2 sweep : nothing\n"),
    (What::Ended(0x2A, false), "10 io 2 sweep : ended.2A.edge\n"),
    (What::Ended(0x2B, true), "10 io 2 sweep : ended.2B.level\n"),
    (What::Plain, "10 io 2 sweep : plain\n"),
    (What::Due, "10 io 2 sweep : due\n"),
    (What::Withdrawn, "10 io 2 sweep : withdrawn\n"),
    (What::Read(0x0017_0011), "10 io 2 sweep : read.00170011\n"),
    (
        What::Pins(0xA0_0000, 0xB),
        "10 io 2 sweep : pins.A00000.00000B\n",
    ),
];

#[test]
fn each_op_has_its_text(rt: HostRuntime) {
    for (op, line) in OPS {
        shows_op(&rt, rt.alloc(), *op, line);
    }
}

#[test]
fn each_outcome_has_its_text(rt: HostRuntime) {
    for (what, line) in OUTCOMES {
        shows_outcome(&rt, rt.alloc(), *what, line);
    }
}

// an acceptance by each of eight processors
fn eight_acceptances(rt: &impl Abort) -> ArrayVec<Outcome, 8> {
    let mut outcomes = ArrayVec::new();
    for at in 0..8u8 {
        assert!(rt; outcomes.len() < 8);
        outcomes.push(Outcome {
            at,
            what: What::Set,
        });
    }
    outcomes
}

#[test]
fn eight_outcomes_stand_in_one_line(rt: HostRuntime) {
    let entry = Entry {
        agent: Agent::Cpu(0x7F),
        op: Op::Ipi(255, 0x31),
        outcomes: eight_acceptances(&rt),
    };
    let want =
        "850000 cpu 7F ipi FF 31 : 00=set 01=set 02=set 03=set 04=set 05=set 06=set 07=set\n";
    has_line(&rt, rt.alloc(), 850_000, &entry, want);
}
