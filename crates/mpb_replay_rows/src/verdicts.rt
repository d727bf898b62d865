//! The verdicts.

ghost use Rattle.std.specs.Prelude.{◌<◌, ◌^◌, length};
ghost use Rattle.mpb_spec.specs.Plan.{plan_size};

use crate::example::{Line, one_waits, report_of, run_lines};
use crate::reading::same;
use mpb_board::{Agent, Config, Op, What};
use mpb_cases::three_pulses;
use mpb_replay::{BadWhy, Report, Verdict, replay};
use mpb_spec::Hit;
use std::alloc::Global;
use std::process::Abort;

const HITS: &[(u8, Hit)] = &[(1, Hit::New), (1, Hit::Merged), (1, Hit::Merged)];

const TWICE_NEW: &[(u8, Hit)] = &[(1, Hit::New), (1, Hit::New), (1, Hit::Merged)];

const NEVER_NEW: &[(u8, Hit)] = &[(1, Hit::Merged), (1, Hit::Merged), (1, Hit::Merged)];

const ANOTHER_PIN: &[(u8, Hit)] = &[(1, Hit::New), (2, Hit::Merged), (1, Hit::Merged)];

const ONE_TOO_FEW: &[(u8, Hit)] = &[(1, Hit::New), (1, Hit::Merged)];

const TOO_FEW_NEW: &[(u8, Hit)] = &[(1, Hit::Merged), (1, Hit::Merged)];

const TWO_OTHER_PINS: &[(u8, Hit)] = &[(1, Hit::New), (2, Hit::Merged), (2, Hit::Merged)];

const ONE_TOO_MANY: &[(u8, Hit)] = &[
    (1, Hit::New),
    (1, Hit::Merged),
    (1, Hit::Merged),
    (1, Hit::Merged),
];

const STILL: &[u32] = &[0];

const BAD_WRITE: Verdict = Verdict::Bad {
    entry: 1,
    why: BadWhy::Outcome,
};

const BOOT: Agent = Agent::Cpu(0);

const IO: Agent = Agent::Io(0);

const DEVICE: Agent = Agent::Dev(0);

/// A line in the place of an entry, and why it is no step there.
struct Wrong {
    name: &'static str,
    entry: usize,
    line: Line,
    why: BadWhy,
}

#[derive(Drop)]
/// So many entries of the run, logs and values of remote IRR, and the verdict on them.
struct Row {
    name: &'static str,
    entries: usize,
    hits: &'static [(u8, Hit)],
    remotes: &'static [u32],
    want: Verdict,
}

// the agent isn't there
const ABSENT: &[Wrong] = &[
    Wrong {
        name: "an absent processor",
        entry: 0,
        line: (Agent::Cpu(5), Op::IoSel(0, 0x13), What::Done),
        why: BadWhy::NoAgent,
    },
    Wrong {
        name: "processor FF",
        entry: 0,
        line: (Agent::Cpu(255), Op::IoSel(0, 0x13), What::Done),
        why: BadWhy::NoAgent,
    },
    Wrong {
        name: "an absent I/O APIC",
        entry: 0,
        line: (Agent::Io(1), Op::Sweep, What::Done),
        why: BadWhy::NoAgent,
    },
    Wrong {
        name: "an absent device",
        entry: 4,
        line: (Agent::Dev(3), Op::Begin, What::Done),
        why: BadWhy::NoAgent,
    },
];

// the agent has to wait
const WAITS: &[Wrong] = &[
    Wrong {
        name: "a Take with nothing to take",
        entry: 11,
        line: (BOOT, Op::Take, What::Nothing),
        why: BadWhy::Waits,
    },
    Wrong {
        name: "a Begin before the boot program is through",
        entry: 0,
        line: (DEVICE, Op::Begin, What::Done),
        why: BadWhy::Waits,
    },
    Wrong {
        name: "a Send with nothing due",
        entry: 7,
        line: (IO, Op::Send(1), What::Set),
        why: BadWhy::Waits,
    },
    Wrong {
        name: "a Collect before the boot program is through",
        entry: 0,
        line: (IO, Op::Collect(2), What::Pins(2, 0)),
        why: BadWhy::Waits,
    },
    Wrong {
        name: "a Sweep before the last End",
        entry: 8,
        line: (IO, Op::Sweep, What::Done),
        why: BadWhy::Waits,
    },
];

// the op isn't what a processor or a device may do next
const PROGRAMS: &[Wrong] = &[
    Wrong {
        name: "an op that isn't next",
        entry: 0,
        line: (BOOT, Op::Poll, What::Nothing),
        why: BadWhy::Program,
    },
    Wrong {
        name: "another number in the op",
        entry: 1,
        line: (BOOT, Op::IoWin(0, 1), What::Plain),
        why: BadWhy::Program,
    },
    Wrong {
        name: "a Take that isn't next",
        entry: 0,
        line: (BOOT, Op::Take, What::Nothing),
        why: BadWhy::Program,
    },
    Wrong {
        name: "a Send of a processor",
        entry: 11,
        line: (BOOT, Op::Send(1), What::Set),
        why: BadWhy::Program,
    },
    Wrong {
        name: "a Collect of a processor",
        entry: 7,
        line: (BOOT, Op::Collect(2), What::Pins(2, 0)),
        why: BadWhy::Program,
    },
    Wrong {
        name: "a Sweep of a processor",
        entry: 13,
        line: (BOOT, Op::Sweep, What::Done),
        why: BadWhy::Program,
    },
    Wrong {
        name: "a Send of a device",
        entry: 11,
        line: (DEVICE, Op::Send(1), What::Set),
        why: BadWhy::Program,
    },
    Wrong {
        name: "a Collect of a device",
        entry: 7,
        line: (DEVICE, Op::Collect(2), What::Pins(2, 0)),
        why: BadWhy::Program,
    },
    Wrong {
        name: "a Sweep of a device",
        entry: 13,
        line: (DEVICE, Op::Sweep, What::Done),
        why: BadWhy::Program,
    },
    Wrong {
        name: "an End before the Begin",
        entry: 0,
        line: (DEVICE, Op::End, What::Done),
        why: BadWhy::Program,
    },
    Wrong {
        name: "a second Begin",
        entry: 8,
        line: (DEVICE, Op::Begin, What::Done),
        why: BadWhy::Program,
    },
    Wrong {
        name: "a second End",
        entry: 11,
        line: (DEVICE, Op::End, What::Done),
        why: BadWhy::Program,
    },
];

// nor an I/O APIC
const PLACES: &[Wrong] = &[
    Wrong {
        name: "a Send of another pin",
        entry: 11,
        line: (IO, Op::Send(2), What::Set),
        why: BadWhy::Program,
    },
    Wrong {
        name: "a Collect of no pin",
        entry: 7,
        line: (IO, Op::Collect(0), What::Pins(0, 0)),
        why: BadWhy::Program,
    },
    Wrong {
        name: "a Collect of pin 24",
        entry: 7,
        line: (IO, Op::Collect(0x100_0002), What::Pins(2, 0)),
        why: BadWhy::Program,
    },
    Wrong {
        name: "a Collect of a pin without pulses",
        entry: 7,
        line: (IO, Op::Collect(6), What::Pins(2, 0)),
        why: BadWhy::Program,
    },
    Wrong {
        name: "a Collect after the Sweep",
        entry: 14,
        line: (IO, Op::Collect(2), What::Pins(2, 0)),
        why: BadWhy::Program,
    },
    Wrong {
        name: "a second Sweep",
        entry: 14,
        line: (IO, Op::Sweep, What::Done),
        why: BadWhy::Program,
    },
    Wrong {
        name: "a processor's op of an I/O APIC",
        entry: 14,
        line: (IO, Op::Imcr, What::Done),
        why: BadWhy::Program,
    },
];

const ANOTHER_EFFECT: Wrong = Wrong {
    name: "another effect of a write",
    entry: 1,
    line: (BOOT, Op::IoWin(0, 0), What::Due),
    why: BadWhy::Outcome,
};

// something else came of the op
const OUTCOMES: &[Wrong] = &[
    ANOTHER_EFFECT,
    Wrong {
        name: "pins that joined for pins that became due",
        entry: 7,
        line: (IO, Op::Collect(2), What::Pins(0, 2)),
        why: BadWhy::Outcome,
    },
    Wrong {
        name: "another vector",
        entry: 12,
        line: (BOOT, Op::Take, What::Taken(0x22)),
        why: BadWhy::Outcome,
    },
    Wrong {
        name: "another trigger",
        entry: 14,
        line: (BOOT, Op::Eoi, What::Ended(0x21, true)),
        why: BadWhy::Outcome,
    },
];

// two reasons stand together
const TOGETHER: &[Wrong] = &[
    Wrong {
        name: "no agent, which would wait",
        entry: 7,
        line: (Agent::Io(1), Op::Send(1), What::Set),
        why: BadWhy::NoAgent,
    },
    Wrong {
        name: "no agent, with another op and another outcome",
        entry: 0,
        line: (Agent::Cpu(5), Op::Poll, What::Due),
        why: BadWhy::NoAgent,
    },
    Wrong {
        name: "a wait with another op and another outcome",
        entry: 0,
        line: (IO, Op::Send(2), What::Due),
        why: BadWhy::Waits,
    },
    Wrong {
        name: "a wait with another outcome",
        entry: 11,
        line: (BOOT, Op::Take, What::Taken(0x21)),
        why: BadWhy::Waits,
    },
    Wrong {
        name: "another op with another outcome",
        entry: 0,
        line: (BOOT, Op::Poll, What::Due),
        why: BadWhy::Program,
    },
];

// the entries are steps
const STEPS: &[Row] = &[
    Row {
        name: "the run itself",
        entries: 15,
        hits: HITS,
        remotes: STILL,
        want: Verdict::Legal,
    },
    Row {
        name: "no entry",
        entries: 0,
        hits: HITS,
        remotes: STILL,
        want: Verdict::Unfinished { agent: BOOT },
    },
    Row {
        name: "no entry behind the boot program",
        entries: 4,
        hits: HITS,
        remotes: STILL,
        want: Verdict::Unfinished { agent: IO },
    },
    Row {
        name: "no Sweep and no Eoi",
        entries: 13,
        hits: HITS,
        remotes: STILL,
        want: Verdict::Unfinished { agent: BOOT },
    },
    Row {
        name: "no Eoi",
        entries: 14,
        hits: HITS,
        remotes: STILL,
        want: Verdict::Unfinished { agent: BOOT },
    },
    Row {
        name: "a pulse on another pin",
        entries: 15,
        hits: ANOTHER_PIN,
        remotes: STILL,
        want: Verdict::Log { device: 1 },
    },
    Row {
        name: "two pulses on another pin",
        entries: 15,
        hits: TWO_OTHER_PINS,
        remotes: STILL,
        want: Verdict::Log { device: 1 },
    },
    Row {
        name: "a log too few",
        entries: 15,
        hits: ONE_TOO_FEW,
        remotes: STILL,
        want: Verdict::Log { device: 2 },
    },
    Row {
        name: "a log too many",
        entries: 15,
        hits: ONE_TOO_MANY,
        remotes: STILL,
        want: Verdict::Log { device: 3 },
    },
    Row {
        name: "two New hits of one collection",
        entries: 15,
        hits: TWICE_NEW,
        remotes: STILL,
        want: Verdict::Accounts { io: 0, pin: 1 },
    },
    Row {
        name: "no New hit of one collection",
        entries: 15,
        hits: NEVER_NEW,
        remotes: STILL,
        want: Verdict::Accounts { io: 0, pin: 1 },
    },
    Row {
        name: "another remote IRR",
        entries: 15,
        hits: HITS,
        remotes: &[2],
        want: Verdict::State { line: 2 },
    },
    Row {
        name: "another remote IRR and a line too many",
        entries: 15,
        hits: HITS,
        remotes: &[2, 0],
        want: Verdict::State { line: 2 },
    },
    Row {
        name: "a line too few",
        entries: 15,
        hits: HITS,
        remotes: &[],
        want: Verdict::State { line: 2 },
    },
    Row {
        name: "a line too many",
        entries: 15,
        hits: HITS,
        remotes: &[0, 0],
        want: Verdict::State { line: 3 },
    },
];

// and two verdicts stand together
const PAIRS: &[Row] = &[
    Row {
        name: "unfinished, with a wrong log",
        entries: 14,
        hits: ANOTHER_PIN,
        remotes: STILL,
        want: Verdict::Unfinished { agent: BOOT },
    },
    Row {
        name: "unfinished, with wrong hits",
        entries: 14,
        hits: TWICE_NEW,
        remotes: STILL,
        want: Verdict::Unfinished { agent: BOOT },
    },
    Row {
        name: "unfinished, with a wrong line",
        entries: 14,
        hits: HITS,
        remotes: &[2],
        want: Verdict::Unfinished { agent: BOOT },
    },
    Row {
        name: "a wrong log with wrong hits",
        entries: 15,
        hits: TOO_FEW_NEW,
        remotes: STILL,
        want: Verdict::Log { device: 2 },
    },
    Row {
        name: "a wrong log with a wrong line",
        entries: 15,
        hits: ONE_TOO_FEW,
        remotes: &[2],
        want: Verdict::Log { device: 2 },
    },
    Row {
        name: "wrong hits with a wrong line",
        entries: 15,
        hits: TWICE_NEW,
        remotes: &[2],
        want: Verdict::Accounts { io: 0, pin: 1 },
    },
];

// asserts the verdict on a report with these entries, logs and values of remote IRR
fn judged(rt: &impl Abort, alloc: Global, config: Config, lines: &[Line], row: &Row)
    requires small { plan_size config < 2 ^ 32 }
    requires few { length lines.now < 2 ^ 32 }
{
    match report_of(alloc, lines, row.hits, row.remotes) {
        Ok(report) => judged_report(rt, alloc, config, &report, row),
        Err(_) => panic!(rt; "out of memory"),
    }
}

// asserts the verdict on a report
fn judged_report(rt: &impl Abort, alloc: Global, config: Config, report: &Report, row: &Row)
    requires small { plan_size config < 2 ^ 32 }
    requires few { length report.now.entries < 2 ^ 32 }
{
    match replay(alloc, config, report) {
        Ok(got) => same(rt, row.name, got, row.want),
        Err(_) => panic!(rt; "out of memory"),
    }
}

// the same of the run with three pulses
fn judged_run(rt: &impl Abort, alloc: Global, lines: &[Line], row: &Row)
    requires few { length lines.now < 2 ^ 32 }
{
    match three_pulses(alloc) {
        Ok(Some(config)) => judged(rt, alloc, config, lines, row),
        Ok(None) => panic!(rt; "no config"),
        Err(_) => panic!(rt; "out of memory"),
    }
}

// asserts the verdict on its first entries
fn judged_first(rt: &impl Abort, alloc: Global, row: &Row) {
    assert!(rt; row.entries <= 15);
    judged_run(rt, alloc, &run_lines()[..row.entries], row);
}

fn are_judged(rt: &impl Abort, alloc: Global, rows: &[Row]) {
    for row in rows {
        judged_first(rt, alloc, row);
    }
}

// asserts the verdict on it with one line in the place of another, with these logs and values of remote IRR
fn is_bad(
    rt: &impl Abort,
    alloc: Global,
    wrong: &Wrong,
    hits: &'static [(u8, Hit)],
    remotes: &'static [u32],
) {
    assert!(rt; wrong.entry < 15);
    let mut lines = run_lines();
    lines[wrong.entry] = wrong.line;
    let want = Verdict::Bad {
        entry: wrong.entry as u32,
        why: wrong.why,
    };
    let row = Row {
        name: wrong.name,
        entries: 15,
        hits,
        remotes,
        want,
    };
    judged_run(rt, alloc, &lines, &row);
}

fn are_bad(rt: &impl Abort, alloc: Global, rows: &[Wrong]) {
    for wrong in rows {
        is_bad(rt, alloc, wrong, HITS, STILL);
    }
}

#[test]
fn agents_that_are_not_there_and_such_as_wait(rt: HostRuntime) {
    are_bad(&rt, rt.alloc(), ABSENT);
    are_bad(&rt, rt.alloc(), WAITS);
}

#[test]
fn ops_that_are_not_next(rt: HostRuntime) {
    are_bad(&rt, rt.alloc(), PROGRAMS);
    are_bad(&rt, rt.alloc(), PLACES);
}

#[test]
fn other_outcomes_and_reasons_together(rt: HostRuntime) {
    are_bad(&rt, rt.alloc(), OUTCOMES);
    are_bad(&rt, rt.alloc(), TOGETHER);
}

#[test]
fn entries_that_are_steps(rt: HostRuntime) {
    are_judged(&rt, rt.alloc(), STEPS);
}

#[test]
fn verdicts_together(rt: HostRuntime) {
    are_judged(&rt, rt.alloc(), PAIRS);
    is_bad(&rt, rt.alloc(), &ANOTHER_EFFECT, TWICE_NEW, &[2]);
    is_bad(&rt, rt.alloc(), &ANOTHER_EFFECT, ONE_TOO_FEW, STILL);
}

#[test]
fn a_bad_entry_before_others(rt: HostRuntime) {
    let mut lines = run_lines();
    lines[1] = (BOOT, Op::IoWin(0, 0), What::Due);
    lines[12] = (BOOT, Op::Take, What::Taken(0x22));
    let row = Row {
        name: "two bad entries",
        entries: 15,
        hits: HITS,
        remotes: STILL,
        want: BAD_WRITE,
    };
    judged_run(&rt, rt.alloc(), &lines, &row);
    let row = Row {
        name: "a bad entry, unfinished",
        entries: 2,
        hits: HITS,
        remotes: STILL,
        want: BAD_WRITE,
    };
    judged_run(&rt, rt.alloc(), &lines[..2], &row);
}

// Each pulse has a collection of its own; the second and the third find the pin due. No device ends, and behind the
// first 13 lines are some that the run doesn't have.
fn lines_without_ends() -> [Line; 15] {
    let joined = (IO, Op::Collect(2), What::Pins(0, 2));
    let mut lines = run_lines();
    lines[8] = joined;
    lines[9] = joined;
    lines[10] = lines[11];
    lines[11] = lines[12];
    lines[12] = lines[14];
    lines
}

#[test]
fn devices_that_have_not_ended(rt: HostRuntime) {
    let lines = lines_without_ends();
    let row = Row {
        name: "no End, behind all collections",
        entries: 13,
        hits: HITS,
        remotes: STILL,
        want: Verdict::Unfinished { agent: DEVICE },
    };
    judged_run(&rt, rt.alloc(), &lines[..13], &row);
}

// asserts that this entry of two processors' run, the last of these, has to wait
fn waits(rt: &impl Abort, alloc: Global, name: &'static str, lines: &[Line], entry: u32)
    requires few { length lines.now < 2 ^ 32 }
{
    let want = Verdict::Bad {
        entry,
        why: BadWhy::Waits,
    };
    let row = Row {
        name,
        entries: 0,
        hits: &[],
        remotes: STILL,
        want,
    };
    match one_waits(alloc) {
        Ok(Some(config)) => judged(rt, alloc, config, lines, &row),
        Ok(None) => panic!(rt; "no config"),
        Err(_) => panic!(rt; "out of memory"),
    }
}

#[test]
fn who_waits_on_two_processors(rt: HostRuntime) {
    let alloc = rt.alloc();
    let other = Agent::Cpu(1);
    waits(
        &rt,
        alloc,
        "a processor that doesn't run",
        &[(other, Op::Poll, What::Nothing)],
        0,
    );
    waits(
        &rt,
        alloc,
        "its op that isn't next",
        &[(other, Op::Sweep, What::Done)],
        0,
    );
    let swept = [
        (IO, Op::Sweep, What::Done),
        (IO, Op::Collect(2), What::Pins(2, 0)),
    ];
    waits(
        &rt,
        alloc,
        "a Collect before the boot program is through, behind a Sweep",
        &swept,
        1,
    );
}
