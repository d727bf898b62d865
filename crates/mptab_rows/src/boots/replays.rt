//! Reports of three pulses on one pin, judged: the run itself, what is wrong of others, lines that are no report,
//! and the report of a boot.

use crate::boots::harness::{answer_of, boots_legally, shelf_of};
use crate::harness::{Answer, same};
use mpt_base::MemShelf;
use mptab_cases::boots::three_pulses::{ONE_PIN, THREE_PULSES, THREE_PULSES_SCRIPT};
use mptab_cases::boots::{IMAGE, REPORT, SCRIPT};
use std::alloc::Global;
use std::sync::Wait;
use std::test::Fail;
use std::thread::Threads;

/// What is changed in the report, all of it once, and the answer.
struct Case {
    old: &'static str,
    new: &'static str,
    status: u8,
    text: &'static str,
}

const CASES: &[Case] = &[
    Case {
        old: "mpboot 1\n",
        new: "mpboot 1\n",
        status: 0,
        text: "replay legal\n",
    },
    Case {
        old: "11 io 0 send 1 : 00=set\n12 cpu 00 take : taken.21\n",
        new: "11 cpu 00 take : taken.21\n12 io 0 send 1 : 00=set\n",
        status: 1,
        text: "replay bad 11 Waits\n",
    },
    Case {
        old: "log 1 : 0.1=merged\n",
        new: "log 1 : 0.1=new\n",
        status: 1,
        text: "replay accounts 0 1\n",
    },
    Case {
        old: "log 1 : 0.1=merged\n",
        new: "log 1 : 0.2=merged\n",
        status: 1,
        text: "replay log 1\n",
    },
    Case {
        old: "due 000000 remote 000000\n",
        new: "due 000000 remote 000002\n",
        status: 1,
        text: "replay state 2\n",
    },
    Case {
        old: "0 cpu 00 iosel 0 13 : done\n",
        new: "0 cpu 05 iosel 0 13 : done\n",
        status: 1,
        text: "replay bad 0 NoAgent\n",
    },
    Case {
        old: "1 cpu 00 iowin 0 00000000 : plain\n",
        new: "1 cpu 00 iowin 0 00000000 : due\n",
        status: 1,
        text: "replay bad 1 Outcome\n",
    },
    Case {
        old: "0 cpu 00 iosel 0 13 : done\n",
        new: "0 cpu 00 poll : nothing\n",
        status: 1,
        text: "replay bad 0 Program\n",
    },
    Case {
        old: "entries 15\n",
        new: "entries 14\n",
        status: 8,
        text: "mptab: report line 17 Form\n",
    },
    Case {
        old: "remote 000000\nend\n",
        new: "remote 000000\n",
        status: 8,
        text: "mptab: report line 24 Early\n",
    },
    Case {
        old: "end\n",
        new: "end\nend\n",
        status: 8,
        text: "mptab: report line 25 Late\n",
    },
];

/// The report of the run itself.
fn whole() -> &'static str {
    str::from_utf8(THREE_PULSES).unwrap_or("")
}

/// The text with the last place of `old` changed.
fn changed(alloc: Global, text: &str, old: &str, new: &str) -> Result<String, Fail> {
    let Some((before, after)) = text.rsplit_once(old) else {
        return Err("a case changes nothing".into());
    };
    Ok(format!(in alloc; "{before}{new}{after}")?)
}

/// A shelf with the image and the script of three pulses.
fn shelf_of_pulses(alloc: Global) -> Result<MemShelf, Fail> {
    shelf_of(alloc, &ONE_PIN, THREE_PULSES_SCRIPT)
}

/// The answer of `replay` to this report.
fn judged<R: Threads + Wait + Sync>(rt: &R, alloc: Global, report: &[u8]) -> Result<Answer, Fail> {
    let mut shelf = shelf_of_pulses(alloc)?;
    shelf.add(REPORT, report)?;
    answer_of(rt, alloc, &["replay", IMAGE, SCRIPT, REPORT], &mut shelf, 0)
}

/// Whether the verdict on this report is so.
fn is_judged<R: Threads + Wait + Sync>(
    rt: &R,
    alloc: Global,
    report: &str,
    status: u8,
    text: &str,
) -> Result<bool, Fail> {
    let answer = judged(rt, alloc, report.as_bytes())?;
    Ok(answer.is(status, text.as_bytes()))
}

/// Whether the verdict on the changed report of a case is as it says.
fn is_right<R: Threads + Wait + Sync>(rt: &R, alloc: Global, case: &Case) -> Result<bool, Fail> {
    let report = changed(alloc, whole(), case.old, case.new)?;
    is_judged(rt, alloc, report.as_str(), case.status, case.text)
}

#[test]
fn reports_that_are_judged(rt: HostRuntime) -> Result<(), Fail> {
    for case in CASES {
        let right = is_right(&rt, rt.alloc(), case)?;
        same(&rt, case.text, right, true);
    }
    Ok(())
}

/// The report without its last entry.
fn cut_report(alloc: Global) -> Result<String, Fail> {
    let shorter = changed(alloc, whole(), "14 cpu 00 eoi : ended.21.edge\n", "")?;
    changed(alloc, shorter.as_str(), "entries 15\n", "entries 14\n")
}

#[test]
fn report_that_is_cut(rt: HostRuntime) -> Result<(), Fail> {
    let report = cut_report(rt.alloc())?;
    let text = "replay unfinished cpu 00\n";
    let right = is_judged(&rt, rt.alloc(), report.as_str(), 1, text)?;
    same(&rt, "without its last entry", right, true);
    Ok(())
}

#[test]
fn boot_is_legal(rt: HostRuntime) -> Result<(), Fail> {
    let mut shelf = shelf_of_pulses(rt.alloc())?;
    let legal = boots_legally(&rt, rt.alloc(), &mut shelf)?;
    same(&rt, "the verdict on a boot", legal, true);
    Ok(())
}

/// The answer of `replay` to a report that isn't there.
fn without_report<R: Threads + Wait + Sync>(rt: &R, alloc: Global) -> Result<Answer, Fail> {
    let mut shelf = shelf_of_pulses(alloc)?;
    answer_of(rt, alloc, &["replay", IMAGE, SCRIPT, "x"], &mut shelf, 0)
}

#[test]
fn report_that_is_missing(rt: HostRuntime) -> Result<(), Fail> {
    let answer = without_report(&rt, rt.alloc())?;
    same(&rt, "no file", answer.is(3, b"mptab: no file x\n"), true);
    Ok(())
}
