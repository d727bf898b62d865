//! Drills: the summaries of three, and words that are none.

use crate::boots::harness::answer_of;
use crate::harness::{Answer, same};
use mpt_base::MemShelf;
use mptab_cases::boots::{Case, USAGE};
use std::alloc::Global;
use std::sync::Wait;
use std::test::Fail;
use std::thread::Threads;

/// The least drill, one of the most processors, and the greatest.
const DRILLS: &[Case] = &[
    Case {
        words: &["drill", "0"],
        status: 0,
        text: b"drill 0
processors 2 started 1
ioapics 1 routes 24
entries 205
pulses 24 new 24 merged 0
set 25 taken 25
end
",
    },
    Case {
        words: &["drill", "6"],
        status: 0,
        text: b"drill 6
processors 8 started 7
ioapics 3 routes 72
entries 659
pulses 72 new 72 merged 0
set 79 taken 79
end
",
    },
    Case {
        words: &["drill", "9999"],
        status: 0,
        text: b"drill 9999
processors 5 started 4
ioapics 4 routes 96
entries 4744
pulses 96 new 96 merged 0
set 100 taken 100
end
",
    },
];

/// Words that are no drill.
const NONE: &[&[&str]] = &[
    &["drill"],
    &["drill", ""],
    &["drill", "007"],
    &["drill", "00"],
    &["drill", "+1"],
    &["drill", "-1"],
    &["drill", "1 "],
    &["drill", "0x1"],
    &["drill", "10000"],
    &["drill", "65536"],
    &["drill", "1", "2"],
    &["Drill", "1"],
];

/// The answer to these words, where there is no file.
fn answer<R: Threads + Wait + Sync>(
    rt: &R,
    alloc: Global,
    words: &[&str],
    failing: u64,
) -> Result<Answer, Fail> {
    let mut shelf = MemShelf::new(alloc);
    answer_of(rt, alloc, words, &mut shelf, failing)
}

/// Whether these words are answered as those that are no form.
fn is_none<R: Threads + Wait + Sync>(rt: &R, alloc: Global, words: &[&str]) -> Result<bool, Fail> {
    let answer = answer(rt, alloc, words, 0)?;
    Ok(answer.is(2, USAGE))
}

#[test]
fn drills(rt: HostRuntime) -> Result<(), Fail> {
    for case in DRILLS {
        let answer = answer(&rt, rt.alloc(), case.words, 0)?;
        let right = answer.is(case.status, case.text);
        same(&rt, "the answer", (case.words, right), (case.words, true));
    }
    Ok(())
}

#[test]
fn no_drills(rt: HostRuntime) -> Result<(), Fail> {
    for words in NONE {
        same(
            &rt,
            "words that are no drill",
            is_none(&rt, rt.alloc(), words)?,
            true,
        );
    }
    Ok(())
}

#[test]
fn drill_of_a_failing_sink(rt: HostRuntime) -> Result<(), Fail> {
    let answer = answer(&rt, rt.alloc(), &["drill", "0"], 1)?;
    same(&rt, "a sink that fails", answer.status, 5);
    same(&rt, "what was written before", answer.text.len(), 0);
    Ok(())
}
