//! Scripts that are refused, each key and each word's cause, and scripts at their limits.

use crate::boots::harness::{answer_to, are_answered, script_of};
use crate::harness::same;
use mptab_cases::boots::scripts::{refused_agents, refused_keys, refused_words};
use mptab_cases::boots::{BOTH, NOTHING, ONE};
use std::alloc::Global;
use std::sync::Wait;
use std::test::Fail;
use std::thread::Threads;

#[test]
fn scripts_that_are_refused(rt: HostRuntime) -> Result<(), Fail> {
    are_answered(&rt, rt.alloc(), BOTH, "keys", refused_keys())?;
    are_answered(&rt, rt.alloc(), BOTH, "agents", refused_agents())?;
    are_answered(&rt, rt.alloc(), BOTH, "words", refused_words())
}

/// How many words a script has, and to how many bytes it is filled up; the answer.
type Size = (usize, usize, u8, &'static [u8]);

const SIZES: &[Size] = &[
    (
        8192,
        0,
        0,
        b"mpboot 1\nentries 8192\n0 cpu 00 eoi : nothing\n",
    ),
    (8193, 0, 8, b"mptab: script many 8193\n"),
    (0, 1_048_576, 0, NOTHING),
    (0, 1_048_577, 10, b"mptab: too large boot.toml 1048577\n"),
];

/// Whether `trace` answers so to one processor with this script.
fn is_traced<R: Threads + Wait + Sync>(
    rt: &R,
    alloc: Global,
    script: &[u8],
    status: u8,
    text: &[u8],
) -> Result<bool, Fail> {
    let answer = answer_to(rt, alloc, "trace", &ONE, script)?;
    Ok(answer.reports(status, text))
}

/// Whether `trace` answers as a row says.
fn is_right<R: Threads + Wait + Sync>(rt: &R, alloc: Global, size: &Size) -> Result<bool, Fail> {
    let script = script_of(alloc, "\"eoi\",", size.0, size.1)?;
    is_traced(rt, alloc, script.as_slice(), size.2, size.3)
}

#[test]
fn sizes_of_scripts(rt: HostRuntime) -> Result<(), Fail> {
    for size in SIZES {
        let right = is_right(&rt, rt.alloc(), size)?;
        same(
            &rt,
            "a size",
            (size.0, size.1, right),
            (size.0, size.1, true),
        );
    }
    Ok(())
}
