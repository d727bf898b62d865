//! How many words a script may have, and want of memory.

use crate::harness::{answer_line, answers};
use std::alloc::{AllocError, Global};
use std::process::Abort;

/// Writes a script with as many words for a processor and for a device. The first key is this one.
fn push_script(
    text: &mut Vec<u8>,
    first: &str,
    cpu: (usize, &str),
    device: (usize, &str),
) -> Result<(), AllocError> {
    text.extend_from_slice(first.as_bytes())?;
    text.extend_from_slice(b"\n[[cpu]]\nid = 0\nwords = [")?;
    push_words(text, cpu)?;
    text.extend_from_slice(b"]\n[[device]]\nwords = [")?;
    push_words(text, device)?;
    text.extend_from_slice(b"]\n")
}

/// Writes a word as often as is said.
fn push_words(text: &mut Vec<u8>, words: (usize, &str)) -> Result<(), AllocError> {
    for _ in 0..words.0 {
        push_word(text, words.1)?;
    }
    Ok(())
}

fn push_word(text: &mut Vec<u8>, word: &str) -> Result<(), AllocError> {
    text.extend_from_slice(b"\"")?;
    text.extend_from_slice(word.as_bytes())?;
    text.extend_from_slice(b"\",")
}

/// One script: its first key, words of the processor and of the device, the answer.
type Sizes = (
    &'static str,
    (usize, &'static str),
    (usize, &'static str),
    &'static str,
);

const SIZES: &[Sizes] = &[
    ("page = 1", (8192, "take"), (0, ""), "script"),
    ("page = 1", (8193, "take"), (0, ""), "many 8193"),
    ("page = 1", (0, ""), (8192, "low 0 0"), "script"),
    ("page = 1", (0, ""), (8193, "low 0 0"), "many 8193"),
    ("page = 1", (4096, "eoi"), (4096, "low 0 0"), "script"),
    ("page = 1", (4096, "eoi"), (4097, "low 0 0"), "many 8193"),
    ("page = 1", (9000, "jump"), (1, "jump"), "many 9001"),
    ("page = 160", (9000, "take"), (1, "jump"), "key page"),
    (
        "page = 1",
        (8191, "take"),
        (1, "jump"),
        "word dev 0 index 0 Name",
    ),
];

/// Asserts the answer to a script of these sizes.
fn answers_sizes(rt: &impl Abort, alloc: Global, sizes: &Sizes) {
    let (first, cpu, device, line) = *sizes;
    let mut text = Vec::new(alloc);
    let pushed = push_script(&mut text, first, cpu, device);
    pushed.expect(rt, "out of memory");
    answers(rt, alloc, line, text.as_slice(), line);
}

#[test]
fn counts_of_words(rt: HostRuntime) {
    for sizes in SIZES {
        answers_sizes(&rt, rt.alloc(), sizes);
    }
}

/// It passes too where an allocation fails: the answer is then want of memory.
#[test]
fn want_of_memory(rt: HostRuntime) {
    let text =
        b"page = 1\npresent = [0]\ncpu = [{ id = 0, words = [\"ipi 0 48\"] }]\ndevice = [{ words = [\"low 0 0\"] }]";
    let line = answer_line(rt.alloc(), text).expect(&rt, "out of memory");
    is_script_or_no_memory(&rt, line.as_str());
}

fn is_script_or_no_memory(rt: &impl Abort, line: &str) {
    assert!(rt; line == "script" || line == "no memory");
}
