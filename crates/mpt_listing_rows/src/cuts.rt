//! Listings that end anywhere, or of which one byte is another.

use crate::harness::{Answer, answer_to, same};
use crate::texts::all_texts;
use std::alloc::Global;
use std::process::Abort;

/// The answer to the first bytes of a text.
fn answer_to_cut(alloc: Global, text: &[u8], length: usize) -> Option<Answer> {
    match text.get(..length) {
        Some(cut) => Some(answer_to(alloc, cut)),
        None => None,
    }
}

/// Each part of the text, but not all of it, is refused where it ends: Early behind a line, Form inside
/// one.
fn same_cuts(rt: &impl Abort, alloc: Global, text: &[u8]) {
    let mut line = 1u32;
    let mut want = Answer::Early(1);
    let mut length = 0usize;
    for byte in text {
        let answer = answer_to_cut(alloc, text, length);
        same(rt, "a cut text", (length, answer), (length, Some(want)));
        if *byte == b'\n' {
            line = line.saturating_add(1);
            want = Answer::Early(line);
        } else {
            want = Answer::Form(line);
        }
        length = length.saturating_add(1);
    }
    let answer = answer_to(alloc, text);
    same(rt, "the whole text", answer, Answer::Accepted);
}

#[test]
fn cut_at_each_byte(rt: HostRuntime) {
    for text in all_texts() {
        same_cuts(&rt, rt.alloc(), text);
    }
}

/// A byte that stands in no listing is Form at its line, at each place.
fn same_wrong_bytes(rt: &impl Abort, alloc: Global, text: &[u8]) {
    let mut changed = Vec::from_slice(alloc, text).expect(rt, "out of memory");
    same_wrong_bytes_in(rt, alloc, text, changed.as_mut_slice());
}

/// The same, with a copy of the text in which the byte is put.
fn same_wrong_bytes_in(rt: &impl Abort, alloc: Global, text: &[u8], changed: &mut [u8]) {
    let mut line = 1u32;
    let mut place = 0usize;
    for byte in text {
        let answer = answer_with(alloc, changed, place, *byte);
        let want = Answer::Form(line);
        same(rt, "a wrong byte", (place, answer), (place, want));
        if *byte == b'\n' {
            line = line.saturating_add(1);
        }
        place = place.saturating_add(1);
    }
}

/// The answer to the text with the byte 1 at a place, where it has this byte again afterwards.
fn answer_with(alloc: Global, text: &mut [u8], place: usize, byte: u8) -> Answer {
    put(text, place, 1);
    let answer = answer_to(alloc, text);
    put(text, place, byte);
    answer
}

fn put(text: &mut [u8], place: usize, byte: u8) {
    if let Some(cell) = text.get_mut(place) {
        *cell = byte;
    }
}

#[test]
fn one_wrong_byte_anywhere(rt: HostRuntime) {
    for text in all_texts() {
        same_wrong_bytes(&rt, rt.alloc(), text);
    }
}
