//! A local APIC by tables, after Intel SDM volume 3, sections 10.8.3 to 10.8.5.

ghost use Rattle.std.specs.Prelude.{◌≡◌, ◌⊎◌};

use crate::harness::same;
use mpb_lapic::{Accept, Lapic};
use std::process::Abort;

// Each helper makes one call, and asserts its answer.

fn accepts(rt: &impl Abort, apic: &mut Lapic, vector: u8, level: bool, want: Accept) {
    let got = apic.accept(vector, level);
    assert!(rt; got == want, "accept {vector}");
}

fn takes(rt: &impl Abort, apic: &mut Lapic, want: Option<u8>) {
    same(rt, "take", apic.take(), want);
}

fn ends(rt: &impl Abort, apic: &mut Lapic, want: Option<(u8, bool)>) {
    same(rt, "eoi", apic.eoi(), want);
}

// Asserts the bits of a vector in IRR, ISR and TMR.
fn has(rt: &impl Abort, apic: &Lapic, vector: u8, want: (bool, bool, bool)) {
    let got = (apic.irr(vector), apic.isr(vector), apic.tmr(vector));
    same(rt, "vector, and its bits", (vector, got), (vector, want));
}

#[test]
fn one_history_of_calls(rt: HostRuntime) {
    let mut apic = Lapic::new();
    accepts(&rt, &mut apic, 0x21, false, Accept::Set);
    accepts(&rt, &mut apic, 0x21, true, Accept::Merged);
    same(&rt, "next", apic.next(), Some(0x21));
    takes(&rt, &mut apic, Some(0x21));
    same(&rt, "priority under 21h", apic.ppr(), 0x20);
    accepts(&rt, &mut apic, 0x2F, false, Accept::Set);
    takes(&rt, &mut apic, None);
    accepts(&rt, &mut apic, 0x30, false, Accept::Set);
    takes(&rt, &mut apic, Some(0x30));
    ends(&rt, &mut apic, Some((0x30, false)));
    ends(&rt, &mut apic, Some((0x21, true)));
    takes(&rt, &mut apic, Some(0x2F));
    ends(&rt, &mut apic, Some((0x2F, false)));
    ends(&rt, &mut apic, None);
    accepts(&rt, &mut apic, 0x0F, false, Accept::Illegal);
    apic.set_tpr(0x35);
    same(&rt, "task priority", apic.tpr(), 0x35);
    same(&rt, "priority of the task", apic.ppr(), 0x35);
}

fn lawful_vector(rt: &impl Abort, vector: u8) {
    let mut apic = Lapic::new();
    accepts(rt, &mut apic, vector, true, Accept::Set);
    has(rt, &apic, vector, (true, false, true));
    accepts(rt, &mut apic, vector, false, Accept::Merged);
    has(rt, &apic, vector, (true, false, false));
    takes(rt, &mut apic, Some(vector));
    has(rt, &apic, vector, (false, true, false));
}

fn illegal_vector(rt: &impl Abort, vector: u8) {
    let mut apic = Lapic::new();
    accepts(rt, &mut apic, vector, true, Accept::Illegal);
    has(rt, &apic, vector, (false, false, false));
    accepts(rt, &mut apic, vector, false, Accept::Illegal);
    has(rt, &apic, vector, (false, false, false));
    takes(rt, &mut apic, None);
    has(rt, &apic, vector, (false, false, false));
}

#[test]
fn vectors_at_the_ends(rt: HostRuntime) {
    illegal_vector(&rt, 0);
    illegal_vector(&rt, 15);
    lawful_vector(&rt, 16);
    lawful_vector(&rt, 255);
}

// Asserts the processor priority with a vector in service, under a task priority.
fn has_priority(rt: &impl Abort, vector: u8, tpr: u8, want: u8) {
    let mut apic = Lapic::new();
    apic.accept(vector, false);
    apic.take();
    apic.set_tpr(tpr);
    let got = (vector, tpr, apic.ppr());
    same(
        rt,
        "vector, task priority, priority",
        got,
        (vector, tpr, want),
    );
}

// Each class of the vector in service, its least and its greatest vector, and task priorities at the bounds of the
// classes beside it.
#[test]
fn processor_priority_at_each_class(rt: HostRuntime) {
    for class in 1..16u8 {
        let first = class * 16;
        let served = first + 5;
        has_priority(&rt, first, 0, first);
        has_priority(&rt, first + 15, 0, first);
        has_priority(&rt, served, 0, first);
        has_priority(&rt, served, first - 1, first);
        has_priority(&rt, served, first, first);
        has_priority(&rt, served, first + 7, first + 7);
        has_priority(&rt, served, first + 15, first + 15);
        has_priority(&rt, served, 0xFF, 0xFF);
    }
}

// Asserts the processor priority under a task priority.
fn gives_priority(rt: &impl Abort, apic: &mut Lapic, tpr: u8, want: u8) {
    apic.set_tpr(tpr);
    same(
        rt,
        "task priority, priority",
        (tpr, apic.ppr()),
        (tpr, want),
    );
}

// With nothing in service it is the task priority; with 2Fh the class alone, and in equal classes the task's.
#[test]
fn priority_is_the_class_or_the_task(rt: HostRuntime) {
    let mut apic = Lapic::new();
    same(&rt, "after a reset", apic.ppr(), 0);
    gives_priority(&rt, &mut apic, 0x05, 0x05);
    gives_priority(&rt, &mut apic, 0x00, 0x00);
    accepts(&rt, &mut apic, 0x2F, false, Accept::Set);
    takes(&rt, &mut apic, Some(0x2F));
    gives_priority(&rt, &mut apic, 0x00, 0x20);
    gives_priority(&rt, &mut apic, 0x1F, 0x20);
    gives_priority(&rt, &mut apic, 0x20, 0x20);
    gives_priority(&rt, &mut apic, 0x25, 0x25);
    gives_priority(&rt, &mut apic, 0x30, 0x30);
}

// Asserts that these two vectors alone are level-triggered, of those that are.
fn has_triggers(rt: &impl Abort, apic: &Lapic, one: bool, other: bool) {
    for vector in 0..=255u8 {
        let want = match vector {
            0x30 => one,
            0x41 => other,
            _ => false,
        };
        same(rt, "trigger", (vector, apic.tmr(vector)), (vector, want));
    }
}

// An edge message clears the trigger of its own vector, and taking and ending a vector leaves each.
#[test]
fn triggers_of_two_vectors(rt: HostRuntime) {
    let mut apic = Lapic::new();
    accepts(&rt, &mut apic, 0x30, true, Accept::Set);
    has_triggers(&rt, &apic, true, false);
    accepts(&rt, &mut apic, 0x41, true, Accept::Set);
    has_triggers(&rt, &apic, true, true);
    accepts(&rt, &mut apic, 0x30, false, Accept::Merged);
    has_triggers(&rt, &apic, false, true);
    takes(&rt, &mut apic, Some(0x41));
    ends(&rt, &mut apic, Some((0x41, true)));
    has_triggers(&rt, &apic, false, true);
    accepts(&rt, &mut apic, 0x41, false, Accept::Set);
    has_triggers(&rt, &apic, false, false);
}

// Each class of the task priority: the last vector of that class waits, the first of the next one is taken.
#[test]
fn first_vector_that_passes_each_class(rt: HostRuntime) {
    for class in 1..16u8 {
        let mut apic = Lapic::new();
        let last = class * 16 + 15;
        apic.set_tpr(class * 16);
        apic.accept(last, false);
        same(&rt, "next of the same class", apic.next(), None);
        takes(&rt, &mut apic, None);
        apic.set_tpr(class * 16 - 1);
        same(&rt, "next above the class", apic.next(), Some(last));
        takes(&rt, &mut apic, Some(last));
    }
}

// Asserts whether a logical destination is that of a local APIC with these registers.
fn matches(rt: &impl Abort, ldr: u8, dfr: u8, dest: u8, want: bool)
    requires { (dfr ≡ 0) ⊎ (dfr ≡ 15) }
{
    let mut apic = Lapic::new();
    apic.set_ldr(ldr);
    apic.set_dfr(dfr);
    same(rt, "registers", (apic.ldr(), apic.dfr()), (ldr, dfr));
    let got = (ldr, dfr, dest, apic.matches(dest));
    same(
        rt,
        "ldr, dfr, destination, whether it matches",
        got,
        (ldr, dfr, dest, want),
    );
}

#[test]
fn logical_destinations(rt: HostRuntime) {
    let apic = Lapic::new();
    same(&rt, "registers", (apic.ldr(), apic.dfr()), (0, 15));
    same(&rt, "everyone's", apic.matches(0xFF), true);
    same(&rt, "none's", apic.matches(0xFE), false);
    matches(&rt, 0x04, 15, 0x04, true);
    matches(&rt, 0x04, 15, 0x06, true);
    matches(&rt, 0x84, 15, 0x90, true);
    matches(&rt, 0x04, 15, 0x0B, false);
    matches(&rt, 0x04, 15, 0x00, false);
    matches(&rt, 0x21, 0, 0x21, true);
    matches(&rt, 0x21, 0, 0x23, true);
    matches(&rt, 0x21, 0, 0x22, false);
    matches(&rt, 0x21, 0, 0x31, false);
    matches(&rt, 0x21, 0, 0x20, false);
    matches(&rt, 0x20, 0, 0x2F, false);
    matches(&rt, 0x21, 0, 0xF1, false);
    matches(&rt, 0x21, 0, 0xFF, true);
}
