//! Each reason for which an entry has no route, alone and before each that can stand beside it, and the
//! rows of those that have one.

use crate::harness::same;
use crate::tables::entry;
use mpt_route::{Answer, Platform, Route, Why, boot_processor_of, routes};
use mpt_spec::{Bus, IntEntry, IoApic, Processor, Sequence};
use std::alloc::Global;
use std::process::Abort;

// an I/O APIC with an id and flags
fn io(id: u8, flags: u8) -> IoApic {
    IoApic {
        id,
        version: 0x11,
        flags,
        address: 0xFEC0_0000,
    }
}

fn processor(apic: u8, flags: u8) -> Processor {
    Processor {
        apic,
        version: 0x14,
        flags,
        signature: 0,
        features: 0,
        reserved: [0; 8],
    }
}

fn bus(id: u8, name: [u8; 6]) -> Bus {
    Bus { id, name }
}

// of these the third is the first with both flags
fn processors() -> [Processor; 4] {
    [
        processor(7, 1),
        processor(9, 2),
        processor(3, 3),
        processor(4, 3),
    ]
}

// five buses; bus 0 has a second entry
fn buses() -> [Bus; 6] {
    [
        bus(0, *b"PCI   "),
        bus(1, *b"ISA   "),
        bus(2, *b"EISA  "),
        bus(3, *b"VL    "),
        bus(4, *b"MCA   "),
        bus(0, *b"ISA   "),
    ]
}

// six I/O APICs: of these the first is disabled, the fourth has the id of the second, and the last is the
// fifth that is enabled
fn ios() -> [IoApic; 6] {
    [io(9, 0), io(2, 1), io(4, 1), io(2, 1), io(5, 1), io(6, 1)]
}

// a sequence of these items
fn sequence<T: Copy + Drop>(rt: &impl Abort, alloc: Global, items: &[T]) -> Sequence<T> {
    Sequence::new(Vec::from_slice(alloc, items).expect(rt, "no memory"))
}

// a platform of the processors, buses and I/O APICs above, and these interrupts
fn platform(rt: &impl Abort, alloc: Global, ints: &[IntEntry]) -> Platform {
    Platform {
        processors: sequence(rt, alloc, &processors()),
        buses: sequence(rt, alloc, &buses()),
        ios: sequence(rt, alloc, &ios()),
        ints: sequence(rt, alloc, ints),
        lints: Sequence::new(Vec::new(alloc)),
        imcr: false,
        local_address: 0xFEE0_0000,
    }
}

fn answers(rt: &impl Abort, alloc: Global, ints: &[IntEntry], elcr: u16) -> Vec<Answer> {
    let platform = platform(rt, alloc, ints);
    answers_of(alloc, &platform, elcr).expect(rt, "no answers")
}

fn answers_of(alloc: Global, platform: &Platform, elcr: u16) -> Option<Vec<Answer>> {
    if platform.ints.as_slice().len() > 255 {
        return None;
    }
    routes(alloc, platform, elcr).ok()
}

// whether the answer of number `at` is this one
fn answers_at(answers: &[Answer], at: usize, expected: Answer) -> bool {
    match answers.get(at) {
        Some(answer) => *answer == expected,
        None => false,
    }
}

// the reason told for an entry behind one that takes pin 3 of the I/O APIC with id 4
fn reason(rt: &impl Abort, alloc: Global, e: IntEntry) -> Option<Why> {
    let answers = answers(rt, alloc, &[entry(0, 5, 3, 1, 4, 3), e], 0);
    match answers.get(1) {
        Some(Answer::Unrouted { why, .. }) => Some(*why),
        _ => None,
    }
}

// the reason of an entry
fn same_reason(rt: &impl Abort, alloc: Global, e: IntEntry, why: Why) {
    let is_told = reason(rt, alloc, e) == Some(why);
    same(rt, "the reason of an entry", (e, is_told), (e, true));
}

// the answer of this number
fn same_answer(rt: &impl Abort, answers: &[Answer], at: u32, expected: Answer) {
    let is_told = answers_at(answers, at as usize, expected);
    same(rt, "the answer of a number", (at, is_told), (at, true));
}

// the only answer to an entry that stands alone, with the ELCR 0020h
fn same_row(rt: &impl Abort, alloc: Global, e: IntEntry, expected: Answer) {
    let answers = answers(rt, alloc, &[e], 0x0020);
    let is_told = answers_at(answers.as_slice(), 0, expected);
    same(
        rt,
        "the row of an entry",
        (e, answers.len(), is_told),
        (e, 1, true),
    );
}

#[test]
fn each_reason_is_told_alone(rt: HostRuntime) {
    let alloc = rt.alloc();
    let rows = [
        (entry(0, 5, 1, 1, 255, 4), Why::DestWide),
        (entry(0, 5, 9, 1, 4, 4), Why::UnknownBus),
        (entry(0, 5, 1, 1, 9, 4), Why::UnknownIo),
        (entry(0, 5, 1, 1, 6, 4), Why::UnknownIo),
        (entry(0, 5, 1, 1, 4, 24), Why::PinRange),
        (entry(4, 5, 1, 1, 4, 4), Why::UnknownKind),
        (entry(0, 6, 1, 1, 4, 4), Why::ReservedFlag),
        (entry(1, 9, 1, 1, 4, 4), Why::ReservedFlag),
        (entry(0, 4, 3, 1, 4, 4), Why::Conforms),
        (entry(2, 1, 3, 1, 4, 4), Why::Conforms),
        (entry(0, 7, 1, 1, 4, 3), Why::Clash),
        (entry(0, 0, 1, 1, 4, 3), Why::Shared),
    ];
    for (row, why) in rows {
        same_reason(&rt, alloc, row, why);
    }
    let routed = reason(&rt, alloc, entry(0, 5, 3, 1, 4, 4));
    same(&rt, "no reason", routed.is_none(), true);
}

#[test]
fn the_first_reason_is_told(rt: HostRuntime) {
    let alloc = rt.alloc();
    let rows = [
        (entry(0, 5, 9, 1, 255, 4), Why::DestWide),
        (entry(0, 5, 1, 1, 255, 24), Why::DestWide),
        (entry(4, 5, 1, 1, 255, 4), Why::DestWide),
        (entry(0, 6, 1, 1, 255, 4), Why::DestWide),
        (entry(0, 0, 3, 1, 255, 4), Why::DestWide),
        (entry(0, 5, 9, 1, 9, 4), Why::UnknownBus),
        (entry(0, 5, 9, 1, 4, 24), Why::UnknownBus),
        (entry(4, 5, 9, 1, 4, 4), Why::UnknownBus),
        (entry(0, 6, 9, 1, 4, 4), Why::UnknownBus),
        (entry(0, 0, 9, 1, 4, 4), Why::UnknownBus),
        (entry(0, 7, 9, 1, 4, 3), Why::UnknownBus),
        (entry(0, 5, 9, 1, 4, 3), Why::UnknownBus),
        (entry(0, 5, 1, 1, 9, 24), Why::UnknownIo),
        (entry(4, 5, 1, 1, 9, 4), Why::UnknownIo),
        (entry(0, 6, 1, 1, 9, 4), Why::UnknownIo),
        (entry(0, 0, 3, 1, 9, 4), Why::UnknownIo),
        (entry(4, 5, 1, 1, 4, 24), Why::PinRange),
        (entry(0, 6, 1, 1, 4, 24), Why::PinRange),
        (entry(0, 0, 3, 1, 4, 255), Why::PinRange),
        (entry(4, 6, 1, 1, 4, 4), Why::UnknownKind),
        (entry(4, 0, 3, 1, 4, 4), Why::UnknownKind),
        (entry(255, 5, 1, 1, 4, 3), Why::UnknownKind),
        (entry(0, 2, 3, 1, 4, 4), Why::ReservedFlag),
        (entry(0, 6, 1, 1, 4, 3), Why::ReservedFlag),
        (entry(0, 4, 3, 1, 4, 3), Why::Conforms),
        (entry(0, 12, 3, 1, 4, 3), Why::Conforms),
    ];
    for (row, why) in rows {
        same_reason(&rt, alloc, row, why);
    }
}

// place, pin, vector and low word of the row of an entry, with the ELCR 0020h
fn row(io: u8, pin: u8, vector: u8, low: u32) -> Answer {
    Answer::Routed(Route {
        io,
        pin,
        vector,
        low,
        high: 0x0300_0000,
        entry: 0,
    })
}

#[test]
fn rows_follow_bus_and_flags(rt: HostRuntime) {
    let alloc = rt.alloc();
    let rows = [
        (entry(0, 0, 0, 5, 2, 0), row(0, 0, 0x20, 0xA020)),
        (entry(0, 0, 1, 5, 4, 23), row(1, 23, 0x4F, 0x004F)),
        (entry(0, 0, 2, 5, 5, 23), row(3, 23, 0x7F, 0xA07F)),
        (entry(0, 0, 2, 6, 5, 1), row(3, 1, 0x69, 0x0069)),
        (entry(0, 0, 2, 16, 2, 5), row(0, 5, 0x25, 0x0025)),
        (entry(0, 0, 2, 21, 2, 5), row(0, 5, 0x25, 0x0025)),
        (entry(0, 0, 4, 5, 2, 5), row(0, 5, 0x25, 0xA025)),
        (entry(0, 13, 1, 0, 2, 9), row(0, 9, 0x29, 0x8029)),
        (entry(0, 7, 0, 0, 2, 9), row(0, 9, 0x29, 0x2029)),
        (entry(0, 5, 3, 0, 2, 9), row(0, 9, 0x29, 0x0029)),
        (entry(0, 15, 3, 0, 2, 9), row(0, 9, 0x29, 0xA029)),
        (entry(0, 4, 0, 0, 2, 9), row(0, 9, 0x29, 0x2029)),
        (entry(0, 1, 0, 0, 2, 9), row(0, 9, 0x29, 0x8029)),
        (entry(1, 12, 2, 5, 2, 6), row(0, 6, 0x00, 0x2400)),
        (entry(2, 15, 1, 0, 2, 7), row(0, 7, 0x00, 0x2200)),
        (entry(3, 0, 0, 0, 2, 8), row(0, 8, 0x00, 0x2700)),
        (entry(3, 0xFFF5, 0, 0, 2, 8), row(0, 8, 0x00, 0x0700)),
    ];
    for (e, expected) in rows {
        same_row(&rt, alloc, e, expected);
    }
}

fn later_ones_are_told(rt: &impl Abort, answers: &[Answer]) {
    let told = [
        (0, Why::UnknownKind),
        (2, Why::Clash),
        (3, Why::Clash),
        (4, Why::Shared),
    ];
    for (at, why) in told {
        same_answer(rt, answers, at, Answer::Unrouted { entry: at, why });
    }
}

fn routed_ones_have_their_rows(rt: &impl Abort, answers: &[Answer]) {
    for (at, io, vector) in [(1, 1, 0x3B), (5, 3, 0x6B)] {
        let expected = Answer::Routed(Route {
            io,
            pin: 3,
            vector,
            low: vector as u32,
            high: 0x0300_0000,
            entry: at,
        });
        same_answer(rt, answers, at, expected);
    }
}

// an unrouted entry takes no pin, and the first routed one decides what later ones are told
#[test]
fn the_first_routed_entry_has_the_pin(rt: HostRuntime) {
    let ints = [
        entry(4, 5, 1, 1, 4, 3),
        entry(0, 5, 1, 1, 4, 3),
        entry(0, 7, 1, 1, 4, 3),
        entry(0, 7, 1, 1, 4, 3),
        entry(0, 5, 1, 1, 4, 3),
        entry(0, 5, 1, 1, 5, 3),
    ];
    let answers = answers(&rt, rt.alloc(), &ints, 0);
    later_ones_are_told(&rt, answers.as_slice());
    routed_ones_have_their_rows(&rt, answers.as_slice());
}

// the local APIC id of the processor that boots
fn boot_id(rt: &impl Abort, p: &Platform) -> u8 {
    boot_processor_of(p).expect(rt, "no boot processor").apic
}

// a processor with BP alone, or EN alone, doesn't boot; the first with both does
#[test]
fn the_first_processor_with_both_flags_boots(rt: HostRuntime) {
    let platform = platform(&rt, rt.alloc(), &[]);
    same(&rt, "the boot processor", boot_id(&rt, &platform), 3);
}
