//! The seven default configurations: their entries, and their routes under three words of the ELCR.

use crate::harness::same;
use crate::tables::{default_tables, entry};
use mpt_route::{Answer, Platform, Route, platform_of, routes};
use mpt_spec::{Bus, IntEntry, IoApic, Processor};
use mpt_write::well_formed;
use std::alloc::Global;
use std::process::Abort;

/// What a default configuration has: its number, the names of bus 0 and, where there is one, bus 1, and
/// the versions of the local APICs and of the I/O APIC.
type Row = (u8, [u8; 6], Option<[u8; 6]>, u8, u8);

// the seven of them
fn rows() -> [Row; 7] {
    [
        (1, *b"ISA   ", None, 0x01, 0x01),
        (2, *b"EISA  ", None, 0x01, 0x01),
        (3, *b"EISA  ", None, 0x01, 0x01),
        (4, *b"MCA   ", None, 0x01, 0x01),
        (5, *b"ISA   ", Some(*b"PCI   "), 0x10, 0x11),
        (6, *b"EISA  ", Some(*b"PCI   "), 0x10, 0x11),
        (7, *b"MCA   ", Some(*b"PCI   "), 0x10, 0x11),
    ]
}

/// The IRQ and the pin of each INT row.
const INTS: [(u8, u8); 15] = [
    (0, 2),
    (1, 1),
    (3, 3),
    (4, 4),
    (5, 5),
    (6, 6),
    (7, 7),
    (8, 8),
    (9, 9),
    (10, 10),
    (11, 11),
    (12, 12),
    (13, 13),
    (14, 14),
    (15, 15),
];

// the platform of a default configuration
fn platform(alloc: Global, number: u8) -> Option<Platform> {
    let tables = default_tables(number, 0x80, 0);
    if !well_formed(&tables) {
        return None;
    }
    platform_of(alloc, &tables).ok()
}

// whether an IRQ has an INT row
fn is_connected(number: u8, irq: u8) -> bool {
    number != 2 || (irq != 0 && irq != 13)
}

/// Of a processor its id, its version and its flags.
type Fields = (u8, u8, u8);

// the processors: two of this version, of which the first boots
fn same_processors(rt: &impl Abort, number: u8, processors: &[Processor], version: u8) {
    let count = processors.len();
    same(rt, "the processors", (number, count), (number, 2));
    same_processor(rt, number, processors.first(), (0, version, 3));
    same_processor(rt, number, processors.get(1), (1, version, 1));
}

fn same_processor(rt: &impl Abort, number: u8, found: Option<&Processor>, want: Fields) {
    let e = found.expect(rt, "no such processor");
    let got = (e.apic, e.version, e.flags);
    same(rt, "a processor", (number, got), (number, want));
    let unknown = (number, (e.signature, e.features));
    same(rt, "signature and features", unknown, (number, (0, 0)));
}

// the buses: bus 0 of this name, and bus 1 where a second name is given
fn same_buses(rt: &impl Abort, number: u8, buses: &[Bus], first: [u8; 6], second: Option<[u8; 6]>) {
    let count = if second.is_some() { 2 } else { 1 };
    same(rt, "the buses", (number, buses.len()), (number, count));
    same_bus(rt, number, buses.first(), Bus { id: 0, name: first });
    if let Some(name) = second {
        same_bus(rt, number, buses.get(1), Bus { id: 1, name });
    }
}

fn same_bus(rt: &impl Abort, number: u8, found: Option<&Bus>, want: Bus) {
    let got = found.copied();
    same(rt, "a bus", (number, got), (number, Some(want)));
}

// the only I/O APIC, of this version
fn same_ios(rt: &impl Abort, number: u8, ios: &[IoApic], version: u8) {
    let want = [IoApic {
        id: 2,
        version,
        flags: 1,
        address: 0xFEC0_0000,
    }];
    same(rt, "the I/O APIC", (number, ios), (number, want.as_slice()));
}

// the I/O interrupts: an ExtINT row, and an INT row of each IRQ that has one
fn same_ints(rt: &impl Abort, number: u8, ints: &[IntEntry]) {
    let count = if number == 2 { 14 } else { 16 };
    same(rt, "the rows", (number, ints.len()), (number, count));
    same_int(rt, number, ints.first(), entry(3, 0, 0, 0, 2, 0));
    let mut at = 1usize;
    for (irq, pin) in INTS {
        if is_connected(number, irq) {
            same_int(rt, number, ints.get(at), entry(0, 0, 0, irq, 2, pin));
            at = at.saturating_add(1);
        }
    }
}

// the local interrupts: an ExtINT row and an NMI row
fn same_lints(rt: &impl Abort, number: u8, lints: &[IntEntry]) {
    same(rt, "the local rows", (number, lints.len()), (number, 2));
    same_int(rt, number, lints.first(), entry(3, 0, 0, 0, 255, 0));
    same_int(rt, number, lints.get(1), entry(1, 0, 0, 0, 255, 1));
}

fn same_int(rt: &impl Abort, number: u8, found: Option<&IntEntry>, want: IntEntry) {
    let got = found.copied();
    same(rt, "a row", (number, got), (number, Some(want)));
}

// the platform of a default configuration has what its row says
fn same_platform(rt: &impl Abort, row: Row, p: &Platform) {
    let (number, first, second, local, io) = row;
    same_processors(rt, number, p.processors.as_slice(), local);
    same_buses(rt, number, p.buses.as_slice(), first, second);
    same_ios(rt, number, p.ios.as_slice(), io);
    same_ints(rt, number, p.ints.as_slice());
    same_lints(rt, number, p.lints.as_slice());
    let got = (number, p.imcr, p.local_address);
    let want = (number, true, 0xFEE0_0000);
    same(rt, "a default, its IMCR and its local APICs", got, want);
}

// a default configuration has what its row says
fn same_default(rt: &impl Abort, alloc: Global, row: Row) {
    let p = platform(alloc, row.0).expect(rt, "no memory");
    same_platform(rt, row, &p);
}

#[test]
fn defaults_have_their_entries(rt: HostRuntime) {
    for row in rows() {
        same_default(&rt, rt.alloc(), row);
    }
}

// the IRQs that a bus makes level and low under a word of the ELCR
fn level_irqs(name: [u8; 6], elcr: u16) -> u16 {
    if name == *b"MCA   " {
        0xFFFF
    } else if name == *b"EISA  " {
        elcr
    } else {
        0
    }
}

// whether an answer is the row of an interrupt of a default configuration; entry 0 is an ExtINT
fn is_row(answer: &Answer, entry: u32, kind: u8, irq: u8, pin: u8, levels: u16) -> bool {
    let level = levels >> (irq % 16) & 1 == 1;
    let (vector, low) = if kind == 0 {
        (
            0x20 + pin % 32,
            if level { 0xA020 } else { 0x20 } + pin as u32,
        )
    } else {
        (0, if level { 0x2700 } else { 0x700 })
    };
    let expected = Route {
        io: 0,
        pin,
        vector,
        low,
        high: 0,
        entry,
    };
    *answer == Answer::Routed(expected)
}

// the same of an interrupt that was looked up
fn is_row_of(answer: &Answer, entry: u32, found: Option<&IntEntry>, levels: u16) -> bool {
    match found {
        Some(e) => is_row(answer, entry, e.kind, e.irq, e.pin, levels),
        None => false,
    }
}

// whether the answers are the rows of these interrupts
fn are_rows_of(ints: &[IntEntry], answers: &[Answer], levels: u16) -> bool {
    let mut all = answers.len() == ints.len();
    let mut at = 0u32;
    for answer in answers {
        all = all && is_row_of(answer, at, ints.get(at as usize), levels);
        at = at.saturating_add(1);
    }
    all
}

// whether a platform is routed by the rows of its interrupts
fn is_routed(alloc: Global, p: &Platform, elcr: u16, levels: u16) -> Option<bool> {
    let ints = p.ints.as_slice();
    if ints.len() > 255 {
        return None;
    }
    match routes(alloc, p, elcr) {
        Ok(answers) => Some(are_rows_of(ints, answers.as_slice(), levels)),
        Err(_) => None,
    }
}

fn are_rows(alloc: Global, number: u8, name: [u8; 6], elcr: u16) -> Option<bool> {
    let p = platform(alloc, number)?;
    is_routed(alloc, &p, elcr, level_irqs(name, elcr))
}

// a default configuration is routed by its rows under a word of the ELCR
fn is_routed_under(rt: &impl Abort, alloc: Global, number: u8, name: [u8; 6], elcr: u16) {
    let got = are_rows(alloc, number, name, elcr);
    same(
        rt,
        "a default and a word of the ELCR",
        (number, elcr, got),
        (number, elcr, Some(true)),
    );
}

#[test]
fn defaults_are_routed_under_three_elcr_words(rt: HostRuntime) {
    for (number, name, _, _, _) in rows() {
        for elcr in [0x0000, 0x0E21, 0xFFFF] {
            is_routed_under(&rt, rt.alloc(), number, name, elcr);
        }
    }
}
