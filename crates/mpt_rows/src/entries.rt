//! Entries spelled out by hand from the figures of MultiProcessor Specification 1.4, chapter 4.

use crate::harness::same;
use mpt_base::{Fault, Reason};
use mpt_entries::{
    Base, Bus, Ext, Hierarchy, IntEntry, IoApic, Modifier, Processor, Space, Stop, read_base,
    read_ext,
};
use std::alloc::Global;
use std::process::Abort;

// the stop at a fault
fn stop(at: u64, why: Reason) -> Option<Stop> {
    Some(Stop::Fault(Fault { at, why }))
}

// the base entries in a range of the bytes
fn same_base(rt: &impl Abort, alloc: Global, bytes: &[u8], from: usize, to: usize, want: &[Base]) {
    if from > to || to > bytes.len() {
        panic!(rt; "the range is not in the bytes");
    }
    let entries = read_base(alloc, bytes, from, to).expect(rt, "not read");
    same(rt, "the base entries", entries.as_slice(), want);
}

// the address space of the row
fn same_space(rt: &impl Abort, entry: Option<&Ext>) {
    let Some(Ext::Space(space)) = entry else {
        panic!(rt; "no address space");
    };
    let want = Space {
        bus: 1,
        kind: 2,
        base: 0x0102_0304_0506_0708,
        length: 0x1000_0000_0002_0000,
    };
    same(rt, "the address space", *space, want);
}

// the bus hierarchy of the row
fn same_hierarchy(rt: &impl Abort, entry: Option<&Ext>) {
    let Some(Ext::Hierarchy(hierarchy)) = entry else {
        panic!(rt; "no bus hierarchy");
    };
    let want = Hierarchy {
        bus: 1,
        info: 3,
        parent: 2,
        reserved: [0xA1, 0xA2, 0xA3],
    };
    same(rt, "the bus hierarchy", *hierarchy, want);
}

// the address modifier of the row
fn same_modifier(rt: &impl Abort, entry: Option<&Ext>) {
    let Some(Ext::Modifier(modifier)) = entry else {
        panic!(rt; "no address modifier");
    };
    let want = Modifier {
        bus: 4,
        flags: 1,
        ranges: 0x8000_0001,
    };
    same(rt, "the address modifier", *modifier, want);
}

// an extended entry of a type that the standard does not define
fn same_opaque(rt: &impl Abort, entry: Option<&Ext>, kind: u8, rest: &[u8]) {
    let Some(Ext::Opaque(opaque)) = entry else {
        panic!(rt; "no entry of another type");
    };
    same(rt, "the type of another entry", opaque.kind, kind);
    same(rt, "its rest", opaque.rest.as_slice(), rest);
}

// the fault of the base entries that the bytes are said to be
fn same_base_fault(rt: &impl Abort, alloc: Global, bytes: &[u8], want: Option<Stop>) {
    let got = read_base(alloc, bytes, 0, bytes.len()).err();
    same(rt, "the fault of base entries", (bytes, got), (bytes, want));
}

// the fault of the extended entries that the bytes are said to be
fn same_ext_fault(rt: &impl Abort, alloc: Global, bytes: &[u8], want: Option<Stop>) {
    let got = read_ext(alloc, bytes, 0, bytes.len()).err();
    same(
        rt,
        "the fault of extended entries",
        (bytes, got),
        (bytes, want),
    );
}

#[test]
fn reads_one_processor(rt: HostRuntime) {
    let bytes = [
        0x00, 0x00, 0x10, 0x03, 0x20, 0x05, 0x00, 0x00, 0xBF, 0x01, 0x00, 0x00, 0x00, 0x00, 0x00,
        0x00, 0x00, 0x00, 0x00, 0x00,
    ];
    let expected = [Base::Processor(Processor {
        apic: 0x00,
        version: 0x10,
        flags: 0x03,
        signature: 0x0000_0520,
        features: 0x0000_01BF,
        reserved: [0; 8],
    })];
    same_base(&rt, rt.alloc(), &bytes, 0, 20, &expected);
}

#[test]
fn reads_each_base_entry_in_a_range(rt: HostRuntime) {
    let bytes = [
        0xEE, 0xEE, 0xEE, // before the range
        0x00, 0x07, 0x14, 0x02, 0x11, 0x22, 0x33, 0x44, 0x55, 0x66, 0x77, 0x88, // a processor
        0xA0, 0xA1, 0xA2, 0xA3, 0xA4, 0xA5, 0xA6, 0xA7, // and its reserved bytes
        0x01, 0x02, 0x50, 0x43, 0x49, 0x20, 0x20, 0x20, // a bus
        0x02, 0x08, 0x11, 0x01, 0x00, 0x10, 0xC0, 0xFE, // an I/O APIC
        0x03, 0x01, 0x0D, 0x80, 0x02, 0x21, 0x08, 0x13, // an I/O interrupt
        0x04, 0x03, 0x00, 0x05, 0x01, 0x09, 0xFF, 0x01, // a local interrupt
        0x05, // behind the range
    ];
    let expected = [
        Base::Processor(Processor {
            apic: 0x07,
            version: 0x14,
            flags: 0x02,
            signature: 0x4433_2211,
            features: 0x8877_6655,
            reserved: [0xA0, 0xA1, 0xA2, 0xA3, 0xA4, 0xA5, 0xA6, 0xA7],
        }),
        Base::Bus(Bus {
            id: 0x02,
            name: [0x50, 0x43, 0x49, 0x20, 0x20, 0x20],
        }),
        Base::IoApic(IoApic {
            id: 0x08,
            version: 0x11,
            flags: 0x01,
            address: 0xFEC0_1000,
        }),
        Base::IoInt(IntEntry {
            kind: 1,
            flags: 0x800D,
            bus: 2,
            irq: 0x21,
            dest: 8,
            pin: 0x13,
        }),
        Base::LocalInt(IntEntry {
            kind: 3,
            flags: 0x0500,
            bus: 1,
            irq: 9,
            dest: 0xFF,
            pin: 1,
        }),
    ];
    same_base(&rt, rt.alloc(), &bytes, 3, 55, &expected);
}

/// Bytes that aren't base entries, and the place and the reason of their fault.
const NO_BASE: &[(&[u8], u64, Reason)] = &[
    (&[0x05, 0, 0, 0, 0, 0, 0, 0], 0, Reason::UnknownEntry),
    (&[0xFF], 0, Reason::UnknownEntry),
    (&[0x00; 19], 0, Reason::CutEntry),
    (&[0x00, 0, 0, 0, 0, 0, 0, 0], 0, Reason::CutEntry),
    (&[0x01, 0, 0, 0, 0, 0, 0], 0, Reason::CutEntry),
    (&[0x02, 0, 0, 0, 0, 0, 0], 0, Reason::CutEntry),
    (&[0x03, 0, 0, 0, 0, 0, 0], 0, Reason::CutEntry),
    (&[0x04], 0, Reason::CutEntry),
    (&[0x01, 0, 0, 0, 0, 0, 0, 0, 0x80], 8, Reason::UnknownEntry),
    (&[0x01, 0, 0, 0, 0, 0, 0, 0, 0x00], 8, Reason::CutEntry),
];

#[test]
fn tells_the_fault_of_base_entries(rt: HostRuntime) {
    same_base_fault(&rt, rt.alloc(), &[], None);
    for (bytes, at, why) in NO_BASE {
        same_base_fault(&rt, rt.alloc(), bytes, stop(*at, *why));
    }
    same_base_fault(&rt, rt.alloc(), &[0x01, 0, 0, 0, 0, 0, 0, 0], None);
}

#[test]
fn reads_each_extended_entry_in_a_range(rt: HostRuntime) {
    let bytes = [
        0x00, // before the range
        0x80, 0x14, 0x01, 0x02, 0x08, 0x07, 0x06, 0x05, 0x04, 0x03, 0x02, 0x01, // an address space
        0x00, 0x00, 0x02, 0x00, 0x00, 0x00, 0x00, 0x10, // and its length
        0x81, 0x08, 0x01, 0x03, 0x02, 0xA1, 0xA2, 0xA3, // a bus hierarchy
        0x82, 0x08, 0x04, 0x01, 0x01, 0x00, 0x00, 0x80, // an address modifier
        0x83, 0x02, // an entry of another type, with nothing behind its length byte
        0xC5, 0x05, 0x51, 0x52, 0x53, // one with three bytes
        0x00, // behind the range
    ];
    let entries = read_ext(rt.alloc(), &bytes, 1, 44).expect(&rt, "not read");
    same_ext(&rt, entries.as_slice());
}

// the extended entries of the row
fn same_ext(rt: &impl Abort, found: &[Ext]) {
    same(rt, "how many entries", found.len(), 5);
    same_space(rt, found.first());
    same_hierarchy(rt, found.get(1));
    same_modifier(rt, found.get(2));
    same_opaque(rt, found.get(3), 0x83, &[]);
    same_opaque(rt, found.get(4), 0xC5, &[0x51, 0x52, 0x53]);
}

#[test]
fn reads_the_longest_extended_entry(rt: HostRuntime) {
    let mut bytes = [0x5A; 255];
    bytes[0] = 0xFF;
    bytes[1] = 0xFF;
    let entries = read_ext(rt.alloc(), &bytes, 0, 255).expect(&rt, "not read");
    same(&rt, "how many entries", entries.len(), 1);
    same_opaque(&rt, entries.as_slice().first(), 0xFF, &[0x5A; 253]);
}

/// Bytes that aren't extended entries, and the place and the reason of their fault.
const NO_EXT: &[(&[u8], u64, Reason)] = &[
    (&[0x7F, 8, 0, 0, 0, 0, 0, 0], 0, Reason::BadExtType),
    (&[0x00], 0, Reason::BadExtType),
    (&[0x80], 0, Reason::CutExtEntry),
    (&[0xFF], 0, Reason::CutExtEntry),
    (&[0x80, 19], 1, Reason::BadExtLength),
    (&[0x81, 9], 1, Reason::BadExtLength),
    (&[0x82, 7], 1, Reason::BadExtLength),
    (&[0x83, 1], 1, Reason::BadExtLength),
    (&[0x83, 0], 1, Reason::BadExtLength),
    (&[0x80, 20, 0], 0, Reason::CutExtEntry),
    (&[0x81, 8, 0, 0, 0, 0, 0], 0, Reason::CutExtEntry),
    (&[0x82, 8], 0, Reason::CutExtEntry),
    (&[0x83, 3], 0, Reason::CutExtEntry),
    (&[0x83, 2, 0x83, 1], 3, Reason::BadExtLength),
    (&[0x83, 3, 0x41, 0x7F], 3, Reason::BadExtType),
];

#[test]
fn tells_the_fault_of_extended_entries(rt: HostRuntime) {
    same_ext_fault(&rt, rt.alloc(), &[], None);
    for (bytes, at, why) in NO_EXT {
        same_ext_fault(&rt, rt.alloc(), bytes, stop(*at, *why));
    }
}
