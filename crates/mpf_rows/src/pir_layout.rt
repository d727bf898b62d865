//! A table with a value of its own in each field.

use crate::harness::same;
use crate::pir::same_bytes;
use mpf_pir::{Pir, Slot, read_pir};
use mpt_spec::Sequence;
use std::alloc::Global;
use std::process::Abort;

/// Each field of a header and of a slot by its offset. The checksum at 31 was summed by hand.
const TABLE: [u8; 48] = [
    0x24, 0x50, 0x49, 0x52, 0x00, 0x01, 0x30, 0x00, 0x01, 0x3A, 0x20, 0x0C, 0x86, 0x80, 0x00, 0x70, //
    0x04, 0x03, 0x02, 0x01, 0xA0, 0xA1, 0xA2, 0xA3, 0xA4, 0xA5, 0xA6, 0xA7, 0xA8, 0xA9, 0xAA, 0xA5, //
    0x02, 0xF8, 0x60, 0xF8, 0xDE, 0x61, 0x20, 0x0C, 0x62, 0x01, 0x80, 0x63, 0xB8, 0xDE, 0x05, 0x7F,
];

fn slot() -> Slot {
    Slot {
        bus: 0x02,
        device: 0xF8,
        links: [0x60, 0x61, 0x62, 0x63],
        irqs: [0xDEF8, 0x0C20, 0x8001, 0xDEB8],
        number: 0x05,
        reserved: 0x7F,
    }
}

fn table(rt: &impl Abort, alloc: Global) -> Pir {
    let slots = Vec::from_slice(alloc, &[slot()]).expect(rt, "no memory");
    Pir {
        router_bus: 0x01,
        router_function: 0x3A,
        exclusive: 0x0C20,
        compatible: 0x7000_8086,
        miniport: 0x0102_0304,
        reserved: [
            0xA0, 0xA1, 0xA2, 0xA3, 0xA4, 0xA5, 0xA6, 0xA7, 0xA8, 0xA9, 0xAA,
        ],
        slots: Sequence::new(slots),
    }
}

// the table has the slot and the fields of the other
fn same_table(rt: &impl Abort, read: &Pir, t: &Pir) {
    same(rt, "the slots", read.slots.as_slice(), &[slot()]);
    same(rt, "router bus", read.router_bus, t.router_bus);
    same(
        rt,
        "router function",
        read.router_function,
        t.router_function,
    );
    same(rt, "exclusive", read.exclusive, t.exclusive);
    same(rt, "compatible", read.compatible, t.compatible);
    same(rt, "miniport", read.miniport, t.miniport);
    same(rt, "reserved", read.reserved, t.reserved);
}

#[test]
fn each_field_has_its_place(rt: HostRuntime) {
    let t = table(&rt, rt.alloc());
    same_bytes(&rt, rt.alloc(), &t, &TABLE);
    let read = read_pir(rt.alloc(), &TABLE).expect(&rt, "not read");
    same_table(&rt, &read, &t);
}
