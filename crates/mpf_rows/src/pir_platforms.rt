//! What decides a pin, its wire and its link.

use crate::harness::same;
use crate::pir::{int, made, platform, same_differences};
use crate::platforms::bus;
use mpf_pir::{Difference, Odd, Pir, Slot};
use mpt_route::Platform;
use mpt_spec::Sequence;
use std::alloc::Global;
use std::process::Abort;

// a slot with these links alone
fn slot(bus: u8, device: u8, links: [u8; 4]) -> Slot {
    Slot {
        bus,
        device,
        links,
        irqs: [0; 4],
        number: 0,
        reserved: 0,
    }
}

fn table(rt: &impl Abort, alloc: Global, slots: &[Slot]) -> Pir {
    let slots = Vec::from_slice(alloc, slots).expect(rt, "no memory");
    Pir {
        router_bus: 0,
        router_function: 0,
        exclusive: 0,
        compatible: 0,
        miniport: 0,
        reserved: [0; 11],
        slots: Sequence::new(slots),
    }
}

fn difference(bus: u8, device: u8, pin: u8, why: Odd) -> Difference {
    Difference {
        bus,
        device,
        pin,
        why,
    }
}

// the table of the platform has these slots, and doesn't differ from it
fn same_slots(rt: &impl Abort, alloc: Global, p: &Platform, want: &[Slot]) {
    let t = made(alloc, p).expect(rt, "no table");
    same(rt, "the slots", t.slots.as_slice(), want);
    same_differences(rt, alloc, "no differences", p, &t, &[]);
}

// buses and pins that have more than one entry, and entries that no table has
fn repeated(rt: &impl Abort, alloc: Global) -> Platform {
    let buses = [
        bus(3, *b"PCI   "),
        bus(0, *b"PCI   "),
        bus(1, *b"ISA   "),
        bus(1, *b"PCI   "),
        bus(3, *b"ISA   "),
    ];
    let ints = [
        int(0, 3, 0x7F, 2, 20), // INTD# of device 31 on bus 3
        int(1, 0, 0x04, 2, 21), // an NMI
        int(3, 0, 0x08, 2, 21), // an ExtINT
        int(0, 1, 0x04, 2, 21), // bus 1 is ISA by its first entry
        int(0, 9, 0x04, 2, 21), // there is no bus 9
        int(0, 0, 0x84, 2, 22), // INTA# of device 1 on bus 0; bit 7 is no part of it
        int(0, 0, 0x06, 2, 20), // INTC# of device 1, on the first wire
        int(0, 0, 0x04, 2, 23), // INTA# of device 1 again, on a wire that nobody else has
        int(0, 0, 0x05, 0xFF, 20), // INTB# of device 1, to all I/O APICs
    ];
    platform(rt, alloc, &buses, &ints)
}

#[test]
fn first_entries_decide(rt: HostRuntime) {
    let want = [slot(3, 0xF8, [0, 0, 0, 1]), slot(0, 0x08, [2, 3, 1, 0])];
    let p = repeated(&rt, rt.alloc());
    same_slots(&rt, rt.alloc(), &p, &want);
}

// a device on each of two buses
fn two_devices(rt: &impl Abort, alloc: Global) -> Platform {
    let buses = [bus(0, *b"PCI   "), bus(2, *b"PCI   ")];
    let ints = [
        int(0, 2, 0x00, 0, 17), // INTA# of device 0 on bus 2
        int(0, 0, 0x0C, 0, 16), // INTA# of device 3 on bus 0
        int(0, 0, 0x0D, 0, 17), // INTB# of device 3
        int(0, 0, 0x0E, 0, 16), // INTC# of device 3
        int(0, 0, 0x0F, 0, 18), // INTD# of device 3
    ];
    platform(rt, alloc, &buses, &ints)
}

// a table that differs from their platform
fn other_table(rt: &impl Abort, alloc: Global) -> Pir {
    let slots = [
        slot(2, 0x07, [9, 0, 0, 5]), // bits 2 to 0 are no part of the device
        slot(0, 0x18, [9, 9, 9, 0]),
        slot(0, 0x18, [0, 0, 0, 9]), // the first slot decides
    ];
    table(rt, alloc, &slots)
}

fn the_differences() -> [Difference; 5] {
    [
        difference(0, 3, 1, Odd::Link), // wire 17, and INTA# has 16
        difference(0, 3, 2, Odd::Link), // wire 16, and INTB# has 17
        difference(0, 3, 3, Odd::OnlyMp), // link 0 in the first slot
        difference(2, 0, 0, Odd::Link), // wire 17, and INTA# of device 3 on bus 0 has 16
        difference(2, 0, 3, Odd::OnlyPir),
    ]
}

#[test]
fn differences_are_in_order(rt: HostRuntime) {
    let want = the_differences();
    let p = two_devices(&rt, rt.alloc());
    let t = other_table(&rt, rt.alloc());
    same_differences(&rt, rt.alloc(), "the differences", &p, &t, &want);
}
