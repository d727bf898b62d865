//! Tables that several rows use: one of one processor, and those of a usual board.

use mpt_spec::{
    Base, Body, Bus, Ext, IntEntry, IoApic, Pointer, Processor, Sequence, Table, Tables,
};
use std::alloc::Global;
use std::process::Abort;

/// The table of one processor, byte by byte.
pub(crate) const ONE_PROCESSOR: [u8; 64] = [
    0x50, 0x43, 0x4D, 0x50, 0x40, 0x00, 0x04, 0x99, 0x4D, 0x50, 0x54, 0x41, 0x42, 0x20, 0x20, 0x20,
    0x42, 0x4F, 0x41, 0x52, 0x44, 0x20, 0x20, 0x20, 0x20, 0x20, 0x20, 0x20, 0x00, 0x00, 0x00, 0x00,
    0x00, 0x00, 0x01, 0x00, 0x00, 0x00, 0xE0, 0xFE, 0x00, 0x00, 0x00, 0x00, 0x00, 0x00, 0x10, 0x03,
    0x20, 0x05, 0x00, 0x00, 0xBF, 0x01, 0x00, 0x00, 0x00, 0x00, 0x00, 0x00, 0x00, 0x00, 0x00, 0x00,
];

/// The processor of that table, with these flags and this reserved byte eight times.
pub(crate) fn lone(flags: u8, reserved: u8) -> Processor {
    Processor {
        apic: 0,
        version: 0x10,
        flags,
        signature: 0x520,
        features: 0x1BF,
        reserved: [reserved; 8],
    }
}

/// The base entries of that table.
pub(crate) fn one_processor(rt: &impl Abort, alloc: Global) -> Vec<Base> {
    let entries = [Base::Processor(lone(3, 0))];
    Vec::from_slice(alloc, &entries).expect(rt, "out of memory")
}

/// Tables with a floating pointer at a place that names a table at an address.
pub(crate) fn listed(at: u64, address: u32, base: Vec<Base>, ext: Vec<Ext>) -> Tables {
    Tables {
        at,
        pointer: Pointer {
            address,
            revision: 4,
            features: [0; 5],
        },
        body: Body::Listed(Table {
            revision: 4,
            oem: *b"MPTAB   ",
            product: *b"BOARD       ",
            oem_table: 0,
            oem_size: 0,
            local_address: 0xFEE0_0000,
            reserved: 0,
            old: [0; 4],
            base: Sequence::new(base),
            ext: Sequence::new(ext),
        }),
    }
}

/// A default configuration, with this address in the floating pointer.
pub(crate) fn default(number: u8, at: u64, address: u32) -> Tables {
    Tables {
        at,
        pointer: Pointer {
            address,
            revision: 4,
            features: [number, 0, 0, 0, 0],
        },
        body: Body::Default(number),
    }
}

fn processor(apic: u8, flags: u8) -> Base {
    Base::Processor(Processor {
        apic,
        version: 0x14,
        flags,
        signature: 0x600,
        features: 0x201,
        reserved: [0; 8],
    })
}

fn wire(kind: u8, bus: u8, irq: u8, dest: u8, pin: u8) -> IntEntry {
    IntEntry {
        kind,
        flags: 0,
        bus,
        irq,
        dest,
        pin,
    }
}

// two processors, two buses, one I/O APIC and their interrupts
fn usual_entries() -> [Base; 24] {
    [
        processor(0, 3),
        processor(1, 1),
        Base::Bus(Bus {
            id: 0,
            name: *b"PCI   ",
        }),
        Base::Bus(Bus {
            id: 1,
            name: *b"ISA   ",
        }),
        Base::IoApic(IoApic {
            id: 0,
            version: 0x11,
            flags: 1,
            address: 0xFEC0_0000,
        }),
        Base::IoInt(wire(0, 0, 8, 0, 16)),
        Base::IoInt(wire(3, 1, 0, 0, 0)),
        Base::IoInt(wire(0, 1, 0, 0, 2)),
        Base::IoInt(wire(0, 1, 1, 0, 1)),
        Base::IoInt(wire(0, 1, 3, 0, 3)),
        Base::IoInt(wire(0, 1, 4, 0, 4)),
        Base::IoInt(wire(0, 1, 5, 0, 5)),
        Base::IoInt(wire(0, 1, 6, 0, 6)),
        Base::IoInt(wire(0, 1, 7, 0, 7)),
        Base::IoInt(wire(0, 1, 8, 0, 8)),
        Base::IoInt(wire(0, 1, 9, 0, 9)),
        Base::IoInt(wire(0, 1, 10, 0, 10)),
        Base::IoInt(wire(0, 1, 11, 0, 11)),
        Base::IoInt(wire(0, 1, 12, 0, 12)),
        Base::IoInt(wire(0, 1, 13, 0, 13)),
        Base::IoInt(wire(0, 1, 14, 0, 14)),
        Base::IoInt(wire(0, 1, 15, 0, 15)),
        Base::LocalInt(wire(3, 1, 0, 0, 0)),
        Base::LocalInt(wire(1, 1, 0, 0xFF, 1)),
    ]
}

/// The base entries of a board of two processors, two buses and one I/O APIC.
pub(crate) fn usual(rt: &impl Abort, alloc: Global) -> Vec<Base> {
    let entries = usual_entries();
    Vec::from_slice(alloc, &entries).expect(rt, "out of memory")
}
