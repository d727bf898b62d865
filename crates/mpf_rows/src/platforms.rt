//! Platforms and the MADT that the rows share.

use mpt_base::{put_u32, seal8};
use mpt_route::{Answer, Platform, routes};
use mpt_spec::{Bus, IntEntry, IoApic, Processor, Sequence};
use std::alloc::{AllocError, Global};
use std::process::Abort;

/// The table of the usual two-processor board: two local APICs, an I/O APIC, IRQ 0 at interrupt 2, and an
/// NMI to all at LINTIN 1.
pub(crate) const BOARD: [u8; 88] = [
    0x41, 0x50, 0x49, 0x43, 0x58, 0x00, 0x00, 0x00, 0x01, 0xC1, 0x4D, 0x50, 0x54, 0x41, 0x42, 0x20,
    0x4D, 0x50, 0x54, 0x41, 0x42, 0x4C, 0x45, 0x20, 0x01, 0x00, 0x00, 0x00, 0x4D, 0x50, 0x54, 0x42,
    0x01, 0x00, 0x00, 0x00, 0x00, 0x00, 0xE0, 0xFE, 0x01, 0x00, 0x00, 0x00, 0x00, 0x08, 0x00, 0x00,
    0x01, 0x00, 0x00, 0x00, 0x00, 0x08, 0x01, 0x01, 0x01, 0x00, 0x00, 0x00, 0x01, 0x0C, 0x00, 0x00,
    0x00, 0x00, 0xC0, 0xFE, 0x00, 0x00, 0x00, 0x00, 0x02, 0x0A, 0x00, 0x00, 0x02, 0x00, 0x00, 0x00,
    0x05, 0x00, 0x04, 0x06, 0xFF, 0x00, 0x00, 0x01,
];

/// The bytes with their number at the length, and the checksum that makes their sum zero.
fn sealed(mut bytes: Vec<u8>) -> Vec<u8> {
    if bytes.len() >= 10 && bytes.len() < 1000 {
        let size = bytes.len() as u32;
        put_u32(bytes.as_mut_slice(), 4, size);
        seal8(bytes.as_mut_slice(), 9);
    }
    bytes
}

/// The header of the board's table with these bytes of entries behind it, with its length and its checksum.
pub(crate) fn with_entries(rt: &impl Abort, alloc: Global, entries: &[u8]) -> Vec<u8> {
    let mut bytes = Vec::from_slice(alloc, &BOARD[..44]).expect(rt, "no memory");
    bytes.extend_from_slice(entries).expect(rt, "no memory");
    sealed(bytes)
}

/// A processor with a local APIC id and flags.
pub(crate) fn cpu(apic: u8, flags: u8) -> Processor {
    Processor {
        apic,
        version: 0x14,
        flags,
        signature: 0x600,
        features: 0x201,
        reserved: [0; 8],
    }
}

/// A bus.
pub(crate) fn bus(id: u8, name: [u8; 6]) -> Bus {
    Bus { id, name }
}

/// An I/O APIC with an id, flags and an address.
pub(crate) fn io(id: u8, flags: u8, address: u32) -> IoApic {
    IoApic {
        id,
        version: 0x11,
        flags,
        address,
    }
}

/// An interrupt: kind, flags, bus, IRQ, destination and pin.
pub(crate) fn int(kind: u8, flags: u16, bus: u8, irq: u8, dest: u8, pin: u8) -> IntEntry {
    IntEntry {
        kind,
        flags,
        bus,
        irq,
        dest,
        pin,
    }
}

// a sequence of these items
fn sequence<T: Copy + Drop>(rt: &impl Abort, alloc: Global, items: &[T]) -> Sequence<T> {
    Sequence::new(Vec::from_slice(alloc, items).expect(rt, "no memory"))
}

/// A platform of these entries.
pub(crate) fn platform(
    rt: &impl Abort,
    alloc: Global,
    processors: &[Processor],
    buses: &[Bus],
    ios: &[IoApic],
    ints: &[IntEntry],
    lints: &[IntEntry],
) -> Platform {
    Platform {
        processors: sequence(rt, alloc, processors),
        buses: sequence(rt, alloc, buses),
        ios: sequence(rt, alloc, ios),
        ints: sequence(rt, alloc, ints),
        lints: sequence(rt, alloc, lints),
        imcr: false,
        local_address: 0xFEE0_0000,
    }
}

/// The interrupts of the usual board: INTA# of PCI device 2, the pair of 8259A, and the ISA interrupts.
pub(crate) fn board_ints(alloc: Global) -> Result<Vec<IntEntry>, AllocError> {
    let first = [
        int(0, 0, 0, 0x08, 0, 0x10),
        int(3, 0, 1, 0, 0, 0),
        int(0, 0, 1, 0, 0, 2),
        int(0, 0, 1, 1, 0, 1),
    ];
    let mut ints = Vec::from_slice(alloc, &first)?;
    for irq in 3..16u8 {
        ints.push(int(0, 0, 1, irq, 0, irq))?;
    }
    Ok(ints)
}

/// The platform of the usual two-processor board.
pub(crate) fn board(rt: &impl Abort, alloc: Global) -> Platform {
    let ints = board_ints(alloc).expect(rt, "no memory");
    platform(
        rt,
        alloc,
        &[cpu(0, 3), cpu(1, 1)],
        &[bus(0, *b"PCI   "), bus(1, *b"ISA   ")],
        &[io(0, 1, 0xFEC0_0000)],
        ints.as_slice(),
        &[int(3, 0, 1, 0, 0, 0), int(1, 0, 1, 0, 0xFF, 1)],
    )
}

/// The routes of a platform of at most 255 interrupts.
pub(crate) fn answers(alloc: Global, p: &Platform, elcr: u16) -> Option<Vec<Answer>> {
    if p.ints.as_slice().len() > 255 {
        return None;
    }
    routes(alloc, p, elcr).ok()
}
