//! Tables of entries that are written out.

use mpt_spec::{
    Base, Body, Bus, Ext, Hierarchy, IntEntry, IoApic, Modifier, Pointer, Processor, Sequence,
    Space, Table, Tables,
};
use std::alloc::{AllocError, Global};

/// A processor with a local APIC id and flags.
pub(crate) fn cpu(apic: u8, flags: u8) -> Base {
    Base::Processor(Processor {
        apic,
        version: 0x14,
        flags,
        signature: 0x600,
        features: 0x201,
        reserved: [0; 8],
    })
}

/// A bus.
pub(crate) fn bus(id: u8, name: [u8; 6]) -> Base {
    Base::Bus(Bus { id, name })
}

/// An I/O APIC with an id and flags.
pub(crate) fn io(id: u8, flags: u8) -> Base {
    Base::IoApic(IoApic {
        id,
        version: 0x11,
        flags,
        address: 0xFEC0_0000,
    })
}

/// An I/O interrupt: kind, flags, bus, IRQ, destination and pin.
pub(crate) fn int(kind: u8, flags: u16, bus: u8, irq: u8, dest: u8, pin: u8) -> Base {
    Base::IoInt(entry(kind, flags, bus, irq, dest, pin))
}

/// A local interrupt: kind, flags, bus, IRQ, destination and pin.
pub(crate) fn lint(kind: u8, flags: u16, bus: u8, irq: u8, dest: u8, pin: u8) -> Base {
    Base::LocalInt(entry(kind, flags, bus, irq, dest, pin))
}

/// An interrupt entry.
pub(crate) fn entry(kind: u8, flags: u16, bus: u8, irq: u8, dest: u8, pin: u8) -> IntEntry {
    IntEntry {
        kind,
        flags,
        bus,
        irq,
        dest,
        pin,
    }
}

/// An extended entry that isn't opaque.
#[derive(Clone, Copy)]
pub(crate) enum Part {
    /// A range of addresses: bus, address kind, first address, length.
    Space(u8, u8, u64, u64),
    /// A bus, information and its parent.
    Hierarchy(u8, u8, u8),
    /// A bus, flags and predefined ranges.
    Modifier(u8, u8, u32),
}

fn ext(part: Part) -> Ext {
    match part {
        Part::Space(bus, kind, base, length) => Ext::Space(Space {
            bus,
            kind,
            base,
            length,
        }),
        Part::Hierarchy(bus, info, parent) => Ext::Hierarchy(Hierarchy {
            bus,
            info,
            parent,
            reserved: [0; 3],
        }),
        Part::Modifier(bus, flags, ranges) => Ext::Modifier(Modifier { bus, flags, ranges }),
    }
}

fn exts(alloc: Global, parts: &[Part]) -> Result<Vec<Ext>, AllocError> {
    let mut out = Vec::new(alloc);
    for part in parts {
        out.push(ext(*part))?;
    }
    Ok(out)
}

/// A floating pointer at F0000h with these feature bytes.
pub(crate) fn pointer(features: [u8; 5]) -> Pointer {
    Pointer {
        address: 0xF_0010,
        revision: 4,
        features,
    }
}

/// The tables of a default configuration, with feature bytes 2 and 5 of the floating pointer.
pub(crate) fn default_tables(number: u8, second: u8, fifth: u8) -> Tables {
    Tables {
        at: 0xF_0000,
        pointer: pointer([number, second, 0, 0, fifth]),
        body: Body::Default(number),
    }
}

/// Listed tables of these entries.
pub(crate) fn listed(alloc: Global, base: &[Base], parts: &[Part]) -> Result<Tables, AllocError> {
    with_entries(alloc, base, parts, 0, 0)
}

/// Listed tables of these entries, with feature byte 2 of the floating pointer and reserved byte 43 of
/// the header.
pub(crate) fn with_entries(
    alloc: Global,
    base: &[Base],
    parts: &[Part],
    feature: u8,
    reserved: u8,
) -> Result<Tables, AllocError> {
    let base = Vec::from_slice(alloc, base)?;
    let ext = exts(alloc, parts)?;
    let table = Table {
        revision: 4,
        oem: *b"MPTAB   ",
        product: *b"BOARD       ",
        oem_table: 0,
        oem_size: 0,
        local_address: 0xFEE0_0000,
        reserved,
        old: [0; 4],
        base: Sequence::new(base),
        ext: Sequence::new(ext),
    };
    Ok(Tables {
        at: 0xF_0000,
        pointer: pointer([0, feature, 0, 0, 0]),
        body: Body::Listed(table),
    })
}
