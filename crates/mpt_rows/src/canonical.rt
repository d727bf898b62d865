//! The canonical form: order and reserved bits.

use crate::harness::same;
use crate::tables::{default, listed, lone};
use mpt_spec::{
    Base, Body, Bus, Ext, Hierarchy, IntEntry, IoApic, Modifier, Pointer, Table, Tables,
};
use mpt_write::{canon, is_canon};
use std::alloc::{AllocError, Global};
use std::process::Abort;

fn interrupt(flags: u16) -> IntEntry {
    IntEntry {
        kind: 0xFF,
        flags,
        bus: 0xFF,
        irq: 0xFF,
        dest: 0xFF,
        pin: 0xFF,
    }
}

fn io_apic(flags: u8) -> Base {
    Base::IoApic(IoApic {
        id: 0xFF,
        version: 0xFF,
        flags,
        address: 0xFFFF_FFFF,
    })
}

fn bus(id: u8) -> Base {
    Base::Bus(Bus {
        id,
        name: [0xFF; 6],
    })
}

// tables in which every reserved bit is set, with their entries in another order than that of types
fn reserved(rt: &impl Abort, alloc: Global) -> Tables {
    let base = Vec::from_slice(alloc, &reserved_base());
    let base = base.expect(rt, "out of memory");
    let ext = reserved_ext(alloc).expect(rt, "out of memory");
    with_reserved(listed(0xF_0000, 0x000F_0010, base, ext))
}

fn reserved_base() -> [Base; 7] {
    [
        Base::LocalInt(interrupt(0xFFFF)),
        bus(2),
        Base::IoInt(interrupt(0xFFFF)),
        io_apic(0xFF),
        bus(1),
        Base::Processor(lone(0xFF, 0xFF)),
        bus(2),
    ]
}

fn reserved_ext(alloc: Global) -> Result<Vec<Ext>, AllocError> {
    let mut ext = Vec::new(alloc);
    ext.push(Ext::Modifier(Modifier {
        bus: 0xFF,
        flags: 0xFF,
        ranges: 0xFFFF_FFFF,
    }))?;
    ext.push(Ext::Hierarchy(Hierarchy {
        bus: 0xFF,
        info: 0xFF,
        parent: 0xFF,
        reserved: [0xFF; 3],
    }))?;
    Ok(ext)
}

// those tables with the reserved bits of their floating pointer and of their header set
fn with_reserved(tables: Tables) -> Tables {
    Tables {
        pointer: Pointer {
            features: [0, 0xFF, 0xFF, 0xFF, 0xFF],
            ..tables.pointer
        },
        body: with_reserved_byte(tables.body),
        ..tables
    }
}

fn with_reserved_byte(body: Body) -> Body {
    match body {
        Body::Listed(table) => Body::Listed(Table {
            reserved: 0xFF,
            ..table
        }),
        other => other,
    }
}

// the flags of a modifier, the information of a hierarchy, and its reserved bytes
fn bits_of(entry: Option<&Ext>) -> (u8, u8, [u8; 3]) {
    match entry {
        Some(Ext::Modifier(e)) => (e.flags, 0, [0; 3]),
        Some(Ext::Hierarchy(e)) => (0, e.info, e.reserved),
        _ => (0xFF, 0xFF, [0xFF; 3]),
    }
}

// the base entries of the canonical form of those tables
fn canonical_base() -> [Base; 7] {
    [
        Base::Processor(lone(3, 0)),
        bus(2),
        bus(1),
        bus(2),
        io_apic(1),
        Base::IoInt(interrupt(15)),
        Base::LocalInt(interrupt(15)),
    ]
}

// the parts of the table of that form
fn same_table(rt: &impl Abort, table: &Table) {
    same(rt, "the reserved byte of the header", table.reserved, 0);
    let base = canonical_base();
    same(
        rt,
        "the base entries",
        table.base.as_slice(),
        base.as_slice(),
    );
    same_bits(rt, table.ext.as_slice());
}

fn same_bits(rt: &impl Abort, ext: &[Ext]) {
    let bits = [bits_of(ext.first()), bits_of(ext.get(1))];
    let want = [(1, 0, [0; 3]), (0, 1, [0; 3])];
    same(rt, "the bits of the extended entries", bits, want);
}

// the parts of that form
fn same_form(rt: &impl Abort, form: &Tables) {
    same(rt, "the form is canonical", is_canon(form), true);
    let features = [0, 0xC0, 0, 0, 0];
    same(rt, "the feature bytes", form.pointer.features, features);
    let Body::Listed(table) = &form.body else {
        panic!(rt; "a listed table stays listed");
    };
    same_table(rt, table);
}

#[test]
fn sorts_by_type_and_clears_what_is_reserved(rt: HostRuntime) {
    let tables = reserved(&rt, rt.alloc());
    same(&rt, "reserved bits are judged", is_canon(&tables), false);
    let form = canon(rt.alloc(), tables).expect(&rt, "out of memory");
    same_form(&rt, &form);
}

// whether a default configuration with these feature bytes is canonical
fn is_canon_with(features: [u8; 5]) -> bool {
    let tables = default(5, 0x500, 0);
    let pointer = Pointer {
        features,
        ..tables.pointer
    };
    is_canon(&Tables { pointer, ..tables })
}

#[test]
fn judges_each_reserved_part(rt: HostRuntime) {
    let mut features = [5, 0xC0, 0, 0, 0];
    for (at, byte, want) in [
        (1, 0x40, true),
        (1, 0x20, false),
        (1, 0, true),
        (2, 1, false),
        (2, 0, true),
        (3, 0x80, false),
        (3, 0, true),
        (4, 0x80, false),
    ] {
        features[at] = byte;
        same(
            &rt,
            "a feature byte",
            (at, byte, is_canon_with(features)),
            (at, byte, want),
        );
    }
}
