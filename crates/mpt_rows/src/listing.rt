//! Listings whose text was written by hand from the format.

use crate::harness::same;
use crate::tables;
use crate::tables::{default, listed};
use mpt_listing::{Part, print, push_line};
use mpt_spec::{
    Base, Body, Bus, Ext, Hierarchy, IntEntry, IoApic, Modifier, Opaque, Pointer, Processor,
    Sequence, Space, Table, Tables,
};
use std::alloc::{AllocError, Global};
use std::process::Abort;

// the listing of tables
fn same_listing(rt: &impl Abort, alloc: Global, tables: &Tables, want: &[u8]) {
    let text = print(alloc, tables).expect(rt, "out of memory");
    same(rt, "the listing", text.as_slice(), want);
}

#[test]
fn one_processor(rt: HostRuntime) {
    let base = tables::one_processor(&rt, rt.alloc());
    let described = listed(0xF0000, 0xF0010, base, Vec::new(rt.alloc()));
    let want = b"mptable 1
pointer at 000F0000 table 000F0010 revision 04 features 0000000000
header revision 04 oem \"MPTAB   \" product \"BOARD       \" oemtable 00000000 oemsize 0000 local FEE00000 reserved 00
processor id 00 version 10 flags 03 signature 00000520 features 000001BF reserved 0000000000000000
end
";
    same_listing(&rt, rt.alloc(), &described, want);
}

#[test]
fn default_configuration(rt: HostRuntime) {
    let described = default(5, 0x9FC00, 0);
    let want = b"mptable 1
pointer at 0009FC00 table 00000000 revision 04 features 0500000000
end
";
    same_listing(&rt, rt.alloc(), &described, want);
}

fn each_base() -> [Base; 6] {
    let interrupt = IntEntry {
        kind: 3,
        flags: 0x1F0D,
        bus: 2,
        irq: 0x4C,
        dest: 0xFF,
        pin: 0x17,
    };
    [
        Base::LocalInt(interrupt),
        Base::Bus(Bus {
            id: 0,
            name: *b"PCI   ",
        }),
        Base::Bus(Bus {
            id: 0xAB,
            name: *b"\"\\\x7F\x00 ~",
        }),
        Base::IoApic(IoApic {
            id: 8,
            version: 0x11,
            flags: 1,
            address: 0xFEC01000,
        }),
        Base::IoInt(interrupt),
        Base::Processor(Processor {
            apic: 0x1E,
            version: 0x14,
            flags: 0x82,
            signature: 0xDEADBEEF,
            features: 0x12345678,
            reserved: [1, 2, 3, 4, 0xA5, 6, 7, 0xF8],
        }),
    ]
}

fn base_entries(rt: &impl Abort, alloc: Global) -> Vec<Base> {
    Vec::from_slice(alloc, &each_base()).expect(rt, "out of memory")
}

// an entry of another type with this rest
fn opaque(alloc: Global, kind: u8, rest: &[u8]) -> Result<Ext, AllocError> {
    let rest = Vec::from_slice(alloc, rest)?;
    Ok(Ext::Opaque(Opaque {
        kind,
        rest: Sequence::new(rest),
    }))
}

fn push_opaque(out: &mut Vec<Ext>, alloc: Global, kind: u8, rest: &[u8]) -> Result<(), AllocError> {
    out.push(opaque(alloc, kind, rest)?)?;
    Ok(())
}

// an entry of each type that the standard defines
fn push_defined(out: &mut Vec<Ext>) -> Result<(), AllocError> {
    out.push(Ext::Space(Space {
        bus: 1,
        kind: 2,
        base: 0xFEDCBA9876543210,
        length: 0x1000,
    }))?;
    out.push(Ext::Hierarchy(Hierarchy {
        bus: 1,
        info: 1,
        parent: 0,
        reserved: [0, 0xC0, 9],
    }))?;
    out.push(Ext::Modifier(Modifier {
        bus: 0,
        flags: 1,
        ranges: 0x80000001,
    }))?;
    Ok(())
}

fn push_ext_entries(out: &mut Vec<Ext>, alloc: Global) -> Result<(), AllocError> {
    push_opaque(out, alloc, 0x83, &[])?;
    push_defined(out)?;
    push_opaque(out, alloc, 0xFF, &[0x0F, 0xA0, 0x22])
}

fn ext_entries(rt: &impl Abort, alloc: Global) -> Vec<Ext> {
    let mut out = Vec::new(alloc);
    let pushed = push_ext_entries(&mut out, alloc);
    pushed.expect(rt, "out of memory");
    out
}

// tables of these entries
fn described(base: Vec<Base>, ext: Vec<Ext>) -> Tables {
    let pointer = Pointer {
        address: 0x7FE0010,
        revision: 4,
        features: [0, 0x80, 0xFF, 0, 1],
    };
    let table = Table {
        revision: 4,
        oem: *b"OEM \x1F\x20\x7E\x80",
        product: *b"a'b\"c\\d\nef g",
        oem_table: 0xABCDEF,
        oem_size: 0x3A0,
        local_address: 0xFEE00000,
        reserved: 0x5A,
        old: [0; 4],
        base: Sequence::new(base),
        ext: Sequence::new(ext),
    };
    Tables {
        at: 0xF0000,
        pointer,
        body: Body::Listed(table),
    }
}

// the listing of those tables
fn every_line() -> &'static [u8] {
    b"mptable 1
pointer at 000F0000 table 07FE0010 revision 04 features 0080FF0001
header revision 04 oem \"OEM \\x1F ~\\x80\" product \"a'b\\x22c\\x5Cd\\x0Aef g\" oemtable 00ABCDEF oemsize 03A0 local FEE00000 reserved 5A
localint kind 03 flags 1F0D bus 02 irq 4C dest FF pin 17
bus id 00 name \"PCI   \"
bus id AB name \"\\x22\\x5C\\x7F\\x00 ~\"
ioapic id 08 version 11 flags 01 address FEC01000
ioint kind 03 flags 1F0D bus 02 irq 4C dest FF pin 17
processor id 1E version 14 flags 82 signature DEADBEEF features 12345678 reserved 01020304A50607F8
opaque kind 83 rest -
space bus 01 kind 02 base FEDCBA9876543210 length 0000000000001000
hierarchy bus 01 info 01 parent 00 reserved 00C009
modifier bus 00 flags 01 ranges 80000001
opaque kind FF rest 0FA022
end
"
}

#[test]
fn every_entry(rt: HostRuntime) {
    let base = base_entries(&rt, rt.alloc());
    let ext = ext_entries(&rt, rt.alloc());
    let described = described(base, ext);
    same_listing(&rt, rt.alloc(), &described, every_line());
}

fn push_lines(out: &mut Vec<u8>) -> Result<(), AllocError> {
    let at = [
        Part::Text(b"fault "),
        Part::Decimal(16),
        Part::Text(b" at "),
        Part::Hex(8, 0xF0050),
    ];
    push_line(out, &at)?;
    let bounds = [Part::Decimal(0), Part::Text(b" "), Part::Decimal(u64::MAX)];
    push_line(out, &bounds)
}

#[test]
fn line_of_parts(rt: HostRuntime) {
    let mut out = Vec::new(rt.alloc());
    push_lines(&mut out).expect(&rt, "out of memory");
    let want = b"fault 16 at 000F0050\n0 18446744073709551615\n";
    same(&rt, "the lines", out.as_slice(), want.as_slice());
}
