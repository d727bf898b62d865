//! Numbers, floating pointers and entries by their bytes, spelled out by hand from MultiProcessor
//! Specification 1.4, figures 4-2 and 4-4 to 4-11.

use crate::harness::same;
use crate::tables::lone;
use mpt_base::{NoMemory, append, checksum8, put_bytes, put_u16, put_u32, put_u64, seal8};
use mpt_entries::{write_base, write_ext};
use mpt_pointer::{Pointer, read_pointer, write_pointer};
use mpt_spec::{Base, Bus, Ext, Hierarchy, IntEntry, IoApic, Modifier, Opaque, Sequence, Space};
use std::alloc::Global;
use std::process::Abort;

#[test]
fn puts_numbers_low_byte_first(rt: HostRuntime) {
    let mut bytes = [0xAA; 18];
    put_u16(&mut bytes, 1, 0x1234);
    put_u32(&mut bytes, 3, 0x89AB_CDEF);
    put_u64(&mut bytes, 7, 0x0123_4567_89AB_CDEF);
    put_bytes(&mut bytes, 16, b"!");
    same(
        &rt,
        "the numbers",
        bytes,
        *b"\xAA\x34\x12\xEF\xCD\xAB\x89\xEF\xCD\xAB\x89\x67\x45\x23\x01\xAA!\xAA",
    );
}

#[test]
fn seals_a_sum(rt: HostRuntime) {
    let mut bytes = *b"_MP_\x10\x00\x0F\x00\x01\x04\xFF\0\0\0\0\0";
    seal8(&mut bytes, 10);
    let want = *b"_MP_\x10\x00\x0F\x00\x01\x04\x81\0\0\0\0\0";
    same(&rt, "the sealed pointer", bytes, want);
    same(&rt, "a checksum", checksum8(b"\xC8\x02"), 0x36);
    same(&rt, "a sum that overflows", checksum8(b"\x80\x80"), 0);
}

#[test]
fn writes_floating_pointers(rt: HostRuntime) {
    for (address, feature, bytes) in [
        (
            0x000F_0010,
            0,
            b"_MP_\x10\x00\x0F\x00\x01\x04\x81\0\0\0\0\0",
        ),
        (
            0x0000_0510,
            0,
            b"_MP_\x10\x05\x00\x00\x01\x04\x8B\0\0\0\0\0",
        ),
        (
            0x000F_0200,
            0,
            b"_MP_\x00\x02\x0F\x00\x01\x04\x8F\0\0\0\0\0",
        ),
        (
            0x0000_0000,
            5,
            b"_MP_\x00\x00\x00\x00\x01\x04\x9B\x05\0\0\0\0",
        ),
    ] {
        let pointer = Pointer {
            address,
            revision: 4,
            features: [feature, 0, 0, 0, 0],
        };
        same(
            &rt,
            "the bytes of a pointer",
            write_pointer(&pointer),
            *bytes,
        );
        same(
            &rt,
            "the pointer of the bytes",
            read_pointer(bytes),
            Some(pointer),
        );
    }
}

// pieces behind one another
fn joined(alloc: Global, pieces: &[&[u8]]) -> Result<Vec<u8>, NoMemory> {
    let mut out = Vec::new(alloc);
    for piece in pieces {
        append(&mut out, piece)?;
    }
    Ok(out)
}

// bytes that are these pieces
fn same_pieces(rt: &impl Abort, alloc: Global, bytes: &[u8], pieces: &[&[u8]]) {
    let want = joined(alloc, pieces).expect(rt, "no memory for the pieces");
    same(rt, "the bytes", bytes, want.as_slice());
}

// a question mark, and the bytes of base entries behind it
fn push_base(out: &mut Vec<u8>, entries: &[Base]) -> Result<(), NoMemory> {
    append(out, b"?")?;
    for entry in entries {
        write_base(out, entry)?;
    }
    Ok(())
}

// a base entry of each kind
fn base_entries() -> [Base; 5] {
    let interrupt = IntEntry {
        kind: 1,
        flags: 0x0F05,
        bus: 2,
        irq: 0x20,
        dest: 0xFF,
        pin: 16,
    };
    [
        Base::Processor(lone(3, 7)),
        Base::Bus(Bus {
            id: 7,
            name: *b"ISA   ",
        }),
        Base::IoApic(IoApic {
            id: 2,
            version: 0x11,
            flags: 1,
            address: 0xFEC0_1000,
        }),
        Base::IoInt(interrupt),
        Base::LocalInt(interrupt),
    ]
}

// their bytes behind a question mark
fn base_pieces() -> [&'static [u8]; 5] {
    [
        b"?\x00\x00\x10\x03\x20\x05\x00\x00\xBF\x01\x00\x00\x07\x07\x07\x07\x07\x07\x07\x07".as_slice(),
        b"\x01\x07ISA   ".as_slice(),
        b"\x02\x02\x11\x01\x00\x10\xC0\xFE".as_slice(),
        b"\x03\x01\x05\x0F\x02\x20\xFF\x10".as_slice(),
        b"\x04\x01\x05\x0F\x02\x20\xFF\x10".as_slice(),
    ]
}

#[test]
fn writes_base_entries_behind_one_another(rt: HostRuntime) {
    let mut out = Vec::new(rt.alloc());
    push_base(&mut out, &base_entries()).expect(&rt, "no entries");
    same_pieces(&rt, rt.alloc(), out.as_slice(), &base_pieces());
}

fn push_space(out: &mut Vec<u8>) -> Result<(), NoMemory> {
    let space = Ext::Space(Space {
        bus: 0,
        kind: 1,
        base: 0xFEC0_0000,
        length: 0x0001_0000_1000,
    });
    write_ext(out, &space)
}

fn push_hierarchy(out: &mut Vec<u8>) -> Result<(), NoMemory> {
    let hierarchy = Ext::Hierarchy(Hierarchy {
        bus: 7,
        info: 1,
        parent: 3,
        reserved: [9; 3],
    });
    write_ext(out, &hierarchy)
}

fn push_modifier(out: &mut Vec<u8>) -> Result<(), NoMemory> {
    let modifier = Ext::Modifier(Modifier {
        bus: 4,
        flags: 1,
        ranges: 0x0102_0304,
    });
    write_ext(out, &modifier)
}

fn push_opaque(out: &mut Vec<u8>, alloc: Global) -> Result<(), NoMemory> {
    let opaque = Ext::Opaque(Opaque {
        kind: 0xC8,
        rest: Sequence::new(Vec::new(alloc)),
    });
    write_ext(out, &opaque)
}

// the bytes of an extended entry of each kind
fn push_ext(out: &mut Vec<u8>, alloc: Global) -> Result<(), NoMemory> {
    push_space(out)?;
    push_hierarchy(out)?;
    push_modifier(out)?;
    push_opaque(out, alloc)
}

// their bytes
fn ext_pieces() -> [&'static [u8]; 4] {
    [
        b"\x80\x14\x00\x01\x00\x00\xC0\xFE\x00\x00\x00\x00\x00\x10\x00\x00\x01\x00\x00\x00".as_slice(),
        b"\x81\x08\x07\x01\x03\x09\x09\x09".as_slice(),
        b"\x82\x08\x04\x01\x04\x03\x02\x01".as_slice(),
        b"\xC8\x02".as_slice(),
    ]
}

#[test]
fn writes_extended_entries_behind_one_another(rt: HostRuntime) {
    let mut out = Vec::new(rt.alloc());
    push_ext(&mut out, rt.alloc()).expect(&rt, "no entries");
    same_pieces(&rt, rt.alloc(), out.as_slice(), &ext_pieces());
}
