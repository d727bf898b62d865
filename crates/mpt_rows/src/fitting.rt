//! What is well formed, and what has a place in an image of 1 MiB, at each bound on both sides.

use crate::harness::same;
use crate::tables::{default, listed, one_processor, usual};
use mpt_spec::{Base, Body, Bus, Ext, Opaque, Pointer, Sequence, Tables};
use mpt_write::{block_bytes, fits, well_formed};
use std::alloc::{AllocError, Global};
use std::process::Abort;

// a table of one processor, of 64 bytes, at an address
fn placed(rt: &impl Abort, alloc: Global, at: u64, address: u32) -> Tables {
    let base = one_processor(rt, alloc);
    listed(at, address, base, Vec::new(alloc))
}

// the bytes of the block of well formed tables, and none of others
fn bytes_of(tables: &Tables) -> Option<u64> {
    if well_formed(tables) {
        Some(block_bytes(tables))
    } else {
        None
    }
}

// whether such a table has a place in an image
fn is_placed(rt: &impl Abort, alloc: Global, at: u64, address: u32) -> bool {
    let tables = placed(rt, alloc, at, address);
    fits(&tables)
}

#[test]
fn a_block_has_its_place_beside_the_pointer(rt: HostRuntime) {
    for (at, address, want) in [
        (0x600, 0x500, true),
        (0x600, 0x4FF, false),
        (0x500, 0xF_FFC0, true),
        (0x500, 0xF_FFC1, false),
        (0x600, 0x5C0, true),
        (0x600, 0x5C1, false),
        (0x600, 0x600, false),
        (0x600, 0x60F, false),
        (0x600, 0x610, true),
        (0x500, 0x600, true),
        (0x4F0, 0x600, false),
        (0xF_FFF0, 0x600, true),
        (0x10_0000, 0x600, false),
        (0x508, 0x600, false),
        (0x600, 0, false),
        (0x600, 0xFFFF_FFFF, false),
        (0xFFFF_FFFF_FFFF_FFF0, 0x600, false),
    ] {
        same(
            &rt,
            "the pointer's place and the block's",
            (at, address, is_placed(&rt, rt.alloc(), at, address)),
            (at, address, want),
        );
    }
}

// whether a usual board with its table at F0010h fits, and its block, which has 260 bytes
fn same_usual(rt: &impl Abort, alloc: Global, at: u64, want: bool) {
    let base = usual(rt, alloc);
    let tables = listed(at, 0x000F_0010, base, Vec::new(alloc));
    same(rt, "the pointer's place", (at, fits(&tables)), (at, want));
    same(rt, "the block", bytes_of(&tables), Some(260));
}

// A usual board whose floating pointer stands in its table.
#[test]
fn a_usual_block_does_not_meet_the_pointer(rt: HostRuntime) {
    for (at, want) in [
        (0xF_0000, true),
        (0xF_0020, false),
        (0xF_0110, false),
        (0xF_0120, true),
    ] {
        same_usual(&rt, rt.alloc(), at, want);
    }
}

// whether a default configuration has a place in an image
fn is_default_placed(number: u8, at: u64, address: u32) -> bool {
    let tables = default(number, at, address);
    fits(&tables)
}

// the bytes of the block of a default configuration
fn bytes_of_default(number: u8, at: u64, address: u32) -> Option<u64> {
    let tables = default(number, at, address);
    bytes_of(&tables)
}

#[test]
fn defaults_are_1_to_7_at_any_address(rt: HostRuntime) {
    for (number, at, address, want) in [
        (1, 0x500, 0, true),
        (7, 0xF_FFF0, 0xFFFF_FFFF, true),
        (0, 0x500, 0, false),
        (8, 0x500, 0, false),
        (5, 0x4F0, 0, false),
        (5, 0x510, 0x510, true),
    ] {
        same(
            &rt,
            "a default and the pointer's place",
            (number, at, is_default_placed(number, at, address)),
            (number, at, want),
        );
    }
    same(&rt, "no block", bytes_of_default(5, 0x500, 0), Some(0));
}

// a floating pointer of this revision that names this default configuration, or none
fn pointer(revision: u8, number: u8) -> Pointer {
    Pointer {
        address: 0x500,
        revision,
        features: [number, 0, 0, 0, 0],
    }
}

// whether a body is well formed under a floating pointer at 600h
fn same_form(rt: &impl Abort, name: &str, pointer: Pointer, body: Body, want: bool) {
    let tables = Tables {
        at: 0x600,
        pointer,
        body,
    };
    same(rt, name, well_formed(&tables), want);
}

// whether a listed table is well formed under it
fn same_listed(rt: &impl Abort, alloc: Global, name: &str, pointer: Pointer, want: bool) {
    let tables = placed(rt, alloc, 0x600, 0x500);
    same_form(rt, name, pointer, tables.body, want);
}

// A revision of 2 and of 1, a table under the number of a default, and a default without its number.
#[test]
fn pointer_and_body_go_with_one_another(rt: HostRuntime) {
    let alloc = rt.alloc();
    same_listed(&rt, alloc, "a table", pointer(4, 0), true);
    same_listed(&rt, alloc, "an unknown revision", pointer(2, 0), false);
    same_listed(&rt, alloc, "an old pointer", pointer(1, 0), true);
    same_listed(&rt, alloc, "a numbered table", pointer(4, 1), false);
    let name = "a default without its number";
    same_form(&rt, name, pointer(4, 0), Body::Default(1), false);
    same_form(&rt, "a default", pointer(4, 1), Body::Default(1), true);
}

// that many bus entries, of eight bytes each
fn buses(rt: &impl Abort, alloc: Global, count: usize) -> Vec<Base> {
    let bus = Base::Bus(Bus {
        id: 0,
        name: *b"ISA   ",
    });
    Vec::from_elem(alloc, bus, count).expect(rt, "out of memory")
}

// an opaque entry of this type with a rest of that many zeros
fn opaque(alloc: Global, kind: u8, length: usize) -> Result<Ext, AllocError> {
    let rest = Vec::from_elem(alloc, 0, length)?;
    Ok(Ext::Opaque(Opaque {
        kind,
        rest: Sequence::new(rest),
    }))
}

fn push_opaque(
    out: &mut Vec<Ext>,
    alloc: Global,
    kind: u8,
    length: usize,
) -> Result<(), AllocError> {
    out.push(opaque(alloc, kind, length)?)?;
    Ok(())
}

// opaque entries of 255 bytes, and one with this rest
fn push_opaques(
    out: &mut Vec<Ext>,
    alloc: Global,
    count: usize,
    last: usize,
) -> Result<(), AllocError> {
    for _ in 0..count {
        push_opaque(out, alloc, 131, 253)?;
    }
    push_opaque(out, alloc, 255, last)
}

// whether that many bus entries fit
fn buses_fit(rt: &impl Abort, alloc: Global, count: usize) -> bool {
    let base = buses(rt, alloc, count);
    let tables = listed(0x500, 0x510, base, Vec::new(alloc));
    fits(&tables)
}

// 44 + 8,186 * 8 is 65,532, and one more entry passes 65,535.
#[test]
fn a_base_table_has_at_most_65535_bytes(rt: HostRuntime) {
    for (count, want) in [(8186, true), (8187, false)] {
        let got = buses_fit(&rt, rt.alloc(), count);
        same(&rt, "a number of entries", (count, got), (count, want));
    }
}

// whether opaque entries of 255 bytes fit, with one more that has this rest
fn opaques_fit(rt: &impl Abort, alloc: Global, count: usize, last: usize) -> bool {
    let mut ext = Vec::new(alloc);
    let pushed = push_opaques(&mut ext, alloc, count, last);
    pushed.expect(rt, "out of memory");
    let tables = listed(0x500, 0x510, Vec::new(alloc), ext);
    fits(&tables)
}

// 256 * 255 + 2 + 253 is 65,535.
#[test]
fn an_extended_part_has_at_most_65535_bytes(rt: HostRuntime) {
    for (count, last, want) in [
        (256, 253, true),
        (256, 254, false),
        (257, 0, false),
        (256, 252, true),
    ] {
        same(
            &rt,
            "a number of entries, and the bytes of one more",
            (count, last, opaques_fit(&rt, rt.alloc(), count, last)),
            (count, last, want),
        );
    }
}

// whether an opaque entry of this type with a rest of that many zeros is well formed
fn is_lawful(rt: &impl Abort, alloc: Global, kind: u8, length: usize) -> bool {
    let mut ext = Vec::new(alloc);
    let pushed = push_opaque(&mut ext, alloc, kind, length);
    pushed.expect(rt, "out of memory");
    let tables = listed(0x500, 0x510, Vec::new(alloc), ext);
    well_formed(&tables)
}

// The lowest type is 131, and the longest rest has 253 bytes.
#[test]
fn an_opaque_entry_is_lawful(rt: HostRuntime) {
    for (kind, length, want) in [
        (131, 0, true),
        (130, 0, false),
        (0, 0, false),
        (255, 253, true),
        (255, 254, false),
    ] {
        same(
            &rt,
            "a type, and the bytes of the rest",
            (kind, length, is_lawful(&rt, rt.alloc(), kind, length)),
            (kind, length, want),
        );
    }
}
