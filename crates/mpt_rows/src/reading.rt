//! A small image spelled out by hand from MultiProcessor Specification 1.4, figures 4-2 to 4-4: what it
//! describes, and the faults of a few bytes.

use crate::harness::{put, same};
use crate::pointer::zeros;
use crate::tables::{ONE_PROCESSOR, lone};
use mpt_base::{Fault, Reason};
use mpt_spec::{Base, Table, Tables};
use mpt_table::{Body, Pointer, Refusal, read};
use std::alloc::Global;
use std::process::Abort;

/// A floating pointer that names the table at 510h.
const POINTER: [u8; 16] = [
    0x5F, 0x4D, 0x50, 0x5F, 0x10, 0x05, 0x00, 0x00, 0x01, 0x04, 0x8B, 0x00, 0x00, 0x00, 0x00, 0x00,
];

// an image of 1,360 bytes: the EBDA at 500h, the floating pointer there, a table of these bytes behind it
fn small_image(rt: &impl Abort, alloc: Global, table: &[u8]) -> Vec<u8> {
    let mut image = zeros(rt, alloc, 1360);
    let bytes = image.as_mut_slice();
    put(bytes, 0x40E, &[0x50]);
    put(bytes, 0x500, &POINTER);
    put(bytes, 0x510, table);
    image
}

// what the table of one processor says
fn same_table(rt: &impl Abort, table: &Table) {
    same(rt, "the revision", table.revision, 4);
    same(rt, "the OEM id", table.oem, *b"MPTAB   ");
    same(rt, "the product id", table.product, *b"BOARD       ");
    same(rt, "the OEM table", table.oem_table, 0);
    same(rt, "its size", table.oem_size, 0);
    same(rt, "the local APICs", table.local_address, 0xFEE0_0000);
    same(rt, "the reserved byte", table.reserved, 0);
    same_entries(rt, table);
}

// its one entry
fn same_entries(rt: &impl Abort, table: &Table) {
    let base = [Base::Processor(lone(3, 0))];
    same(
        rt,
        "the base entries",
        table.base.as_slice(),
        base.as_slice(),
    );
    let none = table.ext.as_slice().is_empty();
    same(rt, "no extended entry", none, true);
}

// what an image with that table says
fn same_tables(rt: &impl Abort, tables: &Tables) {
    same(rt, "the place of the pointer", tables.at, 0x500);
    let pointer = Pointer {
        address: 0x510,
        revision: 4,
        features: [0; 5],
    };
    same(rt, "the pointer", tables.pointer, pointer);
    let Body::Listed(table) = &tables.body else {
        panic!(rt; "a default configuration");
    };
    same_table(rt, table);
}

#[test]
fn describes_a_table_of_one_processor(rt: HostRuntime) {
    let image = small_image(&rt, rt.alloc(), &ONE_PROCESSOR);
    let tables = read(rt.alloc(), image.as_slice()).expect(&rt, "refused");
    same_tables(&rt, &tables);
}

// what is wrong with an image
fn same_refusal(rt: &impl Abort, alloc: Global, image: &[u8], want: Refusal) {
    let refusal = read(alloc, image).err();
    same(rt, "the refusal", refusal, Some(want));
}

// the first fault of the table of one processor with other bytes at these offsets
fn same_fault(rt: &impl Abort, alloc: Global, changes: &[(usize, u8)], at: u64, why: Reason) {
    let mut image = small_image(rt, alloc, &ONE_PROCESSOR);
    change(image.as_mut_slice(), changes);
    let want = Refusal::Fault(Fault { at, why });
    same_refusal(rt, alloc, image.as_slice(), want);
}

// puts bytes at offsets of the table
fn change(image: &mut [u8], changes: &[(usize, u8)]) {
    for (offset, byte) in changes {
        put(image, offset.saturating_add(0x510), &[*byte]);
    }
}

// Each row changes some bytes of the table. The reason is that of the first fault, by its offset.
#[test]
fn tells_the_first_fault(rt: HostRuntime) {
    let alloc = rt.alloc();
    same_fault(&rt, alloc, &[(0, 0x00)], 0x510, Reason::BadSignature);
    same_fault(&rt, alloc, &[(4, 43), (6, 2)], 0x514, Reason::ShortLength);
    same_fault(&rt, alloc, &[(6, 2), (7, 0x00)], 0x516, Reason::BadRevision);
    same_fault(&rt, alloc, &[(7, 0x9A)], 0x517, Reason::BadSum);
    same_fault(&rt, alloc, &[(34, 2), (7, 0x98)], 0x532, Reason::BadCount);
    same_fault(
        &rt,
        alloc,
        &[(44, 5), (7, 0x94)],
        0x53C,
        Reason::UnknownEntry,
    );
    same_refusal(&rt, alloc, &[0; 64], Refusal::NoPointer);
}
