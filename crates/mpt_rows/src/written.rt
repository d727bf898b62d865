//! Blocks and images that are written, and read again.

use crate::harness::{put, same};
use crate::tables::{ONE_PROCESSOR, default, listed, one_processor, usual};
use mpt_base::sum8;
use mpt_spec::{Ext, Opaque, Sequence, Tables};
use mpt_table::read;
use mpt_write::{fits, well_formed, write_block, write_image};
use std::alloc::{AllocError, Global};
use std::process::Abort;

// the block of well formed tables, and none of others
fn block_of(rt: &impl Abort, alloc: Global, tables: &Tables) -> Vec<u8> {
    if !well_formed(tables) {
        panic!(rt; "not well formed");
    }
    write_block(alloc, tables).expect(rt, "no block")
}

// the image of tables that fit, and none of others
fn image_of(rt: &impl Abort, alloc: Global, tables: &Tables) -> Vec<u8> {
    if !fits(tables) {
        panic!(rt; "no place in an image");
    }
    write_image(alloc, tables).expect(rt, "no image")
}

// how many of the bytes are not 0
fn used(bytes: &[u8]) -> usize {
    let mut count = 0usize;
    for byte in bytes {
        if *byte != 0 {
            count = count.saturating_add(1);
        }
    }
    count
}

// the bytes of a block or an image from one place to another
fn part<'a>(rt: &impl Abort, bytes: &'a [u8], from: usize, to: usize) -> &'a [u8] {
    let Some(part) = bytes.get(from..to) else {
        panic!(rt; "there is no such part");
    };
    part
}

// how many bytes of a part of an image are not 0
fn same_used(rt: &impl Abort, image: &[u8], from: usize, to: usize, want: usize) {
    let found = used(part(rt, image, from, to));
    same(rt, "the bytes that are not 0", found, want);
}

// the bytes of a part of a block or an image
fn same_part(rt: &impl Abort, name: &str, bytes: &[u8], from: usize, to: usize, want: &[u8]) {
    same(rt, name, part(rt, bytes, from, to), want);
}

// the block that is written of tables
fn same_block(rt: &impl Abort, alloc: Global, tables: &Tables, want: &[u8]) {
    let block = block_of(rt, alloc, tables);
    same(rt, "the block", block.as_slice(), want);
}

// a table of one processor, with one extended entry of another type that has nothing behind its length
// byte
fn opaque_tables(rt: &impl Abort, alloc: Global) -> Tables {
    let base = one_processor(rt, alloc);
    let ext = opaque_entry(alloc).expect(rt, "out of memory");
    listed(0xF_0000, 0x000F_0010, base, ext)
}

fn opaque_entry(alloc: Global) -> Result<Vec<Ext>, AllocError> {
    let mut ext = Vec::new(alloc);
    ext.push(Ext::Opaque(Opaque {
        kind: 0xC8,
        rest: Sequence::new(Vec::new(alloc)),
    }))?;
    Ok(ext)
}

// their bytes: the extended length is 2, the extended checksum 36h and the checksum 61h
fn opaque_block() -> [u8; 66] {
    let mut block = [0; 66];
    put(&mut block, 0, &ONE_PROCESSOR);
    put(&mut block, 7, &[0x61]);
    put(&mut block, 40, &[2]);
    put(&mut block, 42, &[0x36]);
    put(&mut block, 64, b"\xC8\x02");
    block
}

// a usual board, with its floating pointer at F0000h and the table behind it
fn usual_tables(rt: &impl Abort, alloc: Global) -> Tables {
    let base = usual(rt, alloc);
    listed(0xF_0000, 0x000F_0010, base, Vec::new(alloc))
}

#[test]
fn writes_a_table_of_one_processor(rt: HostRuntime) {
    let base = one_processor(&rt, rt.alloc());
    let tables = listed(0xF_0000, 0x000F_0010, base, Vec::new(rt.alloc()));
    same_block(&rt, rt.alloc(), &tables, &ONE_PROCESSOR);
}

#[test]
fn writes_an_opaque_entry_behind_the_base_table(rt: HostRuntime) {
    let tables = opaque_tables(&rt, rt.alloc());
    same_block(&rt, rt.alloc(), &tables, &opaque_block());
}

#[test]
fn writes_a_usual_table_in_260_bytes(rt: HostRuntime) {
    let tables = usual_tables(&rt, rt.alloc());
    let block = block_of(&rt, rt.alloc(), &tables);
    same_usual_block(&rt, block.as_slice());
}

// the size, the sum, the head and the last entry of the block of a usual board
fn same_usual_block(rt: &impl Abort, block: &[u8]) {
    same(rt, "the size", block.len(), 260);
    same(rt, "the sum", sum8(block), 0);
    let head = b"PCMP\x04\x01\x04\xCE";
    same_part(rt, "the head", block, 0, 8, head);
    let last = b"\x04\x01\x00\x00\x01\x00\xFF\x01";
    same_part(rt, "the last entry", block, 252, 260, last);
}

#[test]
fn writes_nothing_for_a_default_configuration(rt: HostRuntime) {
    let tables = default(5, 0x9_FC00, 0);
    same_block(&rt, rt.alloc(), &tables, b"");
}

// The image of a usual board: the segment F000h, the floating pointer at F0000h and the table behind it.
#[test]
fn writes_an_image_that_is_read_back(rt: HostRuntime) {
    let tables = usual_tables(&rt, rt.alloc());
    let image = image_of(&rt, rt.alloc(), &tables);
    let block = block_of(&rt, rt.alloc(), &tables);
    same_usual_image(&rt, image.as_slice(), block.as_slice());
    is_read_back(&rt, rt.alloc(), image.as_slice(), &tables, block.as_slice());
}

// the tables that an image has, which have this block
fn is_read_back(rt: &impl Abort, alloc: Global, image: &[u8], tables: &Tables, block: &[u8]) {
    let again = read(alloc, image).expect(rt, "no tables in the image");
    same_tables(rt, &again, tables);
    same_block(rt, alloc, &again, block);
}

// the place of tables and their floating pointer
fn same_tables(rt: &impl Abort, got: &Tables, want: &Tables) {
    same(rt, "the place", got.at, want.at);
    same(rt, "the pointer", got.pointer, want.pointer);
}

// what an image of a usual board with this block has, and that it has nothing else
fn same_usual_image(rt: &impl Abort, image: &[u8], block: &[u8]) {
    same(rt, "the size", image.len(), 0x10_0000);
    let pointer = b"_MP_\x10\x00\x0F\x00\x01\x04\x81\0\0\0\0\0";
    same_part(rt, "the pointer", image, 0xF_0000, 0xF_0010, pointer);
    same_part(rt, "the table", image, 0xF_0010, 0xF_0114, block);
    same_part(rt, "the segment", image, 0x40E, 0x410, b"\x00\xF0");
    same_used(rt, image, 0, 0xF_0000, 1);
    same_used(rt, image, 0xF_0114, 0x10_0000, 0);
}

// Only the EBDA segment and the floating pointer: the address of a default configuration names nothing.
#[test]
fn writes_an_image_of_a_default_configuration(rt: HostRuntime) {
    let tables = default(5, 0x9_FC00, 0xFFFF_FFFF);
    let image = image_of(&rt, rt.alloc(), &tables);
    same_default_image(&rt, image.as_slice());
}

// what an image of a default configuration has, and that it has nothing else
fn same_default_image(rt: &impl Abort, image: &[u8]) {
    same(rt, "the size", image.len(), 0x10_0000);
    same_part(rt, "the segment", image, 0x40E, 0x410, b"\xC0\x9F");
    let pointer = b"_MP_\xFF\xFF\xFF\xFF\x01\x04\x9F\x05\0\0\0\0";
    same_part(rt, "the pointer", image, 0x9_FC00, 0x9_FC10, pointer);
    same(rt, "nothing else", used(image), 2 + 12);
}
