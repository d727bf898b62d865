//! The image of 1 MiB that is written for tables. It is this project's own: all zero but the word at
//! 40Eh, which names the floating pointer's place as the EBDA, the floating pointer, and the block.

ghost use Rattle.std.specs.Prelude.{◌≡◌, ◌+◌, ◌≤◌, ◌/◌, length, replicate, IfOk};
ghost use Rattle.std.specs.Int.{to_le_bytes, w16};
ghost use Rattle.mpt_base.specs.Writing.{overlay};
ghost use Rattle.mpt_spec.specs.Canonical.{FitsInImage, block_size};
ghost use Rattle.mpt_spec.specs.Image.{pointer_bytes, body_bytes, image_of};
ghost use Rattle.mpt_spec.specs.Table.{Describes};

use crate::block::write_block;
use crate::values::tables_value;
use mpt_base::{NoMemory, put_bytes, put_u16};
use mpt_pointer::write_pointer;
use mpt_spec::{Body, Tables};
use std::alloc::Global;

/// The bytes of the image.
const IMAGE_SIZE: usize = 0x10_0000;

/// The offset of the segment of the EBDA.
const EBDA_AT: usize = 0x40E;

fn zeros(alloc: Global, size: usize) -> Result<Vec<u8>, NoMemory>
    ensures { IfOk result (λ bytes. bytes.items ≡ replicate size 0) }
{
    match Vec::from_elem(alloc, 0, size) {
        Ok(bytes) => Ok(bytes),
        Err(_) => Err(NoMemory),
    }
}

// A default configuration has no block, and its address may lie anywhere.
fn put_block(image: &mut [u8], tables: &Tables, block: &[u8])
    requires fits { FitsInImage tables.now }
    requires block { block.now ≡ body_bytes tables.now.body }
    requires block_size { length block.now ≡ block_size tables.now.body }
    requires size { 0x100000 ≤ length image.old }
    ensures { image.new ≡ overlay image.old tables.now.pointer.address (body_bytes tables.now.body) }
{
    match tables.body {
        Body::Default(_) => {}
        Body::Listed(_) => put_bytes(image, tables.pointer.address as usize, block),
    }
}

// puts the segment of the EBDA, the floating pointer and the block where they belong
fn put_all(image: &mut [u8], tables: &Tables, block: &[u8])
    requires fits { FitsInImage tables.now }
    requires block { block.now ≡ body_bytes tables.now.body }
    requires block_size { length block.now ≡ block_size tables.now.body }
    requires size { 0x100000 ≤ length image.old }
    ensures { image.new ≡ overlay (overlay (overlay image.old 0x40E (to_le_bytes w16 (tables.now.at / 16))) tables.now.at (pointer_bytes tables.now.pointer)) tables.now.pointer.address (body_bytes tables.now.body) }
{
    put_u16(image, EBDA_AT, (tables.at / 16) as u16);
    put_bytes(image, tables.at as usize, &write_pointer(&tables.pointer));
    put_block(image, tables, block);
}

// an image of this size, all zero but for these
fn image_with(
    alloc: Global,
    size: usize,
    tables: &Tables,
    block: &[u8],
) -> Result<Vec<u8>, NoMemory>
    requires fits { FitsInImage tables.now }
    requires block { block.now ≡ body_bytes tables.now.body }
    requires block_size { length block.now ≡ block_size tables.now.body }
    requires size { 0x100000 ≤ size }
    ensures { IfOk result (λ bytes. bytes.items ≡ overlay (overlay (overlay (replicate size 0) 0x40E (to_le_bytes w16 (tables.now.at / 16))) tables.now.at (pointer_bytes tables.now.pointer)) tables.now.pointer.address (body_bytes tables.now.body)) }
{
    let Ok(mut image) = zeros(alloc, size) else {
        return Err(NoMemory);
    };
    put_all(image.as_mut_slice(), tables, block);
    Ok(image)
}

/// The image of 1 MiB that is written for tables that fit. It describes them: read again it gives the
/// same tables. It fails only where memory runs out.
pub fn write_image(alloc: Global, tables: &Tables) -> Result<Vec<u8>, NoMemory>
    requires fits { FitsInImage tables.now }
    ensures bytes { IfOk result (λ image. image.items ≡ image_of tables.now) }
    ensures size { IfOk result (λ image. length image.items ≡ 0x100000) }
    ensures describes { IfOk result (λ image. Describes image.items tables.now) }
{
    tables_value(tables);
    let Ok(block) = write_block(alloc, tables) else {
        return Err(NoMemory);
    };
    match image_with(alloc, IMAGE_SIZE, tables, block.as_slice()) {
        Ok(image) => Ok(image),
        Err(_) => Err(NoMemory),
    }
}
