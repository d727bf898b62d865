//! What the rows of revisions stand on: images and listings of their parts.

use crate::harness::same;
use crate::revision_images::PROCESSOR_LINE;
use mpt_base::{Shelf, put_bytes};
use mpt_listing::print;
use mpt_spec::Tables;
use mpt_table::read_from;
use std::alloc::{AllocError, Global};
use std::process::Abort;

/// Writes bytes at a place, and nothing where they pass the end.
pub(crate) fn put(image: &mut [u8], at: usize, bytes: &[u8]) {
    if at <= image.len() && bytes.len() <= image.len() - at {
        put_bytes(image, at, bytes);
    }
}

fn zeros(alloc: Global, len: usize) -> Result<Vec<u8>, AllocError> {
    vec![in alloc; 0; len]
}

/// An image of 1,360 bytes: the EBDA at 500h, the floating pointer there, the table behind it.
pub(crate) fn image_of(rt: &impl Abort, alloc: Global, pointer: &[u8], table: &[u8]) -> Vec<u8> {
    let mut image = zeros(alloc, 1360).expect(rt, "no memory");
    let bytes = image.as_mut_slice();
    put(bytes, 0x40E, &[0x50]);
    put(bytes, 0x500, pointer);
    put(bytes, 0x510, table);
    image
}

fn push_listing(text: &mut Vec<u8>, pointer: &[u8], header: &[u8]) -> Result<(), AllocError> {
    text.extend_from_slice(b"mptable 1\n")?;
    text.extend_from_slice(pointer)?;
    text.extend_from_slice(header)?;
    text.extend_from_slice(PROCESSOR_LINE)?;
    text.extend_from_slice(b"end\n")
}

/// The listing with these lines of the floating pointer and the header.
pub(crate) fn listing(rt: &impl Abort, alloc: Global, lines: (&[u8], &[u8])) -> Vec<u8> {
    let mut text = Vec::new(alloc);
    let pushed = push_listing(&mut text, lines.0, lines.1);
    pushed.expect(rt, "no memory");
    text
}

/// The tables have the listing with these lines.
pub(crate) fn lists(
    rt: &impl Abort,
    alloc: Global,
    name: &str,
    tables: &Tables,
    lines: (&[u8], &[u8]),
) {
    let text = print(alloc, tables).expect(rt, "no memory");
    let want = listing(rt, alloc, lines);
    same(rt, name, text.as_slice(), want.as_slice());
}

/// The tables by windows of a file.
pub(crate) fn tables_in_file(
    rt: &impl Abort,
    alloc: Global,
    shelf: &mut impl Shelf,
    name: &str,
) -> Tables {
    let Ok(Some(size)) = shelf.size(name) else {
        panic!(rt; "no size");
    };
    read_from(alloc, shelf, name, size).expect(rt, "refused")
}
