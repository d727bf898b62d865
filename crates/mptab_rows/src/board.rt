//! Boards of any entries: an image that ends with the table, whose lengths and checksums are right.

use crate::harness::{image_with, put};
use mptab_cases::images::{SMALL_POINTER, WORD};
use std::alloc::Global;
use std::test::Fail;

/// The place of the table.
const AT: usize = 0x510;

/// The header of the board with one processor; lengths, count and checksums are 0.
const HEADER: &[u8] = b"PCMP\x00\x00\x04\x00MPTAB   BOARD       \
\x00\x00\x00\x00\x00\x00\x00\x00\x00\x00\xE0\xFE\x00\x00\x00\x00";

/// What the listing of such a table begins with.
pub(crate) const HEAD: &str = "mptable 1
pointer at 00000500 table 00000510 revision 04 features 0000000000
header revision 04 oem \"MPTAB   \" product \"BOARD       \" oemtable 00000000 oemsize 0000 local FEE00000 reserved 00
";

/// The checksum of these bytes: their sum and it are 0.
fn checksum(bytes: &[u8]) -> u8 {
    let mut sum = 0u8;
    for byte in bytes {
        sum = sum.wrapping_add(*byte);
    }
    sum.wrapping_neg()
}

/// The two bytes of a length, the low one first.
fn length_bytes(length: usize) -> [u8; 2] {
    [(length % 256) as u8, (length / 256 % 256) as u8]
}

/// Writes lengths, count and checksums into a header with its base entries behind it.
fn put_sums(table: &mut [u8], count: u8, ext: &[u8]) {
    let base_length = table.len();
    put(table, 4, &length_bytes(base_length));
    put(table, 34, &[count]);
    put(table, 40, &length_bytes(ext.len()));
    put(table, 42, &[checksum(ext)]);
    let sum = checksum(table);
    put(table, 7, &[sum]);
}

/// The bytes of a table with these entries, whose lengths and checksums are right.
fn table_with(alloc: Global, base: &[u8], count: u8, ext: &[u8]) -> Result<Vec<u8>, Fail> {
    let mut table = Vec::from_slice(alloc, HEADER)?;
    table.extend_from_slice(base)?;
    put_sums(table.as_mut_slice(), count, ext);
    table.extend_from_slice(ext)?;
    Ok(table)
}

/// An image that ends with a table of these entries.
pub(crate) fn board_with(
    alloc: Global,
    base: &[u8],
    count: u8,
    ext: &[u8],
) -> Result<Vec<u8>, Fail> {
    let table = table_with(alloc, base, count, ext)?;
    let mut image = image_with(alloc, AT, &[WORD, SMALL_POINTER])?;
    image.extend_from_slice(table.as_slice())?;
    Ok(image)
}
