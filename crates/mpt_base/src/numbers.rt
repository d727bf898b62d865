//! Little-endian numbers and checksums, as all tables of MultiProcessor Specification 1.4 have them
//! (chapter 4: multi-byte fields are little-endian, a checksum makes its bytes sum to zero).

ghost use Rattle.std.specs.Prelude.{◌≡◌, ◌+◌, ◌%◌, ◌≤◌, length, sum};
ghost use Rattle.mpt_base.specs.Bytes.{number_at, part};

use byteorder::{ByteOrder, LittleEndian};

/// The little-endian number in the two bytes from `at` on.
pub fn u16_at(bytes: &[u8], at: usize) -> u16
    requires { at + 2 ≤ length bytes.now }
    ensures { result ≡ number_at 2 bytes.now at }
{
    LittleEndian::read_u16(&bytes[at..])
}

/// The little-endian number in the four bytes from `at` on.
pub fn u32_at(bytes: &[u8], at: usize) -> u32
    requires { at + 4 ≤ length bytes.now }
    ensures { result ≡ number_at 4 bytes.now at }
{
    LittleEndian::read_u32(&bytes[at..])
}

/// The little-endian number in the eight bytes from `at` on.
pub fn u64_at(bytes: &[u8], at: usize) -> u64
    requires { at + 8 ≤ length bytes.now }
    ensures { result ≡ number_at 8 bytes.now at }
{
    LittleEndian::read_u64(&bytes[at..])
}

/// The `N` bytes from `at` on.
pub fn bytes_at<const N: usize>(bytes: &[u8], at: usize) -> [u8; N]
    requires { at + N ≤ length bytes.now }
    ensures { result ≡ part bytes.now at N }
{
    match part_at(bytes, at, N).first_chunk::<N>() {
        Some(chunk) => *chunk,
        None => unreachable!(),
    }
}

/// The `len` bytes from `at` on, as a slice.
pub fn part_at(bytes: &[u8], at: usize, len: usize) -> &[u8]
    requires { at + len ≤ length bytes.now }
    ensures { result.now ≡ part bytes.now at len }
{
    let (_, rest) = bytes.split_at(at);
    let (front, _) = rest.split_at(len);
    front
}

/// The sum of the bytes modulo 256. Bytes with a right checksum have the sum 0.
pub fn sum8(bytes: &[u8]) -> u8
    ensures { result ≡ sum bytes.now % 256 }
{
    let mut total = 0u8;
    for byte in bytes {
        total = total.wrapping_add(*byte);
    }
    total
}
