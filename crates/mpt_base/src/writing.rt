//! Bytes behind others or in their place, little-endian numbers among them, and the byte that makes a sum zero (MultiProcessor
//! Specification 1.4, chapter 4).

ghost use Rattle.std.specs.Prelude.{◌≡◌, ◌+◌, ◌≤◌, ◌<◌, ◌++◌, length, slice_set, OnOk, OnErr};
ghost use Rattle.std.specs.Int.{to_le_bytes, w16, w32, w64};
ghost use Rattle.mpt_base.specs.Bytes.{SumsToZero};
ghost use Rattle.mpt_base.specs.Writing.{overlay, checksum_of};

use crate::numbers::sum8;
use crate::outside::NoMemory;

/// Puts the piece in the place of the bytes from `at` on.
pub fn put_bytes(bytes: &mut [u8], at: usize, piece: &[u8])
    requires { at + length piece.now ≤ length bytes.old }
    ensures { bytes.new ≡ overlay bytes.old at piece.now }
{
    bytes[at..at + piece.len()].copy_from_slice(piece);
}

/// Puts the little-endian number into the two bytes from `at` on.
pub fn put_u16(bytes: &mut [u8], at: usize, n: u16)
    requires { at + 2 ≤ length bytes.old }
    ensures { bytes.new ≡ overlay bytes.old at (to_le_bytes w16 n) }
{
    put_bytes(bytes, at, &n.to_le_bytes());
}

/// Puts the little-endian number into the four bytes from `at` on.
pub fn put_u32(bytes: &mut [u8], at: usize, n: u32)
    requires { at + 4 ≤ length bytes.old }
    ensures { bytes.new ≡ overlay bytes.old at (to_le_bytes w32 n) }
{
    put_bytes(bytes, at, &n.to_le_bytes());
}

/// Puts the little-endian number into the eight bytes from `at` on.
pub fn put_u64(bytes: &mut [u8], at: usize, n: u64)
    requires { at + 8 ≤ length bytes.old }
    ensures { bytes.new ≡ overlay bytes.old at (to_le_bytes w64 n) }
{
    put_bytes(bytes, at, &n.to_le_bytes());
}

/// Appends the bytes. After want of memory `out` is unchanged.
pub fn append(out: &mut Vec<u8>, bytes: &[u8]) -> Result<(), NoMemory>
    ensures ok { OnOk result (out.new.items ≡ out.old.items ++ bytes.now) }
    ensures err { OnErr result (out.new.items ≡ out.old.items) }
{
    match out.extend_from_slice(bytes) {
        Ok(()) => Ok(()),
        Err(_) => Err(NoMemory),
    }
}

/// The byte that makes the sum of all bytes zero modulo 256, if it takes the place of a zero.
pub fn checksum8(bytes: &[u8]) -> u8
    ensures { result ≡ checksum_of bytes.now }
{
    ((256 - sum8(bytes) as u16) % 256) as u8
}

/// Sets the byte at `at` so that the sum of all bytes is zero modulo 256. The other bytes stay.
pub fn seal8(bytes: &mut [u8], at: usize)
    requires { at < length bytes.old }
    ensures set { bytes.new ≡ slice_set bytes.old at (checksum_of (slice_set bytes.old at 0)) }
    ensures sums { SumsToZero bytes.new }
{
    bytes[at] = 0;
    bytes[at] = checksum8(bytes);
}
