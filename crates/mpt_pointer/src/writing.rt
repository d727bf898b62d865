//! The writing of a floating pointer (MultiProcessor Specification 1.4, section 4.1).

ghost use Rattle.std.specs.Prelude.{◌≡◌};
ghost use Rattle.mpt_spec.specs.Image.{pointer_bytes};

use crate::layout::{CHECKSUM_AT, LENGTH_AT, PARAGRAPHS, SIGNATURE, pointer_layout};
use mpt_base::{put_bytes, put_fields, seal8};
use mpt_spec::Pointer;

/// The sixteen bytes of a floating pointer (figure 4-2), with its checksum.
pub fn write_pointer(pointer: &Pointer) -> [u8; 16]
    ensures { result ≡ pointer_bytes pointer.now }
{
    let mut bytes = [0; 16];
    put_bytes(&mut bytes, 0, &SIGNATURE);
    bytes[LENGTH_AT] = PARAGRAPHS;
    pointer_layout!(put_fields, bytes, pointer);
    seal8(&mut bytes, CHECKSUM_AT);
    bytes
}
