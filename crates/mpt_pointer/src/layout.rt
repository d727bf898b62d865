//! The layout of a floating pointer (MultiProcessor Specification 1.4, section 4.1, figure 4-2): the
//! fields with their kind and their offset. It hands its list, after the caller's own arguments, to the
//! macro that the caller names. Signature, length byte and checksum are no fields.

/// The first four bytes of a floating pointer.
pub(crate) const SIGNATURE: [u8; 4] = *b"_MP_";

/// The offset of the length byte.
pub(crate) const LENGTH_AT: usize = 8;

/// The length of a floating pointer in units of sixteen bytes.
pub(crate) const PARAGRAPHS: u8 = 1;

/// The offset of the checksum.
pub(crate) const CHECKSUM_AT: usize = 10;

macro_rules! pointer_layout {
    ($expand:ident, $($own:ident),*) => {
        $expand!($($own,)* Pointer {
            address: u32 4,
            revision: byte 9,
            features: bytes 11,
        })
    };
}

pub(crate) use pointer_layout;
