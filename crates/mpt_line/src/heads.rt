//! What the two lines before those of the entries say.

use mpt_spec::Pointer;

/// The line of the floating pointer.
#[derive(Clone, Copy)]
pub struct PointerLine {
    /// The offset of the floating pointer in the image, in bytes.
    pub at: u64,
    /// The floating pointer.
    pub pointer: Pointer,
}

/// The line of the header: the fields of a table that its entries don't determine
/// (MultiProcessor Specification 1.4, section 4.2).
#[derive(Clone, Copy)]
pub struct HeaderLine {
    /// The revision: 1 for specification 1.1, 4 for specification 1.4.
    pub revision: u8,
    /// The OEM id.
    pub oem: [u8; 8],
    /// The product id.
    pub product: [u8; 12],
    /// The physical address of the OEM table, 0 where there is none.
    pub oem_table: u32,
    /// The size of the OEM table in bytes.
    pub oem_size: u16,
    /// The base address of the local APICs.
    pub local_address: u32,
    /// The last field.
    pub end: HeaderEnd,
}

/// The last field of a header's line.
#[derive(Clone, Copy)]
pub enum HeaderEnd {
    /// The reserved byte 43, at revision 4.
    Reserved(u8),
    /// Bytes 40 to 43, at revision 1.
    Old([u8; 4]),
}
