//! The MP floating pointer structure (MultiProcessor Specification 1.4, section 4.1) and the areas of
//! memory in which it is looked for.

/// An MP floating pointer. Its length byte and its checksum are determined by these.
#[derive(Clone, Copy, Debug, PartialEq, Eq)]
pub struct Pointer {
    /// The physical address of the configuration table, 0 where there is none.
    pub address: u32,
    /// The revision: 1 for specification 1.1, 4 for specification 1.4.
    pub revision: u8,
    /// Feature bytes 1 to 5. Byte 1 is the number of a default configuration or 0; bit 7 of byte 2 is
    /// IMCRP.
    pub features: [u8; 5],
}

/// An area of memory, from one offset to before another, in bytes.
#[derive(Clone, Copy, Debug, Default, PartialEq, Eq)]
pub struct Area {
    /// The offset of the first byte.
    pub from: u64,
    /// The offset after the last byte.
    pub to: u64,
}
