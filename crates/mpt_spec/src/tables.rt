//! The MP configuration table (MultiProcessor Specification 1.4, section 4.2) and what an image
//! describes by it.

use crate::entry::{Base, Ext};
use crate::pointer::Pointer;
use crate::sequence::Sequence;

/// An MP configuration table. Its lengths, its entry count and its checksums are determined by these.
/// What a table of revision 1 has in bytes 40 to 43 is kept as `old`, and such a table has no extended
/// entries: that is this project's own profile.
#[derive(Drop)]
pub struct Table {
    /// The revision: 1 for specification 1.1, 4 for specification 1.4.
    pub revision: u8,
    /// The OEM id.
    pub oem: [u8; 8],
    /// The product id.
    pub product: [u8; 12],
    /// The physical address of the OEM table, 0 where there is none. Its bytes are never read.
    pub oem_table: u32,
    /// The size of the OEM table in bytes.
    pub oem_size: u16,
    /// The base address of the local APICs.
    pub local_address: u32,
    /// Reserved byte 43 at revision 4, 0 at revision 1.
    pub reserved: u8,
    /// Bytes 40 to 43 at revision 1, 0 at revision 4.
    pub old: [u8; 4],
    /// The base entries, in table order.
    pub base: Sequence<Base>,
    /// The extended entries, in table order.
    pub ext: Sequence<Ext>,
}

/// What a floating pointer names: a default configuration (chapter 5), or a listed table.
#[derive(Drop)]
pub enum Body {
    /// The number of a default configuration, from 1 to 7 in an image.
    Default(u8),
    /// The table at the pointer's address.
    Listed(Table),
}

/// What an image describes.
#[derive(Drop)]
pub struct Tables {
    /// The offset of the floating pointer in the image, in bytes.
    pub at: u64,
    /// The floating pointer.
    pub pointer: Pointer,
    /// The default configuration or the table.
    pub body: Body,
}
