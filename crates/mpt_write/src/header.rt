//! The bytes of a table's header (MultiProcessor Specification 1.4, section 4.2, figure 4-3), its
//! checksum still zero.

ghost use Rattle.std.specs.Prelude.{◌≡◌, ◌≤◌, ◌++◌, ◌∷◌, [], length, codes};
ghost use Rattle.std.specs.Int.{to_le_bytes, w16, w32};
ghost use Rattle.mpt_spec.specs.Image.{header_end, header_bytes};

use mpt_base::{put_bytes, put_u16, put_u32};
use mpt_spec::{OLD_REVISION, Table};

/// The offset of the checksum.
pub(crate) const CHECKSUM_AT: usize = 7;

// the eight bytes before the OEM id
fn front_of(table: &Table, base_length: u16) -> [u8; 8]
    ensures { result ≡ codes "PCMP" ++ (to_le_bytes w16 base_length ++ table.now.revision ∷ 0 ∷ []) }
{
    let mut bytes = [0; 8];
    put_bytes(&mut bytes, 0, b"PCMP");
    put_u16(&mut bytes, 4, base_length);
    bytes[6] = table.revision;
    bytes
}

// the twelve bytes behind the product id
fn back_of(table: &Table) -> [u8; 12]
    requires { length table.now.base ≤ 65535 }
    ensures { result ≡ to_le_bytes w32 table.now.oem_table ++ (to_le_bytes w16 table.now.oem_size ++ (to_le_bytes w16 (length table.now.base) ++ to_le_bytes w32 table.now.local_address)) }
{
    let count = table.base.as_slice().len() as u16;
    let mut bytes = [0; 12];
    put_u32(&mut bytes, 0, table.oem_table);
    put_u16(&mut bytes, 4, table.oem_size);
    put_u16(&mut bytes, 6, count);
    put_u32(&mut bytes, 8, table.local_address);
    bytes
}

// the last four bytes: extended length, extended checksum and reserved byte, or as they are kept at
// revision 1
fn end_of(table: &Table, ext_length: u16, ext_checksum: u8) -> [u8; 4]
    ensures { result ≡ header_end table.now ext_length ext_checksum }
{
    if table.revision == OLD_REVISION {
        return table.old;
    }
    let mut bytes = [0; 4];
    put_u16(&mut bytes, 0, ext_length);
    bytes[2] = ext_checksum;
    bytes[3] = table.reserved;
    bytes
}

/// The 44 bytes of the header with these lengths and this extended checksum.
pub(crate) fn header_of(
    table: &Table,
    base_length: u16,
    ext_length: u16,
    ext_checksum: u8,
) -> [u8; 44]
    requires { length table.now.base ≤ 65535 }
    ensures { result ≡ header_bytes table.now base_length ext_length 0 ext_checksum }
{
    let mut bytes = [0; 44];
    put_bytes(&mut bytes, 0, &front_of(table, base_length));
    put_bytes(&mut bytes, 8, &table.oem);
    put_bytes(&mut bytes, 16, &table.product);
    put_bytes(&mut bytes, 28, &back_of(table));
    put_bytes(&mut bytes, 40, &end_of(table, ext_length, ext_checksum));
    bytes
}
