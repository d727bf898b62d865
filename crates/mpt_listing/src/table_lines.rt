//! The lines of the floating pointer and of the table's header.

ghost use Rattle.std.specs.Prelude.{◌≡◌, ◌++◌, codes, OnOk};
ghost use Rattle.mpt_spec.specs.Revision.{by_revision};
ghost use Rattle.mpt_listing.specs.Listing.{hex, hex_bytes, pointer_line, header_line};
ghost use Rattle.mpt_listing.specs.Part.{part_text};

use crate::text::{Part, push_line};
use mpt_spec::{OLD_REVISION, Table, Tables};
use std::alloc::AllocError;

/// Writes where the floating pointer is, and what it says.
pub(crate) fn push_pointer_line(out: &mut Vec<u8>, tables: &Tables) -> Result<(), AllocError>
    ensures { OnOk result (out.new.items ≡ out.old.items ++ pointer_line tables.now) }
{
    let pointer = &tables.pointer;
    push_line(
        out,
        &[
            Part::Text(b"pointer at "),
            Part::Hex(8, tables.at),
            Part::Text(b" table "),
            Part::Hex(8, pointer.address as u64),
            Part::Text(b" revision "),
            Part::Hex(2, pointer.revision as u64),
            Part::Text(b" features "),
            Part::HexBytes(&pointer.features),
        ],
    )
}

// The name of the header's last field
fn last_name(table: &Table) -> Part<'_>
    ensures { part_text result ≡ by_revision table.now.revision (codes " old ") (codes " reserved ") }
{
    if table.revision == OLD_REVISION {
        Part::Text(b" old ")
    } else {
        Part::Text(b" reserved ")
    }
}

// The header's last field: the reserved byte, or at revision 1 the bytes 40 to 43
fn last_field(table: &Table) -> Part<'_>
    ensures { part_text result ≡ by_revision table.now.revision (hex_bytes table.now.old) (hex 2 table.now.reserved) }
{
    if table.revision == OLD_REVISION {
        Part::HexBytes(&table.old)
    } else {
        Part::Hex(2, table.reserved as u64)
    }
}

/// Writes the fields of the header that the entries don't determine.
pub(crate) fn push_header_line(out: &mut Vec<u8>, table: &Table) -> Result<(), AllocError>
    ensures { OnOk result (out.new.items ≡ out.old.items ++ header_line table.now) }
{
    push_line(
        out,
        &[
            Part::Text(b"header revision "),
            Part::Hex(2, table.revision as u64),
            Part::Text(b" oem "),
            Part::Quoted(&table.oem),
            Part::Text(b" product "),
            Part::Quoted(&table.product),
            Part::Text(b" oemtable "),
            Part::Hex(8, table.oem_table as u64),
            Part::Text(b" oemsize "),
            Part::Hex(4, table.oem_size as u64),
            Part::Text(b" local "),
            Part::Hex(8, table.local_address as u64),
            last_name(table),
            last_field(table),
        ],
    )
}
