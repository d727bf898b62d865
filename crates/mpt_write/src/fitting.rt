//! Whether tables are well formed, and whether they have a place in an image of 1 MiB (MultiProcessor
//! Specification 1.4, chapter 4; the places in the image are this project's own).

ghost use Rattle.std.specs.Prelude.{◌↔◌, ◌≤◌, IsTrue};
ghost use Rattle.std.specs.List.{AllByRecursion};
ghost use Rattle.mpt_spec.specs.Canonical.{IsLawfulExt, HasFieldsOfRevision, IsWellFormedTable, IsWellFormedBody, IsWellFormed, HasBlockPlace, FitsInImage};

use crate::sizes::{base_size, block_bytes, ext_size};
use mpt_spec::{Body, Ext, OLD_REVISION, Pointer, REVISION, Table, Tables, is_known_revision};

/// The most bytes that a part of a table may have: its length has 16 bits.
const PART_LIMIT: u64 = 65_535;

/// The first offset of an image behind the words of the search.
const LOW: u64 = 0x500;

/// The last place of a floating pointer.
const LAST_PLACE: u64 = 0xF_FFF0;

/// The bytes of the image that is written.
const IMAGE_SIZE: u64 = 0x10_0000;

/// The bytes of a floating pointer.
const POINTER_SIZE: u64 = 16;

// whether the type and the length of an opaque entry are lawful
fn is_lawful(entry: &Ext) -> bool
    ensures { IsTrue result ↔ IsLawfulExt entry.now }
{
    match entry {
        Ext::Opaque(opaque) => opaque.kind >= 131 && opaque.rest.as_slice().len() <= 253,
        _ => true,
    }
}

fn are_lawful(entries: &[Ext]) -> bool
    ensures { IsTrue result ↔ AllByRecursion IsLawfulExt entries.now }
{
    entries.iter().all(|entry| is_lawful(entry))
}

// whether the table has the fields of its revision
fn has_fields_of_revision(table: &Table) -> bool
    ensures { IsTrue result ↔ HasFieldsOfRevision table.now }
{
    (table.revision == REVISION && table.old == [0; 4])
        || (table.revision == OLD_REVISION
            && table.reserved == 0
            && table.ext.as_slice().is_empty())
}

fn is_well_formed_table(table: &Table) -> bool
    ensures { IsTrue result ↔ IsWellFormedTable table.now }
{
    has_fields_of_revision(table)
        && are_lawful(table.ext.as_slice())
        && base_size(table) <= PART_LIMIT
        && ext_size(table) <= PART_LIMIT
}

// whether feature byte 1 and the address name the body
fn is_well_formed_body(body: &Body, pointer: &Pointer) -> bool
    ensures { IsTrue result ↔ IsWellFormedBody body.now pointer.now }
{
    let default_number = pointer.features[0];
    match body {
        Body::Default(number) => default_number == *number && 1 <= *number && *number <= 7,
        Body::Listed(table) => {
            default_number == 0 && pointer.address != 0 && is_well_formed_table(table)
        }
    }
}

/// Whether the tables are well formed. Each revision is 1 or 4; a table of revision 4 has a zero `old`,
/// and one of revision 1 a zero `reserved` and no extended entries. Feature byte 1 is the number of the
/// default configuration, from 1 to 7, or 0 with an address that isn't 0. Opaque extended entries have a
/// type of at least 131 and at most 253 bytes of rest, each part of the table has at most 65,535 bytes,
/// and the floating pointer's place is a multiple of 16.
pub fn well_formed(tables: &Tables) -> bool
    ensures { IsTrue result ↔ IsWellFormed tables.now }
{
    is_known_revision(tables.pointer.revision)
        && is_well_formed_body(&tables.body, &tables.pointer)
        && tables.at % 16 == 0
}

// whether the block, where there is one, has its place beside the floating pointer
fn has_block_place(tables: &Tables) -> bool
    requires well_formed { IsWellFormed tables.now }
    requires high { tables.now.at ≤ 0xFFFF0 }
    ensures { IsTrue result ↔ HasBlockPlace tables.now.body tables.now.pointer.address tables.now.at }
{
    let start = u64::from(tables.pointer.address);
    match tables.body {
        Body::Default(_) => true,
        Body::Listed(_) => {
            let end = start + block_bytes(tables);
            LOW <= start
                && end <= IMAGE_SIZE
                && (end <= tables.at || tables.at + POINTER_SIZE <= start)
        }
    }
}

/// Whether the tables have a place in an image of 1 MiB: they are well formed, the floating pointer
/// stands from 500h to FFFF0h, and the block of a listed table begins at 500h or above, ends at 100000h
/// or below, and doesn't meet the sixteen bytes of the floating pointer.
pub fn fits(tables: &Tables) -> bool
    ensures { IsTrue result ↔ FitsInImage tables.now }
{
    well_formed(tables) && LOW <= tables.at && tables.at <= LAST_PLACE && has_block_place(tables)
}
