//! The block of tables: a configuration table, header, base entries and extended entries, with both
//! checksums (MultiProcessor Specification 1.4, sections 4.2 to 4.4).

ghost use Rattle.std.specs.Prelude.{◌≡◌, ℕ, List, ◌+◌, ◌≤◌, ◌++◌, length, sum_by, IfOk, OnOk};
ghost use Rattle.std.specs.List.{AllByRecursion, flat_map};
ghost use Rattle.mpt_base.specs.Bytes.{part, IsByteList};
ghost use Rattle.mpt_base.specs.Writing.{checksum_of};
ghost use Rattle.mpt_spec.specs.Canonical.{IsLawfulExt, IsWellFormedTable, IsWellFormed, base_size, ext_size, block_size};
ghost use Rattle.mpt_spec.specs.Entries.{base_length};
ghost use Rattle.mpt_spec.specs.Extended.{ext_length};
ghost use Rattle.mpt_spec.specs.Image.{base_bytes, ext_bytes, base_table_bytes, table_bytes, body_bytes};
ghost use Rattle.mpt_spec.specs.Table.{Describes};

use crate::header::{CHECKSUM_AT, header_of};
use crate::sizes::base_size;
use mpt_base::{NoMemory, append, checksum8, seal8};
use mpt_entries::{write_base, write_ext};
use mpt_spec::{Base, Body, Ext, Table, Tables};
use std::alloc::Global;

// the bytes of base entries, end to end, behind what is there
fn push_bases(out: &mut Vec<u8>, entries: &[Base]) -> Result<(), NoMemory>
    ensures bytes { OnOk result (out.new.items ≡ out.old.items ++ flat_map base_bytes entries.now) }
    ensures size { OnOk result (length out.new.items ≡ length out.old.items + sum_by base_length entries.now) }
{
    for entry in entries {
        let Ok(()) = write_base(out, entry) else {
            return Err(NoMemory);
        };
    }
    Ok(())
}

// the bytes of extended entries, end to end, behind what is there
fn push_exts(out: &mut Vec<u8>, entries: &[Ext]) -> Result<(), NoMemory>
    requires lawful { AllByRecursion IsLawfulExt entries.now }
    ensures bytes { OnOk result (out.new.items ≡ out.old.items ++ flat_map ext_bytes entries.now) }
    ensures size { OnOk result (length out.new.items ≡ length out.old.items + sum_by ext_length entries.now) }
{
    for entry in entries {
        let Ok(()) = write_ext(out, entry) else {
            return Err(NoMemory);
        };
    }
    Ok(())
}

// the bytes of extended entries, end to end
fn ext_part(alloc: Global, entries: &[Ext]) -> Result<Vec<u8>, NoMemory>
    requires lawful { AllByRecursion IsLawfulExt entries.now }
    ensures bytes { IfOk result (λ part. part.items ≡ flat_map ext_bytes entries.now) }
    ensures size { IfOk result (λ part. length part.items ≡ sum_by ext_length entries.now) }
{
    let mut out = Vec::new(alloc);
    match push_exts(&mut out, entries) {
        Ok(()) => Ok(out),
        Err(_) => Err(NoMemory),
    }
}

// the base table before this extended part, its checksum still zero
fn open_base_table(alloc: Global, table: &Table, ext_part: &[u8]) -> Result<Vec<u8>, NoMemory>
    requires base_fits { base_size table.now ≤ 65535 }
    requires ext_fits { length ext_part.now ≤ 65535 }
    ensures bytes { IfOk result (λ bytes. bytes.items ≡ base_table_bytes table.now 0 ext_part.now) }
    ensures size { IfOk result (λ bytes. length bytes.items ≡ base_size table.now) }
{
    let base_length = base_size(table) as u16;
    let ext_length = ext_part.len() as u16;
    let mut out = Vec::new(alloc);
    let header = header_of(table, base_length, ext_length, checksum8(ext_part));
    let Ok(()) = append(&mut out, &header) else {
        return Err(NoMemory);
    };
    let Ok(()) = push_bases(&mut out, table.base.as_slice()) else {
        return Err(NoMemory);
    };
    Ok(out)
}

// the base table before this extended part, with its checksum
fn base_table(alloc: Global, table: &Table, ext_part: &[u8]) -> Result<Vec<u8>, NoMemory>
    requires base_fits { base_size table.now ≤ 65535 }
    requires ext_fits { length ext_part.now ≤ 65535 }
    ensures bytes { IfOk result (λ bytes. bytes.items ≡ base_table_bytes table.now (checksum_of (base_table_bytes table.now 0 ext_part.now)) ext_part.now) }
    ensures size { IfOk result (λ bytes. length bytes.items ≡ base_size table.now) }
{
    let Ok(mut bytes) = open_base_table(alloc, table, ext_part) else {
        return Err(NoMemory);
    };
    seal8(bytes.as_mut_slice(), CHECKSUM_AT);
    Ok(bytes)
}

fn table_bytes(alloc: Global, table: &Table) -> Result<Vec<u8>, NoMemory>
    requires well_formed { IsWellFormedTable table.now }
    ensures bytes { IfOk result (λ bytes. bytes.items ≡ table_bytes table.now) }
    ensures size { IfOk result (λ bytes. length bytes.items ≡ base_size table.now + ext_size table.now) }
{
    let Ok(ext_part) = ext_part(alloc, table.ext.as_slice()) else {
        return Err(NoMemory);
    };
    let Ok(mut bytes) = base_table(alloc, table, ext_part.as_slice()) else {
        return Err(NoMemory);
    };
    match append(&mut bytes, ext_part.as_slice()) {
        Ok(()) => Ok(bytes),
        Err(_) => Err(NoMemory),
    }
}

// the bytes of a body
fn body_bytes(alloc: Global, tables: &Tables) -> Result<Vec<u8>, NoMemory>
    requires well_formed { IsWellFormed tables.now }
    ensures bytes { IfOk result (λ block. block.items ≡ body_bytes tables.now.body) }
    ensures size { IfOk result (λ block. length block.items ≡ block_size tables.now.body) }
{
    match &tables.body {
        Body::Default(_) => Ok(Vec::new(alloc)),
        Body::Listed(table) => table_bytes(alloc, table),
    }
}

/// The bytes of the block: header, base entries and extended entries with both checksums, and none for
/// a default configuration. They are those of every image that describes the tables, at the address in
/// its floating pointer. The tables are well formed. It fails only where memory runs out.
pub fn write_block(alloc: Global, tables: &Tables) -> Result<Vec<u8>, NoMemory>
    requires well_formed { IsWellFormed tables.now }
    ensures bytes { IfOk result (λ block. block.items ≡ body_bytes tables.now.body) }
    ensures size { IfOk result (λ block. length block.items ≡ block_size tables.now.body) }
    ensures own { (image : List ℕ) → IsByteList image → Describes image tables.now
        → IfOk result (λ block. part image tables.now.pointer.address (length block.items) ≡ block.items) }
{
    let Ok(block) = body_bytes(alloc, tables) else {
        return Err(NoMemory);
    };
    Ok(block)
}
