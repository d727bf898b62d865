//! The writer of a MADT: its header, its entries and its checksum (ACPI Specification, sections 5.2.6
//! and 5.2.12).

ghost use Rattle.std.specs.Prelude.{◌≡◌, ◌+◌, ◌≤◌, ◌++◌, ℕ, List, length, sum_by, OnOk, IfOk};
ghost use Rattle.std.specs.Int.{to_le_bytes, w32};
ghost use Rattle.std.specs.List.{AllByRecursion, flat_map};
ghost use Rattle.mpt_base.specs.Bytes.{IsByteList};
ghost use Rattle.mpf_madt.specs.Entries.{entry_length};
ghost use Rattle.mpf_madt.specs.Lawful.{IsLawfulEntry, IsLawfulMadt, madt_size};
ghost use Rattle.mpf_madt.specs.Spelling.{entry_bytes, front_bytes, back_bytes, header_bytes, madt_with, madt_bytes};
ghost use Rattle.mpf_madt.specs.Table.{IsMadt};

use crate::entry_writing::write_entry;
use crate::judging::madt_size;
use crate::madt::{Madt, MadtEntry};
use crate::reading::{CHECKSUM_AT, LENGTH_AT, SIGNATURE};
use crate::values::madt_value;
use mpt_base::{NoMemory, append, put_bytes, put_u32, seal8};
use std::alloc::Global;

// the bytes of entries, end to end, behind what is there
fn push_entries(out: &mut Vec<u8>, entries: &[MadtEntry]) -> Result<(), NoMemory>
    requires lawful { AllByRecursion IsLawfulEntry entries.now }
    ensures { OnOk result (out.new.items ≡ out.old.items ++ flat_map entry_bytes entries.now) }
{
    for entry in entries {
        let Ok(()) = write_entry(out, entry) else {
            return Err(NoMemory);
        };
    }
    Ok(())
}

// the ten bytes before the OEM id, with this length
fn front_of(madt: &Madt, size: u32) -> [u8; 10]
    ensures { result ≡ front_bytes madt.now size 0 }
{
    let mut bytes = [0; 10];
    put_bytes(&mut bytes, 0, &SIGNATURE);
    put_u32(&mut bytes, LENGTH_AT, size);
    bytes[8] = madt.revision;
    bytes
}

// the twelve bytes behind the creator id
fn back_of(madt: &Madt) -> [u8; 12]
    ensures { result ≡ back_bytes madt.now }
{
    let mut bytes = [0; 12];
    put_u32(&mut bytes, 0, madt.creator_revision);
    put_u32(&mut bytes, 4, madt.local_address);
    put_u32(&mut bytes, 8, madt.flags);
    bytes
}

// the 44 bytes of the header with this length, its checksum still zero
fn header_of(madt: &Madt, size: u32) -> [u8; 44]
    ensures { result ≡ header_bytes madt.now size 0 }
{
    let mut bytes = [0; 44];
    put_bytes(&mut bytes, 0, &front_of(madt, size));
    put_bytes(&mut bytes, 10, &madt.oem);
    put_bytes(&mut bytes, 16, &madt.table);
    put_u32(&mut bytes, 24, madt.oem_revision);
    put_bytes(&mut bytes, 28, &madt.creator);
    put_bytes(&mut bytes, 32, &back_of(madt));
    bytes
}

// appends the header with this length, its checksum still zero, and the entries
fn push_table(out: &mut Vec<u8>, madt: &Madt, size: u32) -> Result<(), NoMemory>
    requires lawful { AllByRecursion IsLawfulEntry madt.now.entries }
    ensures { OnOk result (out.new.items ≡ out.old.items ++ header_bytes madt.now size 0 ++ flat_map entry_bytes madt.now.entries) }
{
    let Ok(()) = append(out, &header_of(madt, size)) else {
        return Err(NoMemory);
    };
    push_entries(out, madt.entries.as_slice())
}

// the table, its checksum still zero
fn open_table(alloc: Global, madt: &Madt) -> Result<Vec<u8>, NoMemory>
    requires lawful { IsLawfulMadt madt.now }
    ensures { IfOk result (λ bytes. bytes.items ≡ madt_with madt.now 0) }
{
    let size = madt_size(madt) as u32;
    let mut out = Vec::new(alloc);
    match push_table(&mut out, madt, size) {
        Ok(()) => Ok(out),
        Err(_) => Err(NoMemory),
    }
}

// the table with its checksum
fn table_bytes(alloc: Global, madt: &Madt) -> Result<Vec<u8>, NoMemory>
    requires lawful { IsLawfulMadt madt.now }
    ensures { IfOk result (λ bytes. bytes.items ≡ madt_bytes madt.now) }
{
    let Ok(mut bytes) = open_table(alloc, madt) else {
        return Err(NoMemory);
    };
    seal8(bytes.as_mut_slice(), CHECKSUM_AT);
    Ok(bytes)
}

/// The bytes of the table, header and entries with the length and the checksum. They are the only
/// bytes that are this table. It fails only where memory runs out.
pub fn write_madt(alloc: Global, madt: &Madt) -> Result<Vec<u8>, NoMemory>
    requires lawful { IsLawfulMadt madt.now }
    ensures table { IfOk result (λ bytes. IsMadt madt.now bytes.items) }
    ensures size { IfOk result (λ bytes. length bytes.items ≡ madt_size madt.now) }
    ensures only { (bytes : List ℕ) → IsByteList bytes → IsMadt madt.now bytes → IfOk result (λ written. written.items ≡ bytes) }
{
    madt_value(madt);
    let Ok(bytes) = table_bytes(alloc, madt) else {
        return Err(NoMemory);
    };
    Ok(bytes)
}
