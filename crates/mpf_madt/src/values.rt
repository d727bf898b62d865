//! What the types say of values: that numbers fit their fields (ACPI Specification, section 5.2.12).
//! The functions do nothing; their contracts tell the definitions, in which a field is any number, what
//! a program knows by its types.

ghost use Rattle.std.specs.Prelude.{◌≡◌, ◌<◌, ◌^◌, length};
ghost use Rattle.std.specs.List.{AllByRecursion};
ghost use Rattle.mpt_base.specs.Bytes.{IsByteList};
ghost use Rattle.mpf_madt.specs.Lawful.{IsEntryValue, IsMadtValue};

use crate::madt::{Madt, MadtEntry};

fn byte_value(byte: u8)
    ensures { byte < 256 }
{
    let _value = byte;
}

fn word_value(word: u16)
    ensures { word < 2 ^ 16 }
{
    let _value = word;
}

fn long_value(long: u32)
    ensures { long < 2 ^ 32 }
{
    let _value = long;
}

fn byte_list(bytes: &[u8])
    ensures { IsByteList bytes.now }
{
    let _value = bytes;
}

fn entry_value(entry: &MadtEntry)
    ensures { IsEntryValue entry.now }
{
    match entry {
        MadtEntry::Local { uid, apic, flags } => {
            byte_value(*uid);
            byte_value(*apic);
            long_value(*flags);
        }
        MadtEntry::Io {
            id,
            reserved,
            address,
            base,
        } => {
            byte_value(*id);
            byte_value(*reserved);
            long_value(*address);
            long_value(*base);
        }
        MadtEntry::Override {
            bus,
            source,
            gsi,
            flags,
        } => {
            byte_value(*bus);
            byte_value(*source);
            long_value(*gsi);
            word_value(*flags);
        }
        MadtEntry::Nmi { uid, flags, lint } => {
            byte_value(*uid);
            word_value(*flags);
            byte_value(*lint);
        }
        MadtEntry::Other(other) => {
            byte_value(other.kind);
            byte_list(other.rest.as_slice());
        }
    }
}

fn entry_values(entries: &[MadtEntry])
    ensures { AllByRecursion IsEntryValue entries.now }
{
    for entry in entries {
        entry_value(entry);
    }
}

fn names_value(oem: [u8; 6], table: [u8; 8], creator: [u8; 4])
    ensures oem { (length oem ≡ 6) × IsByteList oem }
    ensures table { (length table ≡ 8) × IsByteList table }
    ensures creator { (length creator ≡ 4) × IsByteList creator }
{
    let _values = (oem, table, creator);
}

fn numbers_value(madt: &Madt)
    ensures oem_revision { madt.now.oem_revision < 2 ^ 32 }
    ensures creator_revision { madt.now.creator_revision < 2 ^ 32 }
    ensures local_address { madt.now.local_address < 2 ^ 32 }
    ensures flags { madt.now.flags < 2 ^ 32 }
{
    long_value(madt.oem_revision);
    long_value(madt.creator_revision);
    long_value(madt.local_address);
    long_value(madt.flags);
}

/// The fields of a table fit.
pub(crate) fn madt_value(madt: &Madt)
    ensures { IsMadtValue madt.now }
{
    byte_value(madt.revision);
    names_value(madt.oem, madt.table, madt.creator);
    numbers_value(madt);
    entry_values(madt.entries.as_slice());
}
