//! The bytes of the entries of a MADT (ACPI Specification, section 5.2.12).

ghost use Rattle.std.specs.Prelude.{◌≡◌, ◌++◌, OnOk};
ghost use Rattle.mpf_madt.specs.Lawful.{IsLawfulEntry};
ghost use Rattle.mpf_madt.specs.Spelling.{entry_bytes};
ghost use Rattle.mpf_madt.specs.declared.madt.MadtEntry.TheVariants as entry;

use crate::entries::{
    IO, IO_LENGTH, LOCAL, LOCAL_LENGTH, NMI, NMI_LENGTH, OVERRIDE, OVERRIDE_LENGTH,
};
use crate::layouts::{io_layout, local_layout, nmi_layout, override_layout, put_entry};
use crate::madt::MadtEntry;
use mpt_base::{NoMemory, append};
use mpt_spec::Opaque;

fn write_local(out: &mut Vec<u8>, uid: u8, apic: u8, flags: u32) -> Result<(), NoMemory>
    ensures { OnOk result (out.new.items ≡ out.old.items ++ entry_bytes (entry.Local uid apic flags)) }
{
    let mut bytes = [0; 8];
    bytes[0] = LOCAL;
    bytes[1] = LOCAL_LENGTH;
    local_layout!(put_entry, bytes; uid, apic, flags);
    append(out, &bytes)
}

fn write_io(
    out: &mut Vec<u8>,
    id: u8,
    reserved: u8,
    address: u32,
    base: u32,
) -> Result<(), NoMemory>
    ensures { OnOk result (out.new.items ≡ out.old.items ++ entry_bytes (entry.Io id reserved address base)) }
{
    let mut bytes = [0; 12];
    bytes[0] = IO;
    bytes[1] = IO_LENGTH;
    io_layout!(put_entry, bytes; id, reserved, address, base);
    append(out, &bytes)
}

fn write_override(
    out: &mut Vec<u8>,
    bus: u8,
    source: u8,
    gsi: u32,
    flags: u16,
) -> Result<(), NoMemory>
    ensures { OnOk result (out.new.items ≡ out.old.items ++ entry_bytes (entry.Override bus source gsi flags)) }
{
    let mut bytes = [0; 10];
    bytes[0] = OVERRIDE;
    bytes[1] = OVERRIDE_LENGTH;
    override_layout!(put_entry, bytes; bus, source, gsi, flags);
    append(out, &bytes)
}

fn write_nmi(out: &mut Vec<u8>, uid: u8, flags: u16, lint: u8) -> Result<(), NoMemory>
    ensures { OnOk result (out.new.items ≡ out.old.items ++ entry_bytes (entry.Nmi uid flags lint)) }
{
    let mut bytes = [0; 6];
    bytes[0] = NMI;
    bytes[1] = NMI_LENGTH;
    nmi_layout!(put_entry, bytes; uid, flags, lint);
    append(out, &bytes)
}

// the head of an entry of another type, then its rest
fn write_other(out: &mut Vec<u8>, other: &Opaque) -> Result<(), NoMemory>
    requires lawful { IsLawfulEntry (entry.Other other.now) }
    ensures { OnOk result (out.new.items ≡ out.old.items ++ entry_bytes (entry.Other other.now)) }
{
    let rest = other.rest.as_slice();
    let Ok(()) = append(out, &[other.kind, 2 + rest.len() as u8]) else {
        return Err(NoMemory);
    };
    match append(out, rest) {
        Ok(()) => Ok(()),
        Err(_) => Err(NoMemory),
    }
}

/// Appends the bytes of an entry. After want of memory a part of them may stand behind what was there.
pub(crate) fn write_entry(out: &mut Vec<u8>, entry: &MadtEntry) -> Result<(), NoMemory>
    requires lawful { IsLawfulEntry entry.now }
    ensures { OnOk result (out.new.items ≡ out.old.items ++ entry_bytes entry.now) }
{
    match entry {
        MadtEntry::Local { uid, apic, flags } => write_local(out, *uid, *apic, *flags),
        MadtEntry::Io {
            id,
            reserved,
            address,
            base,
        } => write_io(out, *id, *reserved, *address, *base),
        MadtEntry::Override {
            bus,
            source,
            gsi,
            flags,
        } => write_override(out, *bus, *source, *gsi, *flags),
        MadtEntry::Nmi { uid, flags, lint } => write_nmi(out, *uid, *flags, *lint),
        MadtEntry::Other(other) => write_other(out, other),
    }
}
