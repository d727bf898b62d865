//! The entries of a MADT, read end to end (ACPI Specification, section 5.2.12).

ghost use Rattle.std.specs.Prelude.{◌≡◌, ◌+◌, ◌≤◌, ◌<◌, length, slice_index, IfOk, IfErr, IsTrue, ◌↔◌};
ghost use Rattle.mpf_madt.specs.Entries.{IsOtherType, IsOtherAt, IsMadtEntryAt, AreMadtEntries, IsEntryFaultIn, IsLengthOfType, entry_length};
ghost use Rattle.mpf_madt.specs.Answers.{IfMadtFault};

use crate::layouts::{io_layout, local_layout, nmi_layout, override_layout, read_entry};
use crate::madt::MadtEntry;
use crate::refusal::{MadtFault, MadtReason, MadtRefusal, fault_at};
use mpt_spec::{Opaque, Sequence};
use std::alloc::{AllocError, Global};

/// The type byte of a processor's local APIC.
pub(crate) const LOCAL: u8 = 0;
/// The type byte of an I/O APIC.
pub(crate) const IO: u8 = 1;
/// The type byte of an interrupt source override.
pub(crate) const OVERRIDE: u8 = 2;
/// The type byte of an NMI of a local APIC.
pub(crate) const NMI: u8 = 4;
/// The length of a processor's local APIC in bytes.
pub(crate) const LOCAL_LENGTH: u8 = 8;
/// The length of an I/O APIC in bytes.
pub(crate) const IO_LENGTH: u8 = 12;
/// The length of an interrupt source override in bytes.
pub(crate) const OVERRIDE_LENGTH: u8 = 10;
/// The length of an NMI of a local APIC in bytes.
pub(crate) const NMI_LENGTH: u8 = 6;

fn local_at(bytes: &[u8], at: usize) -> MadtEntry
    requires inside { at + 8 ≤ length bytes.now }
    requires type_byte { slice_index bytes.now at ≡ 0 }
    requires length_byte { slice_index bytes.now (at + 1) ≡ 8 }
    ensures entry { IsMadtEntryAt result bytes.now at }
    ensures whole { entry_length result ≡ 8 }
{
    local_layout!(read_entry, bytes, at; uid, apic, flags)
}

fn io_at(bytes: &[u8], at: usize) -> MadtEntry
    requires inside { at + 12 ≤ length bytes.now }
    requires type_byte { slice_index bytes.now at ≡ 1 }
    requires length_byte { slice_index bytes.now (at + 1) ≡ 12 }
    ensures entry { IsMadtEntryAt result bytes.now at }
    ensures whole { entry_length result ≡ 12 }
{
    io_layout!(read_entry, bytes, at; id, reserved, address, base)
}

fn override_at(bytes: &[u8], at: usize) -> MadtEntry
    requires inside { at + 10 ≤ length bytes.now }
    requires type_byte { slice_index bytes.now at ≡ 2 }
    requires length_byte { slice_index bytes.now (at + 1) ≡ 10 }
    ensures entry { IsMadtEntryAt result bytes.now at }
    ensures whole { entry_length result ≡ 10 }
{
    override_layout!(read_entry, bytes, at; bus, source, gsi, flags)
}

fn nmi_at(bytes: &[u8], at: usize) -> MadtEntry
    requires inside { at + 6 ≤ length bytes.now }
    requires type_byte { slice_index bytes.now at ≡ 4 }
    requires length_byte { slice_index bytes.now (at + 1) ≡ 6 }
    ensures entry { IsMadtEntryAt result bytes.now at }
    ensures whole { entry_length result ≡ 6 }
{
    nmi_layout!(read_entry, bytes, at; uid, flags, lint)
}

fn other_at(alloc: Global, bytes: &[u8], at: usize) -> Result<Opaque, AllocError>
    requires head { at + 2 ≤ length bytes.now }
    requires other { IsOtherType (slice_index bytes.now at) }
    requires whole { 2 ≤ slice_index bytes.now (at + 1) }
    requires inside { at + slice_index bytes.now (at + 1) ≤ length bytes.now }
    ensures { IfOk result (λ e. IsOtherAt e bytes.now at) }
{
    let end = at + bytes[at + 1] as usize;
    let Ok(rest) = Vec::from_slice(alloc, &bytes[at + 2..end]) else {
        return Err(AllocError);
    };
    Ok(Opaque {
        kind: bytes[at],
        rest: Sequence::new(rest),
    })
}

// whether an entry of this type may have this length byte
fn is_length_of_type(type_byte: u8, length: u8) -> bool
    ensures { IsTrue result ↔ IsLengthOfType type_byte length }
{
    match type_byte {
        LOCAL => length == LOCAL_LENGTH,
        IO => length == IO_LENGTH,
        OVERRIDE => length == OVERRIDE_LENGTH,
        NMI => length == NMI_LENGTH,
        _ => length >= 2,
    }
}

// the length of the entry at `at` of those that end at `to`, or the fault there
fn length_at(bytes: &[u8], at: usize, to: usize) -> Result<usize, MadtFault>
    requires more { at < to }
    requires inside { to ≤ length bytes.now }
    ensures length_byte { IfOk result (λ n. slice_index bytes.now (at + 1) ≡ n) }
    ensures right { IfOk result (λ n. IsLengthOfType (slice_index bytes.now at) n) }
    ensures whole { IfOk result (λ n. at + n ≤ to) }
    ensures fault { IfErr result (λ f. IsEntryFaultIn bytes.now at to f.at f.why) }
{
    if to - at == 1 {
        return Err(fault_at(at, MadtReason::CutEntry));
    }
    let length = bytes[at + 1];
    if !is_length_of_type(bytes[at], length) {
        return Err(fault_at(at + 1, MadtReason::BadEntryLength));
    }
    if to - at < length as usize {
        return Err(fault_at(at, MadtReason::CutEntry));
    }
    Ok(length as usize)
}

// the entry at `at`, whose length is right and which lies inside
fn entry_at(alloc: Global, bytes: &[u8], at: usize, size: usize) -> Result<MadtEntry, AllocError>
    requires length_byte { slice_index bytes.now (at + 1) ≡ size }
    requires right { IsLengthOfType (slice_index bytes.now at) size }
    requires inside { at + size ≤ length bytes.now }
    ensures entry { IfOk result (λ e. IsMadtEntryAt e bytes.now at) }
    ensures whole { IfOk result (λ e. entry_length e ≡ size) }
{
    match bytes[at] {
        LOCAL => Ok(local_at(bytes, at)),
        IO => Ok(io_at(bytes, at)),
        OVERRIDE => Ok(override_at(bytes, at)),
        NMI => Ok(nmi_at(bytes, at)),
        _ => match other_at(alloc, bytes, at) {
            Ok(other) => Ok(MadtEntry::Other(other)),
            Err(_) => Err(AllocError),
        },
    }
}

/// The entries that stand end to end from `from` to `to`, with nothing left; or the fault of the first
/// that isn't one. A fault's place is an offset in `bytes`.
pub(crate) fn read_entries(
    alloc: Global,
    bytes: &[u8],
    from: usize,
    to: usize,
) -> Result<Vec<MadtEntry>, MadtRefusal>
    requires order { from ≤ to }
    requires inside { to ≤ length bytes.now }
    ensures entries { IfOk result (λ es. AreMadtEntries es.items bytes.now from to) }
    ensures fault { IfMadtFault result (λ k why. IsEntryFaultIn bytes.now from to k why) }
{
    let mut entries = Vec::new(alloc);
    let mut at = from;
    while at < to {
        let size = match length_at(bytes, at, to) {
            Ok(size) => size,
            Err(MadtFault { at, why }) => return Err(MadtRefusal::Fault { at, why }),
        };
        let Ok(entry) = entry_at(alloc, bytes, at, size) else {
            return Err(MadtRefusal::NoMemory);
        };
        let Ok(()) = entries.push(entry) else {
            return Err(MadtRefusal::NoMemory);
        };
        at += size;
    }
    Ok(entries)
}
