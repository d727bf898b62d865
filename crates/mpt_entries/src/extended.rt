//! The extended entries (MultiProcessor Specification 1.4, section 4.4, figures 4-9 to 4-11).

ghost use Rattle.std.specs.Prelude.{◌≡◌, ◌+◌, ◌≤◌, ◌<◌, ℕ, List, length, slice_index, IfOk, IfErr, IsTrue, ◌↔◌};
ghost use Rattle.mpt_base.specs.declared.fault.Reason.{Reason};
ghost use Rattle.mpt_spec.specs.declared.entry.Ext.{Ext};
ghost use Rattle.mpt_spec.specs.Extended.{IsSpaceAt, IsHierarchyAt, IsModifierAt, IsOpaqueAt, IsExtEntryAt, AreExtEntries, IsExtFaultIn, IsLengthOfExtType, ext_length};
ghost use Rattle.mpt_entries.specs.Answers.{IfFault, AnswersEntries, AnswersFault};

use crate::layouts::{hierarchy_layout, modifier_layout, space_layout};
use crate::stop::{Stop, fault_at};
use mpt_base::{Fault, Reason, read_fields};
use mpt_spec::{Ext, Hierarchy, Modifier, Opaque, Sequence, Space};
use std::alloc::{AllocError, Global};

/// The type byte of a system address space mapping entry.
pub(crate) const SPACE: u8 = 128;
/// The type byte of a bus hierarchy descriptor entry.
pub(crate) const HIERARCHY: u8 = 129;
/// The type byte of a compatibility bus address space modifier entry.
pub(crate) const MODIFIER: u8 = 130;

fn space_at(bytes: &[u8], at: usize) -> Space
    requires inside { at + 20 ≤ length bytes.now }
    requires type_byte { slice_index bytes.now at ≡ 128 }
    requires length_byte { slice_index bytes.now (at + 1) ≡ 20 }
    ensures { IsSpaceAt result bytes.now at }
{
    space_layout!(read_fields, bytes, at)
}

fn hierarchy_at(bytes: &[u8], at: usize) -> Hierarchy
    requires inside { at + 8 ≤ length bytes.now }
    requires type_byte { slice_index bytes.now at ≡ 129 }
    requires length_byte { slice_index bytes.now (at + 1) ≡ 8 }
    ensures { IsHierarchyAt result bytes.now at }
{
    hierarchy_layout!(read_fields, bytes, at)
}

fn modifier_at(bytes: &[u8], at: usize) -> Modifier
    requires inside { at + 8 ≤ length bytes.now }
    requires type_byte { slice_index bytes.now at ≡ 130 }
    requires length_byte { slice_index bytes.now (at + 1) ≡ 8 }
    ensures { IsModifierAt result bytes.now at }
{
    modifier_layout!(read_fields, bytes, at)
}

fn opaque_at(alloc: Global, bytes: &[u8], at: usize) -> Result<Opaque, AllocError>
    requires head { at + 2 ≤ length bytes.now }
    requires above { 131 ≤ slice_index bytes.now at }
    requires whole { 2 ≤ slice_index bytes.now (at + 1) }
    requires inside { at + slice_index bytes.now (at + 1) ≤ length bytes.now }
    ensures { IfOk result (λ e. IsOpaqueAt e bytes.now at) }
{
    let end = at + bytes[at + 1] as usize;
    let Ok(rest) = Vec::from_slice(alloc, &bytes[at + 2..end]) else {
        return Err(AllocError);
    };
    Ok(Opaque {
        kind: bytes[at],
        rest: Sequence::new(rest),
    })
}

// whether an extended entry of this type may have this length byte
fn is_length_of_type(type_byte: u8, length: u8) -> bool
    ensures { IsTrue result ↔ IsLengthOfExtType type_byte length }
{
    match type_byte {
        SPACE => length == 20,
        HIERARCHY | MODIFIER => length == 8,
        _ => length >= 2,
    }
}

// the length of the entry at `at` of those that end at `to`, or the fault there
fn length_at(bytes: &[u8], at: usize, to: usize) -> Result<usize, Fault>
    requires more { at < to }
    requires inside { to ≤ length bytes.now }
    ensures type_byte { IfOk result (λ n. 128 ≤ slice_index bytes.now at) }
    ensures length_byte { IfOk result (λ n. slice_index bytes.now (at + 1) ≡ n) }
    ensures right { IfOk result (λ n. IsLengthOfExtType (slice_index bytes.now at) n) }
    ensures whole { IfOk result (λ n. at + n ≤ to) }
    ensures fault { IfErr result (λ f. IsExtFaultIn bytes.now at to f.at f.why) }
{
    if bytes[at] < SPACE {
        return Err(fault_at(at, Reason::BadExtType));
    }
    if to - at == 1 {
        return Err(fault_at(at, Reason::CutExtEntry));
    }
    let length = bytes[at + 1];
    if !is_length_of_type(bytes[at], length) {
        return Err(fault_at(at + 1, Reason::BadExtLength));
    }
    if to - at < length as usize {
        return Err(fault_at(at, Reason::CutExtEntry));
    }
    Ok(length as usize)
}

// the entry at `at`, whose type and length are right and which lies inside
fn entry_at(alloc: Global, bytes: &[u8], at: usize, size: usize) -> Result<Ext, AllocError>
    requires type_byte { 128 ≤ slice_index bytes.now at }
    requires length_byte { slice_index bytes.now (at + 1) ≡ size }
    requires right { IsLengthOfExtType (slice_index bytes.now at) size }
    requires inside { at + size ≤ length bytes.now }
    ensures entry { IfOk result (λ e. IsExtEntryAt e bytes.now at) }
    ensures whole { IfOk result (λ e. ext_length e ≡ size) }
{
    match bytes[at] {
        SPACE => Ok(Ext::Space(space_at(bytes, at))),
        HIERARCHY => Ok(Ext::Hierarchy(hierarchy_at(bytes, at))),
        MODIFIER => Ok(Ext::Modifier(modifier_at(bytes, at))),
        _ => match opaque_at(alloc, bytes, at) {
            Ok(entry) => Ok(Ext::Opaque(entry)),
            Err(_) => Err(AllocError),
        },
    }
}

/// The extended entries that stand end to end from `from` to `to`, with nothing left; or the fault of
/// the first that isn't one. A fault's place is an offset in `bytes`.
pub fn read_ext(alloc: Global, bytes: &[u8], from: usize, to: usize) -> Result<Vec<Ext>, Stop>
    requires order { from ≤ to }
    requires inside { to ≤ length bytes.now }
    ensures entries { IfOk result (λ es. AreExtEntries es.items bytes.now from to) }
    ensures fault { IfFault result (λ f. IsExtFaultIn bytes.now from to f.at f.why) }
    ensures only_entries { (es : List Ext) → AreExtEntries es bytes.now from to → AnswersEntries result es }
    ensures only_fault { (k : ℕ) (why : Reason) → IsExtFaultIn bytes.now from to k why → AnswersFault result k why }
{
    let mut entries = Vec::new(alloc);
    let mut at = from;
    while at < to {
        let size = match length_at(bytes, at, to) {
            Ok(size) => size,
            Err(fault) => return Err(Stop::Fault(fault)),
        };
        let Ok(entry) = entry_at(alloc, bytes, at, size) else {
            return Err(Stop::NoMemory);
        };
        let Ok(()) = entries.push(entry) else {
            return Err(Stop::NoMemory);
        };
        at += size;
    }
    Ok(entries)
}
