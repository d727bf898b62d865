//! The header of the configuration table, its faults from left to right (MultiProcessor Specification
//! 1.4, section 4.2, figure 4-3).

ghost use Rattle.std.specs.Prelude.{◌≡◌, ◌≢◌, ◌+◌, ◌≤◌, ◌↔◌, ◌∷◌, length, slice_index, codes, IsTrue, IfSome, IfNone, MatchBool};
ghost use Rattle.mpt_base.specs.Bytes.{part, SumsToZero};
ghost use Rattle.mpt_spec.specs.Table.{base_length_at, count_at, ext_length_at, revision_at, reserved_at, old_at, IsHeaderAt};
ghost use Rattle.mpt_spec.specs.Faults.{HasTableFaultAt, IsLeastFault};
ghost use Rattle.mpt_table.specs.Header.{HasRightHeader, HasRightCount, HasRightExtPart};

use mpt_base::{Fault, Reason, bytes_at, part_at, sum8, u16_at, u32_at};
use mpt_spec::{Base, Ext, OLD_REVISION, Sequence, Table, is_known_revision};

/// The length of the header in bytes.
pub(crate) const HEADER_LENGTH: usize = 44;

/// The first four bytes of the header.
const SIGNATURE: [u8; 4] = *b"PCMP";

/// The base length: the bytes of the base table, the header included.
pub(crate) fn base_length(image: &[u8], at: usize) -> usize
    requires { at + 44 ≤ length image.now }
    ensures { result ≡ base_length_at image.now at }
{
    usize::from(u16_at(image, at + 4))
}

/// The entry count: the number of base entries.
pub(crate) fn entry_count(image: &[u8], at: usize) -> usize
    requires { at + 44 ≤ length image.now }
    ensures { result ≡ count_at image.now at }
{
    usize::from(u16_at(image, at + 34))
}

/// The bytes of the extended part: those that the extended length says, and none at revision 1.
pub(crate) fn ext_length(image: &[u8], at: usize) -> usize
    requires { at + 44 ≤ length image.now }
    ensures { result ≡ ext_length_at image.now at }
{
    let revision = image[at + 6];
    if revision == OLD_REVISION {
        0
    } else {
        usize::from(u16_at(image, at + 40))
    }
}

/// A fault at an offset of the image.
pub(crate) fn fault_at(at: usize, why: Reason) -> Fault
    ensures { result ≡ record { at = at; why = why } }
{
    Fault { at: at as u64, why }
}

fn has_signature(image: &[u8], at: usize) -> bool
    requires { at + 44 ≤ length image.now }
    ensures { IsTrue result ↔ (part image.now at 4 ≡ codes "PCMP") }
{
    part_at(image, at, 4) == SIGNATURE.as_slice()
}

fn has_checksum(image: &[u8], at: usize, base_length: usize) -> bool
    requires { at + base_length ≤ length image.now }
    ensures { IsTrue result ↔ SumsToZero (part image.now at base_length) }
{
    sum8(part_at(image, at, base_length)) == 0
}

/// The first fault of the header up to the checksum of the base table.
pub(crate) fn header_fault(image: &[u8], at: usize) -> Option<Fault>
    requires { at + 44 ≤ length image.now }
    ensures some { IfSome result (λ f. IsLeastFault (HasTableFaultAt image.now at) f.at f.why) }
    ensures none { IfNone result (HasRightHeader image.now at) }
{
    if !has_signature(image, at) {
        return Some(fault_at(at, Reason::BadSignature));
    }
    let base_length = base_length(image, at);
    if base_length < HEADER_LENGTH {
        return Some(fault_at(at + 4, Reason::ShortLength));
    }
    if image.len() - at < base_length {
        return Some(fault_at(at + 4, Reason::LengthOutside));
    }
    if !is_known_revision(image[at + 6]) {
        return Some(fault_at(at + 6, Reason::BadRevision));
    }
    if !has_checksum(image, at, base_length) {
        return Some(fault_at(at + 7, Reason::BadSum));
    }
    None
}

// whether the extended part, which revision 1 hasn't, sums to zero with its checksum
fn has_ext_checksum(image: &[u8], at: usize, base_end: usize, ext_length: usize) -> bool
    requires header { at + 44 ≤ length image.now }
    requires inside { base_end + ext_length ≤ length image.now }
    ensures { MatchBool result
        (revision_at image.now at ≢ 1 → SumsToZero (slice_index image.now (at + 42) ∷ part image.now base_end ext_length))
        ((revision_at image.now at ≢ 1) × (¬ SumsToZero (slice_index image.now (at + 42) ∷ part image.now base_end ext_length))) }
{
    if image[at + 6] == OLD_REVISION {
        return true;
    }
    sum8(part_at(image, base_end, ext_length)).wrapping_add(image[at + 42]) == 0
}

/// The first fault of the extended part's length and checksum. No fault of the header is before it.
pub(crate) fn ext_header_fault(image: &[u8], at: usize) -> Option<Fault>
    requires header { at + 44 ≤ length image.now }
    requires right { HasRightHeader image.now at }
    requires count { HasRightCount image.now at }
    ensures some { IfSome result (λ f. IsLeastFault (HasTableFaultAt image.now at) f.at f.why) }
    ensures none { IfNone result (HasRightExtPart image.now at) }
{
    let base_end = at + base_length(image, at);
    let ext_length = ext_length(image, at);
    if image.len() - base_end < ext_length {
        return Some(fault_at(at + 40, Reason::ExtOutside));
    }
    if !has_ext_checksum(image, at, base_end, ext_length) {
        return Some(fault_at(at + 42, Reason::BadExtSum));
    }
    None
}

// the reserved byte, 0 at revision 1
fn reserved(image: &[u8], at: usize) -> u8
    requires { at + 44 ≤ length image.now }
    ensures { result ≡ reserved_at image.now at }
{
    if image[at + 6] == OLD_REVISION {
        0
    } else {
        image[at + 43]
    }
}

// bytes 40 to 43 at revision 1, zero at any other
fn old(image: &[u8], at: usize) -> [u8; 4]
    requires { at + 44 ≤ length image.now }
    ensures { result ≡ old_at image.now at }
{
    if image[at + 6] == OLD_REVISION {
        bytes_at(image, at + 40)
    } else {
        [0; 4]
    }
}

/// The table with the fields of the header and these entries.
pub(crate) fn table_of(image: &[u8], at: usize, base: Vec<Base>, ext: Vec<Ext>) -> Table
    requires inside { at + 44 ≤ length image.now }
    requires signature { part image.now at 4 ≡ codes "PCMP" }
    ensures header { IsHeaderAt result image.now at }
    ensures base { result.base ≡ base.items }
    ensures ext { result.ext ≡ ext.items }
{
    Table {
        revision: image[at + 6],
        oem: bytes_at(image, at + 8),
        product: bytes_at(image, at + 16),
        oem_table: u32_at(image, at + 28),
        oem_size: u16_at(image, at + 32),
        local_address: u32_at(image, at + 36),
        reserved: reserved(image, at),
        old: old(image, at),
        base: Sequence::new(base),
        ext: Sequence::new(ext),
    }
}
