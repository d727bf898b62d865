//! The reader of a MADT: its header, its faults from left to right, and its entries (ACPI
//! Specification, sections 5.2.6 and 5.2.12).

ghost use Rattle.std.specs.Prelude.{◌≡◌, ◌≤◌, ◌↔◌, ℕ, List, length, codes, IsTrue, IfOk, IfErr};
ghost use Rattle.mpt_base.specs.Bytes.{part, SumsToZero};
ghost use Rattle.mpf_madt.specs.declared.madt.Madt.{Madt as MadtOf};
ghost use Rattle.mpf_madt.specs.declared.refusal.MadtReason.{MadtReason as ReasonOf};
ghost use Rattle.mpf_madt.specs.Table.{IsHeaderOf, IsMadt};
ghost use Rattle.mpf_madt.specs.Faults.{IsFirstMadtFault};
ghost use Rattle.mpf_madt.specs.Lawful.{IsLawfulMadt};
ghost use Rattle.mpf_madt.specs.Answers.{IfMadtFault, AnswersMadt, AnswersMadtFault};
ghost use Rattle.mpf_madt.specs.Own.{HasSoundHeader};

use crate::entries::read_entries;
use crate::madt::{Madt, MadtEntry};
use crate::refusal::{MadtFault, MadtReason, MadtRefusal, fault_at};
use mpt_base::{bytes_at, part_at, sum8, u32_at};
use mpt_spec::Sequence;
use std::alloc::Global;

/// The length of the header in bytes.
pub(crate) const HEADER_LENGTH: usize = 44;
/// The first four bytes of the header.
pub(crate) const SIGNATURE: [u8; 4] = *b"APIC";
/// The offset of the length.
pub(crate) const LENGTH_AT: usize = 4;
/// The offset of the checksum.
pub(crate) const CHECKSUM_AT: usize = 9;

fn has_signature(bytes: &[u8]) -> bool
    requires { 44 ≤ length bytes.now }
    ensures { IsTrue result ↔ (part bytes.now 0 4 ≡ codes "APIC") }
{
    part_at(bytes, 0, 4) == SIGNATURE.as_slice()
}

fn has_checksum(bytes: &[u8]) -> bool
    ensures { IsTrue result ↔ SumsToZero bytes.now }
{
    sum8(bytes) == 0
}

// nothing where the header is sound, else its first fault
fn check_header(bytes: &[u8]) -> Result<(), MadtFault>
    ensures sound { IfOk result (λ _. HasSoundHeader bytes.now) }
    ensures fault { IfErr result (λ f. IsFirstMadtFault bytes.now f.at f.why) }
{
    if bytes.len() < HEADER_LENGTH {
        return Err(fault_at(0, MadtReason::Short));
    }
    if !has_signature(bytes) {
        return Err(fault_at(0, MadtReason::BadSignature));
    }
    if u32_at(bytes, LENGTH_AT) as usize != bytes.len() {
        return Err(fault_at(LENGTH_AT, MadtReason::BadLength));
    }
    if !has_checksum(bytes) {
        return Err(fault_at(CHECKSUM_AT, MadtReason::BadSum));
    }
    Ok(())
}

// the table with the fields of the header and these entries
fn madt_of(bytes: &[u8], entries: Sequence<MadtEntry>) -> Madt
    requires whole { 44 ≤ length bytes.now }
    requires signature { part bytes.now 0 4 ≡ codes "APIC" }
    ensures header { IsHeaderOf result bytes.now }
    ensures entries { result.entries ≡ entries }
{
    Madt {
        revision: bytes[8],
        oem: bytes_at(bytes, 10),
        table: bytes_at(bytes, 16),
        oem_revision: u32_at(bytes, 24),
        creator: bytes_at(bytes, 28),
        creator_revision: u32_at(bytes, 32),
        local_address: u32_at(bytes, 36),
        flags: u32_at(bytes, 40),
        entries,
    }
}

// the table, or the first fault
fn answer(alloc: Global, bytes: &[u8]) -> Result<Madt, MadtRefusal>
    ensures table { IfOk result (λ m. IsMadt m bytes.now) }
    ensures fault { IfMadtFault result (λ k why. IsFirstMadtFault bytes.now k why) }
{
    if let Err(MadtFault { at, why }) = check_header(bytes) {
        return Err(MadtRefusal::Fault { at, why });
    }
    match read_entries(alloc, bytes, HEADER_LENGTH, bytes.len()) {
        Ok(entries) => Ok(madt_of(bytes, Sequence::new(entries))),
        Err(refusal) => Err(refusal),
    }
}

/// The table that the bytes are, or the first of their faults: the one with the least offset, and of
/// two there the one with the lesser number. It takes memory for the entries alone.
pub fn read_madt(alloc: Global, bytes: &[u8]) -> Result<Madt, MadtRefusal>
    requires size { length bytes.now ≤ 1048576 }
    ensures table { IfOk result (λ m. IsMadt m bytes.now) }
    ensures lawful { IfOk result (λ m. IsLawfulMadt m) }
    ensures fault { IfMadtFault result (λ k why. IsFirstMadtFault bytes.now k why) }
    ensures only_table { (m : MadtOf) → IsMadt m bytes.now → AnswersMadt result m }
    ensures only_fault { (k : ℕ) (why : ReasonOf) → IsFirstMadtFault bytes.now k why → AnswersMadtFault result k why }
{
    let result = answer(alloc, bytes);
    result
}
