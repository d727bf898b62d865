//! The reader of an image: the search, the floating pointer, the table, each fault the first
//! (MultiProcessor Specification 1.4, chapter 4; the order of faults is this project's own).

ghost use Rattle.std.specs.Prelude.{◌≡◌, Err, ◌+◌, ◌≤◌, ℕ, length, IfOk, IfErr, OnOk};
ghost use Rattle.mpt_base.specs.Bytes.{part};
ghost use Rattle.mpt_base.specs.declared.fault.Reason.{Reason as ReasonOf};
ghost use Rattle.mpt_spec.specs.declared.tables.Tables.{Tables as TablesOf};
ghost use Rattle.mpt_spec.specs.Pointer.{IsFloatingPointer};
ghost use Rattle.mpt_spec.specs.Search.{IsFirstPointerAt, HasNoPointer};
ghost use Rattle.mpt_spec.specs.Entries.{AreBaseEntries, IsBaseFaultIn};
ghost use Rattle.mpt_spec.specs.Table.{base_end, count_at, default_number, IsConfigurationTable, IsBodyOf, Describes};
ghost use Rattle.mpt_spec.specs.Faults.{HasTableFaultAt, IsFirstFault, IsLeastFault};
ghost use Rattle.mpt_entries.specs.Answers.{IfFault};
ghost use Rattle.mpt_table.specs.Header.{HasRightPointer, HasRightHeader, HasRightCount, HasRightExtPart};
ghost use Rattle.mpt_table.specs.Answers.{IsCauseOf, AnswersTables, AnswersFault};

use crate::header::{
    HEADER_LENGTH, base_length, entry_count, ext_header_fault, ext_length, fault_at, header_fault,
    table_of,
};
use crate::pointer_fault::pointer_fault;
use crate::refusal::Refusal;
use mpt_base::{Fault, Reason};
use mpt_entries::{Stop, read_base, read_ext};
use mpt_pointer::{find, pointer_at};
use mpt_spec::{Base, Body, Pointer, Table, Tables};
use std::alloc::Global;

// The base entries, as many as the count says, or their own fault, before which the extended part's
// may stand. A wrong count is the first fault.
fn counted_base(alloc: Global, image: &[u8], at: usize) -> Result<Result<Vec<Base>, Fault>, Stop>
    requires header { at + 44 ≤ length image.now }
    requires right { HasRightHeader image.now at }
    ensures count { OnOk result (HasRightCount image.now at) }
    ensures entries { IfOk result (λ base. IfOk base (λ es.
        AreBaseEntries es.items image.now (at + 44) (base_end image.now at))) }
    ensures fault { IfOk result (λ base. IfErr base (λ f.
        IsBaseFaultIn image.now (at + 44) (base_end image.now at) f.at f.why)) }
    ensures miscounted { IfFault result (λ f. IsLeastFault (HasTableFaultAt image.now at) f.at f.why) }
{
    let base_end = at + base_length(image, at);
    match read_base(alloc, image, at + HEADER_LENGTH, base_end) {
        Ok(base) => {
            if base.len() == entry_count(image, at) {
                Ok(Ok(base))
            } else {
                Err(Stop::Fault(fault_at(at + 34, Reason::BadCount)))
            }
        }
        Err(Stop::Fault(fault)) => Ok(Err(fault)),
        Err(Stop::NoMemory) => Err(Stop::NoMemory),
    }
}

// the table with these base entries, or the first fault of the extended entries
fn with_ext(alloc: Global, image: &[u8], at: usize, base: Vec<Base>) -> Result<Table, Stop>
    requires header { HasRightHeader image.now at }
    requires count { HasRightCount image.now at }
    requires ext_part { HasRightExtPart image.now at }
    requires entries { AreBaseEntries base.items image.now (at + 44) (base_end image.now at) }
    ensures table { IfOk result (λ t. IsConfigurationTable t image.now at) }
    ensures fault { IfFault result (λ f. IsLeastFault (HasTableFaultAt image.now at) f.at f.why) }
{
    let base_end = at + base_length(image, at);
    match read_ext(alloc, image, base_end, base_end + ext_length(image, at)) {
        Ok(ext) => Ok(table_of(image, at, base, ext)),
        Err(Stop::Fault(fault)) => Err(Stop::Fault(fault)),
        Err(Stop::NoMemory) => Err(Stop::NoMemory),
    }
}

/// The table at a place, or its first fault.
pub(crate) fn read_table(alloc: Global, image: &[u8], at: usize) -> Result<Table, Stop>
    requires { at + 44 ≤ length image.now }
    ensures table { IfOk result (λ t. IsConfigurationTable t image.now at) }
    ensures fault { IfFault result (λ f. IsLeastFault (HasTableFaultAt image.now at) f.at f.why) }
{
    if let Some(fault) = header_fault(image, at) {
        return Err(Stop::Fault(fault));
    }
    let base = match counted_base(alloc, image, at) {
        Ok(base) => base,
        Err(stop) => return Err(stop),
    };
    // The extended part's length and checksum stand before all entries.
    if let Some(fault) = ext_header_fault(image, at) {
        return Err(Stop::Fault(fault));
    }
    match base {
        Ok(base) => with_ext(alloc, image, at, base),
        Err(fault) => Err(Stop::Fault(fault)),
    }
}

// what a right floating pointer names
fn body_of(alloc: Global, image: &[u8], pointer: &Pointer) -> Result<Body, Stop>
    requires { HasRightPointer pointer.now (length image.now) }
    ensures body { IfOk result (λ b. IsBodyOf b pointer.now image.now) }
    ensures listed { IfFault result (λ f. default_number pointer.now ≡ 0) }
    ensures fault { IfFault result (λ f.
        IsLeastFault (HasTableFaultAt image.now pointer.now.address) f.at f.why) }
{
    match pointer.features[0] {
        0 => match read_table(alloc, image, pointer.address as usize) {
            Ok(table) => Ok(Body::Listed(table)),
            Err(stop) => Err(stop),
        },
        number => Ok(Body::Default(number)),
    }
}

// what the first floating pointer of the search describes
fn tables_at(alloc: Global, image: &[u8], at: u64) -> Result<Tables, Refusal>
    requires inside { at + 16 ≤ length image.now }
    requires first { IsFirstPointerAt image.now at }
    ensures tables { IfOk result (Describes image.now) }
    ensures refused { IfErr result (IsCauseOf image.now) }
{
    let Some(pointer) = pointer_at(image, at as usize) else {
        unreachable!()
    };
    if let Some(fault) = pointer_fault(image.len() as u64, at as usize, &pointer) {
        return Err(Refusal::Fault(fault));
    }
    match body_of(alloc, image, &pointer) {
        Ok(body) => Ok(Tables { at, pointer, body }),
        Err(Stop::Fault(fault)) => Err(Refusal::Fault(fault)),
        Err(Stop::NoMemory) => Err(Refusal::NoMemory),
    }
}

// the answer of `read`, each with its cause
fn answer(alloc: Global, image: &[u8]) -> Result<Tables, Refusal>
    ensures tables { IfOk result (Describes image.now) }
    ensures refused { IfErr result (IsCauseOf image.now) }
{
    match find(image) {
        Some(at) => tables_at(alloc, image, at),
        None => Err(Refusal::NoPointer),
    }
}

/// What tables an image of low memory describes, or why it is refused (chapter 4).
///
/// The bytes of the image are those from address 0 on. It is refused where the search finds no
/// floating pointer, or for the first fault: the one at the lowest offset, and of those at one offset
/// the one with the lowest number. A table's faults come only behind a floating pointer without any.
/// The table of a default configuration isn't read. Where memory runs out, that is the answer.
pub fn read(alloc: Global, image: &[u8]) -> Result<Tables, Refusal>
    ensures tables { IfOk result (Describes image.now) }
    ensures refused { IfErr result (IsCauseOf image.now) }
    // Each answer comes exactly where it is right, unless memory runs out.
    ensures only_tables { (tables : TablesOf) → Describes image.now tables
        → AnswersTables result tables }
    ensures only_no_pointer { HasNoPointer image.now → result ≡ Err Refusal.NoPointer }
    ensures only_fault { (k : ℕ) (why : ReasonOf) → IsFirstFault image.now k why
        → AnswersFault result k why }
{
    answer(alloc, image)
}
