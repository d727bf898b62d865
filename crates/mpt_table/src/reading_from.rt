//! The reader of an image by windows of a file.

ghost use Rattle.std.specs.Prelude.{◌≡◌, ◌≢◌, ℕ, ◌+◌, ◌≤◌, ◌<◌, ◌^◌, Some, Err, IfOk, IfErr};
ghost use Rattle.mpt_base.specs.Bytes.{part};
ghost use Rattle.mpt_base.specs.Outside.{Rose, IsSizeTold};
ghost use Rattle.mpt_base.specs.declared.fault.Reason.{Reason as ReasonOf};
ghost use Rattle.mpt_spec.specs.declared.tables.Tables.{Tables as TablesOf};
ghost use Rattle.mpt_spec.specs.Pointer.{IsFloatingPointer};
ghost use Rattle.mpt_spec.specs.Search.{IsFirstPointerAt, HasNoPointer};
ghost use Rattle.mpt_spec.specs.Table.{default_number, IsBodyOf, Describes};
ghost use Rattle.mpt_spec.specs.Canonical.{IsWellFormedBody, IsWellFormed};
ghost use Rattle.mpt_spec.specs.Faults.{HasTableFaultAt, IsFirstFault, IsLeastFault};
ghost use Rattle.mpt_table.specs.Header.{HasRightPointer};
ghost use Rattle.mpt_table.specs.Windows.{IfTold, IfFaultOf, IsTableRefusal, IsPlaceIn, IsFileCauseOf, IsTold, AnswersFileTables, AnswersNoPointer, AnswersFileFault};

use crate::pointer_fault::pointer_fault;
use crate::refusal::FileRefusal;
use crate::search_from::{Found, find_from};
use crate::table_from::table_from;
use crate::window::WindowFailure;
use mpt_base::Shelf;
use mpt_spec::{Body, Pointer, Tables};
use std::alloc::Global;

// what a right floating pointer names
fn body_from<S: Shelf>(
    alloc: Global,
    shelf: &mut S,
    name: &str,
    size: u64,
    pointer: &Pointer,
) -> Result<Body, FileRefusal>
    requires told { IsSizeTold (S.files shelf.old) name.now (Some size) }
    requires right { HasRightPointer pointer.now size }
    ensures files_stay { S.files shelf.new ≡ S.files shelf.old }
    ensures faults_never_fall { S.faults shelf.old ≤ S.faults shelf.new }
    ensures misses_stay { S.misses shelf.new ≡ S.misses shelf.old }
    ensures unread { result ≡ Err FileRefusal.Read → Rose (S.faults shelf.old) (S.faults shelf.new) }
    ensures unfailed { result ≢ Err FileRefusal.Read → S.faults shelf.new ≡ S.faults shelf.old }
    ensures asks { S.asked shelf.new ≤ S.asked shelf.old + 131114 }
    ensures body { IfOk result (λ b. IfTold (S.files shelf.old) name.now (λ image. IsBodyOf b pointer.now image)) }
    ensures well_formed { IfOk result (λ b. IsWellFormedBody b pointer.now) }
    ensures listed { IfErr result (λ r. default_number pointer.now ≡ 0) }
    ensures fault { IfErr result (λ r. IfFaultOf r (λ f. IfTold (S.files shelf.old) name.now
        (λ image. IsLeastFault (HasTableFaultAt image pointer.now.address) f.at f.why))) }
    ensures inside { IfErr result (λ r. IfFaultOf r (λ f. f.at < size)) }
    ensures refusal { IfErr result IsTableRefusal }
{
    if pointer.features[0] != 0 {
        return Ok(Body::Default(pointer.features[0]));
    }
    match table_from(alloc, shelf, name, size, u64::from(pointer.address)) {
        Ok(table) => Ok(Body::Listed(table)),
        Err(refusal) => Err(refusal),
    }
}

// what the first floating pointer of the search describes
fn tables_from<S: Shelf>(
    alloc: Global,
    shelf: &mut S,
    name: &str,
    size: u64,
    found: Found,
) -> Result<Tables, FileRefusal>
    requires told { IsSizeTold (S.files shelf.old) name.now (Some size) }
    requires place { IsPlaceIn size found.at }
    requires first { IfTold (S.files shelf.old) name.now (λ image. IsFirstPointerAt image found.at
        × IsFloatingPointer found.pointer (part image found.at 16)) }
    ensures files_stay { S.files shelf.new ≡ S.files shelf.old }
    ensures faults_never_fall { S.faults shelf.old ≤ S.faults shelf.new }
    ensures misses_stay { S.misses shelf.new ≡ S.misses shelf.old }
    ensures unread { result ≡ Err FileRefusal.Read → Rose (S.faults shelf.old) (S.faults shelf.new) }
    ensures unfailed { result ≢ Err FileRefusal.Read → S.faults shelf.new ≡ S.faults shelf.old }
    ensures asks { S.asked shelf.new ≤ S.asked shelf.old + 131114 }
    ensures tables { IfOk result (λ t. IfTold (S.files shelf.old) name.now (λ image. Describes image t)) }
    ensures refused { IfErr result (λ r. IfTold (S.files shelf.old) name.now (λ image. IsFileCauseOf image r)) }
    ensures well_formed { IfOk result IsWellFormed }
    ensures low { IfOk result (λ t. t.at < 2 ^ 32) }
    ensures inside { IfErr result (λ r. IfFaultOf r (λ f. f.at < size)) }
{
    let Found { at, pointer } = found;
    if let Some(fault) = pointer_fault(size, at as usize, &pointer) {
        return Err(FileRefusal::Fault(fault));
    }
    match body_from(alloc, shelf, name, size, &pointer) {
        Ok(body) => Ok(Tables { at, pointer, body }),
        Err(refusal) => Err(refusal),
    }
}

// the answer of `read_from`, each with its cause
fn answer_from<S: Shelf>(
    alloc: Global,
    shelf: &mut S,
    name: &str,
    size: u64,
) -> Result<Tables, FileRefusal>
    requires told { IsSizeTold (S.files shelf.old) name.now (Some size) }
    ensures files_stay { S.files shelf.new ≡ S.files shelf.old }
    ensures faults_never_fall { S.faults shelf.old ≤ S.faults shelf.new }
    ensures misses_stay { S.misses shelf.new ≡ S.misses shelf.old }
    ensures unread { result ≡ Err FileRefusal.Read → Rose (S.faults shelf.old) (S.faults shelf.new) }
    ensures unfailed { result ≢ Err FileRefusal.Read → S.faults shelf.new ≡ S.faults shelf.old }
    ensures asks { S.asked shelf.new ≤ S.asked shelf.old + 197694 }
    ensures tables { IfOk result (λ t. IfTold (S.files shelf.old) name.now (λ image. Describes image t)) }
    ensures refused { IfErr result (λ r. IfTold (S.files shelf.old) name.now (λ image. IsFileCauseOf image r)) }
    ensures well_formed { IfOk result IsWellFormed }
    ensures low { IfOk result (λ t. t.at < 2 ^ 32) }
    ensures inside { IfErr result (λ r. IfFaultOf r (λ f. f.at < size)) }
{
    match find_from(alloc, shelf, name, size) {
        Ok(Some(found)) => tables_from(alloc, shelf, name, size, found),
        Ok(None) => Err(FileRefusal::NoPointer),
        Err(WindowFailure::Unread) => Err(FileRefusal::Read),
        Err(WindowFailure::NoMemory) => Err(FileRefusal::NoMemory),
    }
}

/// What tables the image in a file of this size describes, or why it is refused (chapter 4): as
/// `read` answers, from windows of the file.
///
/// Read are the two words of the search, its areas one after the other, the header, and the table's
/// two parts: at most 197,694 bytes of an image of any size.
pub fn read_from<S: Shelf>(
    alloc: Global,
    shelf: &mut S,
    name: &str,
    size: u64,
) -> Result<Tables, FileRefusal>
    requires told { IsSizeTold (S.files shelf.old) name.now (Some size) }
    ensures files_stay { S.files shelf.new ≡ S.files shelf.old }
    ensures faults_never_fall { S.faults shelf.old ≤ S.faults shelf.new }
    ensures misses_stay { S.misses shelf.new ≡ S.misses shelf.old }
    ensures unread { result ≡ Err FileRefusal.Read → Rose (S.faults shelf.old) (S.faults shelf.new) }
    ensures unfailed { result ≢ Err FileRefusal.Read → S.faults shelf.new ≡ S.faults shelf.old }
    ensures asks { S.asked shelf.new ≤ S.asked shelf.old + 197694 }
    ensures tables { IfOk result (λ t. IfTold (S.files shelf.old) name.now (λ image. Describes image t)) }
    ensures refused { IfErr result (λ r. IfTold (S.files shelf.old) name.now (λ image. IsFileCauseOf image r)) }
    ensures well_formed { IfOk result IsWellFormed }
    ensures low { IfOk result (λ t. t.at < 2 ^ 32) }
    ensures inside { IfErr result (λ r. IfFaultOf r (λ f. f.at < size)) }
    // Where the files are told, each answer comes exactly where it is right, unless a read fails or
    // memory runs out.
    ensures only_tables { (tables : TablesOf) → IsTold (S.files shelf.old) name.now (λ image. Describes image tables)
        → AnswersFileTables result tables }
    ensures only_no_pointer { IsTold (S.files shelf.old) name.now HasNoPointer → AnswersNoPointer result }
    ensures only_fault { (k : ℕ) (why : ReasonOf)
        → IsTold (S.files shelf.old) name.now (λ image. IsFirstFault image k why)
        → AnswersFileFault result k why }
{
    answer_from(alloc, shelf, name, size)
}
