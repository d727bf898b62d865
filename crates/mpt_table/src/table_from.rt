//! The table over windows of a file: its header, then all of its bytes as an image of their own, in
//! which it stands at 0.

ghost use Rattle.std.specs.Prelude.{◌≡◌, ◌≢◌, ℕ, ◌+◌, ◌-◌, ◌≤◌, ◌<◌, ◌^◌, length, Some, Err, IfOk, IfErr};
ghost use Rattle.mpt_base.specs.Outside.{Rose, IsSizeTold};
ghost use Rattle.mpt_spec.specs.Table.{base_length_at, ext_length_at, IsConfigurationTable};
ghost use Rattle.mpt_spec.specs.Canonical.{IsWellFormedTable};
ghost use Rattle.mpt_spec.specs.Faults.{HasTableFaultAt, IsLeastFault};
ghost use Rattle.mpt_table.specs.Windows.{IfTold, IfFaultOf, IsTableRefusal};

use crate::header::{HEADER_LENGTH, base_length, ext_length};
use crate::reading::read_table;
use crate::refusal::FileRefusal;
use crate::window::{WindowFailure, window};
use mpt_base::{Fault, Shelf};
use mpt_entries::Stop;
use mpt_spec::Table;
use std::alloc::Global;

// the bytes of a table that lie in a file which has `room` bytes from the table's place on: both its
// parts, or the base table alone, or the header alone
fn table_bytes(header: &[u8], room: u64) -> usize
    requires header { length header.now ≡ 44 }
    requires room { 44 ≤ room }
    ensures header { 44 ≤ result }
    ensures inside { result ≤ room }
    ensures base { 44 ≤ base_length_at header.now 0 → base_length_at header.now 0 ≤ room
        → base_length_at header.now 0 ≤ result }
    ensures both { 44 ≤ base_length_at header.now 0
        → base_length_at header.now 0 + ext_length_at header.now 0 ≤ room
        → base_length_at header.now 0 + ext_length_at header.now 0 ≤ result }
    ensures most { result ≤ 131070 }
{
    let base = base_length(header, 0);
    let both = base + ext_length(header, 0);
    if base < HEADER_LENGTH || room < base as u64 {
        HEADER_LENGTH
    } else if room < both as u64 {
        base
    } else {
        both
    }
}

// the refusal for which a window isn't there
fn refusal_of(failure: WindowFailure) -> FileRefusal
    ensures read { result ≡ FileRefusal.Read → failure ≡ WindowFailure.Unread }
    ensures unread { failure ≡ WindowFailure.Unread → result ≡ FileRefusal.Read }
    ensures fault { IfFaultOf result (λ f. ⊥) }
    ensures refusal { IsTableRefusal result }
{
    match failure {
        WindowFailure::Unread => FileRefusal::Read,
        WindowFailure::NoMemory => FileRefusal::NoMemory,
    }
}

// the table that is the whole of these bytes, which stand at a place, or its first fault
fn table_in(alloc: Global, bytes: &[u8], at: u64) -> Result<Table, FileRefusal>
    requires header { 44 ≤ length bytes.now }
    requires fits { at + length bytes.now < 2 ^ 64 }
    ensures table { IfOk result (λ t. IsConfigurationTable t bytes.now 0) }
    ensures well_formed { IfOk result IsWellFormedTable }
    ensures fault { IfErr result (λ r. IfFaultOf r (λ f.
        IsLeastFault (HasTableFaultAt bytes.now 0) (f.at - at) f.why)) }
    ensures behind { IfErr result (λ r. IfFaultOf r (λ f. at ≤ f.at)) }
    ensures inside { IfErr result (λ r. IfFaultOf r (λ f. f.at < at + length bytes.now)) }
    ensures no_read { ¬ (result ≡ Err FileRefusal.Read) }
    ensures refusal { IfErr result IsTableRefusal }
{
    match read_table(alloc, bytes, 0) {
        Ok(table) => Ok(table),
        Err(Stop::Fault(fault)) => Err(FileRefusal::Fault(Fault {
            at: at + fault.at,
            why: fault.why,
        })),
        Err(Stop::NoMemory) => Err(FileRefusal::NoMemory),
    }
}

/// The table at a place of a file, or its first fault.
pub(crate) fn table_from<S: Shelf>(
    alloc: Global,
    shelf: &mut S,
    name: &str,
    size: u64,
    at: u64,
) -> Result<Table, FileRefusal>
    requires told { IsSizeTold (S.files shelf.old) name.now (Some size) }
    requires inside { at + 44 ≤ size }
    ensures files_stay { S.files shelf.new ≡ S.files shelf.old }
    ensures faults_never_fall { S.faults shelf.old ≤ S.faults shelf.new }
    ensures misses_stay { S.misses shelf.new ≡ S.misses shelf.old }
    ensures asks { S.asked shelf.new ≤ S.asked shelf.old + 131114 }
    ensures unread { result ≡ Err FileRefusal.Read → Rose (S.faults shelf.old) (S.faults shelf.new) }
    ensures unfailed { result ≢ Err FileRefusal.Read → S.faults shelf.new ≡ S.faults shelf.old }
    ensures table { IfOk result (λ t. IfTold (S.files shelf.old) name.now
        (λ image. IsConfigurationTable t image at)) }
    ensures fault { IfErr result (λ r. IfFaultOf r (λ f. IfTold (S.files shelf.old) name.now
        (λ image. IsLeastFault (HasTableFaultAt image at) f.at f.why))) }
    ensures well_formed { IfOk result IsWellFormedTable }
    ensures inside { IfErr result (λ r. IfFaultOf r (λ f. f.at < size)) }
    ensures refusal { IfErr result IsTableRefusal }
{
    let header = match window(alloc, shelf, name, at, HEADER_LENGTH) {
        Ok(header) => header,
        Err(failure) => return Err(refusal_of(failure)),
    };
    match window(alloc, shelf, name, at, table_bytes(&header, size - at)) {
        Ok(bytes) => table_in(alloc, &bytes, at),
        Err(failure) => Err(refusal_of(failure)),
    }
}
