//! Windows of a file: some of its bytes, read at once.

ghost use Rattle.std.specs.Prelude.{◌≡◌, ◌≢◌, ◌+◌, ◌≤◌, ◌<◌, ◌^◌, length, Some, Err, IfOk, OnErr, OnOk};
ghost use Rattle.mpt_base.specs.Outside.{Rose, IsSizeTold, IsInsideTold, FillsFromTold};
ghost use Rattle.mpt_spec.specs.Search.{word_at as search_word};
ghost use Rattle.mpt_table.specs.Windows.{IfTold};

use mpt_base::{Failed, Shelf, u16_at};
use std::alloc::{AllocError, Global};

/// Why a window isn't there.
#[derive(Clone, Copy, Debug, PartialEq, Eq)]
pub(crate) enum WindowFailure {
    /// The shelf failed.
    Unread,
    /// Memory ran out.
    NoMemory,
}

fn zeros(alloc: Global, len: usize) -> Result<Vec<u8>, AllocError>
    ensures { IfOk result (λ v. length v.items ≡ len) }
{
    vec![in alloc; 0; len]
}

/// The `len` bytes of a file from `at` on.
pub(crate) fn window<S: Shelf>(
    alloc: Global,
    shelf: &mut S,
    name: &str,
    at: u64,
    len: usize,
) -> Result<Vec<u8>, WindowFailure>
    requires inside { IsInsideTold (S.files shelf.old) name.now at len }
    ensures files_stay { S.files shelf.new ≡ S.files shelf.old }
    ensures faults_never_fall { S.faults shelf.old ≤ S.faults shelf.new }
    ensures misses_stay { S.misses shelf.new ≡ S.misses shelf.old }
    ensures asks { S.asked shelf.new ≤ S.asked shelf.old + len }
    ensures told { IfOk result (λ bytes.
        FillsFromTold (S.files shelf.old) name.now at bytes.items) }
    ensures all { IfOk result (λ bytes. length bytes.items ≡ len) }
    ensures unread { result ≡ Err WindowFailure.Unread
        → Rose (S.faults shelf.old) (S.faults shelf.new) }
    ensures unfailed { result ≢ Err WindowFailure.Unread → S.faults shelf.new ≡ S.faults shelf.old }
{
    let Ok(mut bytes) = zeros(alloc, len) else {
        return Err(WindowFailure::NoMemory);
    };
    match shelf.read_at(name, at, &mut bytes) {
        Ok(()) => Ok(bytes),
        Err(Failed) => Err(WindowFailure::Unread),
    }
}

/// The word at a place of a file of this size, 0 where it isn't whole in it.
pub(crate) fn word_from<S: Shelf>(
    shelf: &mut S,
    name: &str,
    size: u64,
    at: u64,
) -> Result<u16, Failed>
    requires told { IsSizeTold (S.files shelf.old) name.now (Some size) }
    requires low { at < 2 ^ 32 }
    ensures files_stay { S.files shelf.new ≡ S.files shelf.old }
    ensures faults_never_fall { S.faults shelf.old ≤ S.faults shelf.new }
    ensures misses_stay { S.misses shelf.new ≡ S.misses shelf.old }
    ensures asks { S.asked shelf.new ≤ S.asked shelf.old + 2 }
    ensures told { IfOk result (λ word. IfTold (S.files shelf.old) name.now (λ image. word ≡ search_word image at)) }
    ensures unread { OnErr result (Rose (S.faults shelf.old) (S.faults shelf.new)) }
    ensures unfailed { OnOk result (S.faults shelf.new ≡ S.faults shelf.old) }
{
    if size < at + 2 {
        return Ok(0);
    }
    let mut bytes = [0; 2];
    match shelf.read_at(name, at, &mut bytes) {
        Ok(()) => Ok(u16_at(&bytes, 0)),
        Err(Failed) => Err(Failed),
    }
}
