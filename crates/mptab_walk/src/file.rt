//! The reading of a whole file, in pieces.

ghost use Rattle.std.specs.Prelude.{◌≡◌, ◌≢◌, ◌≤◌, ◌+◌, length, Some, Err, OnOk, OnErr, IfOk};
ghost use Rattle.mpt_base.specs.Outside.{Rose, IsSizeTold};
ghost use Rattle.mpt_table.specs.Windows.{IfTold};

use mpt_base::{Failed, Shelf};
use std::alloc::{AllocError, Global};

/// The bytes of a piece; the last may be shorter.
const PIECE: usize = 65536;

/// Why a file wasn't read.
#[derive(Clone, Copy)]
pub(crate) enum FileFailure {
    /// The shelf failed.
    Unread,
    /// Memory ran out.
    NoMemory,
}

/// The bytes of a file of this size. The first call of the shelf that fails ends it.
pub(crate) fn read_whole<S: Shelf>(
    alloc: Global,
    shelf: &mut S,
    name: &str,
    size: u64,
) -> Result<Vec<u8>, FileFailure>
    requires told { IsSizeTold (S.files shelf.old) name.now (Some size) }
    ensures files_stay { S.files shelf.new ≡ S.files shelf.old }
    ensures misses_stay { S.misses shelf.new ≡ S.misses shelf.old }
    ensures unread { result ≡ Err FileFailure.Unread → Rose (S.faults shelf.old) (S.faults shelf.new) }
    ensures unfailed { result ≢ Err FileFailure.Unread → S.faults shelf.new ≡ S.faults shelf.old }
    ensures asks { S.asked shelf.new ≤ S.asked shelf.old + size }
    ensures all { IfOk result (λ bytes. length bytes.items ≡ size) }
    ensures told { IfOk result (λ bytes. IfTold (S.files shelf.old) name.now (λ file. file ≡ bytes.items)) }
{
    let Ok(mut bytes) = zeros(alloc, size as usize) else {
        return Err(FileFailure::NoMemory);
    };
    match fill(shelf, name, &mut bytes) {
        Ok(()) => Ok(bytes),
        Err(Failed) => Err(FileFailure::Unread),
    }
}

fn zeros(alloc: Global, len: usize) -> Result<Vec<u8>, AllocError>
    ensures { IfOk result (λ v. length v.items ≡ len) }
{
    vec![in alloc; 0; len]
}

// fills the buffer, which is as long as the file, piece by piece
fn fill<S: Shelf>(shelf: &mut S, name: &str, buf: &mut [u8]) -> Result<(), Failed>
    requires { IsSizeTold (S.files shelf.old) name.now (Some (length buf.old)) }
    ensures files_stay { S.files shelf.new ≡ S.files shelf.old }
    ensures misses_stay { S.misses shelf.new ≡ S.misses shelf.old }
    ensures err { OnErr result (Rose (S.faults shelf.old) (S.faults shelf.new)) }
    ensures unfailed { OnOk result (S.faults shelf.new ≡ S.faults shelf.old) }
    ensures asks { S.asked shelf.new ≤ S.asked shelf.old + length buf.old }
    ensures ok { OnOk result (IfTold (S.files shelf.old) name.now (λ file. file ≡ buf.new)) }
{
    let len = buf.len();
    let mut at = 0;
    while at < len {
        let end = len.min(at + PIECE);
        if let Err(failed) = shelf.read_at(name, at as u64, &mut buf[at..end]) {
            return Err(failed);
        }
        at = end;
    }
    Ok(())
}
