//! The bytes of a file that is read whole, where its size is within its limit.

ghost use Rattle.std.specs.Prelude.{◌≡◌, ◌≤◌, ◌+◌, length, Some, IfOk, IfErr};
ghost use Rattle.mpt_base.specs.Outside.{IsSizeTold};
ghost use Rattle.mpt_table.specs.Windows.{IfTold};
ghost use Rattle.mptab_walk.specs.Forms.{Named, name_of, limit_of};
ghost use Rattle.mptab_walk.specs.Ending.{IsEnding, IsUndisturbed, shelves_of};
ghost use Rattle.mptab_walk.specs.Limited.{IsHeldWithin, IsUnreadEnding, most_within};

use crate::ending::Ending;
use crate::file::{FileFailure, read_whole};
use mpt_base::{Failed, Shelf};
use std::alloc::Global;

/// The bytes of the file of this name and limit, or why the walk ends there.
pub(crate) fn take_bytes<S: Shelf>(
    alloc: Global,
    name: &str,
    limit: u64,
    shelf: &mut S,
) -> Result<Vec<u8>, Ending>
    ensures files_stay { S.files shelf.new ≡ S.files shelf.old }
    ensures quiet { IfOk result (λ bytes. IsUndisturbed (shelves_of S.Shelf shelf.old shelf.new)) }
    ensures bytes { IfOk result (λ bytes. IsHeldWithin (S.files shelf.old) name.now limit bytes.items) }
    ensures ends { (file : Named) → name_of file ≡ name.now → limit_of file ≡ limit → IfErr result (IsEnding (S.files shelf.old) (shelves_of S.Shelf shelf.old shelf.new) file) }
    ensures asks { S.asked shelf.new ≤ S.asked shelf.old + most_within (S.files shelf.old) name.now limit }
{
    match shelf.size(name) {
        Ok(None) => Err(Ending::Absent),
        Ok(Some(size)) if size > limit => Err(Ending::TooLarge(size)),
        Ok(Some(size)) => bytes_of_size(alloc, name, size, shelf),
        Err(Failed) => Err(Ending::Unread),
    }
}

// the bytes of a file of this size, or that it can't be read, or that memory ran out
fn bytes_of_size<S: Shelf>(
    alloc: Global,
    name: &str,
    size: u64,
    shelf: &mut S,
) -> Result<Vec<u8>, Ending>
    requires { IsSizeTold (S.files shelf.old) name.now (Some size) }
    ensures files_stay { S.files shelf.new ≡ S.files shelf.old }
    ensures quiet { IfOk result (λ bytes. IsUndisturbed (shelves_of S.Shelf shelf.old shelf.new)) }
    ensures size { IfOk result (λ bytes. length bytes.items ≡ size) }
    ensures held { IfOk result (λ bytes. IfTold (S.files shelf.old) name.now (λ file. file ≡ bytes.items)) }
    ensures ends { IfErr result (IsUnreadEnding (shelves_of S.Shelf shelf.old shelf.new)) }
    ensures asks { S.asked shelf.new ≤ S.asked shelf.old + size }
{
    match read_whole(alloc, shelf, name, size) {
        Ok(bytes) => Ok(bytes),
        Err(FileFailure::Unread) => Err(Ending::Unread),
        Err(FileFailure::NoMemory) => Err(Ending::NoMemory),
    }
}
