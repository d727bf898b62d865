//! The step of the walk that takes an image: its size, its limit, its tables by windows.

ghost use Rattle.std.specs.Prelude.{◌≡◌, ◌≤◌, ◌<◌, ◌+◌, ◌^◌, Some, IfOk, IfErr};
ghost use Rattle.mpt_base.specs.Outside.{IsSizeTold};
ghost use Rattle.mpt_spec.specs.Canonical.{IsWellFormed};
ghost use Rattle.mptab_walk.specs.Forms.{Image, limit_of, most_asked};
ghost use Rattle.mptab_walk.specs.Commands.{ImageGives};
ghost use Rattle.mptab_walk.specs.Walk.{most_of};
ghost use Rattle.mptab_walk.specs.Ending.{IsEnding, IsUndisturbed, shelves_of};

use crate::ending::{Ending, refused};
use crate::refusals::{first_fault, no_pointer};
use mpt_base::{Failed, Shelf};
use mpt_table::{FileRefusal, Tables, read_from};
use std::alloc::Global;

/// The most bytes of an image: 16 MiB.
const IMAGE_LIMIT: u64 = 16_777_216;

/// The tables of the image of this name, or why the walk ends there.
pub(crate) fn take_image<S: Shelf>(
    alloc: Global,
    name: &str,
    shelf: &mut S,
) -> Result<Tables, Ending>
    ensures files_stay { S.files shelf.new ≡ S.files shelf.old }
    ensures quiet { IfOk result (λ t. IsUndisturbed (shelves_of S.Shelf shelf.old shelf.new)) }
    ensures tables { IfOk result (λ t. ImageGives (S.files shelf.old) name.now t) }
    ensures well_formed { IfOk result IsWellFormed }
    ensures low { IfOk result (λ t. t.at < 2 ^ 32) }
    ensures ends { IfErr result (IsEnding (S.files shelf.old) (shelves_of S.Shelf shelf.old shelf.new) (Image name.now)) }
    ensures asks { S.asked shelf.new ≤ S.asked shelf.old + most_of (S.files shelf.old) (Image name.now) }
{
    match shelf.size(name) {
        Ok(None) => Err(Ending::Absent),
        Ok(Some(size)) if size > IMAGE_LIMIT => Err(Ending::TooLarge(size)),
        Ok(Some(size)) => image_of_size(alloc, name, size, shelf),
        Err(Failed) => Err(Ending::Unread),
    }
}

// the same for an image of this size
fn image_of_size<S: Shelf>(
    alloc: Global,
    name: &str,
    size: u64,
    shelf: &mut S,
) -> Result<Tables, Ending>
    requires told { IsSizeTold (S.files shelf.old) name.now (Some size) }
    requires within { size ≤ limit_of (Image name.now) }
    ensures files_stay { S.files shelf.new ≡ S.files shelf.old }
    ensures quiet { IfOk result (λ t. IsUndisturbed (shelves_of S.Shelf shelf.old shelf.new)) }
    ensures tables { IfOk result (λ t. ImageGives (S.files shelf.old) name.now t) }
    ensures well_formed { IfOk result IsWellFormed }
    ensures low { IfOk result (λ t. t.at < 2 ^ 32) }
    ensures ends { IfErr result (IsEnding (S.files shelf.old) (shelves_of S.Shelf shelf.old shelf.new) (Image name.now)) }
    ensures asks { S.asked shelf.new ≤ S.asked shelf.old + most_asked (Image name.now) size }
{
    match read_from(alloc, shelf, name, size) {
        Ok(tables) => Ok(tables),
        Err(FileRefusal::NoPointer) => Err(refused(no_pointer(alloc))),
        Err(FileRefusal::Fault(fault)) => Err(refused(first_fault(alloc, fault))),
        Err(FileRefusal::Read) => Err(Ending::Unread),
        Err(FileRefusal::NoMemory) => Err(Ending::NoMemory),
    }
}
