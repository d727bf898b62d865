//! The step of the walk that takes calls of the pair of 8259A: its size, its limit, its bytes, the calls.

ghost use Rattle.std.specs.Prelude.{◌≡◌, ◌≤◌, ◌<◌, ◌+◌, ◌^◌, length, IfOk, IfErr};
ghost use Rattle.std.specs.List.{AllByRecursion};
ghost use Rattle.mpf_pic_lines.specs.Lines.{IsTextOf, IsPlayable};
ghost use Rattle.mptab_walk.specs.Forms.{Calls};
ghost use Rattle.mptab_walk.specs.Commands.{CallsGive};
ghost use Rattle.mptab_walk.specs.Walk.{most_of};
ghost use Rattle.mptab_walk.specs.Ending.{IsEnding, IsUndisturbed, shelves_of};
ghost use Rattle.mptab_walk.specs.Limited.{IsRefusedBy, RefusesCalls};

use crate::ending::{Ending, refused};
use crate::limited::take_bytes;
use crate::refusals::bad_calls;
use mpf_pic_lines::{PicFault, PicOp, parse_pic};
use mpt_base::Shelf;
use std::alloc::Global;

/// The most bytes of a text of calls: 1 MiB.
const CALLS_LIMIT: u64 = 1_048_576;

/// The calls in the text of this name, or why the walk ends there.
pub(crate) fn take_calls<S: Shelf>(
    alloc: Global,
    name: &str,
    shelf: &mut S,
) -> Result<Vec<PicOp>, Ending>
    ensures files_stay { S.files shelf.new ≡ S.files shelf.old }
    ensures quiet { IfOk result (λ ops. IsUndisturbed (shelves_of S.Shelf shelf.old shelf.new)) }
    ensures calls { IfOk result (λ ops. CallsGive (S.files shelf.old) name.now ops.items) }
    ensures playable { IfOk result (λ ops. AllByRecursion IsPlayable ops.items) }
    ensures ends { IfErr result (IsEnding (S.files shelf.old) (shelves_of S.Shelf shelf.old shelf.new) (Calls name.now)) }
    ensures asks { S.asked shelf.new ≤ S.asked shelf.old + most_of (S.files shelf.old) (Calls name.now) }
{
    match take_bytes(alloc, name, CALLS_LIMIT, shelf) {
        Ok(bytes) => calls_in(alloc, bytes.as_slice()),
        Err(ending) => Err(ending),
    }
}

// the calls that the text lists, or why it is refused
fn calls_in(alloc: Global, text: &[u8]) -> Result<Vec<PicOp>, Ending>
    requires { length text.now < 2 ^ 32 }
    ensures calls { IfOk result (λ ops. IsTextOf ops.items text.now) }
    ensures playable { IfOk result (λ ops. AllByRecursion IsPlayable ops.items) }
    ensures refused { IfErr result (IsRefusedBy (RefusesCalls text.now)) }
{
    match parse_pic(alloc, text) {
        Ok(ops) => Ok(ops),
        Err(PicFault::Line { line }) => Err(refused(bad_calls(alloc, line))),
        Err(PicFault::NoMemory) => Err(Ending::NoMemory),
    }
}
