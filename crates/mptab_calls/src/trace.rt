//! What `trace` gives.

ghost use Rattle.std.specs.Prelude.{◌≡◌, ◌≤◌, ◌+◌, ℕ, List};
ghost use Rattle.mptab_walk.specs.Forms.{Trace, files_of};
ghost use Rattle.mptab_walk.specs.Walk.{IsDueOf, IsDelivered, AsksOf, outside_of};

use mpb_boot::trace;
use mpt_base::{NoMemory, Shelf, Sink};
use mptab_walk::{BoardFiles, DONE, Ending, deliver_text, refuse, refuse_board, take_board};
use std::alloc::Global;

/// Delivers the report of the round robin of the board that the files describe, and answers the status.
pub(crate) fn give_of_trace<S: Shelf, O: Sink>(
    alloc: Global,
    files: BoardFiles,
    shelf: &mut S,
    out: &mut O,
) -> u8
    ensures due { (status : ℕ) × (text : List ℕ)
        × IsDueOf (S.files shelf.old) (outside_of S.Shelf O.Sink shelf.old out.old) (outside_of S.Shelf O.Sink shelf.new out.new) (Trace files.entry.image.now files.entry.script.now) status text
        × IsDelivered (outside_of S.Shelf O.Sink shelf.old out.old) (outside_of S.Shelf O.Sink shelf.new out.new) result status text }
    ensures files_stay { S.files shelf.new ≡ S.files shelf.old }
    ensures asks { (n : ℕ) × (S.asked shelf.new ≤ S.asked shelf.old + n) × AsksOf (S.files shelf.old) (files_of (Trace files.entry.image.now files.entry.script.now)) n }
{
    match take_board(alloc, files, shelf) {
        Ok(config) => match trace(alloc, config) {
            Ok(text) => deliver_text(out, DONE, text.as_slice()),
            Err(NoMemory) => refuse(files.script, Ending::NoMemory, out),
        },
        Err(ending) => refuse_board(files, ending, out),
    }
}
