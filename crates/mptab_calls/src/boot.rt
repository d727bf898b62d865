//! What `boot` gives.

ghost use Rattle.std.specs.Prelude.{◌≡◌, ◌≤◌, ◌+◌, ℕ, List};
ghost use Rattle.mptab_walk.specs.Forms.{Boot, files_of};
ghost use Rattle.mptab_walk.specs.Walk.{IsDueOf, IsDelivered, AsksOf, outside_of};

use mpb_boot::{Gate, boot};
use mpt_base::{NoMemory, Shelf, Sink};
use mptab_walk::{BoardFiles, DONE, Ending, deliver_text, refuse, refuse_board, take_board};
use std::alloc::Global;
use std::sync::Wait;
use std::thread::Threads;

/// Delivers the report of a boot by threads of the board that the files describe, and answers the status.
/// Each agent's thread passes the gate before each of its turns. It may wait.
pub(crate) fn give_of_boot<R: Threads + Wait + Sync, S: Shelf, O: Sink, G: Gate + Sync>(
    rt: &R,
    alloc: Global,
    files: BoardFiles,
    shelf: &mut S,
    out: &mut O,
    gate: &G,
) -> u8
    ensures due { (status : ℕ) × (text : List ℕ)
        × IsDueOf (S.files shelf.old) (outside_of S.Shelf O.Sink shelf.old out.old) (outside_of S.Shelf O.Sink shelf.new out.new) (Boot files.entry.image.now files.entry.script.now) status text
        × IsDelivered (outside_of S.Shelf O.Sink shelf.old out.old) (outside_of S.Shelf O.Sink shelf.new out.new) result status text }
    ensures files_stay { S.files shelf.new ≡ S.files shelf.old }
    ensures asks { (n : ℕ) × (S.asked shelf.new ≤ S.asked shelf.old + n) × AsksOf (S.files shelf.old) (files_of (Boot files.entry.image.now files.entry.script.now)) n }
{
    match take_board(alloc, files, shelf) {
        Ok(config) => match boot(rt, alloc, config, gate) {
            Ok(text) => deliver_text(out, DONE, text.as_slice()),
            Err(NoMemory) => refuse(files.script, Ending::NoMemory, out),
        },
        Err(ending) => refuse_board(files, ending, out),
    }
}
