//! What a form gives: the walk over its files, and the delivery of the answer.

ghost use Rattle.std.specs.Prelude.{◌≡◌, ◌≤◌, ◌+◌, ℕ, List};
ghost use Rattle.mptab_walk.specs.Forms.{IsInRange, files_of, form_of_still};
ghost use Rattle.mptab_walk.specs.Walk.{IsDueOf, IsDelivered, AsksOf, outside_of};

use crate::trace::give_of_trace;
use mpt_base::{Shelf, Sink};
use mptab_walk::{
    StillCommand, give_of_drill, give_of_madtcmp, give_of_pic, give_of_pircmp, give_of_replay,
    give_of_tables,
};
use std::alloc::Global;

/// Does what a form that needs no threads says, and answers the status.
pub(crate) fn give<S: Shelf, O: Sink>(
    alloc: Global,
    command: StillCommand,
    shelf: &mut S,
    out: &mut O,
) -> u8
    requires { IsInRange command }
    ensures due { (status : ℕ) × (text : List ℕ)
        × IsDueOf (S.files shelf.old) (outside_of S.Shelf O.Sink shelf.old out.old) (outside_of S.Shelf O.Sink shelf.new out.new) (form_of_still command.entry) status text
        × IsDelivered (outside_of S.Shelf O.Sink shelf.old out.old) (outside_of S.Shelf O.Sink shelf.new out.new) result status text }
    ensures files_stay { S.files shelf.new ≡ S.files shelf.old }
    ensures asks { (n : ℕ) × (S.asked shelf.new ≤ S.asked shelf.old + n) × AsksOf (S.files shelf.old) (files_of (form_of_still command.entry)) n }
{
    match command {
        StillCommand::OfTables(command) => give_of_tables(alloc, command, shelf, out),
        StillCommand::Trace(files) => give_of_trace(alloc, files, shelf, out),
        StillCommand::Drill(n) => give_of_drill(alloc, n, out),
        StillCommand::Replay(files) => give_of_replay(alloc, files, shelf, out),
        StillCommand::Madtcmp(files) => give_of_madtcmp(alloc, files, shelf, out),
        StillCommand::Pircmp(files) => give_of_pircmp(alloc, files, shelf, out),
        StillCommand::Pic(files) => give_of_pic(alloc, files, shelf, out),
    }
}
