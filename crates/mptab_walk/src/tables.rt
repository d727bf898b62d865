//! What a form over tables gives.

ghost use Rattle.std.specs.Prelude.{◌≡◌, ◌≤◌, ◌+◌, ℕ, List};
ghost use Rattle.mptab_walk.specs.Forms.{files_of, form_of_tables};
ghost use Rattle.mptab_walk.specs.Walk.{IsDueOf, IsDelivered, AsksOf, outside_of};

use crate::answer::answer_to;
use crate::ending::{deliver_answer, refuse};
use crate::source::take;
use crate::words::{TablesCommand, name_in, source_named};
use mpt_base::{Shelf, Sink};
use std::alloc::Global;

/// Does what a form over tables says, and answers the status.
pub fn give_of_tables<S: Shelf, O: Sink>(
    alloc: Global,
    command: TablesCommand,
    shelf: &mut S,
    out: &mut O,
) -> u8
    ensures due { (status : ℕ) × (text : List ℕ)
        × IsDueOf (S.files shelf.old) (outside_of S.Shelf O.Sink shelf.old out.old) (outside_of S.Shelf O.Sink shelf.new out.new) (form_of_tables command.entry) status text
        × IsDelivered (outside_of S.Shelf O.Sink shelf.old out.old) (outside_of S.Shelf O.Sink shelf.new out.new) result status text }
    ensures files_stay { S.files shelf.new ≡ S.files shelf.old }
    ensures asks { (n : ℕ) × (S.asked shelf.new ≤ S.asked shelf.old + n) × AsksOf (S.files shelf.old) (files_of (form_of_tables command.entry)) n }
{
    let source = source_named(command);
    match take(alloc, source, shelf) {
        Ok(tables) => deliver_answer(answer_to(alloc, command, tables), out),
        Err(ending) => refuse(name_in(source), ending, out),
    }
}
