//! What `pic` gives.

ghost use Rattle.std.specs.Prelude.{◌≡◌, ◌≤◌, ◌<◌, ◌+◌, ◌^◌, ℕ, List, IfOk};
ghost use Rattle.std.specs.List.{AllByRecursion};
ghost use Rattle.mpt_spec.specs.Canonical.{IsWellFormed};
ghost use Rattle.mpt_route.specs.Platform.{platform_of};
ghost use Rattle.mpb_spec.specs.Plan.{plan_size};
ghost use Rattle.mpf_pic_lines.specs.Lines.{IsPlayable};
ghost use Rattle.mpf_played.specs.Played.{IsPlayedBehind};
ghost use Rattle.mptab_walk.specs.Forms.{Pic, Calls, files_of};
ghost use Rattle.mptab_walk.specs.Walk.{IsDueOf, IsDelivered, AsksOf, most_of, outside_of};
ghost use Rattle.mptab_walk.specs.Boards.{IsDescribed};

use crate::board::{Described, refuse_board, take_described};
use crate::calls_text::take_calls;
use crate::delivery::deliver_text;
use crate::ending::{Ending, refuse};
use crate::status::DONE;
use crate::words::PicFiles;
use mpb_spec::Config;
use mpf_pic_lines::PicOp;
use mpf_played::play_behind;
use mpt_base::{NoMemory, Shelf, Sink};
use mpt_route::platform_of;
use mpt_table::Tables;
use std::alloc::Global;

// the text of the calls behind the round robin of the config's board
fn played(
    alloc: Global,
    tables: &Tables,
    config: Config,
    ops: &[PicOp],
) -> Result<Vec<u8>, NoMemory>
    requires well_formed { IsWellFormed tables.now }
    requires small { plan_size config < 2 ^ 32 }
    requires playable { AllByRecursion IsPlayable ops.now }
    ensures { IfOk result (λ text. IsPlayedBehind config (platform_of tables.now) ops.now text.items) }
{
    match platform_of(alloc, tables) {
        Ok(platform) => play_behind(alloc, config, &platform, ops),
        Err(error) => Err(error),
    }
}

// takes the calls, and delivers what they answer
fn give_of_calls<S: Shelf, O: Sink>(
    alloc: Global,
    files: PicFiles,
    tables: &Tables,
    config: Config,
    shelf: &mut S,
    out: &mut O,
) -> u8
    requires { IsDescribed (S.files shelf.old) files.board.image.now files.board.script.now tables.now config }
    ensures due { (status : ℕ) × (text : List ℕ)
        × IsDueOf (S.files shelf.old) (outside_of S.Shelf O.Sink shelf.old out.old) (outside_of S.Shelf O.Sink shelf.new out.new) (Pic files.entry.board.image.now files.entry.board.script.now files.entry.calls.now) status text
        × IsDelivered (outside_of S.Shelf O.Sink shelf.old out.old) (outside_of S.Shelf O.Sink shelf.new out.new) result status text }
    ensures files_stay { S.files shelf.new ≡ S.files shelf.old }
    ensures asks { S.asked shelf.new ≤ S.asked shelf.old + most_of (S.files shelf.old) (Calls files.entry.calls.now) }
{
    match take_calls(alloc, files.calls, shelf) {
        Ok(ops) => match played(alloc, tables, config, ops.as_slice()) {
            Ok(text) => deliver_text(out, DONE, text.as_slice()),
            Err(NoMemory) => refuse(files.calls, Ending::NoMemory, out),
        },
        Err(ending) => refuse(files.calls, ending, out),
    }
}

/// Delivers what the calls answer on the pair of 8259A of the board that the other files describe, as the
/// round robin leaves it, and answers the status.
pub fn give_of_pic<S: Shelf, O: Sink>(
    alloc: Global,
    files: PicFiles,
    shelf: &mut S,
    out: &mut O,
) -> u8
    ensures due { (status : ℕ) × (text : List ℕ)
        × IsDueOf (S.files shelf.old) (outside_of S.Shelf O.Sink shelf.old out.old) (outside_of S.Shelf O.Sink shelf.new out.new) (Pic files.entry.board.image.now files.entry.board.script.now files.entry.calls.now) status text
        × IsDelivered (outside_of S.Shelf O.Sink shelf.old out.old) (outside_of S.Shelf O.Sink shelf.new out.new) result status text }
    ensures files_stay { S.files shelf.new ≡ S.files shelf.old }
    ensures asks { (n : ℕ) × (S.asked shelf.new ≤ S.asked shelf.old + n) × AsksOf (S.files shelf.old) (files_of (Pic files.entry.board.image.now files.entry.board.script.now files.entry.calls.now)) n }
{
    match take_described(alloc, files.board, shelf) {
        Ok(described) => {
            let Described { tables, config } = described;
            give_of_calls(alloc, files, &tables, config, shelf, out)
        }
        Err(ending) => refuse_board(files.board, ending, out),
    }
}
