//! The step of the walk that takes a script: its size, its limit, its bytes, the board that it describes
//! with the tables.

ghost use Rattle.std.specs.Prelude.{◌≡◌, ◌≤◌, ◌+◌, IfOk, IfErr};
ghost use Rattle.mpt_spec.specs.Canonical.{IsWellFormed};
ghost use Rattle.mptab_walk.specs.Forms.{Script as AScript};
ghost use Rattle.mptab_walk.specs.Commands.{ImageGives, IsGivenBoard};
ghost use Rattle.mptab_walk.specs.Walk.{most_of};
ghost use Rattle.mptab_walk.specs.Ending.{IsEnding, IsUndisturbed, shelves_of};
ghost use Rattle.mptab_walk.specs.Limited.{IsRefusedBy};
ghost use Rattle.mptab_walk.specs.Boards.{IsBoardIn, RefusesScript};

use crate::ending::{Ending, refused};
use crate::limited::take_bytes;
use crate::refusals::{bad_board, bad_script};
use crate::words::BoardFiles;
use mpb_boards::board;
use mpb_script::parse;
use mpb_spec::Config;
use mpt_base::Shelf;
use mpt_table::Tables;
use std::alloc::Global;

/// The most bytes of a script: 1 MiB.
const SCRIPT_LIMIT: u64 = 1_048_576;

/// The config of the board that the script describes with the tables of its image, or why the walk ends
/// there.
pub(crate) fn take_script<S: Shelf>(
    alloc: Global,
    files: BoardFiles,
    tables: &Tables,
    shelf: &mut S,
) -> Result<Config, Ending>
    requires tables { ImageGives (S.files shelf.old) files.image.now tables.now }
    requires well_formed { IsWellFormed tables.now }
    ensures files_stay { S.files shelf.new ≡ S.files shelf.old }
    ensures quiet { IfOk result (λ c. IsUndisturbed (shelves_of S.Shelf shelf.old shelf.new)) }
    ensures board { IfOk result (IsGivenBoard (S.files shelf.old) files.entry.image.now files.entry.script.now tables.now) }
    ensures ends { IfErr result (IsEnding (S.files shelf.old) (shelves_of S.Shelf shelf.old shelf.new) (AScript files.entry.image.now files.entry.script.now)) }
    ensures asks { S.asked shelf.new ≤ S.asked shelf.old + most_of (S.files shelf.old) (AScript files.entry.image.now files.entry.script.now) }
{
    match take_bytes(alloc, files.script, SCRIPT_LIMIT, shelf) {
        Ok(bytes) => board_in(alloc, tables, bytes.as_slice()),
        Err(ending) => Err(ending),
    }
}

// the config of the board that the text describes with the tables, or why it is refused
fn board_in(alloc: Global, tables: &Tables, text: &[u8]) -> Result<Config, Ending>
    requires { IsWellFormed tables.now }
    ensures board { IfOk result (IsBoardIn tables.now text.now) }
    ensures refused { IfErr result (IsRefusedBy (RefusesScript tables.now text.now)) }
{
    let script = match parse(alloc, text) {
        Ok(script) => script,
        Err(fault) => return Err(refused(bad_script(alloc, fault))),
    };
    match board(alloc, tables, &script) {
        Ok(config) => Ok(config),
        Err(error) => Err(refused(bad_board(alloc, error))),
    }
}
