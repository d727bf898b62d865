//! The steps of the walk that come to a board: its image, and then its script.

ghost use Rattle.std.specs.Prelude.{◌≡◌, ◌≤◌, ◌+◌, IfOk, IfErr};
ghost use Rattle.mptab_walk.specs.Forms.{Image, Script};
ghost use Rattle.mptab_walk.specs.Walk.{IsDelivered, most_of, outside};
ghost use Rattle.mptab_walk.specs.Ending.{IsUndisturbed, shelves_of};
ghost use Rattle.mptab_walk.specs.Boards.{IsDescribed, IsBoardGiven, IsBoardEnding, HasAskedForEnd, board_ending_status, board_ending_text};

use crate::ending::{Ending, refuse};
use crate::image::take_image;
use crate::script::take_script;
use crate::words::BoardFiles;
use mpb_spec::Config;
use mpt_base::{Shelf, Sink};
use mpt_table::Tables;
use std::alloc::Global;

/// At which of a board's files the walk ends, and why.
#[derive(Drop)]
pub enum BoardEnding {
    /// At the image.
    AtImage(Ending),
    /// At the script.
    AtScript(Ending),
}

/// The tables of an image, and the config of the board that a script describes with them.
#[derive(Drop)]
pub(crate) struct Described {
    pub(crate) tables: Tables,
    pub(crate) config: Config,
}

/// The tables of the image, and the config of the board that the script describes with them, or where the
/// walk ends.
pub(crate) fn take_described<S: Shelf>(
    alloc: Global,
    files: BoardFiles,
    shelf: &mut S,
) -> Result<Described, BoardEnding>
    ensures files_stay { S.files shelf.new ≡ S.files shelf.old }
    ensures quiet { IfOk result (λ d. IsUndisturbed (shelves_of S.Shelf shelf.old shelf.new)) }
    ensures board { IfOk result (λ d. IsDescribed (S.files shelf.old) files.entry.image.now files.entry.script.now d.tables d.config) }
    ensures ends { IfErr result (IsBoardEnding (S.files shelf.old) (shelves_of S.Shelf shelf.old shelf.new) files.entry.image.now files.entry.script.now) }
    ensures asks { IfOk result (λ d. S.asked shelf.new ≤ S.asked shelf.old
        + (most_of (S.files shelf.old) (Image files.entry.image.now) + most_of (S.files shelf.old) (Script files.entry.image.now files.entry.script.now))) }
    ensures asks_at_end { IfErr result (HasAskedForEnd (S.files shelf.old) (S.asked shelf.old) (S.asked shelf.new)
        files.entry.image.now files.entry.script.now) }
{
    match take_image(alloc, files.image, shelf) {
        Ok(tables) => match take_script(alloc, files, &tables, shelf) {
            Ok(config) => Ok(Described { tables, config }),
            Err(ending) => Err(BoardEnding::AtScript(ending)),
        },
        Err(ending) => Err(BoardEnding::AtImage(ending)),
    }
}

/// The config of the board that image and script describe, or where the walk ends.
pub fn take_board<S: Shelf>(
    alloc: Global,
    files: BoardFiles,
    shelf: &mut S,
) -> Result<Config, BoardEnding>
    ensures files_stay { S.files shelf.new ≡ S.files shelf.old }
    ensures quiet { IfOk result (λ c. IsUndisturbed (shelves_of S.Shelf shelf.old shelf.new)) }
    ensures board { IfOk result (IsBoardGiven (S.files shelf.old) files.entry.image.now files.entry.script.now) }
    ensures ends { IfErr result (IsBoardEnding (S.files shelf.old) (shelves_of S.Shelf shelf.old shelf.new) files.entry.image.now files.entry.script.now) }
    ensures asks { IfOk result (λ c. S.asked shelf.new ≤ S.asked shelf.old
        + (most_of (S.files shelf.old) (Image files.entry.image.now) + most_of (S.files shelf.old) (Script files.entry.image.now files.entry.script.now))) }
    ensures asks_at_end { IfErr result (HasAskedForEnd (S.files shelf.old) (S.asked shelf.old) (S.asked shelf.new)
        files.entry.image.now files.entry.script.now) }
{
    match take_described(alloc, files, shelf) {
        Ok(described) => Ok(described.config),
        Err(ending) => Err(ending),
    }
}

/// Says why the walk ends at one of these files, and answers the status. It takes no memory.
pub fn refuse_board<O: Sink>(files: BoardFiles, ending: BoardEnding, out: &mut O) -> u8
    ensures { IsDelivered (outside 0 0 0 (O.faults out.old) (O.written out.old))
        (outside 0 0 0 (O.faults out.new) (O.written out.new))
        result (board_ending_status ending) (board_ending_text files.entry.image.now files.entry.script.now ending) }
{
    match ending {
        BoardEnding::AtImage(ending) => refuse(files.image, ending, out),
        BoardEnding::AtScript(ending) => refuse(files.script, ending, out),
    }
}
