//! The file that gives a form its tables.

ghost use Rattle.std.specs.Prelude.{◌≡◌, ◌≤◌, ◌<◌, ◌+◌, ◌^◌, IfOk, IfErr};
ghost use Rattle.mpt_spec.specs.Canonical.{IsWellFormed};
ghost use Rattle.mptab_walk.specs.Forms.{named_of};
ghost use Rattle.mptab_walk.specs.Commands.{GivesTables};
ghost use Rattle.mptab_walk.specs.Walk.{most_of};
ghost use Rattle.mptab_walk.specs.Ending.{IsEnding, IsUndisturbed, shelves_of};

use crate::ending::Ending;
use crate::image::take_image;
use crate::listing::take_listing;
use crate::words::Source;
use mpt_base::Shelf;
use mpt_table::Tables;
use std::alloc::Global;

/// The tables that the file gives, or why the walk ends there.
pub(crate) fn take<S: Shelf>(alloc: Global, source: Source, shelf: &mut S) -> Result<Tables, Ending>
    ensures files_stay { S.files shelf.new ≡ S.files shelf.old }
    ensures quiet { IfOk result (λ t. IsUndisturbed (shelves_of S.Shelf shelf.old shelf.new)) }
    ensures tables { IfOk result (λ t. GivesTables (S.files shelf.old) source.entry t) }
    ensures well_formed { IfOk result IsWellFormed }
    ensures low { IfOk result (λ t. t.at < 2 ^ 32) }
    ensures ends { IfErr result (IsEnding (S.files shelf.old) (shelves_of S.Shelf shelf.old shelf.new) (named_of source.entry)) }
    ensures asks { S.asked shelf.new ≤ S.asked shelf.old + most_of (S.files shelf.old) (named_of source.entry) }
{
    match source {
        Source::Image(name) => take_image(alloc, name, shelf),
        Source::Listing(name) => take_listing(alloc, name, shelf),
    }
}
