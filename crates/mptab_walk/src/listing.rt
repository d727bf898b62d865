//! The step of the walk that takes a listing: its size, its limit, its bytes, the tables that it lists.

ghost use Rattle.std.specs.Prelude.{◌≡◌, ◌≤◌, ◌<◌, ◌+◌, ◌^◌, length, IfOk, IfErr};
ghost use Rattle.mpt_spec.specs.Canonical.{IsWellFormed, FitsInImage};
ghost use Rattle.mpt_parse.specs.Listings.{IsListingOf};
ghost use Rattle.mptab_walk.specs.Forms.{Listing};
ghost use Rattle.mptab_walk.specs.Commands.{ListingGives};
ghost use Rattle.mptab_walk.specs.Walk.{most_of};
ghost use Rattle.mptab_walk.specs.Ending.{IsEnding, IsUndisturbed, shelves_of};
ghost use Rattle.mptab_walk.specs.Limited.{IsRefusedBy, RefusesListing};

use crate::ending::{Ending, refused};
use crate::limited::take_bytes;
use crate::refusals::{bad_line, unfit};
use mpt_base::Shelf;
use mpt_parse::{ListingFault, parse};
use mpt_table::Tables;
use std::alloc::Global;

/// The most bytes of a listing: 4 MiB.
const LISTING_LIMIT: u64 = 4_194_304;

/// The tables of the listing of this name, or why the walk ends there.
pub(crate) fn take_listing<S: Shelf>(
    alloc: Global,
    name: &str,
    shelf: &mut S,
) -> Result<Tables, Ending>
    ensures files_stay { S.files shelf.new ≡ S.files shelf.old }
    ensures quiet { IfOk result (λ t. IsUndisturbed (shelves_of S.Shelf shelf.old shelf.new)) }
    ensures tables { IfOk result (λ t. ListingGives (S.files shelf.old) name.now t) }
    ensures well_formed { IfOk result IsWellFormed }
    ensures low { IfOk result (λ t. t.at < 2 ^ 32) }
    ensures ends { IfErr result (IsEnding (S.files shelf.old) (shelves_of S.Shelf shelf.old shelf.new) (Listing name.now)) }
    ensures asks { S.asked shelf.new ≤ S.asked shelf.old + most_of (S.files shelf.old) (Listing name.now) }
{
    match take_bytes(alloc, name, LISTING_LIMIT, shelf) {
        Ok(bytes) => tables_in(alloc, bytes.as_slice()),
        Err(ending) => Err(ending),
    }
}

// the tables that the text lists, or why it is refused
fn tables_in(alloc: Global, text: &[u8]) -> Result<Tables, Ending>
    requires { length text.now < 2 ^ 32 }
    ensures fits { IfOk result FitsInImage }
    ensures tables { IfOk result (λ t. IsListingOf t text.now) }
    ensures refused { IfErr result (IsRefusedBy (RefusesListing text.now)) }
{
    match parse(alloc, text) {
        Ok(tables) => Ok(tables),
        Err(ListingFault::Line { line, why }) => Err(refused(bad_line(alloc, line, why))),
        Err(ListingFault::DoesNotFit { bytes }) => Err(refused(unfit(alloc, bytes))),
        Err(ListingFault::NoMemory) => Err(Ending::NoMemory),
    }
}
