//! What `madtcmp` gives.

ghost use Rattle.std.specs.Prelude.{◌≡◌, ◌≤◌, ◌<◌, ◌+◌, ◌^◌, ℕ, List, IfOk};
ghost use Rattle.mpt_spec.specs.Canonical.{IsWellFormed};
ghost use Rattle.mpt_route.specs.Platform.{platform_of, IsSmallPlatform};
ghost use Rattle.mpt_route.specs.Routes.{routes_of};
ghost use Rattle.mpf_answers.specs.LineDifferences.{line_differences_of};
ghost use Rattle.mptab_walk.specs.Forms.{Madtcmp, AcpiTable, files_of};
ghost use Rattle.mptab_walk.specs.Commands.{ImageGives, IsMadtCompared, status_of};
ghost use Rattle.mptab_walk.specs.Walk.{IsDueOf, IsDelivered, AsksOf, most_of, outside_of};

use crate::answer::Answer;
use crate::ending::{deliver_answer, refuse};
use crate::firmware::take_madt;
use crate::image::take_image;
use crate::status::{DONE, FINDINGS};
use crate::words::MadtFiles;
use mpf_answers::{LineDifference, line_differences, print_line_differences};
use mpf_madt::Madt;
use mpt_base::{NoMemory, Shelf, Sink};
use mpt_route::{Platform, platform_of, routes};
use mpt_table::Tables;
use std::alloc::Global;

// the ISA interrupts of which the MADT says other lines than the routes of the tables
fn found_in(
    alloc: Global,
    tables: &Tables,
    elcr: u16,
    madt: &Madt,
) -> Result<Vec<LineDifference>, NoMemory>
    requires { IsWellFormed tables.now }
    ensures { IfOk result (λ found. found.items ≡ line_differences_of (platform_of tables.now) (routes_of (platform_of tables.now) elcr) madt.now) }
{
    match platform_of(alloc, tables) {
        Ok(platform) => found_on(alloc, &platform, elcr, madt),
        Err(error) => Err(error),
    }
}

// the same of the routes of a platform
fn found_on(
    alloc: Global,
    platform: &Platform,
    elcr: u16,
    madt: &Madt,
) -> Result<Vec<LineDifference>, NoMemory>
    requires { IsSmallPlatform platform.now }
    ensures { IfOk result (λ found. found.items ≡ line_differences_of platform.now (routes_of platform.now elcr) madt.now) }
{
    match routes(alloc, platform, elcr) {
        Ok(answers) => line_differences(alloc, platform, answers.as_slice(), madt),
        Err(error) => Err(error),
    }
}

// their lines, and 1 where there is one
fn compared(alloc: Global, tables: &Tables, elcr: u16, madt: &Madt) -> Result<Answer, NoMemory>
    requires { IsWellFormed tables.now }
    ensures { IfOk result (λ answer. IsMadtCompared elcr tables.now madt.now answer.status answer.text.items) }
{
    let Ok(found) = found_in(alloc, tables, elcr, madt) else {
        return Err(NoMemory);
    };
    let differences = found.as_slice();
    match print_line_differences(alloc, differences) {
        Ok(text) => Ok(Answer {
            status: status_of(differences),
            text,
        }),
        Err(error) => Err(error),
    }
}

fn status_of(found: &[LineDifference]) -> u8
    ensures { result ≡ status_of found.now }
{
    if found.is_empty() { DONE } else { FINDINGS }
}

// takes the MADT, and delivers where it differs
fn give_of_madt<S: Shelf, O: Sink>(
    alloc: Global,
    files: MadtFiles,
    tables: &Tables,
    shelf: &mut S,
    out: &mut O,
) -> u8
    requires gives { ImageGives (S.files shelf.old) files.image.now tables.now }
    requires well_formed { IsWellFormed tables.now }
    requires low { tables.now.at < 2 ^ 32 }
    ensures due { (status : ℕ) × (text : List ℕ)
        × IsDueOf (S.files shelf.old) (outside_of S.Shelf O.Sink shelf.old out.old) (outside_of S.Shelf O.Sink shelf.new out.new) (Madtcmp files.entry.image.now files.entry.elcr files.entry.madt.now) status text
        × IsDelivered (outside_of S.Shelf O.Sink shelf.old out.old) (outside_of S.Shelf O.Sink shelf.new out.new) result status text }
    ensures files_stay { S.files shelf.new ≡ S.files shelf.old }
    ensures asks { S.asked shelf.new ≤ S.asked shelf.old + most_of (S.files shelf.old) (AcpiTable files.entry.madt.now) }
{
    match take_madt(alloc, files.madt, shelf) {
        Ok(madt) => deliver_answer(compared(alloc, tables, files.elcr, &madt), out),
        Err(ending) => refuse(files.madt, ending, out),
    }
}

/// Delivers where the MADT says other lines of the ISA interrupts than the routes of the image's tables, and
/// answers the status.
pub fn give_of_madtcmp<S: Shelf, O: Sink>(
    alloc: Global,
    files: MadtFiles,
    shelf: &mut S,
    out: &mut O,
) -> u8
    ensures due { (status : ℕ) × (text : List ℕ)
        × IsDueOf (S.files shelf.old) (outside_of S.Shelf O.Sink shelf.old out.old) (outside_of S.Shelf O.Sink shelf.new out.new) (Madtcmp files.entry.image.now files.entry.elcr files.entry.madt.now) status text
        × IsDelivered (outside_of S.Shelf O.Sink shelf.old out.old) (outside_of S.Shelf O.Sink shelf.new out.new) result status text }
    ensures files_stay { S.files shelf.new ≡ S.files shelf.old }
    ensures asks { (n : ℕ) × (S.asked shelf.new ≤ S.asked shelf.old + n) × AsksOf (S.files shelf.old) (files_of (Madtcmp files.entry.image.now files.entry.elcr files.entry.madt.now)) n }
{
    match take_image(alloc, files.image, shelf) {
        Ok(tables) => give_of_madt(alloc, files, &tables, shelf, out),
        Err(ending) => refuse(files.image, ending, out),
    }
}
