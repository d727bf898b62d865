//! What `pircmp` gives.

ghost use Rattle.std.specs.Prelude.{◌≡◌, ◌≤◌, ◌<◌, ◌+◌, ◌^◌, ℕ, List, IfOk};
ghost use Rattle.mpt_spec.specs.Canonical.{IsWellFormed};
ghost use Rattle.mptab_walk.specs.Forms.{Pircmp, RoutingTable, files_of};
ghost use Rattle.mpf_pir.specs.declared.comparing.Difference.{Difference as ADifference};
ghost use Rattle.mpf_pir.specs.Differences.{AreDifferencesOf};
ghost use Rattle.mpf_answers.specs.PinLines.{pin_differences_text};
ghost use Rattle.mptab_walk.specs.Commands.{ImageGives, IsPirCompared, status_of};
ghost use Rattle.mptab_walk.specs.Walk.{IsDueOf, IsDelivered, AsksOf, most_of, outside_of};

use crate::answer::Answer;
use crate::ending::{deliver_answer, refuse};
use crate::firmware::take_pir;
use crate::image::take_image;
use crate::status::{DONE, FINDINGS};
use crate::words::PirFiles;
use mpf_answers::print_pin_differences;
use mpf_pir::{Pir, compare};
use mpt_base::{NoMemory, Shelf, Sink};
use mpt_route::{Platform, platform_of};
use mpt_table::Tables;
use std::alloc::Global;

// where the PCI IRQ routing table and the tables differ, and 1 where they do
fn compared(alloc: Global, tables: &Tables, pir: &Pir) -> Result<Answer, NoMemory>
    requires { IsWellFormed tables.now }
    ensures { IfOk result (λ answer. IsPirCompared tables.now pir.now answer.status answer.text.items) }
{
    match platform_of(alloc, tables) {
        Ok(platform) => compared_on(alloc, &platform, pir),
        Err(error) => Err(error),
    }
}

// the same of a platform
fn compared_on(alloc: Global, platform: &Platform, pir: &Pir) -> Result<Answer, NoMemory>
    ensures { IfOk result (λ answer. (found : List ADifference) × AreDifferencesOf platform.now pir.now found × (answer.status ≡ status_of found) × (answer.text.items ≡ pin_differences_text found)) }
{
    let Ok(found) = compare(alloc, platform, pir) else {
        return Err(NoMemory);
    };
    match print_pin_differences(alloc, found.as_slice()) {
        Ok(text) => {
            let status = if found.is_empty() { DONE } else { FINDINGS };
            Ok(Answer { status, text })
        }
        Err(error) => Err(error),
    }
}

// takes the PCI IRQ routing table, and delivers where it differs
fn give_of_pir<S: Shelf, O: Sink>(
    alloc: Global,
    files: PirFiles,
    tables: &Tables,
    shelf: &mut S,
    out: &mut O,
) -> u8
    requires gives { ImageGives (S.files shelf.old) files.image.now tables.now }
    requires well_formed { IsWellFormed tables.now }
    requires low { tables.now.at < 2 ^ 32 }
    ensures due { (status : ℕ) × (text : List ℕ)
        × IsDueOf (S.files shelf.old) (outside_of S.Shelf O.Sink shelf.old out.old) (outside_of S.Shelf O.Sink shelf.new out.new) (Pircmp files.entry.image.now files.entry.table.now) status text
        × IsDelivered (outside_of S.Shelf O.Sink shelf.old out.old) (outside_of S.Shelf O.Sink shelf.new out.new) result status text }
    ensures files_stay { S.files shelf.new ≡ S.files shelf.old }
    ensures asks { S.asked shelf.new ≤ S.asked shelf.old + most_of (S.files shelf.old) (RoutingTable files.entry.table.now) }
{
    match take_pir(alloc, files.table, shelf) {
        Ok(pir) => deliver_answer(compared(alloc, tables, &pir), out),
        Err(ending) => refuse(files.table, ending, out),
    }
}

/// Delivers where the PCI IRQ routing table and the image's tables differ, and answers the status.
pub fn give_of_pircmp<S: Shelf, O: Sink>(
    alloc: Global,
    files: PirFiles,
    shelf: &mut S,
    out: &mut O,
) -> u8
    ensures due { (status : ℕ) × (text : List ℕ)
        × IsDueOf (S.files shelf.old) (outside_of S.Shelf O.Sink shelf.old out.old) (outside_of S.Shelf O.Sink shelf.new out.new) (Pircmp files.entry.image.now files.entry.table.now) status text
        × IsDelivered (outside_of S.Shelf O.Sink shelf.old out.old) (outside_of S.Shelf O.Sink shelf.new out.new) result status text }
    ensures files_stay { S.files shelf.new ≡ S.files shelf.old }
    ensures asks { (n : ℕ) × (S.asked shelf.new ≤ S.asked shelf.old + n) × AsksOf (S.files shelf.old) (files_of (Pircmp files.entry.image.now files.entry.table.now)) n }
{
    match take_image(alloc, files.image, shelf) {
        Ok(tables) => give_of_pir(alloc, files, &tables, shelf, out),
        Err(ending) => refuse(files.image, ending, out),
    }
}
