//! The steps of the walk that take a table of firmware: its size, its limit, its bytes, the table.

ghost use Rattle.std.specs.Prelude.{◌≡◌, ◌≤◌, ◌+◌, length, IfOk, IfErr};
ghost use Rattle.mpf_madt.specs.Table.{IsMadt};
ghost use Rattle.mpf_pir.specs.Layout.{IsPir};
ghost use Rattle.mptab_walk.specs.Forms.{AcpiTable, RoutingTable};
ghost use Rattle.mptab_walk.specs.Commands.{MadtGives, PirGives};
ghost use Rattle.mptab_walk.specs.Walk.{most_of};
ghost use Rattle.mptab_walk.specs.Ending.{IsEnding, IsUndisturbed, shelves_of};
ghost use Rattle.mptab_walk.specs.Limited.{IsRefusedBy, RefusesMadt, RefusesPir};

use crate::ending::{Ending, refused};
use crate::limited::take_bytes;
use crate::refusals::{bad_madt, bad_pir};
use mpf_madt::{Madt, MadtRefusal, read_madt};
use mpf_pir::{Pir, PirRefusal, read_pir};
use mpt_base::Shelf;
use std::alloc::Global;

/// The most bytes of a table of firmware: 1 MiB.
const TABLE_LIMIT: u64 = 1_048_576;

/// The MADT of this name, or why the walk ends there.
pub(crate) fn take_madt<S: Shelf>(alloc: Global, name: &str, shelf: &mut S) -> Result<Madt, Ending>
    ensures files_stay { S.files shelf.new ≡ S.files shelf.old }
    ensures quiet { IfOk result (λ m. IsUndisturbed (shelves_of S.Shelf shelf.old shelf.new)) }
    ensures table { IfOk result (λ m. MadtGives (S.files shelf.old) name.now m) }
    ensures ends { IfErr result (IsEnding (S.files shelf.old) (shelves_of S.Shelf shelf.old shelf.new) (AcpiTable name.now)) }
    ensures asks { S.asked shelf.new ≤ S.asked shelf.old + most_of (S.files shelf.old) (AcpiTable name.now) }
{
    match take_bytes(alloc, name, TABLE_LIMIT, shelf) {
        Ok(bytes) => madt_in(alloc, bytes.as_slice()),
        Err(ending) => Err(ending),
    }
}

// the MADT that the bytes are, or why they are refused
fn madt_in(alloc: Global, bytes: &[u8]) -> Result<Madt, Ending>
    requires { length bytes.now ≤ 1048576 }
    ensures table { IfOk result (λ m. IsMadt m bytes.now) }
    ensures refused { IfErr result (IsRefusedBy (RefusesMadt bytes.now)) }
{
    match read_madt(alloc, bytes) {
        Ok(madt) => Ok(madt),
        Err(MadtRefusal::Fault { at, why }) => Err(refused(bad_madt(alloc, at, why))),
        Err(MadtRefusal::NoMemory) => Err(Ending::NoMemory),
    }
}

/// The PCI IRQ routing table of this name, or why the walk ends there.
pub(crate) fn take_pir<S: Shelf>(alloc: Global, name: &str, shelf: &mut S) -> Result<Pir, Ending>
    ensures files_stay { S.files shelf.new ≡ S.files shelf.old }
    ensures quiet { IfOk result (λ t. IsUndisturbed (shelves_of S.Shelf shelf.old shelf.new)) }
    ensures table { IfOk result (λ t. PirGives (S.files shelf.old) name.now t) }
    ensures ends { IfErr result (IsEnding (S.files shelf.old) (shelves_of S.Shelf shelf.old shelf.new) (RoutingTable name.now)) }
    ensures asks { S.asked shelf.new ≤ S.asked shelf.old + most_of (S.files shelf.old) (RoutingTable name.now) }
{
    match take_bytes(alloc, name, TABLE_LIMIT, shelf) {
        Ok(bytes) => pir_in(alloc, bytes.as_slice()),
        Err(ending) => Err(ending),
    }
}

// the PCI IRQ routing table that the bytes are, or why they are refused
fn pir_in(alloc: Global, bytes: &[u8]) -> Result<Pir, Ending>
    ensures table { IfOk result (λ t. IsPir t bytes.now) }
    ensures refused { IfErr result (IsRefusedBy (RefusesPir bytes.now)) }
{
    match read_pir(alloc, bytes) {
        Ok(pir) => Ok(pir),
        Err(PirRefusal::Fault { at, why }) => Err(refused(bad_pir(alloc, at, why))),
        Err(PirRefusal::NoMemory) => Err(Ending::NoMemory),
    }
}
