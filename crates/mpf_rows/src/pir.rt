//! Platforms of PCI interrupts alone, and their routing tables.

use crate::harness::same;
use crate::platforms::{int as entry, platform as whole};
use mpf_pir::{Difference, MakeFault, Pir, compare, make, write_pir};
use mpt_route::Platform;
use mpt_spec::{Bus, IntEntry};
use std::alloc::Global;
use std::process::Abort;

/// An interrupt entry without flags: kind, bus, IRQ, destination and pin.
pub(crate) fn int(kind: u8, bus: u8, irq: u8, dest: u8, pin: u8) -> IntEntry {
    entry(kind, 0, bus, irq, dest, pin)
}

/// A platform of these buses and I/O interrupts alone.
pub(crate) fn platform(
    rt: &impl Abort,
    alloc: Global,
    buses: &[Bus],
    ints: &[IntEntry],
) -> Platform {
    whole(rt, alloc, &[], buses, &[], ints, &[])
}

/// The table of a platform with fewer than 2^32 interrupts.
pub(crate) fn made(alloc: Global, p: &Platform) -> Result<Pir, MakeFault> {
    if p.ints.as_slice().len() >= 1 << 32 {
        return Err(MakeFault::NoMemory);
    }
    make(alloc, p)
}

/// The table of at most 4,093 slots is written as these bytes.
pub(crate) fn same_bytes(rt: &impl Abort, alloc: Global, t: &Pir, want: &[u8]) {
    if t.slots.as_slice().len() > 4093 {
        panic!(rt; "too many slots");
    }
    let bytes = write_pir(alloc, t).expect(rt, "no bytes");
    same(rt, "the bytes", bytes.as_slice(), want);
}

/// The platform and the table differ in these, in this order.
pub(crate) fn same_differences(
    rt: &impl Abort,
    alloc: Global,
    name: &str,
    p: &Platform,
    t: &Pir,
    want: &[Difference],
) {
    let found = compare(alloc, p, t).expect(rt, "not compared");
    same(rt, name, found.as_slice(), want);
}
