//! Platforms that no table can say: too many devices, and too many wires.

use crate::harness::same;
use crate::pir::{int, made, platform};
use crate::platforms::bus;
use mpf_pir::MakeFault;
use mpt_route::Platform;
use mpt_spec::{Bus, IntEntry};
use std::alloc::{AllocError, Global};
use std::process::Abort;

fn pci_buses(alloc: Global) -> Result<Vec<Bus>, AllocError> {
    let mut buses = Vec::new(alloc);
    for id in 0..=255u8 {
        buses.push(bus(id, *b"PCI   "))?;
    }
    Ok(buses)
}

// INTA# of the first devices in the order of bus and device, all on one wire
fn devices(alloc: Global, n: u32) -> Result<Vec<IntEntry>, AllocError> {
    let mut ints = Vec::new(alloc);
    for i in 0..n {
        ints.push(int(0, (i / 32 % 256) as u8, (i % 32 * 4) as u8, 0, 0))?;
    }
    Ok(ints)
}

// pins in their order, each on a wire of its own
fn wires(alloc: Global, n: u32) -> Result<Vec<IntEntry>, AllocError> {
    let mut ints = Vec::new(alloc);
    for i in 0..n {
        ints.push(int(
            0,
            (i / 128 % 256) as u8,
            (i % 128) as u8,
            (i / 256 % 256) as u8,
            (i % 256) as u8,
        ))?;
    }
    Ok(ints)
}

// why no table is made of a platform, or the number of its slots
fn slots_made(alloc: Global, p: &Platform) -> Result<usize, MakeFault> {
    match made(alloc, p) {
        Ok(t) => Ok(t.slots.as_slice().len()),
        Err(fault) => Err(fault),
    }
}

// the same of all PCI buses and these interrupts
fn slots_of(rt: &impl Abort, alloc: Global, ints: &[IntEntry]) -> Result<usize, MakeFault> {
    let buses = pci_buses(alloc).expect(rt, "no memory");
    let p = platform(rt, alloc, buses.as_slice(), ints);
    slots_made(alloc, &p)
}

fn slots_of_devices(rt: &impl Abort, alloc: Global, n: u32) -> Result<usize, MakeFault> {
    let ints = devices(alloc, n).expect(rt, "no memory");
    slots_of(rt, alloc, ints.as_slice())
}

fn slots_of_wires(rt: &impl Abort, alloc: Global, n: u32) -> Result<usize, MakeFault> {
    let ints = wires(alloc, n).expect(rt, "no memory");
    slots_of(rt, alloc, ints.as_slice())
}

#[test]
fn slots_are_counted_before_wires(rt: HostRuntime) {
    let alloc = rt.alloc();
    let most = slots_of_devices(&rt, alloc, 4093);
    same(&rt, "4093 devices", most, Ok(4093));
    let many = slots_of_devices(&rt, alloc, 4094);
    let want = Err(MakeFault::ManySlots { n: 4094 });
    same(&rt, "4094 devices", many, want);
    let most = slots_of_wires(&rt, alloc, 255);
    same(&rt, "255 wires", most, Ok(64));
    let many = slots_of_wires(&rt, alloc, 256);
    let want = Err(MakeFault::ManyLinks { n: 256 });
    same(&rt, "256 wires", many, want);
    let many = slots_of_wires(&rt, alloc, 32768);
    let want = Err(MakeFault::ManySlots { n: 8192 });
    same(&rt, "32768 wires", many, want);
}
