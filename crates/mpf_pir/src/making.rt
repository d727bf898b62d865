//! The table that says what a platform's interrupt entries say of the PCI pins. Which link stands for
//! which wire is this project's own.

ghost use Rattle.std.specs.Prelude.{◌≡◌, ◌≤◌, ◌<◌, ◌^◌, length, map, IfOk};
ghost use Rattle.std.specs.List.{AllByRecursion};
ghost use Rattle.mpf_pir.specs.declared.making.MakeFault.{MakeFault};
ghost use Rattle.mpf_pir.specs.declared.making.MakeFault.TheVariants as fault;
ghost use Rattle.mpf_pir.specs.declared.pins.By.TheVariants as by;
ghost use Rattle.mpf_pir.specs.Answers.{IfMakeFault, AnswersMakeFault};
ghost use Rattle.mpf_pir.specs.Index.{IsPlaceTable, IsWiringOf, HasBytePin, is_same_by, slot_with};
ghost use Rattle.mpf_pir.specs.Pins.{pci_ints};
ghost use Rattle.mpf_pir.specs.Made.{IsMakeFault, firsts, link_among, pir_of};

use crate::pins::{By, Firsts, Wire, firsts_by, number, pci_ints, wire_at};
use crate::table::{Pir, Slot};
use mpt_route::Platform;
use mpt_spec::{IntEntry, Sequence};
use std::alloc::{AllocError, Global};

/// The most slots that a table has place for.
const MOST_SLOTS: usize = 4093;

/// The most links that a byte tells apart, beside 0 for none.
const MOST_LINKS: usize = 255;

/// Why no table is made.
#[derive(Clone, Copy, Debug, PartialEq, Eq)]
pub enum MakeFault {
    /// There are more than 4,093 devices, and so slots.
    ManySlots {
        /// How many there are.
        n: u32,
    },
    /// There are more than 255 wires, and so links.
    ManyLinks {
        /// How many there are.
        n: u32,
    },
    /// Memory ran out.
    NoMemory,
}

impl From<AllocError> for MakeFault {
    ghost from_gives = { λ _ e. e ≡ fault.NoMemory };

    fn from(_: AllocError) -> MakeFault {
        MakeFault::NoMemory
    }
}

/// What a table is made from.
#[derive(Drop)]
pub struct Wiring {
    /// The first entry of each pin.
    pub pins: Firsts,
    /// The first of these of each wire.
    pub wires: Firsts,
    /// The first entry of each device.
    pub devices: Vec<IntEntry>,
}

// the first entry of each device
fn devices_of(alloc: Global, ints: &[IntEntry]) -> Result<Vec<IntEntry>, AllocError>
    ensures devices { IfOk result (λ devices. devices.items ≡ firsts (is_same_by by.Device) ints.now) }
    ensures few { IfOk result (λ devices. length devices.items ≤ length ints.now) }
{
    match firsts_by(alloc, ints, By::Device) {
        Ok(devices) => Ok(devices.entries),
        Err(_) => Err(AllocError),
    }
}

// the wiring by the INT entries whose bus is PCI
fn wiring_by(alloc: Global, p: &Platform, ints: &[IntEntry]) -> Result<Wiring, AllocError>
    requires ints { ints.now ≡ pci_ints p.now }
    requires few { length ints.now ≤ length p.now.ints }
    requires bytes { AllByRecursion HasBytePin ints.now }
    ensures { IfOk result (IsWiringOf p.now) }
{
    let Ok(devices) = devices_of(alloc, ints) else {
        return Err(AllocError);
    };
    let Ok(pins) = firsts_by(alloc, ints, By::Pin) else {
        return Err(AllocError);
    };
    let Ok(wires) = firsts_by(alloc, pins.entries.as_slice(), By::Wire) else {
        return Err(AllocError);
    };
    Ok(Wiring {
        pins,
        wires,
        devices,
    })
}

fn wiring_of(alloc: Global, p: &Platform) -> Result<Wiring, AllocError>
    ensures { IfOk result (IsWiringOf p.now) }
{
    let Ok(ints) = pci_ints(alloc, p) else {
        return Err(AllocError);
    };
    wiring_by(alloc, p, ints.as_slice())
}

// the link of a wire: 1 plus its place, and 0 where there is no wire
fn link_among(wires: &Firsts, wire: Option<Wire>) -> u8
    requires table { IsPlaceTable by.Wire wires.now.entries.items wires.now.places.items }
    requires few { length wires.now.entries.items ≤ 255 }
    requires bytes { AllByRecursion HasBytePin wires.now.entries.items }
    ensures { result ≡ link_among wires.now.entries.items wire }
{
    match wire {
        Some(wire) => match wires.places[256 * usize::from(wire.dest) + usize::from(wire.pin)] {
            Some(place) => 1 + place as u8,
            None => 0,
        },
        None => 0,
    }
}

// the slot of an entry's device
fn slot_of(pins: &Firsts, wires: &Firsts, e: IntEntry) -> Slot
    requires pin_table { IsPlaceTable by.Pin pins.now.entries.items pins.now.places.items }
    requires wire_table { IsPlaceTable by.Wire wires.now.entries.items wires.now.places.items }
    requires few { length wires.now.entries.items ≤ 255 }
    requires bytes { AllByRecursion HasBytePin wires.now.entries.items }
    ensures { result ≡ slot_with pins.now.entries.items wires.now.entries.items e }
{
    let first = 4 * number(By::Device, e);
    Slot {
        bus: e.bus,
        device: 8 * (e.irq / 4 % 32),
        links: [
            link_among(wires, wire_at(pins, first)),
            link_among(wires, wire_at(pins, first + 1)),
            link_among(wires, wire_at(pins, first + 2)),
            link_among(wires, wire_at(pins, first + 3)),
        ],
        irqs: [0; 4],
        number: 0,
        reserved: 0,
    }
}

fn slots_of(
    alloc: Global,
    pins: &Firsts,
    wires: &Firsts,
    devices: &[IntEntry],
) -> Result<Vec<Slot>, AllocError>
    requires pin_table { IsPlaceTable by.Pin pins.now.entries.items pins.now.places.items }
    requires wire_table { IsPlaceTable by.Wire wires.now.entries.items wires.now.places.items }
    requires few { length wires.now.entries.items ≤ 255 }
    requires bytes { AllByRecursion HasBytePin wires.now.entries.items }
    ensures { IfOk result (λ slots. slots.items ≡ map (slot_with pins.now.entries.items wires.now.entries.items) devices.now) }
{
    let mut slots = Vec::new(alloc);
    for e in devices {
        slots.push(slot_of(pins, wires, *e))?;
    }
    Ok(slots)
}

// the table by the wiring
fn pir_by(alloc: Global, p: &Platform, wiring: &Wiring) -> Result<Pir, MakeFault>
    requires few { length p.now.ints < 2 ^ 32 }
    requires wiring { IsWiringOf p.now wiring.now }
    ensures table { IfOk result (λ t. t ≡ pir_of p.now) }
    ensures slots { IfOk result (λ t. length t.slots ≤ 4093) }
    ensures fault { IfMakeFault result (IsMakeFault p.now) }
    ensures only_fault { (f : MakeFault) → IsMakeFault p.now f → AnswersMakeFault result f }
{
    let slots = wiring.devices.len();
    if slots > MOST_SLOTS {
        return Err(MakeFault::ManySlots { n: slots as u32 });
    }
    let links = wiring.wires.entries.len();
    if links > MOST_LINKS {
        return Err(MakeFault::ManyLinks { n: links as u32 });
    }
    let devices = wiring.devices.as_slice();
    let Ok(slots) = slots_of(alloc, &wiring.pins, &wiring.wires, devices) else {
        return Err(MakeFault::NoMemory);
    };
    Ok(Pir {
        router_bus: 0,
        router_function: 0,
        exclusive: 0,
        compatible: 0,
        miniport: 0,
        reserved: [0; 11],
        slots: Sequence::new(slots),
    })
}

/// The table with a slot for each device, in the order of first appearance, in which pins have one link
/// where their entries have one wire; all else is 0. Of more than one entry of a pin the first decides.
/// It fails where there are too many devices, else where there are too many wires, each with the whole
/// number, and where memory runs out.
pub fn make(alloc: Global, p: &Platform) -> Result<Pir, MakeFault>
    requires few { length p.now.ints < 2 ^ 32 }
    ensures table { IfOk result (λ t. t ≡ pir_of p.now) }
    ensures slots { IfOk result (λ t. length t.slots ≤ 4093) }
    ensures fault { IfMakeFault result (IsMakeFault p.now) }
    ensures only_fault { (f : MakeFault) → IsMakeFault p.now f → AnswersMakeFault result f }
{
    let Ok(wiring) = wiring_of(alloc, p) else {
        return Err(MakeFault::NoMemory);
    };
    pir_by(alloc, p, &wiring)
}
