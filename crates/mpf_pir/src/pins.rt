//! Interrupt pins of PCI devices, and the wires that a platform's interrupt entries give them
//! (MultiProcessor Specification 1.4, section 4.3.4 and appendix D.3). PCI bus numbers are taken as bus
//! ids.

ghost use Rattle.std.specs.Prelude.{◌≡◌, ◌≤◌, ◌<◌, length, IfOk, None, replicate, slice_index_or};
ghost use Rattle.mpt_route.specs.Routes.{bus_kind_in};
ghost use Rattle.mpt_route.specs.Index.{IsTableOf};
ghost use Rattle.mpf_pir.specs.Pins.{wire_of, pci_ints};
ghost use Rattle.mpf_pir.specs.Index.{number_by, count_by, AreFirsts, IsPlaceTable, wire_by, is_int_on, HasBytePin};
ghost use Rattle.std.specs.List.{AllByRecursion};
ghost use Rattle.mpf_pir.specs.declared.pins.By.TheVariants as by;

use mpt_route::{BusKind, Platform, first_buses};
use mpt_spec::IntEntry;
use std::alloc::{AllocError, Global};

/// An interrupt pin of a PCI device.
#[derive(Clone, Copy)]
pub struct Pin {
    /// The bus.
    pub bus: u8,
    /// The device, below 32.
    pub device: u8,
    /// The pin, from 0 for INTA# to 3 for INTD#.
    pub pin: u8,
}

/// A wire: where the interrupt entry of a pin ends.
#[derive(Clone, Copy)]
pub struct Wire {
    /// The id of the destination I/O APIC.
    pub dest: u8,
    /// Its pin, INTIN.
    pub pin: u8,
}

/// By what interrupt entries are told apart.
#[derive(Clone, Copy)]
pub enum By {
    /// By their pin.
    Pin,
    /// By the bus and the device of their pin.
    Device,
    /// By their wire.
    Wire,
}

/// The first entry of each pin, device or wire, and for each number the place of its entry.
#[derive(Drop)]
pub struct Firsts {
    /// The first entries, in order.
    pub entries: Vec<IntEntry>,
    /// The place among them of each number's entry.
    pub places: Vec<Option<usize>>,
}

// whether an entry is an INT whose bus is PCI
fn is_int_on(table: &[Option<BusKind>], e: IntEntry) -> bool
    requires { length table.now ≡ 256 }
    ensures value { result ≡ is_int_on (slice_index_or table.now e.bus None) e }
    ensures bus { e.bus < 256 }
    ensures pin { HasBytePin e }
{
    let bus = table[usize::from(e.bus)];
    let pci = matches!(bus, Some(BusKind::Pci));
    e.kind == 0 && pci
}

/// The INT entries whose bus is PCI, in table order.
pub fn pci_ints(alloc: Global, p: &Platform) -> Result<Vec<IntEntry>, AllocError>
    ensures ints { IfOk result (λ ints. ints.items ≡ pci_ints p.now) }
    ensures few { IfOk result (λ ints. length ints.items ≤ length p.now.ints) }
    ensures bytes { IfOk result (λ ints. AllByRecursion HasBytePin ints.items) }
{
    let Ok(buses) = first_buses(alloc, p.buses.as_slice()) else {
        return Err(AllocError);
    };
    pci_ints_by(alloc, p, buses.as_slice())
}

// these entries, by the table of the types of buses
fn pci_ints_by(
    alloc: Global,
    p: &Platform,
    buses: &[Option<BusKind>],
) -> Result<Vec<IntEntry>, AllocError>
    requires { IsTableOf 256 buses.now (bus_kind_in p.now.buses) }
    ensures ints { IfOk result (λ ints. ints.items ≡ pci_ints p.now) }
    ensures few { IfOk result (λ ints. length ints.items ≤ length p.now.ints) }
    ensures bytes { IfOk result (λ ints. AllByRecursion HasBytePin ints.items) }
{
    let mut ints = Vec::new(alloc);
    for e in p.ints.as_slice() {
        if is_int_on(buses, *e) {
            ints.push(*e)?;
        }
    }
    Ok(ints)
}

/// The number of an entry's pin, device or wire, in the order of bus, device and pin.
pub fn number(by: By, e: IntEntry) -> usize
    ensures value { result ≡ number_by by e }
    ensures below { result < count_by by }
{
    match by {
        By::Pin => 128 * usize::from(e.bus) + usize::from(e.irq % 128),
        By::Device => 32 * usize::from(e.bus) + usize::from(e.irq / 4 % 32),
        By::Wire => 256 * usize::from(e.dest) + usize::from(e.pin),
    }
}

// how many numbers there are
fn count(by: By) -> usize
    ensures { result ≡ count_by by }
{
    match by {
        By::Pin => 32_768,
        By::Device => 8_192,
        By::Wire => 65_536,
    }
}

// no place of any number
fn no_places(alloc: Global, numbers: usize) -> Result<Vec<Option<usize>>, AllocError>
    ensures { IfOk result (λ table. table.items ≡ replicate numbers None) }
{
    vec![in alloc; None; numbers]
}

/// The first entry of each pin, device or wire among these.
pub fn firsts_by(alloc: Global, entries: &[IntEntry], by: By) -> Result<Firsts, AllocError>
    ensures are { IfOk result (λ found. AreFirsts by entries.now found.entries.items found.places.items) }
    ensures few { IfOk result (λ found. length found.entries.items ≤ length entries.now) }
{
    let Ok(mut places) = no_places(alloc, count(by)) else {
        return Err(AllocError);
    };
    let mut found = Vec::new(alloc);
    for e in entries {
        let number = number(by, *e);
        if places[number].is_none() {
            places[number] = Some(found.len());
            found.push(*e)?;
        }
    }
    Ok(Firsts {
        entries: found,
        places,
    })
}

/// The wire of the pin with a number, `None` where no entry speaks of it.
pub fn wire_at(pins: &Firsts, number: usize) -> Option<Wire>
    requires table { IsPlaceTable by.Pin pins.now.entries.items pins.now.places.items }
    requires below { number < 32768 }
    ensures { result ≡ wire_by pins.now.entries.items number }
{
    match pins.places[number] {
        Some(place) => Some(wire_of(pins.entries[place])),
        None => None,
    }
}

fn wire_of(e: IntEntry) -> Wire
    ensures { result ≡ wire_of e }
{
    Wire {
        dest: e.dest,
        pin: e.pin,
    }
}
