//! Where a table and a platform differ.

ghost use Rattle.std.specs.Prelude.{◌≡◌, ◌≤◌, ◌<◌, ◌==◌, ◌/◌, ◌%◌, ℕ, length, IfOk, IfSome, None, Some, replicate, find, option_map, slice_index, slice_index_or};
ghost use Rattle.mpt_route.specs.Index.{IsTableOf};
ghost use Rattle.mpf_pir.specs.declared.pins.By.TheVariants as by;
ghost use Rattle.mpf_pir.specs.declared.comparing.Seen.TheVariants as seen;
ghost use Rattle.mpf_pir.specs.Differences.{AreDifferencesOf, connected};
ghost use Rattle.mpf_pir.specs.Index.{IsPlaceTable};
ghost use Rattle.mpf_pir.specs.Made.{pin_entries};
ghost use Rattle.mpf_pir.specs.Pins.{is_wire};
ghost use Rattle.mpf_pir.specs.Progress.{slot_number, links_of, pin_at, difference_at, is_other, with_wire, odd_of, seen_after, seen_at};

use crate::pins::{By, Firsts, Pin, Wire, firsts_by, pci_ints, wire_at};
use crate::table::{Pir, Slot};
use mpt_base::NoMemory;
use mpt_route::Platform;
use std::alloc::{AllocError, Global};

/// Why a pin is odd.
#[derive(Clone, Copy, Debug, PartialEq, Eq)]
pub enum Odd {
    /// The table connects it, and no interrupt entry speaks of it.
    OnlyPir,
    /// An interrupt entry speaks of it, and the table doesn't connect it.
    OnlyMp,
    /// An earlier pin of both has the same link and another wire.
    Link,
}

/// A pin that is odd.
#[derive(Clone, Copy, Debug, PartialEq, Eq)]
pub struct Difference {
    /// The bus.
    pub bus: u8,
    /// The device, below 32.
    pub device: u8,
    /// The pin, from 0 for INTA# to 3 for INTD#.
    pub pin: u8,
    /// Why it is odd.
    pub why: Odd,
}

/// The wires of the pins with one link so far.
#[derive(Clone, Copy)]
pub enum Seen {
    /// There was no pin.
    Nothing,
    /// All had this wire.
    One(Wire),
    /// There were two wires at least.
    Several,
}

/// The wires seen of each link.
pub type ByLink = [Seen; 256];

// the number of a slot's bus and device
fn slot_number(slot: Slot) -> usize
    ensures value { result ≡ slot_number slot }
    ensures below { result < 8192 }
{
    32 * usize::from(slot.bus) + usize::from(slot.device / 8)
}

// an empty table
fn no_slots(alloc: Global, devices: usize) -> Result<Vec<Option<[u8; 4]>>, AllocError>
    ensures { IfOk result (λ table. table.items ≡ replicate devices None) }
{
    vec![in alloc; None; devices]
}

// the links of the first slot of each bus and device
fn first_slots(alloc: Global, slots: &[Slot]) -> Result<Vec<Option<[u8; 4]>>, AllocError>
    ensures { IfOk result (λ table. IsTableOf 8192 table.items (links_of slots.now)) }
{
    let Ok(mut table) = no_slots(alloc, 8_192) else {
        return Err(AllocError);
    };
    for slot in slots {
        let number = slot_number(*slot);
        if table[number].is_none() {
            table[number] = Some(slot.links);
        }
    }
    Ok(table)
}

// a link, unless it is 0
fn connected(link: u8) -> Option<u8>
    ensures value { result ≡ connected (Some link) }
    ensures byte { IfSome result (λ link. link < 256) }
{
    if link == 0 { None } else { Some(link) }
}

// the link of the pin with a number, `None` where it isn't connected
fn link_at(slots: &[Option<[u8; 4]>], number: usize) -> Option<u8>
    requires whole { length slots.now ≡ 8192 }
    requires below { number < 32768 }
    ensures value { result ≡ connected (option_map (λ links. slice_index links (number % 4)) (slice_index_or slots.now (number / 4) None)) }
    ensures byte { IfSome result (λ link. link < 256) }
{
    match slots[number / 4] {
        Some(links) => connected(links[number % 4]),
        None => None,
    }
}

fn is_wire(a: Wire, b: Wire) -> bool
    ensures { result ≡ is_wire a b }
{
    a.dest == b.dest && a.pin == b.pin
}

// whether another wire was seen
fn is_other(seen: Seen, wire: Wire) -> bool
    ensures { result ≡ is_other seen wire }
{
    match seen {
        Seen::Nothing => false,
        Seen::One(first) => !is_wire(first, wire),
        Seen::Several => true,
    }
}

// what was seen, with a further wire
fn with_wire(seen: Seen, wire: Wire) -> Seen
    ensures { result ≡ with_wire seen wire }
{
    match seen {
        Seen::Nothing => Seen::One(wire),
        Seen::One(first) => {
            if is_wire(first, wire) {
                seen
            } else {
                Seen::Several
            }
        }
        Seen::Several => seen,
    }
}

// nothing seen of any link
fn nothing_seen() -> ByLink
    ensures { (link : ℕ) → seen_at result link ≡ seen.Nothing }
{
    [Seen::Nothing; 256]
}

// whether a pin of both is odd; its wire is seen then
fn odd_link(seen: &mut ByLink, link: u8, wire: Wire) -> Option<Odd>
    ensures odd { result ≡ odd_of (Some link) (Some wire) seen.old }
    ensures seen { seen.new ≡ seen_after (Some link) (Some wire) seen.old }
{
    let before = seen[link as usize];
    seen[link as usize] = with_wire(before, wire);
    if is_other(before, wire) {
        Some(Odd::Link)
    } else {
        None
    }
}

// why a pin with this link and this wire is odd
fn odd_of(seen: &mut ByLink, link: Option<u8>, wire: Option<Wire>) -> Option<Odd>
    ensures odd { result ≡ odd_of link wire seen.old }
    ensures seen { seen.new ≡ seen_after link wire seen.old }
{
    match link {
        Some(link) => match wire {
            Some(wire) => odd_link(seen, link, wire),
            None => Some(Odd::OnlyPir),
        },
        None => match wire {
            Some(_) => Some(Odd::OnlyMp),
            None => None,
        },
    }
}

// the pin with a number
fn pin_at(number: usize) -> Pin
    requires { number < 32768 }
    ensures { result ≡ pin_at number }
{
    Pin {
        bus: (number / 128) as u8,
        device: (number / 4 % 32) as u8,
        pin: (number % 4) as u8,
    }
}

// the difference at the pin with a number
fn difference_at(number: usize, why: Odd) -> Difference
    requires { number < 32768 }
    ensures { result ≡ difference_at number why }
{
    let Pin { bus, device, pin } = pin_at(number);
    Difference {
        bus,
        device,
        pin,
        why,
    }
}

// the first entry of each pin
fn pins_of(alloc: Global, p: &Platform) -> Result<Firsts, AllocError>
    ensures pins { IfOk result (λ pins. pins.entries.items ≡ pin_entries p.now) }
    ensures table { IfOk result (λ pins. IsPlaceTable by.Pin pins.entries.items pins.places.items) }
{
    let Ok(ints) = pci_ints(alloc, p) else {
        return Err(AllocError);
    };
    match firsts_by(alloc, ints.as_slice(), By::Pin) {
        Ok(pins) => Ok(pins),
        Err(_) => Err(AllocError),
    }
}

// the differences, by the first entry of each pin and the links of each device
fn differences_by(
    alloc: Global,
    p: &Platform,
    t: &Pir,
    pins: &Firsts,
    slots: &[Option<[u8; 4]>],
) -> Result<Vec<Difference>, AllocError>
    requires pins { pins.now.entries.items ≡ pin_entries p.now }
    requires table { IsPlaceTable by.Pin pins.now.entries.items pins.now.places.items }
    requires slots { IsTableOf 8192 slots.now (links_of t.now.slots) }
    ensures { IfOk result (λ found. AreDifferencesOf p.now t.now found.items) }
{
    let mut seen = nothing_seen();
    let mut found = Vec::new(alloc);
    for number in 0..32_768usize {
        let wire = wire_at(pins, number);
        let link = link_at(slots, number);
        if let Some(why) = odd_of(&mut seen, link, wire) {
            found.push(difference_at(number, why))?;
        }
    }
    Ok(found)
}

fn differences(alloc: Global, p: &Platform, t: &Pir) -> Result<Vec<Difference>, AllocError>
    ensures { IfOk result (λ found. AreDifferencesOf p.now t.now found.items) }
{
    let Ok(pins) = pins_of(alloc, p) else {
        return Err(AllocError);
    };
    let Ok(slots) = first_slots(alloc, t.slots.as_slice()) else {
        return Err(AllocError);
    };
    differences_by(alloc, p, t, &pins, slots.as_slice())
}

/// Where the table and the platform differ: each odd pin once, by bus, device and pin.
///
/// It takes memory for the differences and for tables by pin alone, and fails only where that runs out.
/// Time grows with the number of entries and slots.
pub fn compare(alloc: Global, p: &Platform, t: &Pir) -> Result<Vec<Difference>, NoMemory>
    ensures { IfOk result (λ found. AreDifferencesOf p.now t.now found.items) }
{
    match differences(alloc, p, t) {
        Ok(found) => Ok(found),
        Err(_) => Err(NoMemory),
    }
}
