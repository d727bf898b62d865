//! What the rules look up among the base entries, made once.

ghost use Rattle.std.specs.Prelude.{◌≡◌, ◌≤◌, ◌<◌, ◌+◌, ◌↔◌, ℕ, length, IfOk, OnOk, IsTrue, if◌then◌else◌};
ghost use Rattle.std.specs.BTreeMap as tree;
ghost use Rattle.mpt_rules.specs.Places.{FirstIs};
ghost use Rattle.mpt_rules.specs.Entries.{IsProcessorOf, IsIoApicOf, IsBusOf, HasBootFlag, is_bus, IsSource, IsOnPin};
ghost use Rattle.mpt_rules.specs.Index.{AreFirsts, AreBusCounts, NotesEntry, NotesKeyed, HasSecondSense, IsSecondSense, IsSecondSenseOf, IsBaseIndexOf, key_cmp};

use crate::base_rules::differs_from;
use crate::places::{ByKey, ByNumber, first_of_key, no_places, note, note_key};
use mpt_spec::{Base, IntEntry};
use std::alloc::{AllocError, Global};
use std::collections::BTreeMap;

/// What the rules look up among the base entries.
#[derive(Drop)]
pub struct BaseIndex {
    /// The first processor of each id.
    pub processors: ByNumber,
    /// The first I/O APIC of each id.
    pub ios: ByNumber,
    /// The first bus of each id.
    pub buses: ByNumber,
    /// The first processor with BP.
    pub boot: Option<u32>,
    /// How many bus entries stand before each place.
    pub bus_counts: Vec<u32>,
    /// The first I/O interrupt of each kind, bus and IRQ.
    pub sources: ByKey,
    /// The first I/O interrupt of each destination and pin.
    pub pins: ByKey,
    /// The first I/O interrupt at a pin whose sense isn't that of the first.
    pub second_senses: ByKey,
}

// notes an entry, if it is a processor
fn note_processor(firsts: &mut ByNumber, entry: &Base, i: u32)
    ensures { NotesEntry IsProcessorOf firsts.old firsts.new entry.now i }
{
    match entry {
        Base::Processor(e) => note(firsts, e.apic, i),
        _ => (),
    }
}

fn processors_of(entries: &[Base]) -> ByNumber
    requires { length entries.now ≤ 65535 }
    ensures { AreFirsts IsProcessorOf entries.now (length entries.now) result }
{
    let mut firsts = no_places();
    for i in 0..entries.len() {
        note_processor(&mut firsts, &entries[i], i as u32);
    }
    firsts
}

// notes an entry, if it is an I/O APIC
fn note_io(firsts: &mut ByNumber, entry: &Base, i: u32)
    ensures { NotesEntry IsIoApicOf firsts.old firsts.new entry.now i }
{
    match entry {
        Base::IoApic(e) => note(firsts, e.id, i),
        _ => (),
    }
}

fn ios_of(entries: &[Base]) -> ByNumber
    requires { length entries.now ≤ 65535 }
    ensures { AreFirsts IsIoApicOf entries.now (length entries.now) result }
{
    let mut firsts = no_places();
    for i in 0..entries.len() {
        note_io(&mut firsts, &entries[i], i as u32);
    }
    firsts
}

// notes an entry, if it is a bus
fn note_bus(firsts: &mut ByNumber, entry: &Base, i: u32)
    ensures { NotesEntry IsBusOf firsts.old firsts.new entry.now i }
{
    match entry {
        Base::Bus(e) => note(firsts, e.id, i),
        _ => (),
    }
}

fn buses_of(entries: &[Base]) -> ByNumber
    requires { length entries.now ≤ 65535 }
    ensures { AreFirsts IsBusOf entries.now (length entries.now) result }
{
    let mut firsts = no_places();
    for i in 0..entries.len() {
        note_bus(&mut firsts, &entries[i], i as u32);
    }
    firsts
}

fn has_boot_flag(entry: &Base) -> bool
    ensures { IsTrue result ↔ HasBootFlag entry.now }
{
    match entry {
        Base::Processor(e) => e.has_boot_flag(),
        _ => false,
    }
}

fn boot_of(entries: &[Base]) -> Option<u32>
    requires { length entries.now ≤ 65535 }
    ensures { FirstIs HasBootFlag entries.now (length entries.now) result }
{
    for i in 0..entries.len() {
        if has_boot_flag(&entries[i]) {
            return Some(i as u32);
        }
    }
    None
}

// how many more buses there are with this entry
fn count_with(count: u32, entry: &Base) -> u32
    requires { count < 65535 }
    ensures { result ≡ (if is_bus entry.now then count + 1 else count) }
{
    match entry {
        Base::Bus(_) => count + 1,
        _ => count,
    }
}

fn bus_counts_of(alloc: Global, entries: &[Base]) -> Result<Vec<u32>, AllocError>
    requires { length entries.now ≤ 65535 }
    ensures { IfOk result (λ counts. AreBusCounts entries.now (length entries.now) counts.items) }
{
    let Ok(mut counts) = Vec::with_capacity(alloc, entries.len()) else {
        return Err(AllocError);
    };
    let mut count = 0;
    for i in 0..entries.len() {
        let Ok(()) = counts.push(count) else {
            return Err(AllocError);
        };
        count = count_with(count, &entries[i]);
    }
    Ok(counts)
}

// notes an entry by its source, if it is an I/O interrupt
fn note_source(firsts: &mut ByKey, entry: &Base, i: u32) -> Result<(), AllocError>
    ensures { OnOk result (NotesKeyed IsSource (tree.get key_cmp firsts.old) (tree.get key_cmp firsts.new) entry.now i) }
{
    match entry {
        Base::IoInt(e) => note_key(firsts, (e.kind, e.bus, e.irq), i),
        _ => Ok(()),
    }
}

fn sources_of(alloc: Global, entries: &[Base]) -> Result<ByKey, AllocError>
    requires { length entries.now ≤ 65535 }
    ensures { IfOk result (λ firsts. (q : ℕ × ℕ × ℕ) → FirstIs (IsSource q) entries.now (length entries.now) (tree.get key_cmp firsts q)) }
{
    let mut firsts = BTreeMap::new(alloc);
    for i in 0..entries.len() {
        let Ok(()) = note_source(&mut firsts, &entries[i], i as u32) else {
            return Err(AllocError);
        };
    }
    Ok(firsts)
}

// notes an entry by its pin, if it is an I/O interrupt
fn note_pin(firsts: &mut ByKey, entry: &Base, i: u32) -> Result<(), AllocError>
    ensures { OnOk result (NotesKeyed IsOnPin (tree.get key_cmp firsts.old) (tree.get key_cmp firsts.new) entry.now i) }
{
    match entry {
        Base::IoInt(e) => note_key(firsts, (e.dest, e.pin, 0), i),
        _ => Ok(()),
    }
}

fn pins_of(alloc: Global, entries: &[Base]) -> Result<ByKey, AllocError>
    requires { length entries.now ≤ 65535 }
    ensures { IfOk result (λ firsts. (q : ℕ × ℕ × ℕ) → FirstIs (IsOnPin q) entries.now (length entries.now) (tree.get key_cmp firsts q)) }
{
    let mut firsts = BTreeMap::new(alloc);
    for i in 0..entries.len() {
        let Ok(()) = note_pin(&mut firsts, &entries[i], i as u32) else {
            return Err(AllocError);
        };
    }
    Ok(firsts)
}

// whether an entry is an I/O interrupt whose sense isn't that of the first at its pin
fn has_second_sense(entries: &[Base], pins: &ByKey, entry: &Base) -> bool
    requires { (q : ℕ × ℕ × ℕ) → FirstIs (IsOnPin q) entries.now (length entries.now) (tree.get key_cmp pins.now q) }
    ensures { IsTrue result ↔ IsSecondSense entries.now entry.now }
{
    match entry {
        Base::IoInt(e) => is_second_sense(entries, pins, e),
        _ => false,
    }
}

fn is_second_sense(entries: &[Base], pins: &ByKey, e: &IntEntry) -> bool
    requires { (q : ℕ × ℕ × ℕ) → FirstIs (IsOnPin q) entries.now (length entries.now) (tree.get key_cmp pins.now q) }
    ensures { IsTrue result ↔ IsSecondSenseOf entries.now e.now }
{
    match first_of_key(pins, (e.dest, e.pin, 0)) {
        Some(k) => differs_from(e, &entries[k as usize]),
        None => false,
    }
}

// notes an entry by its pin, if its sense isn't that of the first there
fn note_second_sense(
    firsts: &mut ByKey,
    entries: &[Base],
    pins: &ByKey,
    entry: &Base,
    i: u32,
) -> Result<(), AllocError>
    requires { (q : ℕ × ℕ × ℕ) → FirstIs (IsOnPin q) entries.now (length entries.now) (tree.get key_cmp pins.now q) }
    ensures { OnOk result (NotesKeyed (HasSecondSense entries.now) (tree.get key_cmp firsts.old) (tree.get key_cmp firsts.new) entry.now i) }
{
    if has_second_sense(entries, pins, entry) {
        note_pin(firsts, entry, i)
    } else {
        Ok(())
    }
}

fn second_senses_of(alloc: Global, entries: &[Base], pins: &ByKey) -> Result<ByKey, AllocError>
    requires small { length entries.now ≤ 65535 }
    requires pins { (q : ℕ × ℕ × ℕ) → FirstIs (IsOnPin q) entries.now (length entries.now) (tree.get key_cmp pins.now q) }
    ensures { IfOk result (λ firsts. (q : ℕ × ℕ × ℕ) → FirstIs (HasSecondSense entries.now q) entries.now (length entries.now) (tree.get key_cmp firsts q)) }
{
    let mut firsts = BTreeMap::new(alloc);
    for i in 0..entries.len() {
        let Ok(()) = note_second_sense(&mut firsts, entries, pins, &entries[i], i as u32) else {
            return Err(AllocError);
        };
    }
    Ok(firsts)
}

/// What the rules look up among base entries.
pub fn base_index_of(alloc: Global, entries: &[Base]) -> Result<BaseIndex, AllocError>
    requires { length entries.now ≤ 65535 }
    ensures { IfOk result (IsBaseIndexOf entries.now) }
{
    let Ok(bus_counts) = bus_counts_of(alloc, entries) else {
        return Err(AllocError);
    };
    let Ok(sources) = sources_of(alloc, entries) else {
        return Err(AllocError);
    };
    let Ok(pins) = pins_of(alloc, entries) else {
        return Err(AllocError);
    };
    let Ok(second_senses) = second_senses_of(alloc, entries, &pins) else {
        return Err(AllocError);
    };
    Ok(BaseIndex {
        processors: processors_of(entries),
        ios: ios_of(entries),
        buses: buses_of(entries),
        boot: boot_of(entries),
        bus_counts,
        sources,
        pins,
        second_senses,
    })
}
