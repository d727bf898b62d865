//! The rules on base entries, one function each: the other place that a broken rule names, or none.

ghost use Rattle.std.specs.Prelude.{◌≡◌, ◌↔◌, ◌≤◌, ◌<◌, ℕ, length, IsTrue, Some, slice_get};
ghost use Rattle.mpt_spec.specs.Canonical.{base_type};
ghost use Rattle.mpt_rules.specs.declared.rule.BaseRule.TheVariants as on_base;
ghost use Rattle.mpt_spec.specs.declared.entry.Base.TheVariants as base;
ghost use Rattle.mpt_rules.specs.Places.{IsOther, IsFirstBefore};
ghost use Rattle.mpt_rules.specs.Entries.{IsDisabledBoot, IsUnknownBusName, IsKnownName, known_buses, IsPciBus, HasPinOutOfRange, HasSameSense, IsOnPinWithOtherSense};
ghost use Rattle.mpt_rules.specs.Rules.{BreaksBaseRule, IsBusOutOfOrder, HasUnknownBus, HasUnknownDestination, IsPci, IsReservedInterrupt, HasReservedValue};
ghost use Rattle.mpt_rules.specs.Index.{IsBaseIndexOf, DiffersFrom};

use crate::base_index::BaseIndex;
use crate::places::{alone, first_at, first_of_key, lacks, place_before};
use crate::rule::BaseRule;
use mpt_spec::{ALL_APICS, Base, IO_APIC_PINS, IntEntry, LOCAL_APIC_PINS};

fn second_boot_flag(entries: &[Base], index: &BaseIndex, entry: &Base, i: u32) -> Option<u32>
    requires indexed { IsBaseIndexOf entries.now index.now }
    requires inside { i < length entries.now }
    ensures { IsOther (BreaksBaseRule entries.now on_base.SecondBootFlag entry.now i) result }
{
    match entry {
        Base::Processor(e) => {
            if e.has_boot_flag() {
                place_before(index.boot, i)
            } else {
                None
            }
        }
        _ => None,
    }
}

fn is_disabled_boot(entry: &Base) -> bool
    ensures { IsTrue result ↔ IsDisabledBoot entry.now }
{
    match entry {
        Base::Processor(e) => e.is_disabled_boot(),
        _ => false,
    }
}

fn duplicate_processor_id(entries: &[Base], index: &BaseIndex, entry: &Base, i: u32) -> Option<u32>
    requires indexed { IsBaseIndexOf entries.now index.now }
    requires inside { i < length entries.now }
    ensures { IsOther (BreaksBaseRule entries.now on_base.DuplicateProcessorId entry.now i) result }
{
    match entry {
        Base::Processor(e) => place_before(first_at(&index.processors, e.apic), i),
        _ => None,
    }
}

fn duplicate_io_apic_id(entries: &[Base], index: &BaseIndex, entry: &Base, i: u32) -> Option<u32>
    requires indexed { IsBaseIndexOf entries.now index.now }
    requires inside { i < length entries.now }
    ensures { IsOther (BreaksBaseRule entries.now on_base.DuplicateIoApicId entry.now i) result }
{
    match entry {
        Base::IoApic(e) => place_before(first_at(&index.ios, e.id), i),
        _ => None,
    }
}

fn shared_id(entries: &[Base], index: &BaseIndex, entry: &Base, i: u32) -> Option<u32>
    requires indexed { IsBaseIndexOf entries.now index.now }
    requires inside { i < length entries.now }
    ensures { IsOther (BreaksBaseRule entries.now on_base.SharedId entry.now i) result }
{
    match entry {
        Base::IoApic(e) => first_at(&index.processors, e.id),
        _ => None,
    }
}

fn is_bus_out_of_order(entries: &[Base], index: &BaseIndex, entry: &Base, i: u32) -> bool
    requires indexed { IsBaseIndexOf entries.now index.now }
    requires inside { i < length entries.now }
    ensures { IsTrue result ↔ IsBusOutOfOrder entries.now entry.now i }
{
    match entry {
        Base::Bus(e) => u32::from(e.id) != index.bus_counts[i as usize],
        _ => false,
    }
}

/// The bus types of table 4-8.
const KNOWN_BUSES: [[u8; 6]; 18] = [
    *b"CBUS  ", *b"CBUSII", *b"EISA  ", *b"FUTURE", *b"INTERN", *b"ISA   ", *b"MBI   ", *b"MBII  ",
    *b"MCA   ", *b"MPI   ", *b"MPSA  ", *b"NUBUS ", *b"PCI   ", *b"PCMCIA", *b"TC    ", *b"VL    ",
    *b"VME   ", *b"XPRESS",
];

fn known_bus(k: usize) -> [u8; 6]
    requires { k < 18 }
    ensures { slice_get known_buses k ≡ Some result }
{
    KNOWN_BUSES[k]
}

fn is_same_name(name: &[u8; 6], known: &[u8; 6]) -> bool
    ensures { IsTrue result ↔ (known.now ≡ name.now) }
{
    *name == *known
}

fn is_known_bus(name: &[u8; 6]) -> bool
    ensures { IsTrue result ↔ IsKnownName name.now }
{
    for k in 0..18usize {
        let known = known_bus(k);
        if is_same_name(name, &known) {
            return true;
        }
    }
    false
}

fn is_unknown_bus_name(entry: &Base) -> bool
    ensures { IsTrue result ↔ IsUnknownBusName entry.now }
{
    match entry {
        Base::Bus(e) => !is_known_bus(&e.name),
        _ => false,
    }
}

fn type_of(entry: &Base) -> u8
    ensures { result ≡ base_type entry.now }
{
    match entry {
        Base::Processor(_) => 0,
        Base::Bus(_) => 1,
        Base::IoApic(_) => 2,
        Base::IoInt(_) => 3,
        Base::LocalInt(_) => 4,
    }
}

fn type_below(entries: &[Base], entry: &Base, i: u32) -> Option<u32>
    requires { i < length entries.now }
    ensures { IsOther (BreaksBaseRule entries.now on_base.TypeBelow entry.now i) result }
{
    if i == 0 {
        return None;
    }
    let j = i - 1;
    if type_of(entry) < type_of(&entries[j as usize]) {
        Some(j)
    } else {
        None
    }
}

fn has_unknown_bus(entries: &[Base], index: &BaseIndex, entry: &Base) -> bool
    requires { IsBaseIndexOf entries.now index.now }
    ensures { IsTrue result ↔ HasUnknownBus entries.now entry.now }
{
    match entry {
        Base::IoInt(e) => lacks(&index.buses, e.bus),
        Base::LocalInt(e) => lacks(&index.buses, e.bus),
        _ => false,
    }
}

fn has_unknown_destination(entries: &[Base], index: &BaseIndex, entry: &Base) -> bool
    requires { IsBaseIndexOf entries.now index.now }
    ensures { IsTrue result ↔ HasUnknownDestination entries.now entry.now }
{
    match entry {
        Base::IoInt(e) => e.dest != ALL_APICS && lacks(&index.ios, e.dest),
        Base::LocalInt(e) => e.dest != ALL_APICS && lacks(&index.processors, e.dest),
        _ => false,
    }
}

fn has_pin_out_of_range(entry: &Base) -> bool
    ensures { IsTrue result ↔ HasPinOutOfRange entry.now }
{
    match entry {
        Base::IoInt(e) => e.pin >= IO_APIC_PINS,
        Base::LocalInt(e) => e.pin >= LOCAL_APIC_PINS,
        _ => false,
    }
}

fn is_pci_bus(entry: &Base) -> bool
    ensures { IsTrue result ↔ IsPciBus entry.now }
{
    match entry {
        Base::Bus(e) => e.name == *b"PCI   ",
        _ => false,
    }
}

fn is_pci(entries: &[Base], index: &BaseIndex, bus: u8) -> bool
    requires { IsBaseIndexOf entries.now index.now }
    ensures { IsTrue result ↔ IsPci entries.now bus }
{
    match first_at(&index.buses, bus) {
        Some(k) => is_pci_bus(&entries[k as usize]),
        None => false,
    }
}

fn is_reserved_interrupt(entries: &[Base], index: &BaseIndex, e: &IntEntry) -> bool
    requires { IsBaseIndexOf entries.now index.now }
    ensures { IsTrue result ↔ IsReservedInterrupt entries.now e.now }
{
    e.kind > 3
        || e.flags % 4 == 2
        || e.flags / 4 % 4 == 2
        || (e.irq >= 128 && is_pci(entries, index, e.bus))
}

fn has_reserved_value(entries: &[Base], index: &BaseIndex, entry: &Base) -> bool
    requires { IsBaseIndexOf entries.now index.now }
    ensures { IsTrue result ↔ HasReservedValue entries.now entry.now }
{
    match entry {
        Base::IoInt(e) => is_reserved_interrupt(entries, index, e),
        Base::LocalInt(e) => is_reserved_interrupt(entries, index, e),
        _ => false,
    }
}

fn duplicate_source(entries: &[Base], index: &BaseIndex, entry: &Base, i: u32) -> Option<u32>
    requires indexed { IsBaseIndexOf entries.now index.now }
    requires inside { i < length entries.now }
    ensures { IsOther (BreaksBaseRule entries.now on_base.DuplicateSource entry.now i) result }
{
    match entry {
        Base::IoInt(e) => place_before(first_of_key(&index.sources, (e.kind, e.bus, e.irq)), i),
        _ => None,
    }
}

/// Whether two interrupts have the same kind and the same flags bits 0 to 3.
pub fn has_same_sense(a: &IntEntry, b: &IntEntry) -> bool
    ensures { IsTrue result ↔ HasSameSense a.now b.now }
{
    a.kind == b.kind && a.flags % 16 == b.flags % 16
}

/// Whether an entry is an I/O interrupt with another sense.
pub fn differs_from(e: &IntEntry, entry: &Base) -> bool
    ensures { IsTrue result ↔ DiffersFrom e.now entry.now }
{
    match entry {
        Base::IoInt(other) => !has_same_sense(other, e),
        _ => false,
    }
}

fn other_sense_of(entries: &[Base], index: &BaseIndex, e: &IntEntry, i: u32) -> Option<u32>
    requires indexed { IsBaseIndexOf entries.now index.now }
    requires at { slice_get entries.now i ≡ Some (base.IoInt e.now) }
    ensures { IsOther (IsFirstBefore (IsOnPinWithOtherSense e.now) entries.now i) result }
{
    let key = (e.dest, e.pin, 0);
    match first_of_key(&index.pins, key) {
        Some(k) => {
            if differs_from(e, &entries[k as usize]) {
                Some(k)
            } else {
                place_before(first_of_key(&index.second_senses, key), i)
            }
        }
        None => None,
    }
}

fn other_sense(entries: &[Base], index: &BaseIndex, entry: &Base, i: u32) -> Option<u32>
    requires indexed { IsBaseIndexOf entries.now index.now }
    requires at { slice_get entries.now i ≡ Some entry.now }
    ensures { IsOther (BreaksBaseRule entries.now on_base.OtherSense entry.now i) result }
{
    match entry {
        Base::IoInt(e) => {
            if e.dest == ALL_APICS {
                None
            } else {
                other_sense_of(entries, index, e, i)
            }
        }
        _ => None,
    }
}

/// The other place that an entry names for a rule, if it breaks it.
pub fn other_of(
    entries: &[Base],
    index: &BaseIndex,
    rule: BaseRule,
    entry: &Base,
    i: u32,
) -> Option<u32>
    requires indexed { IsBaseIndexOf entries.now index.now }
    requires at { slice_get entries.now i ≡ Some entry.now }
    requires inside { i < length entries.now }
    ensures { IsOther (BreaksBaseRule entries.now rule entry.now i) result }
{
    match rule {
        BaseRule::SecondBootFlag => second_boot_flag(entries, index, entry, i),
        BaseRule::DisabledBoot => alone(is_disabled_boot(entry)),
        BaseRule::DuplicateProcessorId => duplicate_processor_id(entries, index, entry, i),
        BaseRule::DuplicateIoApicId => duplicate_io_apic_id(entries, index, entry, i),
        BaseRule::SharedId => shared_id(entries, index, entry, i),
        BaseRule::BusOutOfOrder => alone(is_bus_out_of_order(entries, index, entry, i)),
        BaseRule::UnknownBusName => alone(is_unknown_bus_name(entry)),
        BaseRule::TypeBelow => type_below(entries, entry, i),
        BaseRule::UnknownBus => alone(has_unknown_bus(entries, index, entry)),
        BaseRule::UnknownDestination => alone(has_unknown_destination(entries, index, entry)),
        BaseRule::PinOutOfRange => alone(has_pin_out_of_range(entry)),
        BaseRule::ReservedBits => alone(!entry.has_clear_bits()),
        BaseRule::ReservedValue => alone(has_reserved_value(entries, index, entry)),
        BaseRule::DuplicateSource => duplicate_source(entries, index, entry, i),
        BaseRule::OtherSense => other_sense(entries, index, entry, i),
    }
}
