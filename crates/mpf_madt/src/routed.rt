//! The lines of the ISA interrupts by the routes of a platform (MultiProcessor Specification 1.4,
//! sections 4.3.2 and 4.3.4), and where a MADT says others.

ghost use Rattle.std.specs.Prelude.{◌≡◌, ◌==◌, ◌<◌, ◌/◌, ◌%◌, ◌^◌, ◌↔◌, ℕ, Some, find, slice_get, IsTrue};
ghost use Rattle.mpt_route.specs.Routes.{bus_kind_in};
ghost use Rattle.mpt_route.specs.Sense.{bus_kind_of};
ghost use Rattle.mpf_madt.specs.Lines.{first_some, is_isa, is_isa_int, line_for, line_of, source_by, source_of, Differs};

use crate::line::{Line, PINS, isa};
use crate::madt::Madt;
use mpt_route::{Answer, BusKind, Platform, Route, bus_kind};
use mpt_spec::{Bus, IntEntry};

// whether a bus of this name is ISA or EISA
fn is_isa_name(name: [u8; 6]) -> bool
    ensures { result ≡ is_isa (Some (bus_kind_of name)) }
{
    matches!(bus_kind(name), BusKind::Isa | BusKind::Eisa)
}

// the first bus with this id
fn first_bus(buses: &[Bus], id: u8) -> Option<Bus>
    ensures { result ≡ find (λ b. b.id == id) buses.now }
{
    buses.iter().find(|b| b.id == id).copied()
}

// whether the bus with this id is ISA or EISA
fn is_isa_bus(buses: &[Bus], id: u8) -> bool
    ensures { result ≡ is_isa (bus_kind_in buses.now id) }
{
    match first_bus(buses, id) {
        Some(bus) => is_isa_name(bus.name),
        None => false,
    }
}

// whether an entry is of kind INT, of an ISA or EISA bus, with this IRQ
fn is_isa_int(p: &Platform, irq: u8, e: IntEntry) -> bool
    ensures { result ≡ is_isa_int p.now irq e }
{
    e.kind == 0 && e.irq == irq && is_isa_bus(p.buses.as_slice(), e.bus)
}

// the line of a row of a redirection table
fn line_of(row: Route) -> Line
    ensures { result ≡ line_of row }
{
    Line {
        gsi: PINS * u32::from(row.io) + u32::from(row.pin),
        level: row.low >> 15 & 1 == 1,
        low: row.low >> 13 & 1 == 1,
    }
}

// the line of a row, where its entry is there and one of an ISA interrupt
fn line_for(p: &Platform, irq: u8, entry: Option<IntEntry>, row: Route) -> Option<Line>
    ensures { result ≡ line_for p.now irq entry row }
{
    match entry {
        Some(e) if is_isa_int(p, irq, e) => Some(line_of(row)),
        _ => None,
    }
}

// the interrupt entry with a number
fn entry_at(p: &Platform, number: u32) -> Option<IntEntry>
    ensures { result ≡ slice_get p.now.ints number }
{
    p.ints.as_slice().get(number as usize).copied()
}

// the line of an answer, where it is a row of an ISA interrupt
fn source_by(p: &Platform, irq: u8, answer: Answer) -> Option<Line>
    ensures { result ≡ source_by p.now irq answer }
{
    match answer {
        Answer::Routed(row) => line_for(p, irq, entry_at(p, row.entry), row),
        Answer::Unrouted { .. } => None,
    }
}

/// The line of an ISA interrupt by the routes of a platform: of the first routed entry of kind INT with
/// this IRQ whose bus is ISA or EISA, and `None` exactly where there is none. Its interrupt is 24 for
/// each I/O APIC before it plus the pin; it is level triggered where bit 15 of the low word is set, and
/// active low where bit 13 is.
pub fn source(p: &Platform, answers: &[Answer], irq: u8) -> Option<Line>
    requires irq { irq < 16 }
    ensures { result ≡ source_of p.now answers.now irq }
{
    for answer in answers {
        if let Some(line) = source_by(p, irq, *answer) {
            return Some(line);
        }
    }
    None
}

// whether the routes give an ISA interrupt a line, and the table says another
fn differs(p: &Platform, answers: &[Answer], madt: &Madt, irq: u8) -> bool
    requires irq { irq < 16 }
    ensures { IsTrue result ↔ Differs p.now answers.now madt.now irq }
{
    match source(p, answers, irq) {
        Some(line) => line != isa(madt, irq),
        None => false,
    }
}

// the mask of an ISA interrupt
fn bit_of(irq: u8) -> u16
    requires irq { irq < 16 }
    ensures { result ≡ 2 ^ irq }
{
    1 << irq
}

/// The ISA interrupts of which a MADT says another line than the routes of a platform: bit n of the
/// answer is set exactly where `source` of n is a line other than `isa` of n.
pub fn differ(p: &Platform, answers: &[Answer], madt: &Madt) -> u16
    ensures { (irq : ℕ) → irq < 16 → (result / 2 ^ irq % 2 ≡ 1) ↔ Differs p.now answers.now madt.now irq }
{
    let mut mask = 0u16;
    for irq in 0..16u8 {
        if differs(p, answers, madt, irq) {
            mask |= bit_of(irq);
        }
    }
    mask
}
