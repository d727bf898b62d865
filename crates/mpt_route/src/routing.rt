//! From a platform to its routes, in one pass over the interrupt entries (82093AA datasheet, section
//! 3.2.4). Buses are looked up in a table by id, and taken pins in one by place and pin.

ghost use Rattle.std.specs.Prelude.{◌≡◌, vec_len, ℕ, None, Some, replicate, ◌≤◌, ◌<◌, length, map, take, filter, IfOk, IfSome, position, slice_index_or, ◌^◌, ◌==◌};
ghost use Rattle.mpt_route.specs.Routes.{routes_of, high_word_of, bus_kind_in, is_enabled, is_other, row_at, vector_of, mode_of, low_word_of};
ghost use Rattle.mpt_route.specs.Reasons.{AreRoutesOf};
ghost use Rattle.mpt_route.specs.Pins.{HasPins, low_at};
ghost use Rattle.mpt_route.specs.Sense.{is_reserved, conforms, is_low, is_level};
ghost use Rattle.mpt_route.specs.Index.{IsTableOf, own_answer};

use crate::bus::{BusKind, bus_kind, is_level_low};
use crate::pins::{Lows, settle};
use crate::platform::{Platform, boot_processor_of};
use crate::route::{Answer, ROUTED_IO_APICS, Route, Why};
use mpt_base::NoMemory;
use mpt_spec::{ALL_APICS, Bus, IO_APIC_PINS, IntEntry, IoApic, Kind, Polarity, Trigger};
use std::alloc::{AllocError, Global};

/// The routes of a platform: an answer to each I/O interrupt entry, in order. Bit n of `elcr` is set
/// where IRQ n of an EISA bus is level triggered.
///
/// It takes memory for the answers and two small tables alone, and fails only where that runs out.
pub fn routes(alloc: Global, p: &Platform, elcr: u16) -> Result<Vec<Answer>, NoMemory>
    requires { length p.now.ints < 2 ^ 32 }
    ensures answers { IfOk result (λ answers. answers.items ≡ routes_of p.now elcr) }
    ensures reasons { IfOk result (λ answers. AreRoutesOf p.now elcr answers.items) }
{
    match all_answers(alloc, p, elcr) {
        Ok(answers) => Ok(answers),
        Err(_) => Err(NoMemory),
    }
}

// the type of the bus with an id, by the table
fn kind_at(buses: &[Option<BusKind>], id: u8) -> Option<BusKind>
    requires { length buses.now ≡ 256 }
    ensures value { result ≡ slice_index_or buses.now id None }
    ensures byte { id < 256 }
{
    buses[usize::from(id)]
}

// the answers, by the types of buses and the ids of I/O APICs
fn answers_by(
    alloc: Global,
    p: &Platform,
    buses: &[Option<BusKind>],
    ios: &[u8],
    elcr: u16,
) -> Result<Vec<Answer>, AllocError>
    requires entries { length p.now.ints < 2 ^ 32 }
    requires buses { IsTableOf 256 buses.now (bus_kind_in p.now.buses) }
    requires ios { ios.now ≡ map (λ io. io.id) (take 4 (filter is_enabled p.now.ios)) }
    requires few { length ios.now ≤ 4 }
    ensures { IfOk result (λ answers. answers.items ≡ routes_of p.now elcr) }
{
    let high = high_word(p);
    let mut lows = no_lows();
    let mut answers = Vec::new(alloc);
    for e in p.ints.as_slice() {
        let entry = answers.len() as u32;
        let bus = kind_at(buses, e.bus);
        let place = io_place(ios, e.dest);
        let answer = match own_answer(bus, place, high, elcr, entry, *e) {
            Ok(row) => settle(&mut lows, row),
            Err(why) => Answer::Unrouted { entry, why },
        };
        let Ok(()) = answers.push(answer) else {
            return Err(AllocError);
        };
    }
    Ok(answers)
}

// the answers, one pass with the tables by bus id and by pin
fn all_answers(alloc: Global, p: &Platform, elcr: u16) -> Result<Vec<Answer>, AllocError>
    requires { length p.now.ints < 2 ^ 32 }
    ensures { IfOk result (λ answers. answers.items ≡ routes_of p.now elcr) }
{
    let Ok(buses) = first_buses(alloc, p.buses.as_slice()) else {
        return Err(AllocError);
    };
    let Ok(ios) = routable_ids(alloc, p.ios.as_slice()) else {
        return Err(AllocError);
    };
    answers_by(alloc, p, buses.as_slice(), ios.as_slice(), elcr)
}

// no pin taken
fn no_lows() -> Lows
    ensures pins { HasPins result }
    ensures none { (io pin : ℕ) → io < 4 → pin < 24 → low_at result io pin ≡ None }
{
    [[None; IO_APIC_PINS as usize]; ROUTED_IO_APICS]
}

// an empty table by id
fn no_buses(alloc: Global, ids: usize) -> Result<Vec<Option<BusKind>>, AllocError>
    ensures { IfOk result (λ table. table.items ≡ replicate ids None) }
{
    vec![in alloc; None; ids]
}

/// For each id from 0 to 255 the type of the first bus with it, `None` where no bus has it. It fails only
/// where memory runs out.
pub fn first_buses(alloc: Global, buses: &[Bus]) -> Result<Vec<Option<BusKind>>, AllocError>
    ensures { IfOk result (λ table. IsTableOf 256 table.items (bus_kind_in buses.now)) }
{
    let Ok(mut table) = no_buses(alloc, 256) else {
        return Err(AllocError);
    };
    for b in buses {
        let id = usize::from(b.id);
        if table[id].is_none() {
            table[id] = Some(bus_kind(b.name));
        }
    }
    Ok(table)
}

// the ids of the first four enabled I/O APICs
fn routable_ids(alloc: Global, ios: &[IoApic]) -> Result<Vec<u8>, AllocError>
    ensures value { IfOk result (λ ids. ids.items ≡ map (λ io. io.id) (take 4 (filter is_enabled ios.now))) }
    ensures few { IfOk result (λ ids. vec_len ids ≤ 4) }
{
    let mut ids = Vec::new(alloc);
    for io in ios {
        if io.is_enabled() && ids.len() < ROUTED_IO_APICS {
            let Ok(()) = ids.push(io.id) else {
                return Err(AllocError);
            };
        }
    }
    Ok(ids)
}

// the index of an id among at most four
fn index_of(ids: &[u8], id: u8) -> Option<usize>
    ensures value { result ≡ position (λ x. x == id) ids.now }
    ensures within { IfSome result (λ place. place < length ids.now) }
{
    ids.iter().position(|x| *x == id)
}

// the place of an id
fn io_place(ids: &[u8], id: u8) -> Option<u8>
    requires { length ids.now ≤ 4 }
    ensures value { result ≡ position (λ x. x == id) ids.now }
    ensures within { IfSome result (λ place. place < 4) }
{
    match index_of(ids, id) {
        Some(place) => Some(place as u8),
        None => None,
    }
}

// the high word: the boot processor's id in bits 31 to 24
fn high_word(p: &Platform) -> u32
    ensures { result ≡ high_word_of p.now.processors }
{
    match boot_processor_of(p) {
        Some(e) => u32::from(e.apic) << 24,
        None => 0,
    }
}

// the row that an entry asks for, or the first reason of its own for which it has none
fn own_answer(
    bus: Option<BusKind>,
    place: Option<u8>,
    high: u32,
    elcr: u16,
    entry: u32,
    e: IntEntry,
) -> Result<Route, Why>
    requires { IfSome place (λ io. io < 4) }
    ensures value { result ≡ own_answer bus place high elcr entry e }
    ensures place { IfOk result (λ row. row.io < 4) }
    ensures pin { IfOk result (λ row. row.pin < 24) }
{
    if e.dest == ALL_APICS {
        return Err(Why::DestWide);
    }
    let Some(bus) = bus else {
        return Err(Why::UnknownBus);
    };
    let Some(io) = place else {
        return Err(Why::UnknownIo);
    };
    if e.pin >= IO_APIC_PINS {
        return Err(Why::PinRange);
    }
    let Some(kind) = e.int_kind() else {
        return Err(Why::UnknownKind);
    };
    if is_reserved(e.polarity(), e.trigger()) {
        return Err(Why::ReservedFlag);
    }
    if is_other(bus) && conforms(e.polarity(), e.trigger()) {
        return Err(Why::Conforms);
    }
    let conforming = is_level_low(bus, e.irq, elcr);
    Ok(row(io, kind, conforming, high, entry, e))
}

// the row of a place, a kind and a conforming sense
fn row(io: u8, kind: Kind, conforming: bool, high: u32, entry: u32, e: IntEntry) -> Route
    requires place { io < 4 }
    requires pin { e.pin < 24 }
    ensures { result ≡ row_at io kind conforming high entry e }
{
    let vector = vector(kind, io, e.pin);
    let low = is_low(e.polarity(), conforming);
    let level = is_level(e.trigger(), conforming);
    Route {
        io,
        pin: e.pin,
        vector,
        low: low_word(kind, vector, low, level),
        high,
        entry,
    }
}

// whether a bus says nothing of polarity and trigger
fn is_other(bus: BusKind) -> bool
    ensures { result ≡ is_other (Some bus) }
{
    matches!(bus, BusKind::Other)
}

// whether a flag has the reserved value
fn is_reserved(polarity: Polarity, trigger: Trigger) -> bool
    ensures { result ≡ is_reserved polarity trigger }
{
    matches!(polarity, Polarity::Reserved) || matches!(trigger, Trigger::Reserved)
}

// whether a flag is left to the bus
fn conforms(polarity: Polarity, trigger: Trigger) -> bool
    ensures { result ≡ conforms polarity trigger }
{
    matches!(polarity, Polarity::Conforms) || matches!(trigger, Trigger::Conforms)
}

// whether an input is active low
fn is_low(polarity: Polarity, conforming: bool) -> bool
    ensures { result ≡ is_low polarity conforming }
{
    match polarity {
        Polarity::Conforms => conforming,
        Polarity::Low => true,
        Polarity::High | Polarity::Reserved => false,
    }
}

// whether an input is level triggered
fn is_level(trigger: Trigger, conforming: bool) -> bool
    ensures { result ≡ is_level trigger conforming }
{
    match trigger {
        Trigger::Conforms => conforming,
        Trigger::Level => true,
        Trigger::Edge | Trigger::Reserved => false,
    }
}

// the vector of a pin
fn vector(kind: Kind, io: u8, pin: u8) -> u8
    requires place { io < 4 }
    requires pin { pin < 24 }
    ensures { result ≡ vector_of kind io pin }
{
    match kind {
        Kind::Int => 0x20 + IO_APIC_PINS * io + pin,
        Kind::Nmi | Kind::Smi | Kind::ExtInt => 0,
    }
}

// the delivery mode, bits 10 to 8 of the low word
fn mode(kind: Kind) -> u32
    ensures { result ≡ mode_of kind }
{
    match kind {
        Kind::Int => 0b000,
        Kind::Nmi => 0b100,
        Kind::Smi => 0b010,
        Kind::ExtInt => 0b111,
    }
}

// the low word of a row
fn low_word(kind: Kind, vector: u8, low: bool, level: bool) -> u32
    ensures { result ≡ low_word_of kind vector low level }
{
    let level = level && matches!(kind, Kind::Int);
    u32::from(vector) + (mode(kind) << 8) + (u32::from(low) << 13) + (u32::from(level) << 15)
}
