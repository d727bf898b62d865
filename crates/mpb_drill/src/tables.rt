//! The tables of a drill.

ghost use Rattle.std.specs.Prelude.{◌≡◌, ◌<◌, ◌≤◌, ◌++◌, ◌+◌, [], map, IfOk, OnOk};
ghost use Rattle.std.specs.List.{range_with_len, flat_map};
ghost use Rattle.mpb_drill.specs.Drill.{processor, isa_bus, ioapic, interrupt, entries, tables_of, drill_tables};

use mpb_spec::PINS;
use mpt_base::NoMemory;
use mpt_spec::{Base, Body, Bus, IntEntry, IoApic, Pointer, Processor, Sequence, Table, Tables};
use std::alloc::Global;

/// The tables of the drill with this number, below 10,000.
pub fn drill_tables(alloc: Global, n: u32) -> Result<Tables, NoMemory>
    requires { n < 10000 }
    ensures tables { IfOk result (λ tables. tables ≡ drill_tables n) }
{
    tables_of(alloc, (2 + n % 7) as u8, (1 + n % 4) as u8)
}

// the tables of so many processors and I/O APICs
fn tables_of(alloc: Global, processors: u8, ioapics: u8) -> Result<Tables, NoMemory>
    requires processors { processors ≤ 8 }
    requires ioapics { ioapics ≤ 4 }
    ensures { IfOk result (λ tables. tables ≡ tables_of processors ioapics) }
{
    let mut base = Vec::new(alloc);
    let Ok(()) = push_entries(&mut base, processors, ioapics) else {
        return Err(NoMemory);
    };
    Ok(Tables {
        at: 0xF0000,
        pointer: Pointer {
            address: 0xF0010,
            revision: 4,
            features: [0; 5],
        },
        body: Body::Listed(Table {
            revision: 4,
            oem: *b"MPTAB   ",
            product: *b"BOARD       ",
            oem_table: 0,
            oem_size: 0,
            local_address: 0xFEE0_0000,
            reserved: 0,
            old: [0; 4],
            base: Sequence::new(base),
            ext: Sequence::new(Vec::new(alloc)),
        }),
    })
}

// all entries
fn push_entries(base: &mut Vec<Base>, processors: u8, ioapics: u8) -> Result<(), NoMemory>
    requires none { base.old.items ≡ [] }
    requires processors { processors ≤ 8 }
    requires ioapics { ioapics ≤ 4 }
    ensures { OnOk result (base.new.items ≡ entries processors ioapics) }
{
    let Ok(()) = push_processors(base, processors) else {
        return Err(NoMemory);
    };
    let Ok(()) = base.push(isa_bus()) else {
        return Err(NoMemory);
    };
    let Ok(()) = push_ioapics(base, processors, ioapics) else {
        return Err(NoMemory);
    };
    push_interrupts(base, processors, ioapics)
}

// a processor
fn processor(id: u8) -> Base
    ensures { result ≡ processor id }
{
    Base::Processor(Processor {
        apic: id,
        version: 0x10,
        flags: if id == 0 { 0x03 } else { 0x01 },
        signature: 0,
        features: 0,
        reserved: [0; 8],
    })
}

// the bus
fn isa_bus() -> Base
    ensures { result ≡ isa_bus }
{
    Base::Bus(Bus {
        id: 0,
        name: *b"ISA   ",
    })
}

// an I/O APIC
fn ioapic(id: u8) -> Base
    ensures { result ≡ ioapic id }
{
    Base::IoApic(IoApic {
        id,
        version: 0x11,
        flags: 0x01,
        address: 0xFEC0_0000,
    })
}

// an interrupt
fn interrupt(id: u8, place: u8, pin: u8) -> Base
    requires place { place < 4 }
    requires pin { pin < 24 }
    ensures { result ≡ interrupt id place pin }
{
    Base::IoInt(IntEntry {
        kind: 0,
        flags: 0x0005,
        bus: 0,
        irq: PINS * place + pin,
        dest: id,
        pin,
    })
}

// so many processors
fn push_processors(entries: &mut Vec<Base>, count: u8) -> Result<(), NoMemory>
    ensures { OnOk result (entries.new.items ≡ entries.old.items ++ map processor (range_with_len 0 count)) }
{
    for id in 0..count {
        let Ok(()) = entries.push(processor(id)) else {
            return Err(NoMemory);
        };
    }
    Ok(())
}

// so many I/O APICs, whose ids begin with this one
fn push_ioapics(entries: &mut Vec<Base>, first: u8, count: u8) -> Result<(), NoMemory>
    requires { first + count < 256 }
    ensures { OnOk result (entries.new.items ≡ entries.old.items ++ map (λ a. ioapic (first + a)) (range_with_len 0 count)) }
{
    for place in 0..count {
        let Ok(()) = entries.push(ioapic(first + place)) else {
            return Err(NoMemory);
        };
    }
    Ok(())
}

// an interrupt at each pin of so many I/O APICs, whose ids begin with this one
fn push_interrupts(entries: &mut Vec<Base>, first: u8, count: u8) -> Result<(), NoMemory>
    requires few { count ≤ 4 }
    requires ids { first + count < 256 }
    ensures { OnOk result (entries.new.items ≡ entries.old.items ++ flat_map (λ a. map (interrupt (first + a) a) (range_with_len 0 24)) (range_with_len 0 count)) }
{
    for place in 0..count {
        let Ok(()) = push_pins(entries, first + place, place) else {
            return Err(NoMemory);
        };
    }
    Ok(())
}

// an interrupt at each pin of an I/O APIC
fn push_pins(entries: &mut Vec<Base>, id: u8, place: u8) -> Result<(), NoMemory>
    requires { place < 4 }
    ensures { OnOk result (entries.new.items ≡ entries.old.items ++ map (interrupt id place) (range_with_len 0 24)) }
{
    for pin in 0..PINS {
        let Ok(()) = entries.push(interrupt(id, place, pin)) else {
            return Err(NoMemory);
        };
    }
    Ok(())
}
