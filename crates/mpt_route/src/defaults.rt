//! The default configurations (MultiProcessor Specification 1.4, chapter 5) as entries.

ghost use Rattle.std.specs.Prelude.{◌≡◌, [], Bool, IfOk, OnOk};
ghost use Rattle.mpt_route.specs.Defaults.{row, default_row, default_buses, default_ints, processor, interrupt, int_row, is_connected};
ghost use Rattle.mpt_route.specs.Platform.{platform_of_body};
ghost use Rattle.mpt_route.specs.ByKind.{AreByKind, platform_with};
ghost use Rattle.mpt_spec.specs.declared.tables.Body.TheVariants as body;

use crate::by_kind::{ByKind, no_entries, platform_with};
use crate::platform::Platform;
use mpt_spec::{ALL_APICS, Bus, IntEntry, IoApic, Processor};
use std::alloc::{AllocError, Global};

/// A row of the table of default configurations.
#[derive(Clone, Copy)]
pub struct DefaultRow {
    /// The name of bus 0.
    pub bus: [u8; 6],
    /// Whether bus 1 is a PCI bus.
    pub pci: bool,
    /// The version of the local APICs.
    pub local: u8,
    /// The version of the I/O APIC.
    pub io: u8,
}

// the row of a default configuration
fn default_row(number: u8) -> DefaultRow
    ensures { result ≡ default_row number }
{
    match number {
        1 => row(*b"ISA   ", false, 0x01, 0x01),
        2 => row(*b"EISA  ", false, 0x01, 0x01),
        3 => row(*b"EISA  ", false, 0x01, 0x01),
        4 => row(*b"MCA   ", false, 0x01, 0x01),
        5 => row(*b"ISA   ", true, 0x10, 0x11),
        6 => row(*b"EISA  ", true, 0x10, 0x11),
        _ => row(*b"MCA   ", true, 0x10, 0x11),
    }
}

// a row of the table
fn row(bus: [u8; 6], pci: bool, local: u8, io: u8) -> DefaultRow
    ensures { result ≡ row bus pci local io }
{
    DefaultRow {
        bus,
        pci,
        local,
        io,
    }
}

// whether an IRQ has an INT row in a default configuration
fn is_connected(number: u8, irq: u8) -> bool
    ensures { result ≡ is_connected number irq }
{
    irq != 2 && !(number == 2 && (irq == 0 || irq == 13))
}

// a processor with this id, local APIC version and flags
fn processor(apic: u8, version: u8, flags: u8) -> Processor
    ensures { result ≡ processor apic version flags }
{
    Processor {
        apic,
        version,
        flags,
        signature: 0,
        features: 0,
        reserved: [0; 8],
    }
}

// an interrupt of bus 0 with flags 0
fn interrupt(kind: u8, irq: u8, dest: u8, pin: u8) -> IntEntry
    ensures { result ≡ interrupt kind irq dest pin }
{
    IntEntry {
        kind,
        flags: 0,
        bus: 0,
        irq,
        dest,
        pin,
    }
}

// an INT row
fn int_row(irq: u8) -> IntEntry
    ensures { result ≡ int_row irq }
{
    interrupt(0, irq, 2, if irq == 0 { 2 } else { irq })
}

// puts the buses where there are none yet: bus 0, and PCI as bus 1 where there is one
fn put_buses(buses: &mut Vec<Bus>, row: DefaultRow) -> Result<(), AllocError>
    requires { buses.old.items ≡ [] }
    ensures { OnOk result (buses.new.items ≡ default_buses row) }
{
    let name = row.bus;
    let Ok(()) = buses.push(Bus { id: 0, name }) else {
        return Err(AllocError);
    };
    if row.pci {
        let name = *b"PCI   ";
        let Ok(()) = buses.push(Bus { id: 1, name }) else {
            return Err(AllocError);
        };
    }
    Ok(())
}

// puts the I/O interrupts where there are none yet: ExtINT at pin 0, then the connected IRQs, each at its
// pin but IRQ 0 at pin 2
fn put_ints(ints: &mut Vec<IntEntry>, number: u8) -> Result<(), AllocError>
    requires { ints.old.items ≡ [] }
    ensures { OnOk result (ints.new.items ≡ default_ints number) }
{
    let Ok(()) = ints.push(interrupt(3, 0, 2, 0)) else {
        return Err(AllocError);
    };
    for irq in 0..16 {
        if is_connected(number, irq) {
            let Ok(()) = ints.push(int_row(irq)) else {
                return Err(AllocError);
            };
        }
    }
    Ok(())
}

// puts the entries of a default configuration where there are none yet
fn put_default(kinds: &mut ByKind, number: u8) -> Result<(), AllocError>
    requires { AreByKind [] kinds.old }
    ensures { OnOk result ((imcr : Bool) → platform_with kinds.new imcr 0xFEE00000 ≡ platform_of_body imcr (body.Default number)) }
{
    let row = default_row(number);
    let processors = [processor(0, row.local, 0x03), processor(1, row.local, 0x01)];
    let Ok(()) = kinds.processors.extend_from_slice(&processors) else {
        return Err(AllocError);
    };
    let Ok(()) = put_buses(&mut kinds.buses, row) else {
        return Err(AllocError);
    };
    let io = IoApic {
        id: 2,
        version: row.io,
        flags: 0x01,
        address: 0xFEC0_0000,
    };
    let Ok(()) = kinds.ios.push(io) else {
        return Err(AllocError);
    };
    let Ok(()) = put_ints(&mut kinds.ints, number) else {
        return Err(AllocError);
    };
    kinds.lints.extend_from_slice(&[interrupt(3, 0, ALL_APICS, 0), interrupt(1, 0, ALL_APICS, 1)])
}

/// The platform of a default configuration.
pub fn default_platform(alloc: Global, number: u8, imcr: bool) -> Result<Platform, AllocError>
    ensures { IfOk result (λ p. p ≡ platform_of_body imcr (body.Default number)) }
{
    let mut kinds = no_entries(alloc);
    let Ok(()) = put_default(&mut kinds, number) else {
        return Err(AllocError);
    };
    Ok(platform_with(kinds, imcr, 0xFEE0_0000))
}
