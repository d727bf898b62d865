//! The entries of the MP configuration table (MultiProcessor Specification 1.4, sections 4.3 and 4.4).

use crate::sequence::Sequence;

/// The destination that means every APIC (sections 4.3.4 and 4.3.5).
pub const ALL_APICS: u8 = 0xFF;

/// How many inputs an I/O APIC has, INTIN 0 to 23 (82093AA datasheet).
pub const IO_APIC_PINS: u8 = 24;

/// How many inputs a local APIC has, LINTIN 0 and 1 (section 4.3.5).
pub const LOCAL_APIC_PINS: u8 = 2;

/// A processor entry (section 4.3.1).
#[derive(Clone, Copy, Debug, PartialEq, Eq)]
pub struct Processor {
    /// The id of its local APIC.
    pub apic: u8,
    /// The version of its local APIC.
    pub version: u8,
    /// Bit 0 is EN, usable; bit 1 is BP, the boot processor.
    pub flags: u8,
    /// The CPU signature: stepping, model and family.
    pub signature: u32,
    /// The feature flags that CPUID gives.
    pub features: u32,
    /// Reserved bytes 12 to 19.
    pub reserved: [u8; 8],
}

/// A bus entry (section 4.3.2).
#[derive(Clone, Copy, Debug, PartialEq, Eq)]
pub struct Bus {
    /// The bus id.
    pub id: u8,
    /// The bus type, a text padded with spaces.
    pub name: [u8; 6],
}

/// An I/O APIC entry (section 4.3.3).
#[derive(Clone, Copy, Debug, PartialEq, Eq)]
pub struct IoApic {
    /// The id of the I/O APIC.
    pub id: u8,
    /// The version of the I/O APIC.
    pub version: u8,
    /// Bit 0 is EN, usable.
    pub flags: u8,
    /// The base address.
    pub address: u32,
}

/// An I/O interrupt or local interrupt assignment entry (sections 4.3.4 and 4.3.5).
#[derive(Clone, Copy, Debug, PartialEq, Eq)]
pub struct IntEntry {
    /// The interrupt type: 0 INT, 1 NMI, 2 SMI, 3 ExtINT.
    pub kind: u8,
    /// Bits 0 to 1 are the polarity, bits 2 to 3 the trigger mode.
    pub flags: u16,
    /// The id of the source bus.
    pub bus: u8,
    /// The source bus IRQ. On PCI bits 0 to 1 are the pin and bits 2 to 6 the device number.
    pub irq: u8,
    /// The id of the destination I/O APIC or local APIC, FFh for all.
    pub dest: u8,
    /// The INTIN or LINTIN pin.
    pub pin: u8,
}

/// An entry of the base table (section 4.3).
#[derive(Clone, Copy, Debug, PartialEq, Eq)]
pub enum Base {
    /// Type 0, 20 bytes.
    Processor(Processor),
    /// Type 1, 8 bytes.
    Bus(Bus),
    /// Type 2, 8 bytes.
    IoApic(IoApic),
    /// Type 3, 8 bytes.
    IoInt(IntEntry),
    /// Type 4, 8 bytes.
    LocalInt(IntEntry),
}

/// A system address space mapping entry (section 4.4.1).
#[derive(Clone, Copy, Debug, PartialEq, Eq)]
pub struct Space {
    /// The id of the bus on which the range is seen.
    pub bus: u8,
    /// The address type: 0 I/O, 1 memory, 2 prefetch.
    pub kind: u8,
    /// The first address.
    pub base: u64,
    /// The number of addresses.
    pub length: u64,
}

/// A bus hierarchy descriptor entry (section 4.4.2).
#[derive(Clone, Copy, Debug, PartialEq, Eq)]
pub struct Hierarchy {
    /// The bus id.
    pub bus: u8,
    /// Bit 0 is subtractive decode.
    pub info: u8,
    /// The id of the parent bus.
    pub parent: u8,
    /// Reserved bytes 5 to 7.
    pub reserved: [u8; 3],
}

/// A compatibility bus address space modifier entry (section 4.4.3).
#[derive(Clone, Copy, Debug, PartialEq, Eq)]
pub struct Modifier {
    /// The bus id.
    pub bus: u8,
    /// Bit 0: 1 subtracts the predefined ranges, 0 adds them.
    pub flags: u8,
    /// The predefined ranges: 0 ISA, 1 VGA.
    pub ranges: u32,
}

/// An extended entry whose type is above 130: the type, and the bytes after its length byte.
#[derive(Drop)]
pub struct Opaque {
    /// The type. In an extended part it is from 131 to 255.
    pub kind: u8,
    /// The bytes after the length byte, at most 253 in an extended part.
    pub rest: Sequence<u8>,
}

/// An entry of the extended part (section 4.4).
#[derive(Drop)]
pub enum Ext {
    /// Type 128, 20 bytes.
    Space(Space),
    /// Type 129, 8 bytes.
    Hierarchy(Hierarchy),
    /// Type 130, 8 bytes.
    Modifier(Modifier),
    /// Any other type, 2 to 255 bytes.
    Opaque(Opaque),
}
