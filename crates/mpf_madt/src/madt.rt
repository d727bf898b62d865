//! The table and its entries as values (ACPI Specification, sections 5.2.6 and 5.2.12).

use mpt_spec::{Opaque, Sequence};

/// An entry of the table.
#[derive(Drop)]
pub enum MadtEntry {
    /// A processor's local APIC (section 5.2.12.2): type 0, 8 bytes.
    Local {
        /// The UID of the processor.
        uid: u8,
        /// The id of its local APIC.
        apic: u8,
        /// Bit 0: enabled.
        flags: u32,
    },
    /// An I/O APIC (section 5.2.12.3): type 1, 12 bytes.
    Io {
        /// Its id.
        id: u8,
        /// Reserved byte 3.
        reserved: u8,
        /// Its base address.
        address: u32,
        /// The interrupt of its pin 0.
        base: u32,
    },
    /// An interrupt source override (section 5.2.12.5): type 2, 10 bytes.
    Override {
        /// The bus, 0 for ISA.
        bus: u8,
        /// The IRQ of the bus.
        source: u8,
        /// The interrupt that it raises.
        gsi: u32,
        /// Bits 0 to 1 are the polarity, bits 2 to 3 the trigger mode.
        flags: u16,
    },
    /// An NMI of a local APIC (section 5.2.12.7): type 4, 6 bytes.
    Nmi {
        /// The UID of the processor, FFh for all.
        uid: u8,
        /// Bits 0 to 1 are the polarity, bits 2 to 3 the trigger mode.
        flags: u16,
        /// The LINTIN pin.
        lint: u8,
    },
    /// Any other type, 2 to 255 bytes: the type, and the bytes after the length byte, at most 253.
    Other(Opaque),
}

/// A Multiple APIC Description Table. Its length and its checksum are determined by these.
#[derive(Drop)]
pub struct Madt {
    /// The revision.
    pub revision: u8,
    /// The OEM id.
    pub oem: [u8; 6],
    /// The OEM table id.
    pub table: [u8; 8],
    /// The OEM revision.
    pub oem_revision: u32,
    /// The creator id.
    pub creator: [u8; 4],
    /// The creator revision.
    pub creator_revision: u32,
    /// The base address of the local APICs.
    pub local_address: u32,
    /// Bit 0: a pair of 8259A is there.
    pub flags: u32,
    /// The entries, in table order.
    pub entries: Sequence<MadtEntry>,
}
